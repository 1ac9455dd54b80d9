//! What is odd about the borders that an adjacency file and links give.

use crate::notes::Notes;
use crate::warnings::Warning;
use adjacency_reader::{Link, Sign};
use county_codes::{CountyCode, unlisted_code};
use field_lines::{Fields, field_at};
use grouping_reader::{DELIMITER, code_in};
use std::alloc::{AllocError, Global};
use std::collections::BTreeSet;

/// Pairs of counties, each in an order of its own.
type Pairs = BTreeSet<(CountyCode, CountyCode)>;

/// Returns `codes` as a set.
fn code_set(alloc: Global, codes: &[CountyCode]) -> Result<BTreeSet<CountyCode>, AllocError> {
    let mut set = BTreeSet::new(alloc);
    for code in codes {
        set.insert(*code)?;
    }
    Ok(set)
}

/// Returns the county and the neighbour on `line`, which is one of an adjacency file, or `None` if it lacks one of
/// them.
fn row_on(line: &[u8]) -> Option<(CountyCode, CountyCode)> {
    let line = line.strip_suffix(b"\r").unwrap_or(line);
    let county = code_in(field_at(line, DELIMITER, 1)?)?;
    let neighbour = code_in(field_at(line, DELIMITER, 3)?)?;
    Some((county, neighbour))
}

/// Returns the rows of two listed counties in the `text` of an adjacency file. Each row has the county before its
/// neighbour.
fn rows_in(alloc: Global, listed: &[CountyCode], text: &[u8]) -> Result<Pairs, AllocError> {
    let listed = code_set(alloc, listed)?;
    let mut rows = BTreeSet::new(alloc);
    for line in Fields::new(text, b'\n') {
        if let Some((county, neighbour)) = row_on(line) {
            if listed.contains(&county) && listed.contains(&neighbour) {
                rows.insert((county, neighbour))?;
            }
        }
    }
    Ok(rows)
}

/// Returns a warning of the first of `pairs` that stands in one direction only, if another pair stands in both. `rows`
/// are the rows of the file, each with the county before its neighbour.
fn one_way(rows: &Pairs, pairs: &[(CountyCode, CountyCode)]) -> Option<Warning> {
    let mut first = None;
    let mut has_both = false;
    for (a, b) in pairs {
        if rows.contains(&(*a, *b)) && rows.contains(&(*b, *a)) {
            has_both = true;
        } else if first.is_none() {
            first = Some(Warning::OneWay(*a, *b));
        }
    }
    if has_both { first } else { None }
}

/// Notes what is odd about an adjacency file. `text` is the file, and `pairs` are its pairs of `listed` counties.
pub(crate) fn note_adjacency(
    alloc: Global,
    listed: &[CountyCode],
    text: &[u8],
    pairs: &[(CountyCode, CountyCode)],
    notes: &mut Notes,
) {
    notes.note_pairs(!pairs.is_empty());
    if let Ok(rows) = rows_in(alloc, listed, text) {
        notes.note_warning(one_way(&rows, pairs));
    }
}

/// Returns the codes `a` and `b`, the lesser first.
fn in_order(a: CountyCode, b: CountyCode) -> (CountyCode, CountyCode) {
    if a < b { (a, b) } else { (b, a) }
}

/// Returns a warning of the first of `links` that cuts a pair which isn't there. Only links between listed counties
/// count. The links are applied in turn to `pairs`, which have the lesser code first.
fn missing_border(
    alloc: Global,
    listed: &[CountyCode],
    pairs: &[(CountyCode, CountyCode)],
    links: &[Link],
) -> Result<Option<Warning>, AllocError> {
    let mut joined = BTreeSet::new(alloc);
    for pair in pairs {
        joined.insert(*pair)?;
    }
    for link in links {
        let pair = in_order(link.a, link.b);
        match link.sign {
            Sign::Add => {
                joined.insert(pair)?;
            }
            Sign::Cut => {
                if unlisted_code(listed, &[link.a, link.b]).is_none() && !joined.remove(&pair) {
                    return Ok(Some(Warning::NoBorder(link.a, link.b)));
                }
            }
        }
    }
    Ok(None)
}

/// Returns a warning of the first county of `links` that isn't listed.
fn unknown_county(listed: &[CountyCode], links: &[Link]) -> Option<Warning> {
    for link in links {
        if let Some(code) = unlisted_code(listed, &[link.a, link.b]) {
            return Some(Warning::UnknownLink(code));
        }
    }
    None
}

/// Notes what is odd about `links`. They are applied to `pairs`, which have the lesser code first.
pub(crate) fn note_links(
    alloc: Global,
    listed: &[CountyCode],
    pairs: &[(CountyCode, CountyCode)],
    links: &[Link],
    notes: &mut Notes,
) {
    if links.is_empty() {
        return;
    }
    if let Ok(missing) = missing_border(alloc, listed, pairs, links) {
        notes.note_warning(missing);
    }
    notes.note_warning(unknown_county(listed, links));
}
