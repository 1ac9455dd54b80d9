//! What is odd about withdrawn sets.

use crate::notes::{Notes, people_of};
use crate::warnings::Warning;
use cli_words::CommonWords;
use county_codes::{County, CountyCode, Withdrawn, has_code, listed_codes, unlisted_code};
use std::alloc::{AllocError, Global};

/// Returns the people of the counties with these `codes`.
fn people_among(counties: &[County], codes: &[CountyCode]) -> u64 {
    let mut people: u64 = 0;
    for county in counties {
        if has_code(codes, county.code) {
            people = people.saturating_add(u64::from(county.people));
        }
    }
    people
}

/// Returns the least and the greatest number of people that suit `seats`, where all counties have `total` people.
/// Returns `None` if a number is out of range.
fn suiting(seats: u16, total: u64, words: CommonWords<'_>) -> Option<(u64, u64)> {
    let (numerator, denominator) = (
        u64::from(words.tolerance.numerator),
        u64::from(words.tolerance.denominator),
    );
    let ideal = u64::from(seats).checked_mul(total)?;
    let below = denominator.checked_sub(numerator)?.checked_mul(ideal)?;
    let above = denominator.checked_add(numerator)?.checked_mul(ideal)?;
    let divisor = denominator.checked_mul(u64::from(words.chamber))?;
    let least = below.checked_add(divisor.checked_sub(1)?)?;
    Some((least.checked_div(divisor)?, above.checked_div(divisor)?))
}

/// Returns a warning if the people of `set` don't suit its seats.
fn unsuited(counties: &[County], set: &Withdrawn, words: CommonWords<'_>) -> Option<Warning> {
    let (seats, codes) = (set.seats, set.codes.as_slice());
    let county = *codes.first()?;
    let people = people_among(counties, codes);
    let (least, greatest) = suiting(seats, people_of(counties), words)?;
    if least <= people && people <= greatest {
        return None;
    }
    Some(Warning::WithdrawnSeats {
        seats,
        county,
        people,
        least,
        greatest,
    })
}

/// Adds to `reached` the counties of `codes` that a pair joins to `from`. Those that it already has are not added
/// again.
fn add_neighbours(
    reached: &mut Vec<CountyCode>,
    pairs: &[(CountyCode, CountyCode)],
    codes: &[CountyCode],
    from: CountyCode,
) -> Result<(), AllocError> {
    for (a, b) in pairs {
        if *a != from && *b != from {
            continue;
        }
        let other = if *a == from { *b } else { *a };
        if has_code(codes, other) && !has_code(reached, other) {
            reached.push(other)?;
        }
    }
    Ok(())
}

/// Returns whether `pairs` join each of `codes` to the first one, within `codes`.
fn is_connected(
    alloc: Global,
    pairs: &[(CountyCode, CountyCode)],
    codes: &[CountyCode],
) -> Result<bool, AllocError> {
    let mut reached = Vec::new(alloc);
    if let Some(first) = codes.first() {
        reached.push(*first)?;
    }
    for i in 0..codes.len() {
        if let Some(from) = reached.get(i).copied() {
            add_neighbours(&mut reached, pairs, codes, from)?;
        }
    }
    Ok(unlisted_code(&reached, codes).is_none())
}

/// Returns a warning if `pairs` don't connect the counties of `set`.
fn apart(alloc: Global, pairs: &[(CountyCode, CountyCode)], set: &Withdrawn) -> Option<Warning> {
    let (seats, codes) = (set.seats, set.codes.as_slice());
    let county = *codes.first()?;
    match is_connected(alloc, pairs, codes) {
        Ok(false) => Some(Warning::WithdrawnApart { seats, county }),
        _ => None,
    }
}

/// The first warning of each kind that withdrawn sets give.
#[derive(Clone, Copy)]
struct Found {
    unsuited: Option<Warning>,
    apart: Option<Warning>,
}

/// Returns the first warning of each kind that `sets` give. Only those sets are looked at whose counties are all in
/// `counties`.
fn first_of(
    alloc: Global,
    counties: &[County],
    pairs: &[(CountyCode, CountyCode)],
    sets: &[Withdrawn],
    words: CommonWords<'_>,
) -> Result<Found, AllocError> {
    let listed = listed_codes(alloc, counties)?;
    let mut found = Found {
        unsuited: None,
        apart: None,
    };
    for set in sets {
        if unlisted_code(&listed, set.codes.as_slice()).is_some() {
            continue;
        }
        if found.unsuited.is_none() {
            found.unsuited = unsuited(counties, set, words);
        }
        if found.apart.is_none() {
            found.apart = apart(alloc, pairs, set);
        }
    }
    Ok(found)
}

/// Notes what is odd about the withdrawn `sets`. `pairs` are the adjacent pairs, and `words` give the chamber and the
/// tolerance.
pub(crate) fn note_withdrawn(
    alloc: Global,
    counties: &[County],
    pairs: &[(CountyCode, CountyCode)],
    sets: &[Withdrawn],
    words: CommonWords<'_>,
    notes: &mut Notes,
) {
    if let Ok(found) = first_of(alloc, counties, pairs, sets, words) {
        notes.note_warning(found.unsuited);
        notes.note_warning(found.apart);
    }
}
