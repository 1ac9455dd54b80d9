//! The lines of the table: a header, and a line for each district.

ghost use Rattle.std.specs.Prelude.{◌≡◌, ◌∷◌, ◌++◌, IfOk, OnOk, map, flat_map};
ghost use Rattle.county_codes.specs.Digits.{five_digits};
ghost use Rattle.county_problem.specs.ProblemValue.{problem_of};
ghost use Rattle.grouping_table.specs.Quoting.{line_text};
ghost use Rattle.district_table.specs.DistrictTable.{set_label, with_blanks, district_fields, district_lines, IsDistrictsText};
ghost use Rattle.district_table.specs.DistrictTable.{begins_formula as is_formula_start, label_mark as mark_of_label};

use baf_auditor::{District, Set};
use county_codes::{CountyCode, push_code, push_codes};
use county_problem::Problem;
use field_lines::push_number;
use grouping_table::csv_line;
use itoa::Buffer;
use std::alloc::{AllocError, Global};

/// Appends the label of `set`: the number of a group, or `W` and the number of a withdrawn set.
fn push_set_label(out: &mut Vec<u8>, set: Set) -> Result<(), AllocError>
    ensures { OnOk result (out.new.items ≡ out.old.items ++ set_label set) }
{
    match set {
        Set::Group(number) => push_number(out, u64::from(number)),
        Set::Withdrawn(number) => {
            out.extend_from_slice(b"W")?;
            push_number(out, u64::from(number))
        }
    }
}

/// Appends the labels of `sets`, each after a blank.
fn push_further_labels(out: &mut Vec<u8>, sets: &[Set]) -> Result<(), AllocError>
    ensures { OnOk result (out.new.items ≡ out.old.items ++ flat_map (λ s. 32 ∷ set_label s) sets.now) }
{
    for set in sets {
        out.extend_from_slice(b" ")?;
        push_set_label(out, *set)?;
    }
    Ok(())
}

/// Appends the labels of `sets` with a blank between two.
fn push_set_labels(out: &mut Vec<u8>, sets: &[Set]) -> Result<(), AllocError>
    ensures { OnOk result (out.new.items ≡ out.old.items ++ with_blanks (map set_label sets.now)) }
{
    match sets {
        [] => Ok(()),
        [first, rest @ ..] => {
            push_set_label(out, *first)?;
            push_further_labels(out, rest)
        }
    }
}

/// Appends the five digits of `counties` with a blank between two.
fn push_counties(out: &mut Vec<u8>, counties: &[CountyCode]) -> Result<(), AllocError>
    ensures { OnOk result (out.new.items ≡ out.old.items ++ with_blanks (map five_digits counties.now)) }
{
    match counties {
        [] => Ok(()),
        [first, rest @ ..] => {
            push_code(out, *first)?;
            push_codes(out, b" ", rest)
        }
    }
}

/// Returns whether `byte` is one with which a formula of a spreadsheet begins.
fn begins_formula(byte: u8) -> bool
    ensures { result ≡ is_formula_start byte }
{
    byte == b'=' || byte == b'+' || byte == b'-' || byte == b'@'
}

/// Returns a single quote if a spreadsheet would take `label` for a formula, and else nothing.
fn label_mark(label: &[u8]) -> &[u8]
    ensures { result.now ≡ mark_of_label label.now }
{
    match label {
        [first, ..] if begins_formula(*first) => b"'",
        _ => b"",
    }
}

/// Returns the line of `district`. The people of a district are to be from `bounds.0` to `bounds.1`.
fn district_line(
    alloc: Global,
    bounds: (u64, u64),
    district: &District,
) -> Result<Vec<u8>, AllocError>
    ensures { IfOk result (λ v. v.items ≡ line_text (district_fields bounds district.now)) }
{
    let mut people = Buffer::new();
    let mut least = Buffer::new();
    let mut greatest = Buffer::new();
    let people = people.format(district.people).as_bytes();
    let least = least.format(bounds.0).as_bytes();
    let greatest = greatest.format(bounds.1).as_bytes();
    let mut label = Vec::from_slice(alloc, label_mark(district.label.as_bytes()))?;
    label.extend_from_slice(district.label.as_bytes())?;
    let mut sets = Vec::new(alloc);
    push_set_labels(&mut sets, &district.sets)?;
    let mut counties = Vec::new(alloc);
    push_counties(&mut counties, &district.counties)?;
    csv_line(
        alloc,
        &[
            label.as_slice(),
            people,
            least,
            greatest,
            sets.as_slice(),
            counties.as_slice(),
        ],
    )
}

/// Appends the lines of `districts`, whose people are to be from `bounds.0` to `bounds.1`.
fn push_districts(
    out: &mut Vec<u8>,
    bounds: (u64, u64),
    districts: &[District],
) -> Result<(), AllocError>
    ensures { OnOk result (out.new.items ≡ out.old.items ++ district_lines bounds districts.now) }
{
    let alloc = *out.allocator();
    for district in districts {
        let line = district_line(alloc, bounds, district)?;
        out.extend_from_slice(&line)?;
    }
    Ok(())
}

/// Returns the table of `districts`, a comma-separated text (RFC 4180). It has a header, and a line for each district.
/// A line has the district's label and its people. Then come the least and the greatest people that suit one seat of
/// `problem`. The last two fields have the labels of the district's sets and the codes of its counties, with a blank
/// between two. The label of a group is its number. The label of a withdrawn set is `W` and its number. A single quote
/// stands before a district's label that begins with `=`, `+`, `-` or `@`, because a spreadsheet would take it for a
/// formula (OWASP, "CSV Injection").
///
/// The districts stand in the order in which they are given, and so do the sets and the counties of each.
///
/// # Errors
///
/// Returns `AllocError` if memory was refused.
pub fn districts_table(
    alloc: Global,
    problem: &Problem,
    districts: &[District],
) -> Result<Vec<u8>, AllocError>
    ensures { IfOk result (λ v. IsDistrictsText (problem_of problem.now) districts.now v.items) }
{
    let bounds = problem.district_bounds(1);
    let mut out = Vec::from_slice(alloc, b"DISTRICT,POPULATION,LEAST,GREATEST,SETS,COUNTIES\n")?;
    push_districts(&mut out, bounds, districts)?;
    Ok(out)
}
