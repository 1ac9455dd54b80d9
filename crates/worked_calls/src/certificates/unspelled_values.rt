//! Values that no text spells.

ghost use Rattle.std.specs.Prelude.{◌≤◌};
ghost use Rattle.county_codes.specs.Limits.{most_counties};

use anyhow::{Context, Error, Result};
use certificate_data::{Allowance, Branch, Certificate, Format, Leaf, Take, Tree, Weight, Weights};
use certificate_lines::WriteFault;
use certificate_text::{read, write, write_tree};
use county_codes::{Codes, CountyCode, Group, Tolerance};
use std::alloc::Global;
use std::fmt::Display;

/// The text of a certificate.
const TEXT: &[u8] =
    b"county-groups certificate 1\norder 37001\nlimit 1\ntarget 1\ngroup 1 37001\nbound 1\nroom\nend\n";

/// Returns a `name`, and what is `said` of it.
fn named<D: Display>(alloc: Global, name: &str, said: &D) -> Result<String> {
    Ok(format!(in alloc; "{name}: {said}")?)
}

/// Returns what is said of the value `name` that was to be `written`: how many bytes its text has, or the fault.
/// Returns an error if memory was refused.
fn said(
    alloc: Global,
    name: &str,
    written: std::result::Result<Vec<u8>, WriteFault>,
) -> Result<String> {
    match written {
        Ok(text) => {
            let bytes = text.len();
            Ok(format!(in alloc; "{name}: {bytes} bytes")?)
        }
        Err(WriteFault::Memory) => Err(Error::from(WriteFault::Memory)),
        Err(fault) => named(alloc, name, &fault),
    }
}

/// Returns the county code with the number `code`.
fn county(code: u32) -> Result<CountyCode> {
    CountyCode::new(code).context("a code")
}

/// Returns `count` codes, which are the numbers from 0 on.
fn codes(alloc: Global, count: u32) -> Result<Codes> {
    let mut codes = Vec::new(alloc);
    for code in 0..count {
        codes.push(county(code)?)?;
    }
    Ok(Codes::new(codes))
}

/// Builds a tree of a `leaf` alone.
fn lone(alloc: Global, leaf: Leaf) -> Tree {
    let branches = Vec::new(alloc);
    Tree { branches, leaf }
}

/// Builds a tree of one branch and a leaf. The branch has this `limit`, and one take of `count` codes.
fn branched(alloc: Global, limit: Option<u16>, count: u32) -> Result<Tree> {
    let mut takes = Vec::new(alloc);
    takes.push(Take {
        codes: codes(alloc, count)?,
        tree: lone(alloc, Leaf::Seats),
    })?;
    let mut branches = Vec::new(alloc);
    branches.push(Branch {
        county: county(37_001)?,
        limit,
        takes,
    })?;
    Ok(Tree {
        branches,
        leaf: Leaf::Seats,
    })
}

/// Builds a bound leaf of one line of weights. The line has this `quota`, and each county of `places` has this
/// `weight`.
fn weighed(alloc: Global, quota: u32, weight: u32, places: &[u32]) -> Result<Tree> {
    let mut weights = Vec::new(alloc);
    for place in places {
        weights.push(Weight {
            county: county(*place)?,
            weight,
        })?;
    }
    let mut lines = Vec::new(alloc);
    lines.push(Allowance::Weigh {
        quota,
        weights: Weights::new(weights),
    })?;
    Ok(lone(alloc, Leaf::Bound(lines)))
}

/// Builds a bound leaf of `count` lines.
fn bound(alloc: Global, count: u32) -> Result<Tree> {
    let mut lines = Vec::new(alloc);
    for _ in 0..count {
        lines.push(Allowance::Room)?;
    }
    Ok(lone(alloc, Leaf::Bound(lines)))
}

/// Returns what is said of a certificate with this `limit`.
fn limited(alloc: Global, limit: u16) -> Result<String> {
    let mut certificate = read(alloc, TEXT)?.copy()?;
    certificate.round.limit = limit;
    let name = format!(in alloc; "limit {limit}")?;
    said(alloc, &name, write(alloc, &certificate))
}

/// Returns what is said of a certificate that names the tolerance `tolerance`.
fn allowing(alloc: Global, tolerance: Tolerance) -> Result<String> {
    let mut certificate = read(alloc, TEXT)?;
    certificate.round.tolerance = Some(tolerance);
    let name = format!(in alloc;
        "tolerance {}/{}",
        tolerance.numerator, tolerance.denominator
    )?;
    said(alloc, &name, write(alloc, &certificate))
}

/// Returns what is said of a certificate whose order has `count` codes.
fn ordered(alloc: Global, count: u32) -> Result<String> {
    let mut certificate = read(alloc, TEXT)?;
    certificate.round.order = codes(alloc, count)?;
    let name = format!(in alloc; "order of {count} codes")?;
    said(alloc, &name, write(alloc, &certificate))
}

/// Returns what is said of a certificate whose target has one more group, of `count` codes.
fn grouped(alloc: Global, count: u32) -> Result<String> {
    let mut certificate: Certificate = read(alloc, TEXT)?;
    if let Some(target) = &mut certificate.round.target {
        target.groups.push(Group {
            seats: 1,
            codes: codes(alloc, count)?,
        })?;
    }
    let name = format!(in alloc; "group of {count} codes")?;
    said(alloc, &name, write(alloc, &certificate))
}

/// Appends to `lines` what is said of certificates that name a tolerance: at the ends of its range, and past them.
fn allowances(alloc: Global, lines: &mut Vec<String>) -> Result<()> {
    for (numerator, denominator) in [
        (1, 20),
        (500, 1_000),
        (0, 1),
        (3, 5),
        (0, 0),
        (1, 1_001),
        (501, 1_000),
    ] {
        lines.push(allowing(
            alloc,
            Tolerance {
                numerator,
                denominator,
            },
        )?)?;
    }
    Ok(())
}

/// Appends to `lines` what is said of certificates at a limit and one past it, and of those that name a tolerance.
fn certificates(alloc: Global, lines: &mut Vec<String>) -> Result<()> {
    allowances(alloc, lines)?;
    for limit in [256, 257] {
        lines.push(limited(alloc, limit)?)?;
    }
    for count in [256, 257] {
        lines.push(ordered(alloc, count)?)?;
    }
    for count in [1, 0] {
        lines.push(grouped(alloc, count)?)?;
    }
    Ok(())
}

/// Returns what is said of a `tree` in a `format`, with `levels` levels.
fn tree_said(alloc: Global, name: &str, tree: &Tree, format: Format, levels: u16) -> Result<String>
    requires { levels ≤ most_counties }
{
    said(alloc, name, write_tree(alloc, tree, format, levels))
}

/// Returns what is said of a branch with a limit, or without one. The `format` and the `limit` come with their words.
fn branch_said(
    alloc: Global,
    format: (Format, &str),
    limit: (Option<u16>, &str),
) -> Result<String> {
    let name = format!(in alloc; "{} branch {}", format.1, limit.1)?;
    tree_said(alloc, &name, &branched(alloc, limit.0, 1)?, format.0, 1)
}

/// Returns what is said of a take of `count` codes, in a tree of `levels` levels.
fn take_said(alloc: Global, levels: u16, count: u32) -> Result<String>
    requires { levels ≤ most_counties }
{
    let name = format!(in alloc; "take of {count} codes, {levels} levels")?;
    tree_said(
        alloc,
        &name,
        &branched(alloc, None, count)?,
        Format::Plain,
        levels,
    )
}

/// Appends to `lines` what is said of branches and takes at a limit and one past it, and of takes that no text spells.
fn branches(alloc: Global, lines: &mut Vec<String>) -> Result<()> {
    for format in [(Format::Plain, "plain"), (Format::Wide, "wide")] {
        for limit in [
            (None, "without a limit"),
            (Some(256), "of at most 256"),
            (Some(257), "of at most 257"),
        ] {
            lines.push(branch_said(alloc, format, limit)?)?;
        }
    }
    for count in [256, 257, 0] {
        lines.push(take_said(alloc, 1, count)?)?;
    }
    lines.push(take_said(alloc, 0, 1)?)?;
    Ok(())
}

/// Returns what is said of a bound leaf of `count` lines.
fn bound_said(alloc: Global, count: u32) -> Result<String> {
    let name = format!(in alloc; "bound of {count} lines")?;
    tree_said(alloc, &name, &bound(alloc, count)?, Format::Plain, 0)
}

/// Returns what is said of a line of weights, behind `name`. The line has this `quota`, and each county of `places` has
/// this `weight`.
fn weights_said(
    alloc: Global,
    name: &str,
    quota: u32,
    weight: u32,
    places: &[u32],
) -> Result<String> {
    let tree = weighed(alloc, quota, weight, places)?;
    tree_said(alloc, name, &tree, Format::Plain, 0)
}

/// Appends to `lines` what is said of bound leaves, and of their lines, at a limit and one past it.
fn bounds(alloc: Global, lines: &mut Vec<String>) -> Result<()> {
    for count in [256, 257] {
        lines.push(bound_said(alloc, count)?)?;
    }
    for (quota, weight, places, name) in [
        (1, 1, &[1, 2], "weights"),
        (0, 1, &[1, 2], "quota 0"),
        (256_000_001, 1, &[1, 2], "quota 256000001"),
        (1, 0, &[1, 2], "weight 0"),
        (1, 1_000_001, &[1, 2], "weight 1000001"),
        (1, 1, &[2, 2], "equal codes"),
        (1, 1, &[2, 1], "falling codes"),
    ] {
        lines.push(weights_said(alloc, name, quota, weight, places)?)?;
    }
    Ok(())
}

/// Appends to `lines` what is said of lines of weights that have 65,535, 65,536 and 65,537 bytes.
fn long_lines(alloc: Global, lines: &mut Vec<String>) -> Result<()> {
    let mut places = Vec::new(alloc);
    for place in 0..8_191 {
        places.push(place)?;
    }
    for (quota, name) in [
        (1, "65,535 bytes"),
        (10, "65,536 bytes"),
        (100, "65,537 bytes"),
    ] {
        lines.push(weights_said(alloc, name, quota, 1, &places)?)?;
    }
    Ok(())
}

/// Returns what is said of each value.
pub(crate) fn without_spelling(alloc: Global) -> Result<Vec<String>> {
    let mut lines = Vec::new(alloc);
    certificates(alloc, &mut lines)?;
    branches(alloc, &mut lines)?;
    bounds(alloc, &mut lines)?;
    long_lines(alloc, &mut lines)?;
    Ok(lines)
}
