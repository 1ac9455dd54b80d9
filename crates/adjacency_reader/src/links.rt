//! Links, which add or cut a pair of adjacent counties, read from their lines.

ghost use Rattle.std.specs.Prelude.{◌≡◌};
ghost use Rattle.field_lines.specs.Values.{GivesUnless, AddsUnless};
ghost use Rattle.grouping_reader.specs.{Faults.IsCodeLineMemory, declared.fault.CodeLineKind.TheVariants.Memory};
ghost use Rattle.adjacency_reader.specs.Links.{sign_of, link_on, link_list};

use county_codes::CountyCode;
use field_lines::{Lines, field_at};
use grouping_reader::{CodeLineFault, CodeLineKind, DELIMITER, code_in};
use std::alloc::Global;

/// What a link does to a pair.
#[derive(Clone, Copy, Debug, PartialEq, Eq)]
pub enum Sign {
    /// The two counties are adjacent.
    Add,
    /// The two counties are not adjacent.
    Cut,
}

/// A pair of counties that is added to the adjacent ones or cut from them, whichever way round it is named.
#[derive(Clone, Copy, Debug, PartialEq, Eq)]
pub struct Link {
    /// Whether the pair is added or cut.
    pub sign: Sign,
    /// The county that is named first.
    pub a: CountyCode,
    /// The county that is named second.
    pub b: CountyCode,
}

/// Returns the sign that the `field` is, or `None` if it is neither `+` nor `-`.
fn sign_in(field: &[u8]) -> Option<Sign>
    ensures { result ≡ sign_of field.now }
{
    match field {
        [b'+'] => Some(Sign::Add),
        [b'-'] => Some(Sign::Cut),
        _ => None,
    }
}

/// Returns the link on the `line`, or the first kind of fault that the line has.
#[tactic(auto, unfolding(crate::specs::Links::link_on))]
fn link_in(line: &[u8]) -> Result<Link, CodeLineKind>
    ensures { result ≡ link_on line.now }
{
    let (Some(sign), Some(a), Some(b)) = (
        field_at(line, DELIMITER, 0),
        field_at(line, DELIMITER, 1),
        field_at(line, DELIMITER, 2),
    ) else {
        return Err(CodeLineKind::TooFewFields);
    };
    let Some(sign) = sign_in(sign) else {
        return Err(CodeLineKind::BadSign);
    };
    let (Some(a), Some(b)) = (code_in(a), code_in(b)) else {
        return Err(CodeLineKind::BadCode);
    };
    Ok(Link { sign, a, b })
}

/// Appends the link on the `line` to those of the lines before.
fn add_link(links: &mut Vec<Link>, line: &[u8]) -> Result<(), CodeLineKind>
    ensures { AddsUnless (λ k. k ≡ Memory) links.old.items (link_on line.now) result links.new.items }
{
    let link = link_in(line)?;
    links.push(link)?;
    Ok(())
}

/// Reads the links of the text `bytes`, in order. These are pairs that a state adds to the adjacent counties or cuts
/// from them, as a bridge or open water asks.
///
/// The text is a cut text (`Lines` of `field_lines`), and a line is cut into fields at each pipe. Field 1 is `+` or
/// `-`, and fields 2 and 3 are codes of five digits. The format is this project's own.
///
/// Links serve the rule that a group of counties is contiguous (North Carolina Constitution, art. II, secs. 3 and 5;
/// *Stephenson v. Bartlett*, 355 N.C. 354 (2002), 357 N.C. 301 (2003)).
///
/// # Errors
///
/// Returns the fault of the first line that has one, and if it has several, the first kind: `TooFewFields` if the line
/// has fewer than 3 fields, then `BadSign`, then `BadCode`. Returns `Lower` for a line that can't be read, after the
/// faults of the lines before it. `Memory` may come in the place of any answer.
pub fn read_links(alloc: Global, bytes: &[u8]) -> Result<Vec<Link>, CodeLineFault>
    ensures value { GivesUnless IsCodeLineMemory (λ v. v.items) result (link_list bytes.now) }
{
    let mut links = Vec::new(alloc);
    let mut lines = Lines::new(bytes);
    loop {
        match lines.next_line() {
            Ok(Some((number, line))) => {
                if let Err(kind) = add_link(&mut links, line) {
                    return Err(CodeLineFault { kind, line: number });
                }
            }
            Ok(None) => return Ok(links),
            Err(fault) => return Err(CodeLineFault::of_cut(fault)),
        }
    }
}
