//! The text of an audit's findings.

ghost use Rattle.std.specs.Prelude.{◌≡◌, ◌++◌, OnOk, IfOk, codes};
ghost use Rattle.grouping_report.specs.FindingsText.{fifteen_digits, with_block, set_words, with_set, with_label, crossing_words, number_words, size_words, finding_words};
ghost use Rattle.grouping_report.specs.FindingsText.{findings_text as text_of};

use crate::faults::{push_grouping_fault, push_words_number};
use baf_auditor::{Finding, Findings, Label, Set};
use county_codes::push_five_digits;
use std::alloc::{AllocError, Global};

/// Appends the fifteen digits of `block`.
///
/// # Errors
///
/// Returns `AllocError` if memory was refused.
#[tactic(auto, unfolding(crate::specs::FindingsText::fifteen_digits))]
pub fn push_block(out: &mut Vec<u8>, block: u64) -> Result<(), AllocError>
    ensures { OnOk result (out.new.items ≡ out.old.items ++ fifteen_digits block) }
{
    push_five_digits(out, (block / 10_000_000_000 % 100_000) as u32)?;
    push_five_digits(out, (block / 100_000 % 100_000) as u32)?;
    push_five_digits(out, (block % 100_000) as u32)
}

/// Appends `words` and then the fifteen digits of `block`.
#[tactic(auto, unfolding(crate::specs::FindingsText::with_block))]
fn push_words_block(out: &mut Vec<u8>, words: &[u8], block: u64) -> Result<(), AllocError>
    ensures { OnOk result (out.new.items ≡ out.old.items ++ with_block words.now block) }
{
    out.extend_from_slice(words)?;
    push_block(out, block)
}

/// Appends the kind and the number of `set`.
fn push_set(out: &mut Vec<u8>, set: Set) -> Result<(), AllocError>
    ensures { OnOk result (out.new.items ≡ out.old.items ++ set_words set) }
{
    match set {
        Set::Group(number) => push_words_number(out, b"group ", u64::from(number)),
        Set::Withdrawn(number) => push_words_number(out, b"withdrawn ", u64::from(number)),
    }
}

/// Appends `words` and then the kind and the number of `set`.
#[tactic(auto, unfolding(crate::specs::FindingsText::with_set))]
fn push_words_set(out: &mut Vec<u8>, words: &[u8], set: Set) -> Result<(), AllocError>
    ensures { OnOk result (out.new.items ≡ out.old.items ++ with_set words.now set) }
{
    out.extend_from_slice(words)?;
    push_set(out, set)
}

/// Appends `words` and then the `label` of a district.
#[tactic(auto, unfolding(crate::specs::FindingsText::with_label))]
fn push_words_label(out: &mut Vec<u8>, words: &[u8], label: &Label) -> Result<(), AllocError>
    ensures { OnOk result (out.new.items ≡ out.old.items ++ with_label words.now label.now) }
{
    out.extend_from_slice(words)?;
    out.extend_from_slice(label.as_bytes())
}

/// Appends the finding that the district of this `label` has blocks in the two sets `first` and `second`.
fn push_crossing(
    out: &mut Vec<u8>,
    label: &Label,
    first: Set,
    second: Set,
) -> Result<(), AllocError>
    ensures { OnOk result (out.new.items ≡ out.old.items ++ crossing_words label.now first second) }
{
    push_words_label(out, b"Crosses ", label)?;
    push_words_set(out, b" ", first)?;
    push_words_set(out, b" ", second)
}

/// Appends the finding of a set with its `seats` and its `districts`.
fn push_wrong_number(
    out: &mut Vec<u8>,
    set: Set,
    seats: u16,
    districts: u32,
) -> Result<(), AllocError>
    ensures { OnOk result (out.new.items ≡ out.old.items ++ number_words set seats districts) }
{
    push_words_set(out, b"WrongNumber ", set)?;
    push_words_number(out, b" seats ", u64::from(seats))?;
    push_words_number(out, b" districts ", u64::from(districts))
}

/// Appends the finding of a district with its `people`.
fn push_size(out: &mut Vec<u8>, label: &Label, people: u64) -> Result<(), AllocError>
    ensures { OnOk result (out.new.items ≡ out.old.items ++ size_words label.now people) }
{
    push_words_label(out, b"DistrictSize ", label)?;
    push_words_number(out, b" people ", people)
}

/// Appends the kind of `finding`, with what it names.
fn push_finding(out: &mut Vec<u8>, finding: &Finding) -> Result<(), AllocError>
    ensures { OnOk result (out.new.items ≡ out.old.items ++ finding_words finding.now) }
{
    match finding {
        Finding::Grouping(fault) => {
            out.extend_from_slice(b"Grouping ")?;
            push_grouping_fault(out, *fault)
        }
        Finding::UnknownBlock(block) => push_words_block(out, b"UnknownBlock ", *block),
        Finding::BlockTwice(block) => push_words_block(out, b"BlockTwice ", *block),
        Finding::Unassigned(block) => push_words_block(out, b"Unassigned ", *block),
        Finding::Crosses(label, first, second) => push_crossing(out, label, *first, *second),
        Finding::WrongNumber(set, seats, districts) => {
            push_wrong_number(out, *set, *seats, *districts)
        }
        Finding::DistrictSize(label, people) => push_size(out, label, *people),
    }
}

/// Appends the number of `findings`, and then a line for each.
fn push_findings(out: &mut Vec<u8>, findings: &[Finding]) -> Result<(), AllocError>
    ensures { OnOk result (out.new.items ≡ out.old.items ++ text_of findings.now) }
{
    push_words_number(out, b"findings ", findings.len() as u64)?;
    out.extend_from_slice(b"\n")?;
    for finding in findings {
        push_finding(out, finding)?;
        out.extend_from_slice(b"\n")?;
    }
    Ok(())
}

/// Returns the text of `findings`: their number, and then a line for each, its kind with what it names. A block is
/// written by the fifteen digits of its GEOCODE. A set is written as `group` or `withdrawn` with its number.
///
/// # Errors
///
/// Returns `AllocError` if memory was refused.
pub fn findings_text(alloc: Global, findings: &Findings) -> Result<Vec<u8>, AllocError>
    ensures { IfOk result (λ v. v.items ≡ text_of findings.now.list.items) }
{
    let mut out = Vec::new(alloc);
    push_findings(&mut out, findings.list.as_slice())?;
    Ok(out)
}
