//! The words of a grouping's fault.

ghost use Rattle.std.specs.Prelude.{◌≡◌, ◌++◌, OnOk};
ghost use Rattle.grouping_report.specs.FaultWords.{with_number, with_code, grouping_fault_words};

use county_codes::{CountyCode, push_code};
use county_problem::GroupingFault;
use field_lines::push_number;
use std::alloc::AllocError;

/// Appends `words` and then `number` in decimal digits.
///
/// # Errors
///
/// Returns `AllocError` if memory was refused.
#[tactic(auto, unfolding(crate::specs::FaultWords::with_number))]
pub fn push_words_number(out: &mut Vec<u8>, words: &[u8], number: u64) -> Result<(), AllocError>
    ensures { OnOk result (out.new.items ≡ out.old.items ++ with_number words.now number) }
{
    out.extend_from_slice(words)?;
    push_number(out, number)
}

/// Appends `words` and then the five digits of `code`.
#[tactic(auto, unfolding(crate::specs::FaultWords::with_code))]
fn push_words_code(out: &mut Vec<u8>, words: &[u8], code: CountyCode) -> Result<(), AllocError>
    ensures { OnOk result (out.new.items ≡ out.old.items ++ with_code words.now code) }
{
    out.extend_from_slice(words)?;
    push_code(out, code)
}

/// Appends the words of a grouping's `fault`: its kind with its group, its county or its seats.
///
/// # Errors
///
/// Returns `AllocError` if memory was refused.
pub fn push_grouping_fault(out: &mut Vec<u8>, fault: GroupingFault) -> Result<(), AllocError>
    ensures { OnOk result (out.new.items ≡ out.old.items ++ grouping_fault_words fault) }
{
    match fault {
        GroupingFault::EmptyGroup(group) => {
            push_words_number(out, b"EmptyGroup group ", group as u64)
        }
        GroupingFault::UnknownCounty(group, code) => {
            push_words_number(out, b"UnknownCounty group ", group as u64)?;
            push_words_code(out, b" county ", code)
        }
        GroupingFault::Twice(code) => push_words_code(out, b"Twice county ", code),
        GroupingFault::Missing(code) => push_words_code(out, b"Missing county ", code),
        GroupingFault::NotConnected(group) => {
            push_words_number(out, b"NotConnected group ", group as u64)
        }
        GroupingFault::OutOfWindow(group) => {
            push_words_number(out, b"OutOfWindow group ", group as u64)
        }
        GroupingFault::SeatsTotal(seats, left) => {
            push_words_number(out, b"SeatsTotal seats ", seats)?;
            push_words_number(out, b" left ", u64::from(left))
        }
        GroupingFault::Memory => out.extend_from_slice(b"Memory"),
    }
}
