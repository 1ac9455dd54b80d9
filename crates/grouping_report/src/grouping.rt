//! The text of a grouping: a line for each group.

ghost use Rattle.std.specs.Prelude.{◌≡◌, ◌<◌, ◌≤◌, ◌++◌, All, Ok, OnOk, IfOk, codes};
ghost use Rattle.grouping_reader.specs.GroupingLines.{grouping_list};
ghost use Rattle.grouping_report.specs.GroupingText.{group_fields, grouping_text as text_of, IsReadable};

use county_codes::{Group, Grouping, push_codes};
use field_lines::push_number;
use std::alloc::{AllocError, Global};

/// Appends the line of `group`.
#[tactic(auto, unfolding(crate::specs::GroupingText::group_fields))]
fn push_group(out: &mut Vec<u8>, group: &Group) -> Result<(), AllocError>
    ensures text { OnOk result (out.new.items
        ≡ out.old.items ++ (group_fields group.now.seats group.now.codes ++ codes "\n")) }
    ensures seats { OnOk result (group.now.seats < 65536) }
    ensures codes { OnOk result (All (λ code. code ≤ 99999) group.now.codes) }
{
    push_number(out, u64::from(group.seats))?;
    push_codes(out, b"|", group.codes.as_slice())?;
    out.extend_from_slice(b"\n")
}

/// Returns the text of `grouping`. Each group has a line with its seats and its codes, each code after a pipe.
///
/// # Errors
///
/// Returns `AllocError` if memory was refused.
pub fn grouping_text(alloc: Global, grouping: &Grouping) -> Result<Vec<u8>, AllocError>
    ensures text { IfOk result (λ v. v.items ≡ text_of grouping.now.groups.items) }
    ensures back { IfOk result (λ v. IsReadable grouping.now.groups.items
        → grouping_list v.items ≡ Ok grouping.now.groups.items) }
{
    let mut out = Vec::new(alloc);
    for group in &grouping.groups {
        push_group(&mut out, group)?;
    }
    Ok(out)
}
