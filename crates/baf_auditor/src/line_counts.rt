//! What the lines of an assignment file say of each census block that they name.

ghost use Rattle.std.specs.Prelude.{◌≡◌, ◌≢◌, ◌≤◌, ℕ, List, [], ◌∷◌, ◌++◌, All, IfOk, OnOk, IfSome, IfNone, map};
ghost use Rattle.std.specs.{List.Sorted.{IsSorted, IsStrictlySortedBy}, Ordering.nat_cmp};
ghost use Rattle.std.specs.{Map.lookup, BTreeMap.is_at};
ghost use Rattle.baf_auditor.specs.Order.{by_block};
ghost use Rattle.baf_auditor.specs.declared.line_counts.Named.{Named};
ghost use Rattle.baf_auditor.specs.Naming.{naming, named_again, after_line};

use crate::assignments::Assignment;
use crate::label::Label;
use crate::lines_by_block::Line;
use std::alloc::{AllocError, Global};

/// What the lines of a file say of a block that they name.
#[derive(Clone, Copy)]
pub(crate) struct Named {
    /// Whether two or more lines name it.
    pub(crate) twice: bool,
    /// Whether some line gives it to a district.
    pub(crate) assigned: bool,
}

impl Named {
    /// Returns what is said of a block after a further line that names it with this `label`. `before` is what the lines
    /// before say of it, or `None` if none names it.
    fn again(before: Option<Named>, label: &Label) -> Named
        ensures { result ≡ named_again before label.now }
    {
        match before {
            Some(before) => Named {
                twice: true,
                assigned: before.assigned || label.assigns(),
            },
            None => Named {
                twice: false,
                assigned: label.assigns(),
            },
        }
    }
}

/// Takes what is said of the block `code` from the end of `named`, if it stands there.
fn take_last(named: &mut Vec<(u64, Named)>, code: u64) -> Option<Named>
    ensures some { IfSome result (λ n. named.old.items ≡ named.new.items ++ (code, n) ∷ []) }
    ensures none { IfNone result (named.new.items ≡ named.old.items) }
    ensures other { IfNone result ((e : ℕ × Named) → (es : List (ℕ × Named)) → named.old.items ≡ es ++ e ∷ [] → e.0 ≢ code) }
{
    match named.last() {
        Some(last) if last.0 == code => named.pop().map(|last| last.1),
        _ => None,
    }
}

/// Adds what `line` says to what the lines before say. No line before names a later block.
fn add_line(named: &mut Vec<(u64, Named)>, line: &Assignment) -> Result<(), AllocError>
    requires sorted { IsStrictlySortedBy nat_cmp (map (λ e. e.0) named.old.items) }
    requires before { All (λ e. e.0 ≤ line.now.block) named.old.items }
    ensures entries { OnOk result ((code : ℕ)
        → lookup (is_at (nat_cmp code)) named.new.items
        ≡ after_line code (lookup (is_at (nat_cmp code)) named.old.items) line.now) }
    ensures sorted { OnOk result (IsStrictlySortedBy nat_cmp (map (λ e. e.0) named.new.items)) }
    ensures before { OnOk result (All (λ e. e.0 ≤ line.now.block) named.new.items) }
{
    let before = take_last(named, line.block);
    named.push((line.block, Named::again(before, &line.label)))?;
    Ok(())
}

/// Returns what `lines` say of each block that they name, by the block's code. The lines are in the order of their
/// blocks.
pub(crate) fn named_blocks(
    alloc: Global,
    lines: &[Line<'_>],
) -> Result<Vec<(u64, Named)>, AllocError>
    requires { IsSorted by_block lines.now }
    ensures entries { IfOk result (λ v. (code : ℕ) → lookup (is_at (nat_cmp code)) v.items ≡ naming lines.now code) }
    ensures sorted { IfOk result (λ v. IsStrictlySortedBy nat_cmp (map (λ e. e.0) v.items)) }
{
    let mut named = Vec::new(alloc);
    for line in lines {
        add_line(&mut named, line.assignment)?;
    }
    Ok(named)
}
