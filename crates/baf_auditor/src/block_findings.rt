//! The findings of single census blocks, by kind and code.

ghost use Rattle.std.specs.Prelude.{◌≡◌, ◌++◌, OnOk, map};
ghost use Rattle.baf_auditor.specs.Kinds.{code_finding};

use crate::finding::Finding;
use std::alloc::AllocError;

/// What is found of a single block.
#[derive(Clone, Copy)]
pub(crate) enum CodeKind {
    /// A line names it, but it isn't listed.
    Unknown,
    /// Two or more lines name it.
    Twice,
    /// It is listed with people and given to no district.
    Unassigned,
}

impl CodeKind {
    /// Returns the finding of this kind about the block `code`.
    fn finding(self, code: u64) -> Finding
        ensures { result ≡ code_finding self code }
    {
        match self {
            CodeKind::Unknown => Finding::UnknownBlock(code),
            CodeKind::Twice => Finding::BlockTwice(code),
            CodeKind::Unassigned => Finding::Unassigned(code),
        }
    }
}

/// Appends a finding of this `kind` about each block of `codes`, in their order.
pub(crate) fn add_codes(
    findings: &mut Vec<Finding>,
    kind: CodeKind,
    codes: &[u64],
) -> Result<(), AllocError>
    ensures { OnOk result (findings.new.items ≡ findings.old.items ++ map (code_finding kind) codes.now) }
{
    for code in codes {
        findings.push(kind.finding(*code))?;
    }
    Ok(())
}
