//! The words of a fault of a certificate.

ghost use Rattle.std.specs.Prelude.{◌≡◌, ◌++◌, OnOk};
ghost use Rattle.state_judge.specs.FaultWords.{check_words};

use crate::fault::CheckFault;
use std::alloc::AllocError;

/// Returns the words of `fault`: its own, and those of the fault that it contains, if there is one. Otherwise the
/// second words are empty.
fn words_of(fault: CheckFault) -> (&'static [u8], &'static [u8])
    ensures { result.0.now ++ result.1.now ≡ check_words fault }
{
    match fault {
        CheckFault::Text(text) => (b"Text ", text.kind.word()),
        CheckFault::WrongWindow => (b"WrongWindow", b""),
        CheckFault::WrongOrder => (b"WrongOrder", b""),
        CheckFault::LimitTooSmall => (b"LimitTooSmall", b""),
        CheckFault::TargetFault(fault) => (b"TargetFault ", fault.word()),
        CheckFault::WrongCounty => (b"WrongCounty", b""),
        CheckFault::MissingGroup => (b"MissingGroup", b""),
        CheckFault::StrayGroup => (b"StrayGroup", b""),
        CheckFault::LightGroup => (b"LightGroup", b""),
        CheckFault::BoundOver => (b"BoundOver", b""),
        CheckFault::BoundLength => (b"BoundLength", b""),
        CheckFault::NotStuck => (b"NotStuck", b""),
        CheckFault::SeatsOpen => (b"SeatsOpen", b""),
        CheckFault::BoundWithoutTarget => (b"BoundWithoutTarget", b""),
        CheckFault::NoLeaf => (b"NoLeaf", b""),
    }
}

/// Appends the words of `fault` as they are in the lines of the program, such as `NotStuck`. If the fault is one of the
/// text or of the target, the word of that fault follows. It fails only if a growth was refused.
pub fn push_check_fault(out: &mut Vec<u8>, fault: CheckFault) -> Result<(), AllocError>
    ensures { OnOk result (out.new.items ≡ out.old.items ++ check_words fault) }
{
    let (word, behind) = words_of(fault);
    out.extend_from_slice(word)?;
    out.extend_from_slice(behind)
}
