//! The assignments of census blocks that the file of a plan gives.

ghost use Rattle.std.specs.Prelude.{◌≡◌, ◌≤◌, IfOk, vec_len};
ghost use Rattle.cli_file_stores.specs.History.{History};
ghost use Rattle.cli_answers.specs.Answers.{Comes};
ghost use Rattle.run_laws.specs.PlanSteps.{assignments_in, plan_assignments};

use crate::input::files::load;
use baf_auditor::{Assignment, read_assignments};
use cli_answers::{FaultText, FileOption, Refusal, RefusedFile, refuse_assignments};
use cli_file_stores::FileStore;
use std::alloc::Global;

/// Reads the assignments in the `text` of a file.
fn assignments_from(alloc: Global, text: Vec<u8>) -> Result<Vec<Assignment>, Refusal>
    ensures steps { (history : History) → Comes (λ v. v.items) result (assignments_in text.items history history) }
    ensures few { IfOk result (λ v. vec_len v ≤ 4000000) }
{
    match read_assignments(alloc, &text) {
        Ok(lines) => Ok(lines),
        Err(fault) => {
            let refused = RefusedFile {
                option: FileOption::Assignments,
                text: FaultText::Whole(text),
            };
            Err(refuse_assignments(alloc, fault, refused))
        }
    }
}

/// Loads the file `name` and reads its assignments.
pub(crate) fn load_assignments<H: FileStore>(
    alloc: Global,
    name: &str,
    file_store: &mut H,
) -> Result<Vec<Assignment>, Refusal>
    ensures steps { Comes (λ v. v.items) result (plan_assignments (H.contents file_store.old) name.now (H.history file_store.old) (H.history file_store.new)) }
    ensures few { IfOk result (λ v. vec_len v ≤ 4000000) }
    ensures same { H.contents file_store.new ≡ H.contents file_store.old }
    ensures kept { H.stored file_store.new ≡ H.stored file_store.old }
{
    let text = load(alloc, FileOption::Assignments, name, file_store)?;
    assignments_from(alloc, text)
}
