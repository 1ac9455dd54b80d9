//! The subcommand `audit`.

ghost use Rattle.std.specs.{Prelude.{◌≡◌, ◌≤◌, ◌<◌, All, List, length, map}, List.Sorted.IsStrictlyIncreasing};
ghost use Rattle.cli_file_stores.specs.{Files.NamedFile, History.History};
ghost use Rattle.cli_answers.specs.Answers.{Comes, said_by};
ghost use Rattle.run_laws.specs.{JudgeSteps.{audit_step, audit_steps}, Run.CommandAnswers, Storing.HasStored};
ghost use Rattle.cli_reports.specs.Texts.{audited_of};

use crate::input::census_files::load_blocks;
use crate::input::files::load_grouping;
use crate::input::plan_files::load_assignments;
use crate::input::problem::load_problem;
use crate::notes::Notes;
use crate::storing::store_named;
use baf_auditor::Assignment;
use cli_answers::{FileOption, Refusal, RunAnswer, Subject};
use cli_file_stores::FileStore;
use cli_reports::{Audited, audit_and_report};
use cli_words::{AuditWords, CommandWords, Form};
use county_codes::Grouping;
use county_problem::Problem;
use pl94_counties::Block;
use std::alloc::Global;

/// What `audit` says, and what was audited.
#[derive(Drop)]
struct AuditedPlan {
    audited: Audited,
    problem: Problem,
    grouping: Grouping,
}

/// Returns all findings in this `form`. The table of the districts is beside them if `asked` is true.
fn audit_plan(
    alloc: Global,
    form: Form,
    problem: Problem,
    grouping: Grouping,
    blocks: &[Block],
    lines: &[Assignment],
    asked: bool,
) -> Result<AuditedPlan, Refusal>
    requires fits { All (λ block. block.code < 1000000000000000) blocks.now }
    requires ascending { IsStrictlyIncreasing (map (λ block. block.code) blocks.now) }
    requires few { length lines.now ≤ 4000000 }
    ensures { (history : History)
        → Comes (λ p. audited_of p.audited) result (audit_step form asked problem grouping.groups.items blocks.now lines.now history history) }
{
    let audited = audit_and_report(alloc, form, &problem, &grouping, blocks, lines, asked)?;
    Ok(AuditedPlan {
        audited,
        problem,
        grouping,
    })
}

/// Returns what `audit` says of the assignments whose file `words` name, before anything is stored.
fn audit_files<H: FileStore>(
    alloc: Global,
    words: AuditWords<'_>,
    file_store: &mut H,
    notes: &mut Notes,
) -> Result<AuditedPlan, Refusal>
    requires { words.problem.common.state ≤ 99 }
    ensures steps { Comes (λ p. audited_of p.audited) result (audit_steps (H.contents file_store.old) words.entry (H.history file_store.old) (H.history file_store.new)) }
    ensures same { H.contents file_store.new ≡ H.contents file_store.old }
    ensures kept { H.stored file_store.new ≡ H.stored file_store.old }
{
    let problem = load_problem(alloc, words.problem, file_store, notes)?;
    let blocks = load_blocks(
        alloc,
        words.census,
        words.problem.common.state,
        file_store,
        notes,
    )?;
    let grouping = load_grouping(alloc, FileOption::Grouping, words.grouping, file_store)?;
    let lines = load_assignments(alloc, words.assignments, file_store)?;
    let asked = words.districts.is_some();
    let form = words.problem.common.form;
    audit_plan(alloc, form, problem, grouping, &blocks, &lines, asked)
}

/// Returns all that is wrong with the assignments of a plan. The problem is built first. Then the census blocks, the
/// grouping and the assignments are read, in this order. The table of the districts is stored if `words` name its file,
/// whether or not anything is found. The first fault met is the answer.
pub(crate) fn audit<H: FileStore>(
    alloc: Global,
    words: AuditWords<'_>,
    file_store: &mut H,
    notes: &mut Notes,
) -> Result<RunAnswer, Refusal>
    requires { words.problem.common.state ≤ 99 }
    ensures { (stored : List NamedFile)
        × HasStored (H.contents file_store.old) (H.contents file_store.new) (H.stored file_store.old) (H.stored file_store.new) stored
        × CommandAnswers (H.contents file_store.old) (CommandWords.Audit words.entry) (H.history file_store.old) (H.history file_store.new) stored (said_by result) }
{
    let plan = audit_files(alloc, words, file_store, notes)?;
    let AuditedPlan {
        audited,
        problem,
        grouping,
    } = plan;
    match store_named(
        alloc,
        FileOption::Districts,
        words.districts,
        audited.districts.as_ref(),
        file_store,
        notes,
    ) {
        Ok(()) => {
            let mut answer = audited.answer;
            answer.subject = Some(Subject {
                problem,
                grouping: Some(grouping),
                certificate: None,
            });
            Ok(answer)
        }
        Err(refusal) => {
            let answer = audited.answer;
            notes.note_report(answer.text);
            Err(refusal)
        }
    }
}
