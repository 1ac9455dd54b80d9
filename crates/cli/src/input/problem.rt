//! The problem that a command works on.

ghost use Rattle.std.specs.Prelude.{◌≡◌, ◌≤◌};
ghost use Rattle.cli_file_stores.specs.History.{History};
ghost use Rattle.cli_answers.specs.Answers.{Comes};
ghost use Rattle.run_laws.specs.ProblemSteps.{build_step, problem_over, problem_steps};
ghost use Rattle.run_laws.specs.Forms.{has_names as form_has_names, reads_names as names_are_read};
ghost use Rattle.run_laws.specs.TableSteps.{named_problem_in, tabled_problem_in};
ghost use Rattle.cli_reports.specs.Texts.{tabled_of};

use crate::input::counties::{load_counties, load_named_counties, without_names};
use crate::input::files::{load_adjacency, load_withdrawn};
use crate::input::withdrawn_warnings::note_withdrawn;
use crate::notes::Notes;
use cli_answers::{Refusal, refuse_problem};
use cli_file_stores::FileStore;
use cli_reports::Tabled;
use cli_words::{CommonWords, Form, ProblemWords};
use county_codes::{County, CountyCode, Tolerance, Withdrawn};
use county_problem::Problem;
use std::alloc::Global;

/// Builds the problem of `counties`, their adjacent `pairs` and the `withdrawn` sets, with `chamber` seats and this
/// `tolerance`. Returns the refusal of its first fault.
pub(crate) fn build(
    alloc: Global,
    counties: &[County],
    pairs: &[(CountyCode, CountyCode)],
    withdrawn: &[Withdrawn],
    chamber: u16,
    tolerance: Tolerance,
) -> Result<Problem, Refusal>
    ensures { (history : History)
        → Comes (λ p. p) result (build_step chamber tolerance counties.now pairs.now withdrawn.now history history) }
{
    match Problem::build_with(alloc, counties, pairs, withdrawn, chamber, tolerance) {
        Ok(problem) => Ok(problem),
        Err(fault) => Err(refuse_problem(alloc, fault)),
    }
}

/// Builds the problem of these `counties`. The other files are loaded and read in turn before it is built.
fn load_problem_over<H: FileStore>(
    alloc: Global,
    words: ProblemWords<'_>,
    counties: &[County],
    file_store: &mut H,
    notes: &mut Notes,
) -> Result<Problem, Refusal>
    ensures steps { Comes (λ p. p) result (problem_over (H.contents file_store.old) words.entry counties.now (H.history file_store.old) (H.history file_store.new)) }
    ensures same { H.contents file_store.new ≡ H.contents file_store.old }
    ensures kept { H.stored file_store.new ≡ H.stored file_store.old }
{
    let pairs = load_adjacency(alloc, counties, words, file_store, notes)?;
    let withdrawn = load_withdrawn(alloc, words.withdrawn, file_store)?;
    note_withdrawn(alloc, counties, &pairs, &withdrawn, words.common, notes);
    build(
        alloc,
        counties,
        &pairs,
        &withdrawn,
        words.common.chamber,
        words.common.tolerance,
    )
}

/// Builds the problem of the files that `words` name. They are loaded and read in turn before it is built.
pub(crate) fn load_problem<H: FileStore>(
    alloc: Global,
    words: ProblemWords<'_>,
    file_store: &mut H,
    notes: &mut Notes,
) -> Result<Problem, Refusal>
    requires { words.common.state ≤ 99 }
    ensures steps { Comes (λ p. p) result (problem_steps (H.contents file_store.old) words.entry (H.history file_store.old) (H.history file_store.new)) }
    ensures same { H.contents file_store.new ≡ H.contents file_store.old }
    ensures kept { H.stored file_store.new ≡ H.stored file_store.old }
{
    let counties = load_counties(alloc, words.common, file_store, notes)?;
    load_problem_over(alloc, words, &counties, file_store, notes)
}

/// Builds the problem of the files that `words` name, and keeps the names of its counties. The census files are loaded
/// and read first, and then the other files.
fn load_named_problem<H: FileStore>(
    alloc: Global,
    words: ProblemWords<'_>,
    file_store: &mut H,
    notes: &mut Notes,
) -> Result<Tabled, Refusal>
    requires { words.common.state ≤ 99 }
    ensures steps { Comes tabled_of result (named_problem_in (H.contents file_store.old) words.entry (H.history file_store.old) (H.history file_store.new)) }
    ensures same { H.contents file_store.new ≡ H.contents file_store.old }
    ensures kept { H.stored file_store.new ≡ H.stored file_store.old }
{
    let named = load_named_counties(alloc, words.common, file_store, notes)?;
    let counties = without_names(alloc, &named)?;
    notes.note_people(&counties);
    let problem = load_problem_over(alloc, words, &counties, file_store, notes)?;
    Ok(Tabled {
        problem,
        named: Some(named),
    })
}

/// Returns whether an answer of this `form` has the names of the counties.
pub(crate) fn has_names(form: Form) -> bool
    ensures { result ≡ form_has_names form }
{
    match form {
        Form::Codes => false,
        Form::Names | Form::Object => true,
    }
}

/// Returns whether the names of the counties are read: for a table, if `table` names its file, or for an answer that has
/// them, if `words` ask for one.
fn reads_names(words: CommonWords<'_>, table: Option<&str>) -> bool
    ensures { result ≡ names_are_read words.entry table.entry }
{
    table.is_some() || has_names(words.form)
}

/// Builds the problem of the files. The names of its counties are read and kept if `table` names the file of a table, or
/// if `words` ask for an answer that has them.
pub(crate) fn load_tabled_problem<H: FileStore>(
    alloc: Global,
    words: ProblemWords<'_>,
    table: Option<&str>,
    file_store: &mut H,
    notes: &mut Notes,
) -> Result<Tabled, Refusal>
    requires { words.common.state ≤ 99 }
    ensures steps { Comes tabled_of result (tabled_problem_in (H.contents file_store.old) words.entry (names_are_read words.entry.common table.entry) (H.history file_store.old) (H.history file_store.new)) }
    ensures same { H.contents file_store.new ≡ H.contents file_store.old }
    ensures kept { H.stored file_store.new ≡ H.stored file_store.old }
{
    if reads_names(words.common, table) {
        return load_named_problem(alloc, words, file_store, notes);
    }
    let problem = load_problem(alloc, words, file_store, notes)?;
    Ok(Tabled {
        problem,
        named: None,
    })
}
