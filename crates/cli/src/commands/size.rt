//! The subcommand `size`.

ghost use Rattle.std.specs.Prelude.{◌≡◌, ◌≤◌, map, option_map};
ghost use Rattle.cli_file_stores.specs.History.{History};
ghost use Rattle.pl94_counties.specs.CountyNames.{county_name};
ghost use Rattle.cli_answers.specs.Answers.{answer_of, Comes};
ghost use Rattle.run_laws.specs.JudgeSteps.{size_steps, sizes_of as sizes_in_steps};

use crate::input::counties::{load_counties, load_named_counties, without_names};
use crate::input::problem::{build, has_names};
use crate::notes::Notes;
use cli_answers::{Refusal, RunAnswer, RunOutcome};
use cli_file_stores::FileStore;
use cli_reports::sizes_in;
use cli_words::CommonWords;
use county_codes::County;
use pl94_counties::NamedCounty;
use std::alloc::Global;

/// Returns the size table of `counties` in the form that `words` ask for. An object has the names of the counties in
/// `named`.
fn sizes_of(
    alloc: Global,
    words: CommonWords<'_>,
    counties: &[County],
    named: &Option<Vec<NamedCounty>>,
) -> Result<RunAnswer, Refusal>
    ensures { (history : History)
        → Comes answer_of result (sizes_in_steps words.entry (option_map (λ v. map county_name v.items) named.now) counties.now history history) }
{
    let problem = build(alloc, counties, &[], &[], words.chamber, words.tolerance)?;
    let text = sizes_in(alloc, words.form, &problem, named)?;
    Ok(RunAnswer {
        text,
        status: 0,
        outcome: RunOutcome::Done,
        subject: None,
    })
}

/// Returns the size table of the counties in the files that `words` name. The names of the counties are read if
/// `words` ask for an answer that has them. The first fault met is the answer.
pub(crate) fn size<H: FileStore>(
    alloc: Global,
    words: CommonWords<'_>,
    file_store: &mut H,
    notes: &mut Notes,
) -> Result<RunAnswer, Refusal>
    requires { words.state ≤ 99 }
    ensures steps { Comes answer_of result (size_steps (H.contents file_store.old) words.entry (H.history file_store.old) (H.history file_store.new)) }
    ensures same { H.contents file_store.new ≡ H.contents file_store.old }
    ensures kept { H.stored file_store.new ≡ H.stored file_store.old }
{
    if has_names(words.form) {
        let named = load_named_counties(alloc, words, file_store, notes)?;
        let counties = without_names(alloc, &named)?;
        notes.note_people(&counties);
        return sizes_of(alloc, words, &counties, &Some(named));
    }
    let counties = load_counties(alloc, words, file_store, notes)?;
    sizes_of(alloc, words, &counties, &None)
}
