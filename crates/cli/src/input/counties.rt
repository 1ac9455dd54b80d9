//! The counties that the words name: those of the census files, or those of a table of counties.

ghost use Rattle.std.specs.Prelude.{◌≡◌, ◌≢◌, ◌≤◌, IfOk, map};
ghost use Rattle.cli_file_stores.specs.History.{History};
ghost use Rattle.cli_answers.specs.Answers.{Comes, IsShown, RefusalShows};
ghost use Rattle.people_table.specs.declared.fault.PeopleKind.TheVariants.{Memory};
ghost use Rattle.cli_answers.specs.Refusals.{people_answer};
ghost use Rattle.pl94_counties.specs.CountyNames.{county_name};
ghost use Rattle.run_laws.specs.ProblemSteps.{counties_of_table, counties_steps, people_in};
ghost use Rattle.run_laws.specs.TableSteps.{named_counties_of, named_of_table, named_people_in};

use crate::input::census_files::{load_census_counties, load_named_census};
use crate::input::files::load;
use crate::notes::Notes;
use cli_answers::{FaultText, FileOption, Refusal, RefusedFile, refuse_people};
use cli_file_stores::FileStore;
use cli_words::{CommonWords, CountyWords};
use county_codes::County;
use people_table::{PeopleFault, read_named_people, read_people};
use pl94_counties::NamedCounty;
use std::alloc::{AllocError, Global};

/// Returns the refusal of a table of counties for `fault`. `text` is what the table's file has.
fn refuse_table(alloc: Global, fault: PeopleFault, text: Vec<u8>) -> Refusal
    ensures answer { RefusalShows (people_answer fault) result }
    ensures shown { IsShown result → fault.kind ≢ Memory }
{
    let refused = RefusedFile {
        option: FileOption::People,
        text: FaultText::Whole(text),
    };
    refuse_people(alloc, fault, refused)
}

/// Returns the counties of `state` in the `text` of a table of counties, or the refusal of its first fault.
fn people_from(
    alloc: Global,
    text: Vec<u8>,
    state: u8,
    notes: &mut Notes,
) -> Result<Vec<County>, Refusal>
    ensures { (history : History) → Comes (λ v. v.items) result (people_in state text.items history history) }
{
    match read_people(alloc, &text, state) {
        Ok(counties) => {
            notes.note_people(&counties);
            notes.note_names(text);
            Ok(counties)
        }
        Err(fault) => Err(refuse_table(alloc, fault, text)),
    }
}

/// Returns the counties of `state` with their names in the `text` of a table of counties, or the refusal of its first
/// fault.
fn named_people_from(
    alloc: Global,
    text: Vec<u8>,
    state: u8,
    notes: &mut Notes,
) -> Result<Vec<NamedCounty>, Refusal>
    ensures { (history : History)
        → Comes (λ v. map county_name v.items) result (named_people_in state text.items history history) }
{
    match read_named_people(alloc, &text, state) {
        Ok(named) => {
            notes.note_names(text);
            Ok(named)
        }
        Err(fault) => Err(refuse_table(alloc, fault, text)),
    }
}

/// Loads the table of counties `name`, and reads the counties of `state`.
fn load_people<H: FileStore>(
    alloc: Global,
    name: &str,
    state: u8,
    file_store: &mut H,
    notes: &mut Notes,
) -> Result<Vec<County>, Refusal>
    ensures steps { Comes (λ v. v.items) result (counties_of_table (H.contents file_store.old) state name.now (H.history file_store.old) (H.history file_store.new)) }
    ensures same { H.contents file_store.new ≡ H.contents file_store.old }
    ensures kept { H.stored file_store.new ≡ H.stored file_store.old }
{
    let text = load(alloc, FileOption::People, name, file_store)?;
    people_from(alloc, text, state, notes)
}

/// Loads the table of counties `name`, and reads the counties of `state` with their names.
fn load_named_people<H: FileStore>(
    alloc: Global,
    name: &str,
    state: u8,
    file_store: &mut H,
    notes: &mut Notes,
) -> Result<Vec<NamedCounty>, Refusal>
    ensures steps { Comes (λ v. map county_name v.items) result (named_of_table (H.contents file_store.old) state name.now (H.history file_store.old) (H.history file_store.new)) }
    ensures same { H.contents file_store.new ≡ H.contents file_store.old }
    ensures kept { H.stored file_store.new ≡ H.stored file_store.old }
{
    let text = load(alloc, FileOption::People, name, file_store)?;
    named_people_from(alloc, text, state, notes)
}

/// Reads the counties of the state from the files that `words` name for them: the census files, or a table of counties.
/// The first fault is refused.
pub(crate) fn load_counties<H: FileStore>(
    alloc: Global,
    words: CommonWords<'_>,
    file_store: &mut H,
    notes: &mut Notes,
) -> Result<Vec<County>, Refusal>
    requires { words.state ≤ 99 }
    ensures steps { Comes (λ v. v.items) result (counties_steps (H.contents file_store.old) words.entry (H.history file_store.old) (H.history file_store.new)) }
    ensures same { H.contents file_store.new ≡ H.contents file_store.old }
    ensures kept { H.stored file_store.new ≡ H.stored file_store.old }
{
    match words.counties {
        CountyWords::Census(census) => {
            load_census_counties(alloc, census, words.state, file_store, notes)
        }
        CountyWords::People(name) => load_people(alloc, name, words.state, file_store, notes),
    }
}

/// Reads the counties of the state with their names, as `load_counties` reads them without.
pub(crate) fn load_named_counties<H: FileStore>(
    alloc: Global,
    words: CommonWords<'_>,
    file_store: &mut H,
    notes: &mut Notes,
) -> Result<Vec<NamedCounty>, Refusal>
    requires { words.state ≤ 99 }
    ensures steps { Comes (λ v. map county_name v.items) result (named_counties_of (H.contents file_store.old) words.entry (H.history file_store.old) (H.history file_store.new)) }
    ensures same { H.contents file_store.new ≡ H.contents file_store.old }
    ensures kept { H.stored file_store.new ≡ H.stored file_store.old }
{
    match words.counties {
        CountyWords::Census(census) => {
            load_named_census(alloc, census, words.state, file_store, notes)
        }
        CountyWords::People(name) => {
            load_named_people(alloc, name, words.state, file_store, notes)
        }
    }
}

/// Returns the counties of `named` without their names, in the same order.
pub(crate) fn without_names(alloc: Global, named: &[NamedCounty]) -> Result<Vec<County>, AllocError>
    ensures { IfOk result (λ v. v.items ≡ map (λ k. k.county) named.now) }
{
    let mut counties = Vec::new(alloc);
    for listed in named {
        counties.push(listed.county)?;
    }
    Ok(counties)
}
