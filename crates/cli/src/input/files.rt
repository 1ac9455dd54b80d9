//! What the files of a command give. Each is loaded and read, and the first fault met is refused.

ghost use Rattle.std.specs.Prelude.{◌≡◌};
ghost use Rattle.county_problem.specs.ProblemValue.{codes_of};
ghost use Rattle.cli_file_stores.specs.History.{History};
ghost use Rattle.cli_answers.specs.Answers.{Comes};
ghost use Rattle.run_laws.specs.Steps.{load_step};
ghost use Rattle.run_laws.specs.ProblemSteps.{pairs_of, pairs_in, links_in, withdrawn_in, grouping_in, links_of, withdrawn_of, adjacency_of, grouping_of};

use crate::input::border_warnings::{note_adjacency, note_links};
use crate::notes::Notes;
use adjacency_reader::{Link, apply_links, read_links, read_pairs, read_withdrawn};
use cli_answers::{
    FaultText, FileOption, InputFile, Refusal, RefusedFile, refuse_codes, refuse_load,
};
use cli_file_stores::FileStore;
use cli_words::ProblemWords;
use county_codes::{County, CountyCode, Grouping, Withdrawn, listed_codes};
use grouping_reader::read_grouping;
use std::alloc::Global;

/// Loads the bytes of the file `name`.
pub(crate) fn load<H: FileStore>(
    alloc: Global,
    option: FileOption,
    name: &str,
    file_store: &mut H,
) -> Result<Vec<u8>, Refusal>
    ensures steps { Comes (λ v. v.items) result (load_step (H.contents file_store.old) name.now (H.history file_store.old) (H.history file_store.new)) }
    ensures same { H.contents file_store.new ≡ H.contents file_store.old }
    ensures kept { H.stored file_store.new ≡ H.stored file_store.old }
{
    match file_store.load(alloc, name) {
        Ok(bytes) => Ok(bytes),
        Err(fault) => Err(refuse_load(alloc, option, name, fault)),
    }
}

/// Reads the pairs of `listed` counties in the `text` of an adjacency file.
fn pairs_from(
    alloc: Global,
    listed: &[CountyCode],
    text: Vec<u8>,
    notes: &mut Notes,
) -> Result<Vec<(CountyCode, CountyCode)>, Refusal>
    ensures { (history : History) → Comes (λ v. v.items) result (pairs_in listed.now text.items history history) }
{
    match read_pairs(alloc, &text, listed) {
        Ok(pairs) => {
            note_adjacency(alloc, listed, &text, &pairs, notes);
            Ok(pairs)
        }
        Err(fault) => {
            let refused = RefusedFile {
                option: FileOption::Adjacency,
                text: FaultText::Whole(text),
            };
            Err(refuse_codes(alloc, InputFile::Adjacency, fault, refused))
        }
    }
}

/// Reads the links in the `text` of a file.
fn links_from(alloc: Global, text: Vec<u8>) -> Result<Vec<Link>, Refusal>
    ensures { (history : History) → Comes (λ v. v.items) result (links_in text.items history history) }
{
    match read_links(alloc, &text) {
        Ok(links) => Ok(links),
        Err(fault) => {
            let refused = RefusedFile {
                option: FileOption::Links,
                text: FaultText::Whole(text),
            };
            Err(refuse_codes(alloc, InputFile::Links, fault, refused))
        }
    }
}

/// Reads the withdrawn sets in the `text` of a file.
fn withdrawn_from(alloc: Global, text: Vec<u8>) -> Result<Vec<Withdrawn>, Refusal>
    ensures { (history : History) → Comes (λ v. v.items) result (withdrawn_in text.items history history) }
{
    match read_withdrawn(alloc, &text) {
        Ok(sets) => Ok(sets),
        Err(fault) => {
            let refused = RefusedFile {
                option: FileOption::Withdrawn,
                text: FaultText::Whole(text),
            };
            Err(refuse_codes(alloc, InputFile::Withdrawn, fault, refused))
        }
    }
}

/// Reads the grouping in the `text` of the file of `option`.
fn grouping_from(alloc: Global, option: FileOption, text: Vec<u8>) -> Result<Grouping, Refusal>
    ensures { (history : History) → Comes (λ g. g.groups.items) result (grouping_in text.items history history) }
{
    match read_grouping(alloc, &text) {
        Ok(grouping) => Ok(grouping),
        Err(fault) => {
            let refused = RefusedFile {
                option,
                text: FaultText::Whole(text),
            };
            Err(refuse_codes(alloc, InputFile::Grouping, fault, refused))
        }
    }
}

/// Loads an adjacency file and reads its pairs of `listed` counties.
fn load_pairs<H: FileStore>(
    alloc: Global,
    listed: &[CountyCode],
    name: &str,
    file_store: &mut H,
    notes: &mut Notes,
) -> Result<Vec<(CountyCode, CountyCode)>, Refusal>
    ensures steps { Comes (λ v. v.items) result (pairs_of (H.contents file_store.old) listed.now name.now (H.history file_store.old) (H.history file_store.new)) }
    ensures same { H.contents file_store.new ≡ H.contents file_store.old }
    ensures kept { H.stored file_store.new ≡ H.stored file_store.old }
{
    let text = load(alloc, FileOption::Adjacency, name, file_store)?;
    pairs_from(alloc, listed, text, notes)
}

/// Loads and reads the links of the file `name`. Returns none if no file is named.
fn load_links<H: FileStore>(
    alloc: Global,
    name: Option<&str>,
    file_store: &mut H,
) -> Result<Vec<Link>, Refusal>
    ensures steps { Comes (λ v. v.items) result (links_of (H.contents file_store.old) name.entry (H.history file_store.old) (H.history file_store.new)) }
    ensures same { H.contents file_store.new ≡ H.contents file_store.old }
    ensures kept { H.stored file_store.new ≡ H.stored file_store.old }
{
    match name {
        Some(name) => {
            let text = load(alloc, FileOption::Links, name, file_store)?;
            links_from(alloc, text)
        }
        None => Ok(Vec::new(alloc)),
    }
}

/// Loads and reads the withdrawn sets of the file `name`. Returns none if no file is named.
pub(crate) fn load_withdrawn<H: FileStore>(
    alloc: Global,
    name: Option<&str>,
    file_store: &mut H,
) -> Result<Vec<Withdrawn>, Refusal>
    ensures steps { Comes (λ v. v.items) result (withdrawn_of (H.contents file_store.old) name.entry (H.history file_store.old) (H.history file_store.new)) }
    ensures same { H.contents file_store.new ≡ H.contents file_store.old }
    ensures kept { H.stored file_store.new ≡ H.stored file_store.old }
{
    match name {
        Some(name) => {
            let text = load(alloc, FileOption::Withdrawn, name, file_store)?;
            withdrawn_from(alloc, text)
        }
        None => Ok(Vec::new(alloc)),
    }
}

/// Returns the adjacent pairs of `counties`: those of the adjacency file that `words` name, with the links applied to
/// them.
pub(crate) fn load_adjacency<H: FileStore>(
    alloc: Global,
    counties: &[County],
    words: ProblemWords<'_>,
    file_store: &mut H,
    notes: &mut Notes,
) -> Result<Vec<(CountyCode, CountyCode)>, Refusal>
    ensures steps { Comes (λ v. v.items) result (adjacency_of (H.contents file_store.old) (codes_of counties.now) words.entry (H.history file_store.old) (H.history file_store.new)) }
    ensures same { H.contents file_store.new ≡ H.contents file_store.old }
    ensures kept { H.stored file_store.new ≡ H.stored file_store.old }
{
    let listed = listed_codes(alloc, counties)?;
    let pairs = load_pairs(alloc, &listed, words.adjacency, file_store, notes)?;
    let links = load_links(alloc, words.links, file_store)?;
    note_links(alloc, &listed, &pairs, &links, notes);
    let linked = apply_links(alloc, &pairs, &links)?;
    Ok(linked)
}

/// Loads the file that `option` names, and reads its grouping.
pub(crate) fn load_grouping<H: FileStore>(
    alloc: Global,
    option: FileOption,
    name: &str,
    file_store: &mut H,
) -> Result<Grouping, Refusal>
    ensures steps { Comes (λ g. g.groups.items) result (grouping_of (H.contents file_store.old) name.now (H.history file_store.old) (H.history file_store.new)) }
    ensures same { H.contents file_store.new ≡ H.contents file_store.old }
    ensures kept { H.stored file_store.new ≡ H.stored file_store.old }
{
    let text = load(alloc, option, name, file_store)?;
    grouping_from(alloc, option, text)
}
