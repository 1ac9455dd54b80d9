//! Files that a command stores.

ghost use Rattle.std.specs.Prelude.{◌≡◌, List, [], ◌∷◌, Option, option_map};
ghost use Rattle.cli_answers.specs.{Answer.Answered, Answers.{answer_of, said_by}};
ghost use Rattle.cli_file_stores.specs.Files.{NamedFile};
ghost use Rattle.run_laws.specs.Storing.{HasStored, named_file, said_after, store_steps};
ghost use Rattle.cli_reports.specs.Texts.{reported_of};
ghost use Rattle.cli.specs.Ends.{refusal_by};

use crate::notes::Notes;
use cli_answers::{FileOption, Refusal, RunAnswer, refuse_store};
use cli_file_stores::FileStore;
use cli_reports::Reported;
use std::alloc::Global;

/// Stores `bytes` under `name`, and notes that the file of `option` was stored. Returns the refusal of the file store's
/// fault if it wasn't.
fn store<H: FileStore>(
    alloc: Global,
    option: FileOption,
    name: &str,
    bytes: &[u8],
    file_store: &mut H,
    notes: &mut Notes,
) -> Result<(), Refusal>
    ensures { (stored : List NamedFile)
        × HasStored (H.contents file_store.old) (H.contents file_store.new) (H.stored file_store.old) (H.stored file_store.new) stored
        × store_steps (record { name = name.now; bytes = bytes.now }
        ∷ []) (H.history file_store.old) (H.history file_store.new) stored (refusal_by result) }
{
    match file_store.store(alloc, name, bytes) {
        Ok(()) => {
            notes.note_stored(option);
            Ok(())
        }
        Err(fault) => Err(refuse_store(alloc, option, name, fault)),
    }
}

/// Stores `text` under `name` if both are given. Otherwise nothing is stored.
pub(crate) fn store_named<H: FileStore>(
    alloc: Global,
    option: FileOption,
    name: Option<&str>,
    text: Option<&Vec<u8>>,
    file_store: &mut H,
    notes: &mut Notes,
) -> Result<(), Refusal>
    ensures { (stored : List NamedFile)
        × HasStored (H.contents file_store.old) (H.contents file_store.new) (H.stored file_store.old) (H.stored file_store.new) stored
        × store_steps (named_file name.entry (option_map (λ t. t.now.items) text.entry)) (H.history file_store.old) (H.history file_store.new) stored (refusal_by result) }
{
    match (name, text) {
        (Some(name), Some(text)) => store(alloc, option, name, text, file_store, notes),
        _ => Ok(()),
    }
}

/// Stores the table of `reported` if there is one and `name` is given. Returns the answer of `reported`, unless the
/// table was refused.
pub(crate) fn store_reported<H: FileStore>(
    alloc: Global,
    name: Option<&str>,
    reported: Reported,
    file_store: &mut H,
    notes: &mut Notes,
) -> Result<RunAnswer, Refusal>
    ensures { (stored : List NamedFile) × (refusal : Option Answered)
        × HasStored (H.contents file_store.old) (H.contents file_store.new) (H.stored file_store.old) (H.stored file_store.new) stored
        × store_steps (named_file name.entry (reported_of reported).table) (H.history file_store.old) (H.history file_store.new) stored refusal
        × (said_by result ≡ said_after refusal (answer_of reported.answer)) }
{
    match store_named(
        alloc,
        FileOption::Table,
        name,
        reported.table.as_ref(),
        file_store,
        notes,
    ) {
        Ok(()) => Ok(reported.answer),
        Err(refusal) => {
            let answer = reported.answer;
            notes.note_report(answer.text);
            Err(refusal)
        }
    }
}
