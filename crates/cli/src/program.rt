//! What the program does: a command by its words, or a case by its input.

ghost use Rattle.std.specs.Prelude.{◌≡◌, ◌≢◌, ◌⊎◌, ℕ, false, List, [], Option, Result};
ghost use Rattle.cli_file_stores.specs.{Files.NamedFile, declared.whole_source.WholeFault.WholeFault};
ghost use Rattle.cli_answers.specs.Answer.{Answered};
ghost use Rattle.run_laws.specs.{Storing.HasStored, Run.IsRunAnswer, Headline.RunTells};
ghost use Rattle.cli.specs.{Delivery.{Delivers, texts}, CaseRun.{IsWholeSource, IsReadAnswer, DeliversCase}};

use crate::case::run_case_with_notes;
use crate::command::run_with_notes;
use crate::ended_run::EndedRun;
use branch_bound::Watcher;
use cli_file_stores::{FileStore, Sink};
use field_lines::Source;
use std::alloc::Global;

/// Runs the program, and returns its exit status and the run that has ended. With `words`, it runs their command over
/// the file store's files, as `run` does. Without any, it runs the case that `input` holds, as `run_case` does, and the
/// file store stays as it was. `watcher` is told how far the search of a command is. What is promised holds for each
/// watcher.
pub fn run_program<H: FileStore, R: Source, W: Sink, V: Watcher>(
    alloc: Global,
    words: &[&str],
    file_store: &mut H,
    input: &mut R,
    out: &mut W,
    watcher: &mut V,
) -> (u8, EndedRun)
    requires { R.is_failed input.old ≡ false }

    // With words, their command was run over the file store's files. If the status is 0, 1 or 3, the answer tells of
    // the machine's files what the command promises.
    ensures words { words.now ≢ [] → (a : Answered) × (stored : List NamedFile)
        × HasStored (H.contents file_store.old) (H.contents file_store.new) (H.stored file_store.old) (H.stored file_store.new) stored
        × IsRunAnswer (H.contents file_store.old) (texts words.now) (H.history file_store.old) (H.history file_store.new) stored a
        × RunTells (texts words.now) (H.history file_store.old) (H.history file_store.new) a
        × Delivers (W.is_failed out.new) (W.contents out.old) (W.contents out.new) a result.0 }

    // Without any, the case that the input holds was run.
    ensures case { words.now ≡ [] → (read : Result (List ℕ) WholeFault)
        × IsWholeSource (R.content input.old) (R.is_failed input.new) read
        × (a : Option Answered)
        × IsReadAnswer read a
        × DeliversCase out.old out.new W.is_failed W.contents a result.0 }
    ensures same { words.now ≡ [] → H.contents file_store.new ≡ H.contents file_store.old }
    ensures kept { words.now ≡ [] → H.stored file_store.new ≡ H.stored file_store.old }
    ensures still { words.now ≡ [] → H.history file_store.new ≡ H.history file_store.old }
{
    if words.is_empty() {
        run_case_with_notes(alloc, input, out)
    } else {
        run_with_notes(alloc, words, file_store, out, watcher)
    }
}
