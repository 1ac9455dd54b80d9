//! Texts of a worker that are pulled from a source one after the other, as they come.

ghost use Rattle.std.specs.Prelude.{⊤};
ghost use Rattle.worker_texts.specs.{WorkerText.WorkerTextTold, Coming.worker_form};

use crate::coming_texts::{ComingTexts, TextForm};
use crate::reading::front_worker_text;
use crate::worker_text::WorkerText;
use certificate_lines::TextFault;
use field_lines::Source;
use std::alloc::Global;
use std::marker::Model;

/// How many bytes are asked for in one pull.
const PULL: usize = 65_536;

/// The form of a worker's texts.
struct WorkerForm;

impl TextForm for WorkerForm {
    type Text = WorkerText;

    ghost Told = { WorkerTextTold };

    ghost form = { λ _. worker_form };

    ghost can_read = { λ _. ⊤ };

    fn front_text(&self, alloc: Global, bytes: &[u8]) -> Result<(WorkerText, usize), TextFault> {
        front_worker_text(alloc, bytes)
    }
}

/// Texts of a worker that are pulled from a source one after the other.
#[derive(Drop)]
pub struct WorkerTextReader {
    coming: ComingTexts,
}

impl Model for WorkerTextReader {
    ghost use Rattle.worker_texts.specs.TextForms.{Held};

    /// The bytes that were pulled and are of no text that was read, and the number of lines in front of them.
    ghost Value = { Held };

    ghost view = { λ r. r.coming };
}

impl WorkerTextReader {
    ghost use Rattle.std.specs.Prelude.{◌≡◌, false};
    ghost use Rattle.worker_texts.specs.Coming.{nothing_held, ReadsNext, IsPrompt, is_read_fault};

    /// Creates a reader that has pulled nothing.
    pub fn new(alloc: Global) -> Self
        ensures { result ≡ nothing_held }
    {
        WorkerTextReader {
            coming: ComingTexts::new(alloc),
        }
    }

    /// Reads the next text that a `source` gives. Returns `None` at the end of the source. Each call is lent the same
    /// `source`.
    ///
    /// It pulls and holds bytes as `ComingTexts::next_text` does, by 65,536 bytes at most.
    ///
    /// # Errors
    ///
    /// Returns the same errors as `ComingTexts::next_text`.
    pub fn next_text<S: Source>(
        &mut self,
        alloc: Global,
        source: &mut S,
    ) -> Result<Option<WorkerText>, TextFault>
        // What was pulled is kept, and what is answered holds of all bytes that are held.
        ensures next { ReadsNext self.old (S.given source.old) (S.given source.new) result self.new }
        // At most the bytes of one pull stand behind the text, unless nothing was pulled.
        ensures prompt { IsPrompt 65536 (S.given source.old) (S.given source.new) result self.new }
        // `ReadFault` comes exactly if the source fails, unless it had failed before.
        ensures failed { S.is_failed source.old ≡ false → S.is_failed source.new ≡ is_read_fault result }
    {
        self.coming.next_text(&WorkerForm, alloc, source, PULL)
    }
}
