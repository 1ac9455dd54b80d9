//! Texts of a form that are pulled from a source one after the other, as they come.

ghost use Rattle.std.specs.Prelude.{◌≡◌, ◌==◌, ◌+◌, ◌<◌, ◌≤◌, ◌-◌, ◌^◌, ◌⊎◌, ℕ, true, false, [], None, take, length, get_or, filter, IfOk, IfErr, IfSome, OnOk, OnErr, slice_range, ◌++◌};
ghost use Rattle.std.specs.Result.{is_err};
ghost use Rattle.field_lines.specs.RawPieces.{is_lf};
ghost use Rattle.certificate_lines.specs.Rest.{IsTextMemory};
ghost use Rattle.certificate_lines.specs.declared.fault.TextKind.TheVariants.{CutShort, ReadFault, Memory};
ghost use Rattle.worker_texts.specs.TextForms.{Form, IsByLines, PullsOnto, BeginsWithText, HaveFault, is_read_kind};

use certificate_lines::{TextFault, TextKind};
use field_lines::{Source, SourceFault};
use std::alloc::Global;
use std::marker::Model;

/// The greatest number of bytes that may be held when more are pulled.
const MOST_HELD: usize = 1_073_741_824;

/// A form of texts. Each text ends with a line, and its lines tell where it ends.
pub trait TextForm {
    /// What is read of a text.
    type Text;

    /// What a text tells.
    ghost Told: { Type 0 };

    /// The texts of the form, and the faults of other bytes.
    ghost form: { Self → Form Self.Text Told };

    /// Whether texts of the form can be read.
    ghost can_read: { Self → Type 0 };

    /// Reads the text of the form with which `bytes` begin. Returns what it tells and how many bytes spell it.
    ///
    /// # Errors
    ///
    /// Returns the first fault of the bytes, with its line. It is `CutShort` if a line is missing. If memory was
    /// refused, it returns `Memory` in place of any answer.
    fn front_text(&self, alloc: Global, bytes: &[u8]) -> Result<(Self::Text, usize), TextFault>
        requires some { 0 < length bytes.now }
        requires can { can_read self.now }
        ensures place { IfOk result (λ r. r.1 ≤ length bytes.now) }
        // The bytes spell what is read.
        ensures found { IfOk result (λ r. take r.1 bytes.now ≡ (form self.now).text_of ((form self.now).told r.0)) }
        ensures spelled { IfOk result (λ r. (form self.now).HasText ((form self.now).told r.0)) }
        // A text at the front is read, unless memory is refused.
        ensures only { IfErr result (λ f. BeginsWithText (form self.now) bytes.now → IsTextMemory f) }
        ensures fault { IfErr result (λ f. (IsTextMemory f → ⊥) → (form self.now).HasFault bytes.now f) };
}

/// Counts the lines of a `text` that an LF ends.
pub fn lines_in(text: &[u8]) -> u64
    ensures value { result ≡ length (filter is_lf text.now) }
    ensures few { result ≤ length text.now }
{
    text.iter().filter(|b| **b == b'\n').count() as u64
}

/// Moves a `fault` further on by this number of `lines`. If memory was refused, the line of the fault is left open.
pub fn moved(fault: TextFault, lines: u64) -> TextFault
    ensures kind { result.kind ≡ fault.kind }
    ensures line { fault.line + lines < 2 ^ 64 → result.line ≡ fault.line + lines }
{
    TextFault {
        kind: fault.kind,
        line: fault.line.saturating_add(lines),
    }
}

/// Returns how many bytes the whole lines of a `text` have. They end with its last LF.
fn whole_lines(text: &[u8]) -> usize
    ensures place { result ≤ length text.now }
    ensures lf { 0 < result → get_or text.now (result - 1) 0 ≡ 10 }
    ensures last { (k : ℕ) → result ≤ k → k < length text.now → get_or text.now k 0 ≡ 10 → ⊥ }
{
    let mut end = text.len();
    while end > 0 && text[end - 1] != b'\n' {
        end -= 1;
    }
    end
}

/// Returns how many bytes of a `text` can be read already: its whole lines, or all of it if it has `ended`.
fn readable(text: &[u8], ended: bool) -> usize
    ensures place { result ≤ length text.now }
    ensures all { ended ≡ true → result ≡ length text.now }
    ensures lf { ended ≡ false → 0 < result → get_or text.now (result - 1) 0 ≡ 10 }
    ensures last { (k : ℕ) → result ≤ k → k < length text.now → get_or text.now k 0 ≡ 10 → ⊥ }
{
    if ended { text.len() } else { whole_lines(text) }
}

/// Returns whether a fault of this `kind` may pass if more bytes come behind the whole lines.
fn may_pass(kind: TextKind, ended: bool) -> bool
    ensures open { result ≡ true → ended ≡ false }
    ensures passes { result ≡ true → kind ≡ CutShort }
    ensures stays { result ≡ false → ended ≡ false → kind ≡ CutShort → ⊥ }
{
    !ended && matches!(kind, TextKind::CutShort)
}

/// Looks for a text of this `form` at the front of the bytes that are `held`. Returns it and how many bytes spell it.
/// Returns `None` if more bytes have to come. If all bytes have come, as `ended` says, this means that none is held.
fn text_in_front<F: TextForm>(
    form: &F,
    alloc: Global,
    held: &[u8],
    ended: bool,
) -> Result<Option<(F::Text, usize)>, TextFault>
    requires can { F.can_read form.now }
    requires by_lines { IsByLines (F.form form.now) }
    ensures place { IfOk result (λ found. IfSome found (λ r. r.1 ≤ length held.now)) }
    ensures found { IfOk result (λ found. IfSome found (λ r. take r.1 held.now
        ≡ (F.form form.now).text_of ((F.form form.now).told r.0))) }
    ensures spelled { IfOk result (λ found. IfSome found (λ r.
        (F.form form.now).HasText ((F.form form.now).told r.0))) }
    ensures none { IfOk result (λ found. found ≡ None → ended ≡ true → held.now ≡ []) }
    ensures waits { IfOk result (λ found. found ≡ None → BeginsWithText (F.form form.now) held.now → ⊥) }
    ensures only { IfErr result (λ f. BeginsWithText (F.form form.now) held.now → IsTextMemory f) }
    ensures fault { IfErr result (λ f. (IsTextMemory f → ⊥) → HaveFault (F.form form.now) held.now ended f) }
    ensures unfailed { IfErr result (λ f. is_read_kind f.kind ≡ false) }
{
    let count = readable(held, ended);
    if count == 0 {
        return Ok(None);
    }
    match form.front_text(alloc, &held[..count]) {
        Ok(found) => Ok(Some(found)),
        Err(fault) => {
            if may_pass(fault.kind, ended) {
                return Ok(None);
            }
            Err(fault)
        }
    }
}

/// Pulls bytes into the `buffer` behind its first `start` bytes, and returns how many there were.
fn pull_behind<S: Source>(
    source: &mut S,
    buffer: &mut [u8],
    start: usize,
) -> Result<usize, SourceFault>
    requires { start < length buffer.old }
    ensures same { take start buffer.new ≡ take start buffer.old }
    ensures bound { IfOk result (λ n. start + n ≤ length buffer.new) }
    ensures given { IfOk result (λ n. (S.given source.new).bytes
        ≡ (S.given source.old).bytes ++ slice_range buffer.new start (start + n)) }
    ensures ended { IfOk result (λ n. (S.given source.new).ended ≡ (n == 0)) }
    ensures none { OnErr result (S.given source.new ≡ S.given source.old) }
    ensures failed { S.is_failed source.new ≡ is_err result }
{
    source.pull(&mut buffer[start..])
}

/// Pulls the next bytes of a `source`, at most `pull`, behind those that are `held`, unless too many are held. Returns
/// how many there were.
fn pull_onto<S: Source>(held: &mut Vec<u8>, source: &mut S, pull: usize) -> Result<usize, TextKind>
    requires some { 0 < pull }
    requires few { pull ≤ 1048576 }
    ensures pulls { PullsOnto (S.given source.old) (S.given source.new) held.old.items held.new.items }
    ensures count { IfOk result (λ n. length held.new.items ≡ length held.old.items + n) }
    ensures small { IfOk result (λ n. n ≤ pull) }
    ensures room { OnOk result (length held.old.items ≤ 1073741824) }
    ensures ended { IfOk result (λ n. (S.given source.new).ended ≡ (n == 0)) }
    ensures refused { IfErr result (λ kind. (kind ≡ Memory) ⊎ (kind ≡ ReadFault)) }
    ensures sound { OnOk result (S.is_failed source.new ≡ false) }
    ensures failed { IfErr result (λ kind. S.is_failed source.old ≡ false
        → S.is_failed source.new ≡ is_read_kind kind) }
{
    let start = held.len();
    if start > MOST_HELD {
        return Err(TextKind::Memory);
    }
    held.resize(start + pull, 0)?;
    match pull_behind(source, held, start) {
        Ok(count) => {
            held.truncate(start + count);
            Ok(count)
        }
        Err(_) => {
            held.truncate(start);
            Err(TextKind::ReadFault)
        }
    }
}

/// Texts that are pulled from a source one after the other.
#[derive(Drop)]
pub struct ComingTexts {
    held: Vec<u8>,
    lines: u64,
}

impl Model for ComingTexts {
    ghost use Rattle.worker_texts.specs.TextForms.{Held};

    /// The bytes that were pulled and are of no text that was read, and the number of lines in front of them.
    ghost Value = { Held };

    ghost view = { λ r. record { bytes = r.held.items; lines = r.lines } };
}

impl ComingTexts {
    ghost use Rattle.std.specs.Prelude.{◌≡◌, ◌≤◌, ◌+◌, ◌^◌, ◌<◌, false, drop, take, length};
    ghost use Rattle.worker_texts.specs.TextForms.{nothing_held, lines_in, ReadsNext, IsPrompt, is_read_fault};

    /// Creates a reader that has pulled nothing.
    pub fn new(alloc: Global) -> Self
        ensures { result ≡ nothing_held }
    {
        ComingTexts {
            held: Vec::new(alloc),
            lines: 0,
        }
    }

    /// Lets go of the first `count` bytes that are held, and counts their lines.
    fn take_front(&mut self, count: usize)
        requires { count ≤ length self.old.bytes }
        ensures bytes { self.new.bytes ≡ drop count self.old.bytes }
        ensures lines { self.old.lines + lines_in (take count self.old.bytes) < 2 ^ 64
            → self.new.lines ≡ self.old.lines + lines_in (take count self.old.bytes) }
    {
        let more = lines_in(&self.held[..count]);
        self.lines = self.lines.saturating_add(more);
        let length = self.held.len();
        self.held.as_mut_slice().copy_within(count..length, 0);
        self.held.truncate(length - count);
    }

    /// Reads the next text of this `form` that a `source` gives, and asks it for at most `pull` bytes at a time.
    /// Returns `None` at the end of the source. Each call is lent the same `source`.
    ///
    /// It pulls only until the text's last line has come. So no byte behind the text is pulled that the source hadn't
    /// to give, and at most those of one pull. They are held for the next call.
    ///
    /// # Errors
    ///
    /// - Returns the first fault of the bytes, with its line in all that the source gave, as soon as its line has come.
    ///   A fault that the bytes end too early comes only once the source has ended.
    /// - Returns `ReadFault` if the source could not be read.
    /// - Returns `Memory` if memory was refused, or if more than 1,073,741,824 bytes are held and no text is whole yet.
    ///
    /// All bytes stay held. So a later call reads on after `ReadFault`, or if memory was refused. It meets any other
    /// fault again.
    pub fn next_text<F: TextForm, S: Source>(
        &mut self,
        form: &F,
        alloc: Global,
        source: &mut S,
        pull: usize,
    ) -> Result<Option<F::Text>, TextFault>
        requires can { F.can_read form.now }
        requires by_lines { IsByLines (F.form form.now) }
        requires some { 0 < pull }
        requires few { pull ≤ 1048576 }
        // What was pulled is kept, and what is answered holds of all bytes that are held.
        ensures next { ReadsNext (F.form form.now) self.old (S.given source.old) (S.given source.new) result self.new }
        // At most the bytes of one pull stand behind the text, unless nothing was pulled.
        ensures prompt { IsPrompt pull (S.given source.old) (S.given source.new) result self.new }
        // `ReadFault` comes exactly if the source fails, unless it had failed before.
        ensures failed { S.is_failed source.old ≡ false → S.is_failed source.new ≡ is_read_fault result }
    {
        loop {
            let ended = source.ended();
            match text_in_front(form, alloc, &self.held, ended) {
                Ok(Some((text, length))) => {
                    self.take_front(length);
                    return Ok(Some(text));
                }
                Ok(None) => {}
                Err(fault) => return Err(moved(fault, self.lines)),
            }
            if ended {
                return Ok(None);
            }
            if let Err(kind) = pull_onto(&mut self.held, source, pull) {
                return Err(moved(TextFault { kind, line: 1 }, self.lines));
            }
        }
    }
}
