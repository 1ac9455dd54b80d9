//! The object of a line that stands in place of an answer.

ghost use Rattle.std.specs.Prelude.{◌≡◌, IfOk};
ghost use Rattle.json_report.specs.Parts.{Adds, if_utf8, text_member};
ghost use Rattle.json_report.specs.Message.{message_json as message_object, without_end as line_without_end};

use crate::parts::{push_text, utf8_text};
use crate::report::{begin, finish};
use json::Writer;
use std::alloc::{AllocError, Global};

/// Appends the member of this `name` whose value is the text of `bytes`, or no text if they aren't UTF-8.
pub(crate) fn push_bytes(out: &mut Writer, name: &str, bytes: &[u8]) -> Result<(), AllocError>
    ensures { Adds result out.old out.new (text_member name.now (if_utf8 bytes.now)) }
{
    push_text(out, name, utf8_text(bytes))
}

/// Returns `line` without its last byte, which is its line feed.
fn without_end(line: &[u8]) -> &[u8]
    ensures { result.now ≡ line_without_end line.now }
{
    match line.split_last() {
        Some((_, rest)) => rest,
        None => line,
    }
}

/// Returns the object of a `line` that stands in place of an answer, on one line: its member `message` is the line
/// without its line feed, or no text if the line isn't UTF-8.
///
/// # Errors
///
/// Returns `AllocError` if memory was refused.
pub fn message_json(alloc: Global, line: &[u8]) -> Result<Vec<u8>, AllocError>
    ensures { IfOk result (λ v. v.items ≡ message_object line.now) }
{
    let mut out = begin(alloc)?;
    push_bytes(&mut out, "message", without_end(line))?;
    finish(out, &None)
}
