//! The text of a record.

ghost use Rattle.std.specs.{Prelude.{◌≡◌, ◌++◌, IfOk, OnOk, flat_map}, String.string_bytes};
ghost use Rattle.cli_record.specs.Record.{record_file_word as word_of_file, option_word as word_of_option};
ghost use Rattle.cli_record.specs.Record.{named_sum, left_word, line_after, word_line, read_line, stored_line, status_line, head_lines, asked_lines, file_lines, end_lines};
ghost use Rattle.cli_record.specs.Record.{record_text as text_of};

use crate::escapes::push_escaped;
use crate::run::{FileRead, FileStored, ReadFile, Run, StoreOption};
use cli_file_stores::ByteSum;
use field_lines::push_number;
use std::alloc::{AllocError, Global};

/// Appends the word for `file`, the kind of a file that is read.
fn push_file_word(out: &mut Vec<u8>, file: ReadFile) -> Result<(), AllocError>
    ensures { OnOk result (out.new.items ≡ out.old.items ++ word_of_file file) }
{
    match file {
        ReadFile::Geo => out.extend_from_slice(b"geo"),
        ReadFile::Segment1 => out.extend_from_slice(b"segment1"),
        ReadFile::People => out.extend_from_slice(b"people"),
        ReadFile::Adjacency => out.extend_from_slice(b"adjacency"),
        ReadFile::Links => out.extend_from_slice(b"links"),
        ReadFile::Withdrawn => out.extend_from_slice(b"withdrawn"),
        ReadFile::Grouping => out.extend_from_slice(b"grouping"),
        ReadFile::Assignments => out.extend_from_slice(b"assignments"),
        ReadFile::Events => out.extend_from_slice(b"events"),
        ReadFile::Certificate => out.extend_from_slice(b"certificate"),
    }
}

/// Appends the word for `option`.
fn push_option_word(out: &mut Vec<u8>, option: StoreOption) -> Result<(), AllocError>
    ensures { OnOk result (out.new.items ≡ out.old.items ++ word_of_option option) }
{
    match option {
        StoreOption::Certificate => out.extend_from_slice(b"certificate"),
        StoreOption::Out => out.extend_from_slice(b"out"),
        StoreOption::Table => out.extend_from_slice(b"table"),
        StoreOption::Groupings => out.extend_from_slice(b"groupings"),
        StoreOption::Districts => out.extend_from_slice(b"districts"),
        StoreOption::Events => out.extend_from_slice(b"events"),
    }
}

/// Appends the count of bytes of `sum`, their digest and `name`, with a blank before each.
#[tactic(auto, unfolding(crate::specs::Record::named_sum))]
fn push_named_sum(out: &mut Vec<u8>, sum: &ByteSum, name: &[u8]) -> Result<(), AllocError>
    ensures { OnOk result (out.new.items ≡ out.old.items ++ named_sum sum.now name.now) }
{
    out.extend_from_slice(b" ")?;
    push_number(out, sum.bytes())?;
    out.extend_from_slice(b" ")?;
    out.extend_from_slice(sum.digest())?;
    out.extend_from_slice(b" ")?;
    push_escaped(out, name)
}

/// Appends ` left` if the file was `left` before its end.
fn push_left(out: &mut Vec<u8>, left: bool) -> Result<(), AllocError>
    ensures { OnOk result (out.new.items ≡ out.old.items ++ left_word left) }
{
    if left {
        out.extend_from_slice(b" left")?;
    }
    Ok(())
}

/// Appends a line with `word` and then `bytes` with their escapes.
#[tactic(auto, unfolding(crate::specs::Record::line_after))]
fn push_line(out: &mut Vec<u8>, word: &[u8], bytes: &[u8]) -> Result<(), AllocError>
    ensures { OnOk result (out.new.items ≡ out.old.items ++ line_after word.now bytes.now) }
{
    out.extend_from_slice(word)?;
    push_escaped(out, bytes)?;
    out.extend_from_slice(b"\n")
}

/// Appends the line of `read`, a file that was read.
#[tactic(auto, unfolding(crate::specs::Record::read_line))]
fn push_read(out: &mut Vec<u8>, read: &FileRead) -> Result<(), AllocError>
    ensures { OnOk result (out.new.items ≡ out.old.items ++ read_line read.now) }
{
    out.extend_from_slice(b"read ")?;
    push_file_word(out, read.file)?;
    push_named_sum(out, &read.sum, read.name.as_bytes())?;
    push_left(out, read.left)?;
    out.extend_from_slice(b"\n")
}

/// Appends the line of `stored`, a file that was stored.
#[tactic(auto, unfolding(crate::specs::Record::stored_line))]
fn push_stored(out: &mut Vec<u8>, stored: &FileStored) -> Result<(), AllocError>
    ensures { OnOk result (out.new.items ≡ out.old.items ++ stored_line stored.now) }
{
    out.extend_from_slice(b"stored ")?;
    push_option_word(out, stored.option)?;
    push_named_sum(out, &stored.sum, stored.name.as_bytes())?;
    out.extend_from_slice(b"\n")
}

/// Appends a line for each of `words`.
fn push_words(out: &mut Vec<u8>, words: &[String]) -> Result<(), AllocError>
    ensures { OnOk result (out.new.items ≡ out.old.items ++ flat_map (λ w. word_line (string_bytes w)) words.now) }
{
    for word in words {
        push_line(out, b"word ", word.as_bytes())?;
    }
    Ok(())
}

/// Appends a line for each of `reads`, the files that were read.
fn push_reads(out: &mut Vec<u8>, reads: &[FileRead]) -> Result<(), AllocError>
    ensures { OnOk result (out.new.items ≡ out.old.items ++ flat_map read_line reads.now) }
{
    for read in reads {
        push_read(out, read)?;
    }
    Ok(())
}

/// Appends a line for each of `stores`, the files that were stored.
fn push_stores(out: &mut Vec<u8>, stores: &[FileStored]) -> Result<(), AllocError>
    ensures { OnOk result (out.new.items ≡ out.old.items ++ flat_map stored_line stores.now) }
{
    for stored in stores {
        push_stored(out, stored)?;
    }
    Ok(())
}

/// Appends the line of `status`.
#[tactic(auto, unfolding(crate::specs::Record::status_line))]
fn push_status(out: &mut Vec<u8>, status: u8) -> Result<(), AllocError>
    ensures { OnOk result (out.new.items ≡ out.old.items ++ status_line status) }
{
    out.extend_from_slice(b"status ")?;
    push_number(out, u64::from(status))?;
    out.extend_from_slice(b"\n")
}

/// Appends the line that says what the text is, and then that of `version`.
#[tactic(auto, unfolding(crate::specs::Record::head_lines))]
fn push_head(out: &mut Vec<u8>, version: &[u8]) -> Result<(), AllocError>
    ensures { OnOk result (out.new.items ≡ out.old.items ++ head_lines version.now) }
{
    out.extend_from_slice(b"countygroups record 1\n")?;
    push_line(out, b"version ", version)
}

/// Appends the line that says what the text is, and then those of the version and of the words of `run`.
fn push_asked(out: &mut Vec<u8>, run: &Run) -> Result<(), AllocError>
    ensures { OnOk result (out.new.items ≡ out.old.items ++ asked_lines run.now) }
{
    push_head(out, run.version.as_bytes())?;
    push_words(out, &run.words)
}

/// Appends the lines of the files that `run` read, and then those of the files that it stored.
fn push_files(out: &mut Vec<u8>, run: &Run) -> Result<(), AllocError>
    ensures { OnOk result (out.new.items ≡ out.old.items ++ file_lines run.now) }
{
    push_reads(out, &run.reads)?;
    push_stores(out, &run.stores)
}

/// Appends the lines of the status and of the answer of `run`.
fn push_end(out: &mut Vec<u8>, run: &Run) -> Result<(), AllocError>
    ensures { OnOk result (out.new.items ≡ out.old.items ++ end_lines run.now) }
{
    push_status(out, run.status)?;
    push_line(out, b"answer ", &run.answer)
}

/// Returns the record of `run`. Its first two lines say what the text is, and give the version. Then each word, each
/// file that was read and each that was stored has a line. The last two lines are the status and the answer.
///
/// In the version, a word, a name and the answer, some bytes are written as `\xHH`, with letters in upper case. These
/// are a backslash, and each byte below 0x20 or above 0x7E. The letters of a digest are in lower case.
///
/// # Errors
///
/// Returns `AllocError` if a growth was refused.
pub fn record_text(alloc: Global, run: &Run) -> Result<Vec<u8>, AllocError>
    ensures { IfOk result (λ v. v.items ≡ text_of run.now) }
{
    let mut out = Vec::new(alloc);
    push_asked(&mut out, run)?;
    push_files(&mut out, run)?;
    push_end(&mut out, run)?;
    Ok(out)
}
