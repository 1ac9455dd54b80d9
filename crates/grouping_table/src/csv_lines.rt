//! A line of a comma-separated text (RFC 4180), as the crate `csv` writes it.

ghost use Rattle.std.specs.Prelude.{◌≡◌, ℕ, ◌≤◌, IfOk, length, map};
ghost use Rattle.csv.specs.Writing.{default_writer, row_text};
ghost use Rattle.grouping_table.specs.Quoting.{line_text};

use csv::WriterBuilder;
use std::alloc::{AllocError, Global};

/// Returns the text of a record of these `fields`, as the crate `csv` writes it.
fn record_of(alloc: Global, fields: &[&[u8]]) -> Result<Vec<u8>, csv::Error>
    ensures { IfOk result (λ v. v.items ≡ row_text default_writer (map (λ f. f.now) fields.now)) }
{
    let mut writer = WriterBuilder::new().from_writer(Vec::new(alloc));
    writer.write_fields(fields)?;
    match writer.into_inner() {
        Ok(text) => Ok(text),
        Err(fault) => Err(fault.into_error()),
    }
}

/// Returns the line of `fields`, of which there are two or more. A comma stands between two fields, and a line feed at
/// the end. A field stands between quotes if it has a comma, a quote, a carriage return or a line feed.
///
/// # Errors
///
/// Returns `AllocError` if memory was refused.
pub fn csv_line(alloc: Global, fields: &[&[u8]]) -> Result<Vec<u8>, AllocError>
    requires { 2 ≤ length fields.now }
    ensures { IfOk result (λ v. v.items ≡ line_text (map (λ f. f.now) fields.now)) }
{
    match record_of(alloc, fields) {
        Ok(line) => Ok(line),
        Err(_) => Err(AllocError),
    }
}
