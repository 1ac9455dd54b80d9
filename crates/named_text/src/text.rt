//! The lines of a text, with the names of counties in the lines of groups.

ghost use Rattle.std.specs.Prelude.{◌≡◌, ◌++◌, [], IfOk, OnOk, codes, map};
ghost use Rattle.field_lines.specs.Fields.{fields_of};
ghost use Rattle.pl94_counties.specs.CountyNames.{county_name};
ghost use Rattle.named_text.specs.NamedText.{counties_text, group_text, line_text, named_text as text_with_names};

use crate::names::push_with_name;
use field_lines::Fields;
use pl94_counties::NamedCounty;
use std::alloc::{AllocError, Global};

/// Appends `words`, each with the name of its county in `named`. The first stands after a blank, and each other after a
/// comma and a blank.
fn push_counties(
    out: &mut Vec<u8>,
    named: &[NamedCounty],
    words: Fields<'_>,
) -> Result<(), AllocError>
    ensures { OnOk result (out.new.items ≡ out.old.items ++ counties_text (map county_name named.now) (codes " ") words.entry) }
{
    let mut mark: &[u8] = b" ";
    for word in words {
        out.extend_from_slice(mark)?;
        push_with_name(out, named, word)?;
        mark = b", ";
    }
    Ok(())
}

/// Appends `line`, the line of a group, with the names of its counties in `named`.
fn push_group(out: &mut Vec<u8>, named: &[NamedCounty], line: &[u8]) -> Result<(), AllocError>
    ensures { OnOk result (out.new.items ≡ out.old.items ++ group_text (map county_name named.now) [] (fields_of 32 line.now)) }
{
    let mut words = Fields::new(line, b' ');
    let mut mark: &[u8] = b"";
    while let Some(word) = words.next() {
        out.extend_from_slice(mark)?;
        out.extend_from_slice(word)?;
        if word == b"counties".as_slice() {
            return push_counties(out, named, words);
        }
        mark = b" ";
    }
    Ok(())
}

/// Appends `line`. If it is the line of a group, it gets the names of its counties in `named`.
fn push_line(out: &mut Vec<u8>, named: &[NamedCounty], line: &[u8]) -> Result<(), AllocError>
    ensures { OnOk result (out.new.items ≡ out.old.items ++ line_text (map county_name named.now) line.now) }
{
    if line.starts_with(b"group ") {
        push_group(out, named, line)
    } else {
        out.extend_from_slice(line)
    }
}

/// Returns `text` with the names of the counties in `named`. In each line that begins with `group` and a blank, the
/// words behind `counties` are codes. A blank and the name stand behind the code of a county in `named`, unless the name
/// is empty, and a comma behind each but the last. A name has a blank in place of each byte below 0x20 and of 0x7F. All
/// other lines stay as they are.
///
/// # Errors
///
/// Returns `AllocError` if memory was refused.
pub fn named_text(alloc: Global, text: &[u8], named: &[NamedCounty]) -> Result<Vec<u8>, AllocError>
    ensures { IfOk result (λ v. v.items ≡ text_with_names (map county_name named.now) text.now) }
{
    let mut out = Vec::new(alloc);
    let mut mark: &[u8] = b"";
    for line in Fields::new(text, b'\n') {
        out.extend_from_slice(mark)?;
        push_line(&mut out, named, line)?;
        mark = b"\n";
    }
    Ok(out)
}
