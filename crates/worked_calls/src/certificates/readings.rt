//! What is said of a case: a tree, a tree in front of other bytes, or a line of words.

use anyhow::{Error, Result};
use certificate_data::Format;
use certificate_lines::{ItemSource, Items, TextFault, TextKind, Words};
use certificate_text::{front_tree, read_tree, write_tree};
use std::alloc::Global;

/// Returns the word for what a comparison showed: `equal` or `DIFFERENT`.
fn outcome(equal: bool) -> &'static str {
    if equal { "equal" } else { "DIFFERENT" }
}

/// Returns whether one more of the `items` comes, or the fault that ends them.
fn comes<S: ItemSource<()>>(items: &mut S) -> std::result::Result<bool, TextFault> {
    Ok(items.next_item(&mut ())?.is_some())
}

/// Returns a `fault` of the text as it is. Returns an error if the fault is that memory was refused.
fn of_text(fault: TextFault) -> Result<TextFault> {
    match fault.kind {
        TextKind::Memory => Err(Error::from(fault)),
        _ => Ok(fault),
    }
}

/// Counts the `items` that come. Returns how many they are, and the fault that ends them, if there is one. Returns an
/// error if memory was refused.
fn count_items<S: ItemSource<()>>(items: &mut S) -> Result<(u64, Option<TextFault>)> {
    for count in 0..u64::MAX {
        match comes(items) {
            Ok(true) => {}
            Ok(false) => return Ok((count, None)),
            Err(fault) => return Ok((count, Some(of_text(fault)?))),
        }
    }
    Ok((u64::MAX, None))
}

/// Returns a `fault` in words. If `met`, the fault that is met item by item, isn't the same, the words say so. Returns
/// an error if memory was refused.
fn fault_said(alloc: Global, fault: TextFault, met: Option<TextFault>) -> Result<String> {
    let TextFault { kind, line } = of_text(fault)?;
    if met == Some(fault) {
        Ok(format!(in alloc; "{kind:?} line {line}")?)
    } else {
        Ok(format!(in alloc; "{kind:?} line {line}, and not so item by item")?)
    }
}

/// Reads `bytes` as a tree in this `format`, for an order of three counties. Returns in words how many lines it has and
/// whether its copy is written back as the same bytes, or its fault.
fn tree(alloc: Global, bytes: &[u8], format: Format) -> Result<String> {
    let (lines, met) = count_items(&mut Items::of_tree(alloc, bytes, format, 3))?;
    match read_tree(alloc, bytes, format, 3) {
        Ok(tree) => {
            let again = write_tree(alloc, &tree.copy()?, format, 3)?;
            let outcome = outcome(again.as_slice() == bytes);
            Ok(format!(in alloc; "tree of {lines} lines, written back {outcome}")?)
        }
        Err(fault) => fault_said(alloc, fault, met),
    }
}

/// Reads the tree in this `format` with which `bytes` begin, for an order of three counties. Returns in words how many
/// bytes are left and whether the tree is written back as the same bytes, or its fault.
fn front(alloc: Global, bytes: &[u8], format: Format) -> Result<String> {
    match front_tree(alloc, bytes, format, 3) {
        Ok((tree, place)) => {
            let again = write_tree(alloc, &tree, format, 3)?;
            let (front, rest) = bytes.split_at(place);
            let outcome = outcome(again.as_slice() == front);
            let left = rest.len();
            Ok(format!(in alloc; "tree in front of {left} bytes, written back {outcome}")?)
        }
        Err(fault) => {
            let TextFault { kind, line } = of_text(fault)?;
            Ok(format!(in alloc; "{kind:?} line {line}")?)
        }
    }
}

/// Reads `bytes` as the words of a line: the name `line`, a number up to 128, and codes. Returns the number and how
/// many codes there are.
fn line_of(alloc: Global, bytes: &[u8]) -> std::result::Result<(u32, usize), TextKind> {
    let mut words = Words::new(bytes, true)?;
    words.named(b"line")?;
    words.counted(2, 129)?;
    let number = words.number(0, 128)?;
    let codes = words.codes(alloc)?;
    Ok((number, codes.as_slice().len()))
}

/// Reads `bytes`, with or without a last LF, as a line of words. Returns in words its number and how many codes it has,
/// or its fault. Returns an error if memory was refused.
fn words(alloc: Global, bytes: &[u8]) -> Result<String> {
    let line = bytes.strip_suffix(b"\n").unwrap_or(bytes);
    match line_of(alloc, line) {
        Ok((number, codes)) => Ok(format!(in alloc; "number {number}, {codes} codes")?),
        Err(TextKind::Memory) => Err(Error::from(TextKind::Memory)),
        Err(kind) => Ok(format!(in alloc; "{kind:?}")?),
    }
}

/// Returns what is said of the `bytes` of a case of this `kind`.
pub(crate) fn reading(alloc: Global, kind: &str, bytes: &[u8]) -> Result<String> {
    match kind {
        "plain tree" => tree(alloc, bytes, Format::Plain),
        "wide tree" => tree(alloc, bytes, Format::Wide),
        "plain front" => front(alloc, bytes, Format::Plain),
        "wide front" => front(alloc, bytes, Format::Wide),
        "words" => words(alloc, bytes),
        _ => Ok(String::from_str(alloc, "no such kind")?),
    }
}
