//! Links over pairs in any order, given each way, and of one county. A file of pairs would give them sorted.

use adjacency_reader::{apply_links, read_links};
use anyhow::Result;
use county_codes::CountyCode;
use std::alloc::{AllocError, Global};

/// Returns these `numbers` as pairs of codes. A pair is left out if one of its numbers isn't a code.
fn pairs(
    alloc: Global,
    numbers: &[(u32, u32)],
) -> Result<Vec<(CountyCode, CountyCode)>, AllocError> {
    let mut pairs = Vec::new(alloc);
    for (a, b) in numbers {
        if let (Some(a), Some(b)) = (CountyCode::new(*a), CountyCode::new(*b)) {
            pairs.push((a, b))?;
        }
    }
    Ok(pairs)
}

/// Prints the pairs that come from the pairs `before` by the links of a `text`.
fn show_linked(rt: &HostRuntime, before: &[(u32, u32)], text: &str) -> Result<()> {
    let links = read_links(rt.alloc(), text.as_bytes())?;
    println!(rt; "{before:?} by {text:?}")?;
    for (a, b) in apply_links(rt.alloc(), &pairs(rt.alloc(), before)?, &links)? {
        println!(rt; "{a}|{b}")?;
    }
    Ok(())
}

/// Pairs in any order, given each way, and of one county.
const IN_ANY_ORDER: &[(u32, u32)] = &[
    (37_005, 37_003),
    (37_003, 37_003),
    (37_001, 37_003),
    (37_003, 37_005),
];

/// Prints links over pairs in any order, and over none.
pub(crate) fn show(rt: &HostRuntime) -> Result<()> {
    show_linked(rt, IN_ANY_ORDER, "+|37001|37005")?;
    show_linked(rt, &[], "-|37001|37005")
}
