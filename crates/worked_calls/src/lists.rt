//! All best groupings of small problems, by the certificates that the solver writes.

use crate::sketch::{RING_OF_FOUR, STRANDING_PATH, Sketch, THIRTY_NINE_SEATS};
use anyhow::Result;
use branch_bound::{Answer, solve};
use certificate_text::write;
use county_codes::Grouping;
use county_problem::Problem;
use list_groupings::{Listing, all_best};
use list_report::listing;

/// One county, which is withdrawn.
const ALL_WITHDRAWN: Sketch = Sketch {
    people: &[(1, 100)],
    pairs: &[],
    withdrawn: &[(1, &[1])],
    chamber: 1,
};

/// A county that suits no number of seats.
const NO_SEAT_COUNT: Sketch = Sketch {
    people: &[(1, 150), (3, 50)],
    pairs: &[],
    withdrawn: &[],
    chamber: 2,
};

/// A certificate of the stranding path that consists of the wide leaf alone. The leaf comes to the target's counts with
/// three counties left.
const LONE_LEAF: &[u8] =
    b"county-groups wide certificate 1\norder 37001 37003 37005\nlimit 3\ntarget 1\ngroup 2 37001 37003 37005\nbound 3\nweigh 1\nweigh 1\nroom\nend\n";

/// More steps than the solver takes here, and a greater budget than its certificates cost.
const ENOUGH: u64 = 10_000_000;

/// Prints the text of a `list` of groupings, or that the list is empty.
fn show_list(rt: &HostRuntime, problem: &Problem, list: &[Grouping]) -> Result<()> {
    if list.is_empty() {
        println!(rt; "an empty list")?;
        return Ok(());
    }
    let text = listing(rt.alloc(), problem, list)?;
    print!(rt; "{}", str::from_utf8(&text)?)?;
    Ok(())
}

/// Prints all best groupings by the `text` of a certificate, or what else is answered.
fn show_listed(rt: &HostRuntime, problem: &Problem, text: &[u8]) -> Result<()> {
    match all_best(rt.alloc(), problem, text, ENOUGH)? {
        Listing::All(list) => show_list(rt, problem, &list),
        Listing::Open(gap, line) => {
            println!(rt; "open {gap:?} line {line}")?;
            Ok(())
        }
        Listing::Impossible => {
            println!(rt; "impossible")?;
            Ok(())
        }
        Listing::No(_, line) => {
            println!(rt; "no, line {line}")?;
            Ok(())
        }
        Listing::Budget => {
            println!(rt; "budget")?;
            Ok(())
        }
    }
}

/// Prints all best groupings of `problem` by the solver's certificate, that there is none, or that the answer is open.
pub(crate) fn show_solved(rt: &HostRuntime, problem: &Problem) -> Result<()> {
    match solve(rt.alloc(), problem, ENOUGH)? {
        Answer::Best(_, certificate) => {
            let text = write(rt.alloc(), &certificate)?;
            show_listed(rt, problem, &text)
        }
        Answer::Impossible(certificate) => {
            let text = write(rt.alloc(), &certificate)?;
            show_listed(rt, problem, &text)
        }
        Answer::Open { .. } => {
            println!(rt; "open")?;
            Ok(())
        }
    }
}

/// Prints all best groupings of each small problem, and what is answered of a certificate that isn't complete.
pub(crate) fn show(rt: &HostRuntime) -> Result<()> {
    for sketch in [
        STRANDING_PATH,
        RING_OF_FOUR,
        THIRTY_NINE_SEATS,
        ALL_WITHDRAWN,
        NO_SEAT_COUNT,
    ] {
        show_solved(rt, &sketch.problem(rt.alloc())?)?;
    }
    show_listed(rt, &STRANDING_PATH.problem(rt.alloc())?, LONE_LEAF)
}
