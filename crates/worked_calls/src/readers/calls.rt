//! Calls that read from sources, whose bytes come a few at a time, or whose pulls fail.

use crate::readers::script::Manner;
use anyhow::Result;
use std::alloc::Global;

/// More pulls than any call here makes.
const MOST_PULLS: u32 = 1_000;

/// Numbers of bytes that come at a time, each with its words. The last number is more than any text here has.
const WAYS: &[(usize, &str)] = &[(1, "by 1"), (2, "by 2"), (7, "by 7"), (100_000, "at once")];

/// A call that reads what sources give.
pub(crate) trait Call {
    /// Returns what is answered for the bytes in memory.
    fn whole(&self, alloc: Global) -> Result<String>;

    /// Returns what is answered for the bytes that a source gives in this `manner`.
    fn pulled(&self, alloc: Global, manner: Manner) -> Result<String>;
}

/// Prints what a `call` answers for bytes in memory, and what it answers if they come a few at a time.
pub(crate) fn show_parts<C: Call>(rt: &HostRuntime, name: &str, call: &C) -> Result<()> {
    let whole = call.whole(rt.alloc())?;
    println!(rt; "{name}: {whole}")?;
    for (at_a_time, way) in WAYS {
        let pulled = call.pulled(rt.alloc(), Manner::sound(*at_a_time))?;
        if pulled == whole {
            println!(rt; "{way}: the same")?;
        } else {
            println!(rt; "{way}: {pulled}")?;
        }
    }
    Ok(())
}

/// Prints what a `call` answers if its first pull fails, then if its second does, and so on. It ends with the first
/// pull that isn't made any more: there the answer is that for the bytes in memory. An answer that is the same as the
/// one before isn't printed again.
fn show_failing_at<C: Call>(rt: &HostRuntime, at_a_time: usize, call: &C) -> Result<()> {
    let whole = call.whole(rt.alloc())?;
    let mut before = String::new(rt.alloc());
    for failing in 1..=MOST_PULLS {
        let pulled = call.pulled(rt.alloc(), Manner { at_a_time, failing })?;
        if pulled == whole {
            println!(rt; "pull {failing}: the same as in memory")?;
            break;
        }
        if pulled != before {
            println!(rt; "pull {failing}: {pulled}")?;
        }
        before = pulled;
    }
    Ok(())
}

/// Prints what a `call` answers if one pull fails, for bytes that come 1, 2 and 7 at a time, and all at once.
pub(crate) fn show_failing<C: Call>(rt: &HostRuntime, name: &str, call: &C) -> Result<()> {
    for (at_a_time, way) in WAYS {
        println!(rt; "{name}, {way}, one pull fails")?;
        show_failing_at(rt, *at_a_time, call)?;
    }
    Ok(())
}
