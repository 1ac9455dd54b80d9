//! What calls that read from sources answer where bytes come a few at a time, and where one pull fails. Each pull that a
//! call makes fails once, from the first to the last. Then come files in memory: what their readers gave, where they
//! stood, and what is stored.

mod answers;
mod calls;
mod census;
mod file_store;
mod lines;
mod pieces;
mod script;
mod texts;

use anyhow::Result;

/// Prints what readers of lines, of pieces, of census files and of files in memory answer.
pub(crate) fn show(rt: &HostRuntime) -> Result<()> {
    lines::show(rt)?;
    pieces::show(rt)?;
    census::show(rt)?;
    file_store::show(rt)
}
