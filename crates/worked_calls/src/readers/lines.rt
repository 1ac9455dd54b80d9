//! Lines of texts that are pulled from sources.

use crate::readers::answers::{Answers, CALLS, shown};
use crate::readers::calls::{Call, show_failing, show_parts};
use crate::readers::script::{Manner, source_of};
use crate::readers::texts::{FAILING, TEXTS, long_text};
use anyhow::{Error, Result};
use field_lines::{LineFault, LineReader, Lines, LinesFrom};
use std::alloc::Global;

/// The lines of a text.
#[derive(Clone, Copy)]
struct LinesOf<'a> {
    text: &'a [u8],
}

/// Returns in words the answer `next` of one call. Returns an error if memory was refused.
fn answer(alloc: Global, next: Result<Option<(u32, &[u8])>, LineFault>) -> Result<String> {
    match next {
        Ok(Some((number, line))) => {
            let line = shown(alloc, line)?;
            Ok(format!(in alloc; "{number} {line}")?)
        }
        Ok(None) => Ok(String::from_str(alloc, "end")?),
        Err(LineFault::Memory) => Err(Error::from(LineFault::Memory)),
        Err(fault) => Ok(format!(in alloc; "{fault}")?),
    }
}

/// Returns in words the answers of `CALLS` calls of `lines` in a row.
fn answers<F, L: LinesFrom<F>>(alloc: Global, lines: &mut L, from: &mut F) -> Result<String> {
    let mut answers = Answers::new(alloc);
    for _ in 0..CALLS {
        answers.add(answer(alloc, lines.next_from(from))?)?;
    }
    Ok(answers.text())
}

impl Call for LinesOf<'_> {
    fn whole(&self, alloc: Global) -> Result<String> {
        answers(alloc, &mut Lines::new(self.text), &mut ())
    }

    fn pulled(&self, alloc: Global, manner: Manner) -> Result<String> {
        let mut lines = LineReader::new(alloc)?;
        answers(alloc, &mut lines, &mut source_of(self.text, manner))
    }
}

/// Prints the lines of texts if one pull fails.
fn show_failures(rt: &HostRuntime) -> Result<()> {
    for (name, text) in FAILING {
        let name = format!(in rt.alloc(); "lines of {name}")?;
        show_failing(
            rt,
            name.as_str(),
            &LinesOf {
                text: text.as_bytes(),
            },
        )?;
    }
    Ok(())
}

/// Prints the lines of a text that has a line of this many `letters` after a short one.
fn show_long(rt: &HostRuntime, letters: usize) -> Result<()> {
    let text = long_text(rt.alloc(), letters)?;
    let name = format!(in rt.alloc(); "lines with one of {letters} letters")?;
    show_parts(
        rt,
        name.as_str(),
        &LinesOf {
            text: text.as_bytes(),
        },
    )
}

/// Prints the lines of texts that come in parts, and of texts whose sources fail.
pub(crate) fn show(rt: &HostRuntime) -> Result<()> {
    for (name, text) in TEXTS {
        let name = format!(in rt.alloc(); "lines of {name}")?;
        show_parts(
            rt,
            name.as_str(),
            &LinesOf {
                text: text.as_bytes(),
            },
        )?;
    }
    show_long(rt, 65_536)?;
    show_long(rt, 65_537)?;
    show_failures(rt)
}
