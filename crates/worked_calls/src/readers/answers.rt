//! The answers of calls that are made one after the other.

use anyhow::Result;
use std::alloc::Global;
use std::str;

/// How many calls of a reader are made. They are more than the lines of any text here, so that the last calls come
/// after the end or the fault.
pub(crate) const CALLS: u32 = 12;

/// The fewest bytes of a line that isn't printed whole.
const LONG: usize = 40;

/// The answers of calls in a row. An answer that repeats the one before isn't written again.
#[derive(Drop)]
pub(crate) struct Answers {
    text: String,
    last: String,
}

impl Answers {
    /// Creates a row of no answers.
    pub(crate) fn new(alloc: Global) -> Self {
        Answers {
            text: String::new(alloc),
            last: String::new(alloc),
        }
    }

    /// Adds the `answer` of a call, unless it repeats the one before.
    pub(crate) fn add(&mut self, answer: String) -> Result<()> {
        if answer == self.last {
            return Ok(());
        }
        if !self.text.is_empty() {
            self.text.push_str("; ")?;
        }
        self.text.push_str(answer.as_str())?;
        self.last = answer;
        Ok(())
    }

    /// Returns the answers, with a semicolon and a blank between two.
    pub(crate) fn text(self) -> String {
        let Answers { text, last: _ } = self;
        text
    }
}

/// Returns `bytes` as they are printed: how many they are if they are many, and else the bytes in quotes.
pub(crate) fn shown(alloc: Global, bytes: &[u8]) -> Result<String> {
    if bytes.len() < LONG {
        Ok(format!(in alloc; "{:?}", str::from_utf8(bytes)?)?)
    } else {
        Ok(format!(in alloc; "{} bytes", bytes.len())?)
    }
}
