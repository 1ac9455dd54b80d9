//! How far a search is, told while the search runs.

use branch_bound::Watcher;
use county_codes::Grouping;
use county_problem::Steps;
use std::alloc::{AllocError, Global};
use std::io::IsTerminal;
use std::time::Instant;

/// How many seconds pass between two lines.
const PAUSE: u64 = 1;

/// The greatest size whose number of groups is told, so that a line fits a terminal.
const SHOWN: usize = 16;

/// What goes to the beginning of the terminal's line and clears the line.
const CLEAR: &str = "\r\x1b[K";

/// A watcher that tells on standard error how far a search is, about once a second. If standard error is no terminal,
/// it tells nothing.
#[derive(Drop)]
pub(crate) struct Progress<'a> {
    rt: &'a HostRuntime,
    is_shown: bool,
    is_written: bool,
    last: Option<Instant>,
    round: Option<String>,
}

/// Returns the number of groups of each size in `grouping`, from one county on, with a blank before each number. Two
/// points at the end stand for groups of more than `SHOWN` counties.
fn counts(alloc: Global, grouping: &Grouping) -> Result<String, AllocError> {
    let mut text = String::new(alloc);
    let mut left = grouping.groups.len();
    for size in 1..SHOWN + 1 {
        if left == 0 {
            return Ok(text);
        }
        let found = grouping
            .groups
            .iter()
            .filter(|group| group.codes.as_slice().len() == size)
            .count();
        left = left.saturating_sub(found);
        text.push_str(&format!(in alloc; " {found}")?)?;
    }
    if left > 0 {
        text.push_str(" ..")?;
    }
    Ok(text)
}

/// Returns the text of a round whose groups have up to `limit` counties, with the counts of `target`, the best grouping
/// so far.
fn round_text(alloc: Global, limit: u16, target: &Grouping) -> Result<String, AllocError> {
    let counts = counts(alloc, target)?;
    format!(in alloc; "groups of up to {limit} counties, best counts so far{counts}")
}

impl<'a> Progress<'a> {
    /// Creates a watcher that has told nothing yet.
    pub(crate) fn new(rt: &'a HostRuntime) -> Progress<'a> {
        Progress {
            rt,
            is_shown: rt.stderr().is_terminal(),
            is_written: false,
            last: None,
            round: None,
        }
    }

    /// Returns whether a line is due: at least `PAUSE` seconds have passed since the last one, or since the first
    /// state.
    fn is_due(&mut self) -> bool {
        let Ok(now) = Instant::now(self.rt) else {
            return false;
        };
        match self.last {
            Some(last) if now.duration_since(last).as_secs() < PAUSE => false,
            Some(_) => {
                self.last = Some(now);
                true
            }
            None => {
                self.last = Some(now);
                false
            }
        }
    }

    /// Clears the line that was written last.
    pub(crate) fn clear(&self) {
        if self.is_written {
            let _ = eprint!(self.rt; "{CLEAR}");
        }
    }
}

impl Watcher for Progress<'_> {
    fn round(&mut self, limit: u16, target: &Grouping) {
        if self.is_shown {
            self.round = round_text(self.rt.alloc(), limit, target).ok();
        }
    }

    fn step(&mut self, steps: &Steps) {
        if !self.is_shown || !self.is_due() {
            return;
        }
        if let Some(round) = &self.round {
            let used = steps.used();
            let limit = steps.limit();
            let _ = eprint!(self.rt; "{CLEAR}countygroups: {round}, {used} of {limit} steps");
            self.is_written = true;
        }
    }
}
