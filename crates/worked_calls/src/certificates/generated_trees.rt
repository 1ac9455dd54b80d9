//! Trees that are made here.

ghost use Rattle.std.specs.Prelude.{◌<◌, ◌≤◌};
ghost use Rattle.county_codes.specs.Limits.{most_counties};

use anyhow::{Context, Result};
use certificate_data::{Allowance, Branch, Format, Leaf, Take, Tree, Weight, Weights};
use certificate_text::{read_tree, write_tree};
use county_codes::{Codes, CountyCode};
use std::alloc::Global;

/// Numbers that look random, the same in each run.
#[derive(Drop)]
struct Dice {
    state: u64,
}

impl Dice {
    /// Returns a number below `below`.
    fn roll(&mut self, below: u32) -> u32
        requires { 0 < below }
        ensures { result < below }
    {
        self.state = self
            .state
            .wrapping_mul(6_364_136_223_846_793_005)
            .wrapping_add(1_442_695_040_888_963_407);
        ((self.state >> 33) % u64::from(below)) as u32
    }

    /// Returns a code.
    fn code(&mut self) -> Result<CountyCode> {
        CountyCode::new(self.roll(100_000)).context("a code")
    }

    /// Returns one to four codes.
    fn codes(&mut self, alloc: Global) -> Result<Codes> {
        let mut codes = Vec::new(alloc);
        for _ in 0..1 + self.roll(4) {
            codes.push(self.code()?)?;
        }
        Ok(Codes::new(codes))
    }

    /// Returns up to nine weights, with their codes ascending.
    fn weights(&mut self, alloc: Global) -> Result<Weights> {
        let mut weights = Vec::new(alloc);
        for ten in 0..self.roll(10) {
            let county = CountyCode::new(10_000 * ten + self.roll(10_000)).context("a code")?;
            let weight = 1 + self.roll(1_000_000);
            weights.push(Weight { county, weight })?;
        }
        Ok(Weights::new(weights))
    }

    /// Returns a line of a bound leaf.
    fn allowance(&mut self, alloc: Global) -> Result<Allowance> {
        if self.roll(2) == 0 {
            return Ok(Allowance::Room);
        }
        let quota = 1 + self.roll(256_000_000);
        let weights = self.weights(alloc)?;
        Ok(Allowance::Weigh { quota, weights })
    }

    /// Returns a leaf.
    fn leaf(&mut self, alloc: Global) -> Result<Leaf> {
        match self.roll(3) {
            0 => Ok(Leaf::Stuck(self.code()?)),
            1 => Ok(Leaf::Seats),
            _ => {
                let mut lines = Vec::new(alloc);
                for _ in 0..self.roll(5) {
                    lines.push(self.allowance(alloc)?)?;
                }
                Ok(Leaf::Bound(lines))
            }
        }
    }

    /// Returns a branch. The trees of its takes have at most `levels` levels.
    #[cycle(made)]
    fn branch(&mut self, alloc: Global, format: Format, levels: u16) -> Result<Branch> {
        let county = self.code()?;
        let limit = match format {
            Format::Plain => None,
            Format::Wide => Some(1 + self.roll(256) as u16),
        };
        let mut takes = Vec::new(alloc);
        for _ in 0..self.roll(3) {
            let codes = self.codes(alloc)?;
            let tree = self.tree(alloc, format, levels)?;
            takes.push(Take { codes, tree })?;
        }
        Ok(Branch {
            county,
            limit,
            takes,
        })
    }

    /// Returns a tree of at most `levels` levels.
    #[cycle(made)]
    fn tree(&mut self, alloc: Global, format: Format, levels: u16) -> Result<Tree> {
        let mut branches = Vec::new(alloc);
        let mut left = levels;
        while left > 0 && self.roll(3) > 0 {
            branches.push(self.branch(alloc, format, left - 1)?)?;
            left -= 1;
        }
        let leaf = self.leaf(alloc)?;
        Ok(Tree { branches, leaf })
    }
}

/// Returns whether the text of a `tree` is read, and written as the same text again.
fn comes_back(alloc: Global, tree: &Tree, format: Format, levels: u16) -> Result<bool>
    requires { levels ≤ most_counties }
{
    let text = write_tree(alloc, tree, format, levels)?;
    let again = read_tree(alloc, &text, format, levels)?;
    let second = write_tree(alloc, &again, format, levels)?;
    Ok(text.as_slice() == second.as_slice())
}

/// Makes as many trees as `trees` says. Returns how many of them come back from their texts.
pub(crate) fn round_trips(alloc: Global, trees: u32) -> Result<u32> {
    let mut dice = Dice { state: 2026 };
    let mut back = 0_u32;
    for tree in 0..trees {
        let format = if tree % 2 == 0 {
            Format::Plain
        } else {
            Format::Wide
        };
        let levels = dice.roll(5) as u16;
        let made = dice.tree(alloc, format, levels)?;
        if comes_back(alloc, &made, format, levels)? {
            back = back.saturating_add(1);
        }
    }
    Ok(back)
}
