//! The verdict on a part of a tree: one branch, whose leaves are all open.

ghost use Rattle.std.specs.Prelude.{◌≡◌, ◌≤◌, length};
ghost use Rattle.county_codes.specs.Limits.{most_counties};
ghost use Rattle.county_problem.specs.ProblemValue.{problem_of};
ghost use Rattle.certificate_data.specs.RoundValue.{target_of};
ghost use Rattle.checker_laws.specs.Verdict.{IsLawfulTarget};

use crate::certificates::problems::two_numbers;
use anyhow::{Context, Error, Result};
use certificate_data::{Format, Round};
use connected_sets::CountyGraph;
use county_codes::{Codes, CountyCode, listed_codes};
use county_problem::{Ordered, Problem};
use partial_trees::{PartStop, PartialBranch, PartialTake, PartialTree, check_part};
use place_sets::{MaskSet, fits_mask};
use search_groups::PartLists;
use state_groups::{State, first_state};
use std::alloc::Global;
use std::str;

/// The limit of the round, in counties: as many as the worked problem has.
const LIMIT: u16 = 4;

/// Parses the codes that a `line` spells.
fn codes_in(alloc: Global, line: &str) -> Result<Codes> {
    let mut codes = Vec::new(alloc);
    for word in line.split(' ') {
        let code = CountyCode::new(word.parse::<u32>()?).context("no code")?;
        codes.push(code)?;
    }
    Ok(Codes::new(codes))
}

/// Parses the take that a `line` spells. Its leaf is open.
fn take_in(alloc: Global, line: &str) -> Result<PartialTake> {
    let tree = PartialTree {
        branches: Vec::new(alloc),
        rest: None,
    };
    Ok(PartialTake {
        codes: codes_in(alloc, line)?,
        tree,
    })
}

/// Parses a part of one branch. Its county and limit stand in `words`, and the codes of each take on a line of `text`.
/// All its leaves are open.
fn part_in(alloc: Global, words: &str, text: &[u8]) -> Result<PartialTree> {
    let (county, limit) = two_numbers(words)?;
    let mut takes = Vec::new(alloc);
    for line in str::from_utf8(text)?.split('\n') {
        if !line.is_empty() {
            takes.push(take_in(alloc, line)?)?;
        }
    }
    let mut branches = Vec::new(alloc);
    branches.push(PartialBranch {
        county: CountyCode::new(county).context("no code")?,
        limit: Some(u16::try_from(limit)?),
        takes,
    })?;
    Ok(PartialTree {
        branches,
        rest: None,
    })
}

/// Returns in words what is said of `part` at the state where nothing is closed: how many leaves are open, and how many
/// groups are closed at their states together. Returns an error if memory was refused.
fn judged(
    alloc: Global,
    ordered: &Ordered,
    round: &Round,
    part: &PartialTree,
    budget: u64,
) -> Result<String>
    requires few { length ordered.now.order ≤ 128 }
    requires same { ordered.now.order ≡ round.now.order }
    requires small { round.now.limit ≤ most_counties }
    requires target { IsLawfulTarget (problem_of ordered.now.problem) (target_of round.now.target) }
{
    let graph: CountyGraph<MaskSet> = CountyGraph::build(alloc, ordered)?;
    let state: State<MaskSet> = first_state(alloc, ordered)?;
    let mut lists = PartLists::new(alloc);
    let open = match check_part(&graph, round, &state, false, &mut lists, part, budget) {
        Ok(open) => open,
        Err(PartStop::NotAProof) => return Ok(String::from_str(alloc, "no part")?),
        Err(PartStop::Budget) => return Ok(String::from_str(alloc, "over the budget")?),
        Err(PartStop::Memory) => return Err(Error::msg("out of memory")),
    };
    let mut closed = 0usize;
    for state in &open {
        closed = closed.saturating_add(state.closed.len());
    }
    let leaves = open.len();
    Ok(format!(in alloc; "open leaves: {leaves}, closed groups: {closed}")?)
}

/// Returns in words what is said of the part that `words` and `text` tell, in a wide round without a target. The words
/// are the budget, the county and the limit of its branch. Returns an error if a mask has no room for the counties.
pub(crate) fn part_said(
    alloc: Global,
    problem: &Problem,
    words: &str,
    text: &[u8],
) -> Result<String> {
    let (budget, branch) = words.split_once(' ').context("a number is missing")?;
    let part = part_in(alloc, branch, text)?;
    let order = listed_codes(alloc, problem.counties())?;
    let ordered = Ordered::build(alloc, problem, &order)?;
    if !fits_mask(usize::from(ordered.places())) {
        return Err(Error::msg("a mask has no room for this number of counties"));
    }
    let round = Round {
        order: Codes::new(order),
        limit: LIMIT,
        target: None,
        format: Format::Wide,
        tolerance: problem.named_tolerance(),
    };
    judged(alloc, &ordered, &round, &part, budget.parse::<u64>()?)
}
