//! The text by which a board goes on from where a search stopped.

ghost use Rattle.std.specs.Prelude.{◌≡◌, length, IfOk, IfSome};
ghost use Rattle.grouping_laws.specs.Grouping.{Grouping as GroupingLaw};
ghost use Rattle.county_problem.specs.ProblemValue.{problem_of};
ghost use Rattle.certificate_data.specs.declared.format.Format.TheVariants.{Wide};
ghost use Rattle.partial_trees.specs.PartialValue.{partial_of};
ghost use Rattle.board_report.specs.{EventSpelling.{text_of_events, EventsAreSpelled}, Resuming.resuming_events};
ghost use Rattle.branch_bound.specs.Resuming.{IsBestPart};

use crate::answer_text::event_lines;
use certificate_data::Format;
use county_problem::Problem;
use partial_trees::PartialTree;
use share_board::Event;
use std::alloc::{AllocError, Global};

/// Returns the text of the events by which a board goes on from where a search stopped. `part` is what the search had
/// proved of its grouping being best. If it is `None`, the text is empty.
///
/// The board is one whose first target is that grouping, in wide rounds, with the longest group as the limit.
///
/// # Errors
///
/// Returns `AllocError` if memory was refused.
pub fn resuming_text(
    alloc: Global,
    problem: &Problem,
    part: Option<PartialTree>,
) -> Result<Vec<u8>, AllocError>
    requires { IfSome part (λ t. (g : GroupingLaw) × IsBestPart (problem_of problem.now) g (partial_of t)) }
    ensures text { IfOk result (λ text. text.items ≡ text_of_events (resuming_events part)) }
    ensures spelled { IfOk result (λ text. EventsAreSpelled Wide (length problem.now.counties) text.items (resuming_events part)) }
{
    let counties = problem.counties().len() as u16;
    match part {
        Some(part) => event_lines(alloc, &Event::Part(1, 1, part), Format::Wide, counties),
        None => Ok(Vec::new(alloc)),
    }
}
