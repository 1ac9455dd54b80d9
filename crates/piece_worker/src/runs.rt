//! A worker from its first text to its last.

ghost use Rattle.std.specs.Prelude.{◌≤◌, ℕ, List, length};
ghost use Rattle.county_problem.specs.ProblemValue.{problem_of};
ghost use Rattle.worker_texts.specs.Coming.{Held};
ghost use Rattle.written_output.specs.Writing.{HasWritten};
ghost use Rattle.piece_worker.specs.Runs.{IsWorkerRun};

use crate::serving::{answer_all, memory_fault};
use crate::worker::Worker;
use board_report::ordered_by_code;
use certificate_lines::TextFault;
use cli_file_stores::Sink;
use connected_sets::CountyGraph;
use county_problem::Problem;
use field_lines::Source;
use place_sets::{CountySet, MaskSet, WideSet, fits_mask};
use std::alloc::Global;
use written_output::Written;

/// Does what `prove_pieces` does, and returns what it returns. `C` is any form of sets of places that has room for the
/// counties of `problem`.
fn prove_over<C: CountySet, S: Source, W: Sink>(
    alloc: Global,
    problem: &Problem,
    steps: u64,
    source: &mut S,
    out: &mut W,
    written: &mut Written,
) -> Result<(), TextFault>
    requires { length problem.now.counties ≤ C.PLACES }
    ensures { (text : List ℕ) × (left : Held)
        × HasWritten W.contents W.is_failed out.old written.old out.new written.new text
        × IsWorkerRun (problem_of problem.now) (S.given source.old) (S.given source.new) text left result }
{
    let Ok(ordered) = ordered_by_code(alloc, problem) else {
        return Err(memory_fault());
    };
    let Ok(graph) = CountyGraph::build(alloc, &ordered) else {
        return Err(memory_fault());
    };
    let mut worker: Worker<C> = Worker::new(alloc);
    answer_all(alloc, &graph, steps, &mut worker, source, out, written)
}

/// Proves the pieces that the `source` tells, one after the other, each within `steps` steps. What is said of each is
/// written to `out` at once, with a line `end` behind it, unless an earlier write failed.
///
/// # Errors
///
/// - Returns the fault of a text that is neither a round nor an open piece, or `ReadFault` if the source failed.
/// - Returns `Memory` if memory was refused.
pub fn prove_pieces<S: Source, W: Sink>(
    alloc: Global,
    problem: &Problem,
    steps: u64,
    source: &mut S,
    out: &mut W,
    written: &mut Written,
) -> Result<(), TextFault>
    ensures { (text : List ℕ) × (left : Held)
        × HasWritten W.contents W.is_failed out.old written.old out.new written.new text
        × IsWorkerRun (problem_of problem.now) (S.given source.old) (S.given source.new) text left result }
{
    if fits_mask(problem.counties().len()) {
        return prove_over::<MaskSet, S, W>(alloc, problem, steps, source, out, written);
    }
    prove_over::<WideSet, S, W>(alloc, problem, steps, source, out, written)
}
