//! Rounds and open pieces that are read and answered in turn.

ghost use Rattle.std.specs.Prelude.{◌≡◌, Option, false, OnOk, OnErr};
ghost use Rattle.field_lines.specs.Source.{Given};
ghost use Rattle.connected_sets.specs.Graphs.{graph_order, graph_places, graph_problem, place_problem, IsGraph};
ghost use Rattle.search_groups.specs.PartLists.{AreListsOf};
ghost use Rattle.worker_texts.specs.{RoundText.RoundTold, WorkerText.HasWorkerText, TextValue.worker_text_of};
ghost use Rattle.worker_texts.specs.Coming.{is_read_fault};
ghost use Rattle.certificate_lines.specs.Rest.{IsTextMemory};
ghost use Rattle.piece_worker.specs.{Rounds.HoldsRound, Taking.{moment, IsQuiet, Tells, TakesNext}, Serving.HasAnswered};

use crate::answering::ended_answer;
use crate::reply::Reply;
use crate::rounds::numbered_round;
use crate::worker::Worker;
use certificate_lines::{TextFault, TextKind};
use cli_file_stores::Sink;
use connected_sets::CountyGraph;
use field_lines::Source;
use place_sets::CountySet;
use std::alloc::{AllocError, Global};
use worker_texts::WorkerText;
use written_output::{Written, write_next};

/// Returns the fault that memory was refused.
pub(crate) fn memory_fault() -> TextFault
    ensures { IsTextMemory result }
{
    TextFault {
        kind: TextKind::Memory,
        line: 1,
    }
}

/// Keeps the round that a `text` tells, or writes what is said of its piece to `out`, with a line `end` behind it.
fn take_text<C: CountySet, W: Sink>(
    alloc: Global,
    graph: &CountyGraph<C>,
    steps: u64,
    worker: &mut Worker<C>,
    text: WorkerText,
    out: &mut W,
    written: &mut Written,
) -> Result<(), AllocError>
    requires graph { IsGraph C.test C.PLACES graph.now }
    requires order { graph_order graph.now ≡ (graph_problem graph.now).counties }
    requires lists { AreListsOf C.test (place_problem graph.now) (graph_places graph.now) worker.old.lists }
    requires round { (last : Option RoundTold) × HoldsRound (graph_problem graph.now) last worker.old.last }
    requires spelled { HasWorkerText (worker_text_of text) }
    ensures lists { AreListsOf C.test (place_problem graph.now) (graph_places graph.now) worker.new.lists }
    ensures reader { worker.new.reader ≡ worker.old.reader }
    ensures tells { (last : Option RoundTold) → HoldsRound (graph_problem graph.now) last worker.old.last
        → (from : Given) → (to : Given) → OnOk result (Tells (graph_problem graph.now) last text
        (moment worker.old from (W.contents out.old) (W.is_failed out.old) written.old)
        (moment worker.new to (W.contents out.new) (W.is_failed out.new) written.new)) }
    ensures quiet { (from : Given) → (to : Given) → OnErr result (IsQuiet
        (moment worker.old from (W.contents out.old) (W.is_failed out.old) written.old)
        (moment worker.new to (W.contents out.new) (W.is_failed out.new) written.new)) }
{
    match text {
        WorkerText::Round(told) => {
            worker.last = Some(numbered_round(alloc, graph, told)?);
            Ok(())
        }
        WorkerText::Open(piece) => {
            let said = ended_answer(alloc, graph, worker, &piece, steps)?;
            write_next(out, written, &said)?;
            Ok(())
        }
    }
}

/// Reads the next text from the `source`. Keeps its round, or writes what is said of its piece to `out`: the solver's
/// answer within `steps` steps, and then a line `end`. Each call is lent the same `source` and the same `graph`, whose
/// counties stand by ascending codes. Nothing is written behind a write that failed.
///
/// # Errors
///
/// - Returns the fault of the text, or `ReadFault`, as `WorkerTextReader::next_text` does.
/// - Returns `Memory` if memory was refused. If it was refused behind the text, nothing is written of it, and the
///   worker holds the round that it held.
pub fn answer_next<C: CountySet, S: Source, W: Sink>(
    alloc: Global,
    graph: &CountyGraph<C>,
    steps: u64,
    worker: &mut Worker<C>,
    source: &mut S,
    out: &mut W,
    written: &mut Written,
) -> Result<Reply, TextFault>
    requires graph { IsGraph C.test C.PLACES graph.now }
    requires order { graph_order graph.now ≡ (graph_problem graph.now).counties }
    requires lists { AreListsOf C.test (place_problem graph.now) (graph_places graph.now) worker.old.lists }
    requires round { (last : Option RoundTold) × HoldsRound (graph_problem graph.now) last worker.old.last }
    ensures lists { AreListsOf C.test (place_problem graph.now) (graph_places graph.now) worker.new.lists }
    ensures takes { (last : Option RoundTold) → HoldsRound (graph_problem graph.now) last worker.old.last
        → TakesNext (graph_problem graph.now) last
        (moment worker.old (S.given source.old) (W.contents out.old) (W.is_failed out.old) written.old)
        (moment worker.new (S.given source.new) (W.contents out.new) (W.is_failed out.new) written.new)
        result }
    // `ReadFault` comes exactly if the source fails, unless it had failed before.
    ensures failed { S.is_failed source.old ≡ false → S.is_failed source.new ≡ is_read_fault result }
{
    match worker.reader.next_text(alloc, source) {
        Ok(Some(text)) => match take_text(alloc, graph, steps, worker, text, out, written) {
            Ok(()) => Ok(Reply::Taken),
            Err(_) => Err(memory_fault()),
        },
        Ok(None) => Ok(Reply::Ended),
        Err(fault) => Err(fault),
    }
}

/// Answers the texts of the `source` in turn, each as soon as it has come, until the source ends. Keeps each round, and
/// writes what is said of each piece to `out`, as `answer_next` does.
///
/// Nothing is written behind a write that failed. The texts are read all the same.
///
/// # Errors
///
/// - Returns the fault of a text, or `ReadFault`, as `WorkerTextReader::next_text` does.
/// - Returns `Memory` if memory was refused. If it was refused behind a text, nothing is written of that text, and the
///   worker holds the round that it held. It also returns `Memory` behind 2^64 - 1 texts.
pub fn answer_all<C: CountySet, S: Source, W: Sink>(
    alloc: Global,
    graph: &CountyGraph<C>,
    steps: u64,
    worker: &mut Worker<C>,
    source: &mut S,
    out: &mut W,
    written: &mut Written,
) -> Result<(), TextFault>
    requires graph { IsGraph C.test C.PLACES graph.now }
    requires order { graph_order graph.now ≡ (graph_problem graph.now).counties }
    requires lists { AreListsOf C.test (place_problem graph.now) (graph_places graph.now) worker.old.lists }
    requires round { (last : Option RoundTold) × HoldsRound (graph_problem graph.now) last worker.old.last }
    ensures lists { AreListsOf C.test (place_problem graph.now) (graph_places graph.now) worker.new.lists }
    ensures answered { (last : Option RoundTold) → HoldsRound (graph_problem graph.now) last worker.old.last
        → HasAnswered (graph_problem graph.now) last
        (moment worker.old (S.given source.old) (W.contents out.old) (W.is_failed out.old) written.old)
        (moment worker.new (S.given source.new) (W.contents out.new) (W.is_failed out.new) written.new)
        result }
    // `ReadFault` comes exactly if the source fails, unless it had failed before.
    ensures failed { S.is_failed source.old ≡ false → S.is_failed source.new ≡ is_read_fault result }
{
    for _ in 0..u64::MAX {
        match answer_next(alloc, graph, steps, worker, source, out, written) {
            Ok(Reply::Taken) => {}
            Ok(Reply::Ended) => return Ok(()),
            Err(fault) => return Err(fault),
        }
    }
    Err(memory_fault())
}
