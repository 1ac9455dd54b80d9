//! Events, taken by a board in turn.

ghost use Rattle.std.specs.Prelude.{◌≡◌, ◌≢◌, ℕ, ◌++◌, Bool, false, List, map, OnOk};
ghost use Rattle.connected_sets.specs.Graphs.{IsGraph};
ghost use Rattle.county_problem.specs.ProblemValue.{problem_of};
ghost use Rattle.board_laws.specs.Content.{Content, Reply as ReplyValue, Memory};
ghost use Rattle.share_board.specs.{BoardValue.{IsOf, Follows, Keeps, IsBoardGraph, AreBoardLists, reply_of}, Events.event_of};
ghost use Rattle.share_board.specs.Replies.{IsReply};
ghost use Rattle.board_report.specs.{ReplyLines.reply_line, Taking.{HasTold, HasHeard}};

use crate::reply_lines::push_reply;
use connected_sets::CountyGraph;
use place_sets::CountySet;
use search_groups::PartLists;
use share_board::{Board, Event, Reply};
use std::alloc::AllocError;

/// Takes `event`, and appends the line of the reply to `text`. The `graph` is that of the board.
fn tell_one<C: CountySet>(
    graph: &CountyGraph<C>,
    board: &mut Board<C>,
    lists: &mut PartLists<C>,
    event: Event,
    text: &mut Vec<u8>,
) -> Result<(), AllocError>
    requires board { (b : Content) × IsOf C.test board.old b }
    requires graph { IsGraph C.test C.PLACES graph.now }
    requires ordered { IsBoardGraph board.old graph.now }
    requires lists { AreBoardLists C.test board.old lists.old }
    ensures lists { AreBoardLists C.test board.new lists.new }
    ensures told { OnOk
        result
        ((b : Content)
        → IsOf C.test board.old b
        → (reply : ReplyValue)
        × IsReply (problem_of board.old.problem) board.old.depth board.old.budget b (event_of event) reply
        × Follows C.test board.old.depth board.old.problem b (event_of event) reply board.new
        × (text.new.items ≡ text.old.items ++ reply_line reply)) }
    ensures keeps { Keeps board.old board.new }
{
    let reply = board.step(graph, lists, event);
    push_reply(text, &reply)
}

/// Takes the `events` in turn, and appends the line of each reply to `text`. The `graph` is that of the board.
pub(crate) fn take_and_tell<C: CountySet>(
    graph: &CountyGraph<C>,
    board: &mut Board<C>,
    lists: &mut PartLists<C>,
    events: Vec<Event>,
    text: &mut Vec<u8>,
) -> Result<(), AllocError>
    requires board { (b : Content) × IsOf C.test board.old b }
    requires graph { IsGraph C.test C.PLACES graph.now }
    requires ordered { IsBoardGraph board.old graph.now }
    requires lists { AreBoardLists C.test board.old lists.old }
    ensures lists { AreBoardLists C.test board.new lists.new }
    ensures told { OnOk result ((b : Content) → IsOf C.test board.old b
        → HasTold C.test board.old b (map event_of events.items) board.new text.old.items text.new.items) }
    ensures keeps { Keeps board.old board.new }
{
    for event in events {
        tell_one(graph, board, lists, event, text)?;
    }
    Ok(())
}

/// Returns whether `reply` says that memory was refused to the event.
fn was_refused<C>(reply: &Reply<C>) -> bool
    ensures { (order : List ℕ) (test : C → ℕ → Bool) → result ≡ false → reply_of order test reply.now ≢ Memory }
{
    match reply {
        Reply::Memory => true,
        _ => false,
    }
}

/// Takes `event`. The `graph` is that of the board.
///
/// # Errors
///
/// Returns `AllocError` if memory was refused.
fn take_one<C: CountySet>(
    graph: &CountyGraph<C>,
    board: &mut Board<C>,
    lists: &mut PartLists<C>,
    event: Event,
) -> Result<(), AllocError>
    requires board { (b : Content) × IsOf C.test board.old b }
    requires graph { IsGraph C.test C.PLACES graph.now }
    requires ordered { IsBoardGraph board.old graph.now }
    requires lists { AreBoardLists C.test board.old lists.old }
    ensures lists { AreBoardLists C.test board.new lists.new }
    ensures taken { OnOk
        result
        ((b : Content)
        → IsOf C.test board.old b
        → (reply : ReplyValue)
        × (reply ≢ Memory)
        × IsReply (problem_of board.old.problem) board.old.depth board.old.budget b (event_of event) reply
        × Follows C.test board.old.depth board.old.problem b (event_of event) reply board.new) }
    ensures keeps { Keeps board.old board.new }
{
    let answer = board.step(graph, lists, event);
    if was_refused(&answer) {
        return Err(AllocError);
    }
    Ok(())
}

/// Takes the `events` in turn. The `graph` is that of the board.
///
/// # Errors
///
/// Returns `AllocError` if memory was refused to one of them.
pub(crate) fn take_all<C: CountySet>(
    graph: &CountyGraph<C>,
    board: &mut Board<C>,
    lists: &mut PartLists<C>,
    events: Vec<Event>,
) -> Result<(), AllocError>
    requires board { (b : Content) × IsOf C.test board.old b }
    requires graph { IsGraph C.test C.PLACES graph.now }
    requires ordered { IsBoardGraph board.old graph.now }
    requires lists { AreBoardLists C.test board.old lists.old }
    ensures lists { AreBoardLists C.test board.new lists.new }
    ensures heard { OnOk result ((b : Content) → IsOf C.test board.old b
        → HasHeard C.test board.old b (map event_of events.items) board.new) }
    ensures keeps { Keeps board.old board.new }
{
    for event in events {
        take_one(graph, board, lists, event)?;
    }
    Ok(())
}
