//! How a piece is split: at a county, or as a part of its proof says.

ghost use Rattle.std.specs.Prelude.{◌≡◌, ℕ, ◌+◌, ◌≤◌, length, IfOk, IfErr, OnOk, OnErr};
ghost use Rattle.board_laws.specs.Content.{Content, split_piece as split_of, part_piece as part_of};
ghost use Rattle.board_laws.specs.{PartialTrees.{IsPart, open_leaves}, Standing.StandsAt};
ghost use Rattle.certificate_laws.specs.State.{State as StateValue, empty_state};
ghost use Rattle.connected_sets.specs.Graphs.{IsGraph};
ghost use Rattle.county_problem.specs.ProblemValue.{problem_of};
ghost use Rattle.partial_trees.specs.PartialValue.{partial_of};
ghost use Rattle.share_board.specs.{declared.piece.Fate.TheVariants.Waits, HeldSkeleton.IsFateAt};
ghost use Rattle.share_board.specs.Replies.{IsReply, most_pieces};
ghost use Rattle.share_board.specs.BoardValue.{IsOf, Follows, Keeps, reply_of, IsBoardGraph, AreBoardLists};
ghost use Rattle.share_board.specs.Dividing.{refusal_of, part_refusal_of, IsSplitRefusal, IsRefusedPart, MaySplit, HasSplit, MayPart, HasParted};

use crate::board::Board;
use crate::changing::divide;
use crate::parts::split_tree;
use crate::reply::Reply;
use crate::splitting::{Pieces, pieces_of};
use certificate_data::Format;
use connected_sets::CountyGraph;
use county_codes::CountyCode;
use county_problem::Steps;
use partial_trees::{PartStop, PartialTree, check_part};
use place_sets::CountySet;
use search_groups::PartLists;
use state_groups::State;
use state_judge::{LineStop, judge_branch};
use std::alloc::{AllocError, Global};

/// Returns the reply for a branch that can't be made because of `stop`.
fn refusal<C>(stop: LineStop) -> Reply<C>
    ensures { result ≡ refusal_of stop }
{
    match stop {
        LineStop::StepLimit => Reply::Budget,
        LineStop::Memory => Reply::Memory,
        LineStop::Fault(_) | LineStop::Unspelled => Reply::CantSplit,
    }
}

/// Returns the reply for a part that isn't taken because of `stop`.
fn part_refusal<C>(stop: PartStop) -> Reply<C>
    ensures { result ≡ part_refusal_of stop }
{
    match stop {
        PartStop::NotAProof => Reply::NotAProof,
        PartStop::Budget => Reply::Budget,
        PartStop::Memory => Reply::Memory,
    }
}

impl<C: CountySet> Board<C> {
    /// Gives the part `tree` to the piece at the place `at`, which waits. The pieces of its open leaves stand behind
    /// all others, at these `states`.
    fn put_part(
        &mut self,
        alloc: Global,
        at: usize,
        tree: PartialTree,
        states: Vec<State<C>>,
    ) -> Result<(), AllocError>
        requires board { (b : Content) × IsOf C.test self.old b }
        requires waits { IsFateAt self.old.fates.items at Waits }
        requires part { IsPart (partial_of tree) }
        requires leaves { length states.items ≡ open_leaves (partial_of tree) }
        requires few { length self.old.fates.items + length states.items ≤ most_pieces }
        ensures parted { OnOk
            result
            ((b : Content) (s : StateValue)
            → IsOf C.test self.old b
            → MayPart C.test self.old b at (partial_of tree) states.items s
            → HasParted C.test self.old.problem b at (partial_of tree) (length self.old.fates.items
            + 1) (length states.items) self.new) }
        ensures same { OnErr result ((b : Content) → IsOf C.test self.old b → IsOf C.test self.new b) }
        ensures keeps { Keeps self.old self.new }
    {
        let count = states.len();
        self.states.truncate(self.fates.len());
        let mut states = states;
        self.states.append(&mut states)?;
        divide(alloc, &mut self.fates, at, tree, count)?;
        Ok(())
    }

    /// Puts the `pieces` of the piece at the place `at`, which waits, behind all others.
    fn put_pieces(
        &mut self,
        alloc: Global,
        at: usize,
        county: CountyCode,
        limit: u16,
        pieces: Pieces<C>,
    ) -> Result<(), AllocError>
        requires board { (b : Content) × IsOf C.test self.old b }
        requires waits { IsFateAt self.old.fates.items at Waits }
        requires count { length pieces.states.items ≡ length pieces.groups.items + 1 }
        requires few { length self.old.fates.items + length pieces.groups.items + 1 ≤ most_pieces }
        ensures split { OnOk
            result
            ((b : Content) (s : StateValue)
            → IsOf C.test self.old b
            → MaySplit C.test self.old b at county limit pieces s
            → HasSplit C.test self.old.problem b at county limit (length self.old.fates.items
            + 1) (length pieces.groups.items + 1) self.new) }
        ensures same { OnErr result ((b : Content) → IsOf C.test self.old b → IsOf C.test self.new b) }
        ensures keeps { Keeps self.old self.new }
    {
        let Pieces { groups, states } = pieces;
        let tree = split_tree(alloc, county, limit, groups)?;
        self.put_part(alloc, at, tree, states)?;
        Ok(())
    }

    /// Returns the pieces into which the piece at the place `at` is split at `county`, or the reply that says why it
    /// can't be split.
    fn pieces_at(
        &self,
        graph: &CountyGraph<C>,
        at: usize,
        county: CountyCode,
        limit: u16,
    ) -> Result<Pieces<C>, Reply<C>>
        requires board { (b : Content) × IsOf C.test self.now b }
        requires waits { IsFateAt self.now.fates.items at Waits }
        requires graph { IsGraph C.test C.PLACES graph.now }
        requires ordered { IsBoardGraph self.now graph.now }
        ensures count { IfOk result (λ pieces. length pieces.states.items ≡ length pieces.groups.items + 1) }
        ensures pieces { IfOk
            result
            (λ pieces. (b : Content) (s : StateValue)
            → IsOf C.test self.now b
            → StandsAt b.skeleton b.round (empty_state (problem_of self.now.problem)) (at + 1) s
            → MaySplit C.test self.now b at county limit pieces s) }
        ensures refused { IfErr
            result
            (λ reply. (b : Content) (s : StateValue)
            → IsOf C.test self.now b
            → StandsAt b.skeleton b.round (empty_state (problem_of self.now.problem)) (at + 1) s
            → IsSplitRefusal (problem_of self.now.problem) self.now.budget b.round s county limit (reply_of self.now.round.order C.test reply)) }
    {
        if limit == 0 {
            return Err(Reply::CantSplit);
        }
        match self.round.format {
            Format::Plain => return Err(Reply::CantSplit),
            Format::Wide => {}
        }
        let state = &self.states[at];
        let mut steps = Steps::new(self.budget);
        match judge_branch(graph, &self.round, state, county, Some(limit), &mut steps) {
            Ok(branching) => {
                match pieces_of(graph, state, branching.place, limit, &branching.groups) {
                    Ok(pieces) => Ok(pieces),
                    Err(_) => Err(Reply::Memory),
                }
            }
            Err(stop) => Err(refusal(stop)),
        }
    }

    /// Splits a piece that waits in a wide round at `county`.
    ///
    /// There is one new piece for each group that fits, has the county and has at most `limit` counties. Another one is
    /// for the case that the county's group is larger. The `graph` is that of the board's problem, by the order of its
    /// rounds.
    pub fn split(
        &mut self,
        graph: &CountyGraph<C>,
        number: u32,
        piece: u32,
        county: CountyCode,
        limit: u16,
    ) -> Reply<C>
        requires board { (b : Content) × IsOf C.test self.old b }
        requires graph { IsGraph C.test C.PLACES graph.now }
        requires ordered { IsBoardGraph self.old graph.now }
        ensures leads { (depth : ℕ) (b : Content) → IsOf C.test self.old b
            → Follows C.test depth self.old.problem b (split_of number piece county limit) (reply_of self.old.round.order C.test result) self.new }
        ensures says { (depth : ℕ) (b : Content)
            → IsOf C.test self.old b
            → IsReply (problem_of self.old.problem) depth self.old.budget b (split_of number piece county limit) (reply_of self.old.round.order C.test result) }
        ensures keeps { Keeps self.old self.new }
    {
        let at = match self.waiting_at(number, piece) {
            Ok(at) => at,
            Err(reply) => return reply,
        };
        let pieces = match self.pieces_at(graph, at, county, limit) {
            Ok(pieces) => pieces,
            Err(reply) => return reply,
        };
        let held = self.fates.len();
        if held >= 65_536 || pieces.groups.len() >= 65_536 - held {
            return Reply::TooManyPieces;
        }
        let first = held as u32 + 1;
        let count = pieces.groups.len() as u32 + 1;
        match self.put_pieces(graph.alloc, at, county, limit, pieces) {
            Ok(()) => Reply::Split(first, count),
            Err(_) => Reply::Memory,
        }
    }

    /// Returns the states at the open leaves of the part `tree` of the piece at the place `at`, or the reply that says
    /// why the part isn't taken.
    fn states_of(
        &self,
        graph: &CountyGraph<C>,
        lists: &mut PartLists<C>,
        at: usize,
        tree: &PartialTree,
    ) -> Result<Vec<State<C>>, Reply<C>>
        requires board { (b : Content) × IsOf C.test self.now b }
        requires waits { IsFateAt self.now.fates.items at Waits }
        requires graph { IsGraph C.test C.PLACES graph.now }
        requires ordered { IsBoardGraph self.now graph.now }
        requires lists { AreBoardLists C.test self.now lists.old }
        ensures lists { AreBoardLists C.test self.now lists.new }
        ensures leaves { IfOk result (λ states. length states.items ≡ open_leaves (partial_of tree.now)) }
        ensures states { IfOk
            result
            (λ states. (b : Content) (s : StateValue)
            → IsOf C.test self.now b
            → StandsAt b.skeleton b.round (empty_state (problem_of self.now.problem)) (at + 1) s
            → IsPart (partial_of tree.now)
            → MayPart C.test self.now b at (partial_of tree.now) states.items s) }
        ensures refused { IfErr
            result
            (λ reply. (b : Content) (s : StateValue)
            → IsOf C.test self.now b
            → StandsAt b.skeleton b.round (empty_state (problem_of self.now.problem)) (at + 1) s
            → IsRefusedPart (problem_of self.now.problem) self.now.budget b.round s (partial_of tree.now) (reply_of self.now.round.order C.test reply)) }
    {
        match check_part(
            graph,
            &self.round,
            &self.states[at],
            true,
            lists,
            tree,
            self.budget,
        ) {
            Ok(states) => Ok(states),
            Err(stop) => Err(part_refusal(stop)),
        }
    }

    /// Takes a part of the proof of a piece, which is then split: there is a new piece for each open leaf of `tree`, in
    /// their order. The part is taken if the piece waits and the part proves the piece's state but for its open leaves.
    /// The `graph` and the `lists` are kept from event to event.
    pub fn part(
        &mut self,
        graph: &CountyGraph<C>,
        lists: &mut PartLists<C>,
        number: u32,
        piece: u32,
        tree: PartialTree,
    ) -> Reply<C>
        requires board { (b : Content) × IsOf C.test self.old b }
        requires graph { IsGraph C.test C.PLACES graph.now }
        requires ordered { IsBoardGraph self.old graph.now }
        requires lists { AreBoardLists C.test self.old lists.old }
        ensures lists { AreBoardLists C.test self.new lists.new }
        ensures leads { (depth : ℕ) (b : Content) → IsOf C.test self.old b
            → Follows C.test depth self.old.problem b (part_of number piece (partial_of tree)) (reply_of self.old.round.order C.test result) self.new }
        ensures says { (depth : ℕ) (b : Content)
            → IsOf C.test self.old b
            → IsReply (problem_of self.old.problem) depth self.old.budget b (part_of number piece (partial_of tree)) (reply_of self.old.round.order C.test result) }
        ensures keeps { Keeps self.old self.new }
    {
        let at = match self.waiting_at(number, piece) {
            Ok(at) => at,
            Err(reply) => return reply,
        };
        if !tree.is_part() {
            return Reply::NotAPart;
        }
        let states = match self.states_of(graph, lists, at, &tree) {
            Ok(states) => states,
            Err(reply) => return reply,
        };
        let held = self.fates.len();
        if held >= 65_536 || states.len() > 65_536 - held {
            return Reply::TooManyPieces;
        }
        let first = self.fates.len() as u32 + 1;
        let count = states.len() as u32;
        match self.put_part(graph.alloc, at, tree, states) {
            Ok(()) => Reply::Split(first, count),
            Err(_) => Reply::Memory,
        }
    }
}
