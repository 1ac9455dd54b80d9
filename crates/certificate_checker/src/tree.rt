//! The judging of a tree, line by line and from state to state.

ghost use Rattle.std.specs.Prelude.{◌≡◌, ◌≤◌, ◌∷◌, ◌++◌, List, All};
ghost use Rattle.connected_sets.specs.Graphs.{graph_problem, graph_order, graph_places, place_problem};
ghost use Rattle.certificate_data.specs.{RoundValue.round_of, Tree.{Tree, Takes}};
ghost use Rattle.certificate_text.specs.Trees.{items_of_tree};
ghost use Rattle.certificate_lines.specs.declared.item.Item.{Item as ItemValue};
ghost use Rattle.checker_laws.specs.Work.{Open, a_tree, some_takes};
ghost use Rattle.state_groups.specs.PlacedValues.{state_at, codes_of_sets, IsPlaced, IsClosable};
ghost use Rattle.certificate_checker.specs.ReadableTrees.{IsReadable, AreReadable};
ghost use Rattle.certificate_checker.specs.Feeding.{stream_of, CountsSteps, IsFed, FeedsThrough, ForEach, items_to_mark};
ghost use Rattle.certificate_checker.specs.{Knowing.{IsKnownAt, AreOfKnownSize}, Judging.{IsCheckInput, IsJudged}};
ghost use Rattle.search_groups.specs.PartLists.{AreListsOf};

use crate::branches::{groups_behind, listed_groups, taken_state};
use crate::feed::{Feed, Halt};
use crate::forms::{next_opening, next_take};
use crate::input::CheckInput;
use crate::known::{closed_known, raised_known};
use crate::leaves::{judge_bound_leaf, judge_seats_leaf, judge_stuck_leaf};
use certificate_lines::{ItemSource, Opening};
use place_sets::CountySet;
use search_groups::{PartLists, Position};
use state_groups::{State, raise_place};
use state_judge::CheckFault;

/// Judges the takes of a branch, up to its mark, against these `groups`.
#[cycle(tree_judging)]
fn judge_takes<C: CountySet, F, S: ItemSource<F>>(
    input: &CheckInput<C>,
    state: &State<C>,
    known: &Option<Position<C>>,
    groups: &[C],
    lists: &mut PartLists<C>,
    feed: &mut Feed<S>,
    from: &mut F,
) -> Result<(), Halt>
    requires input { IsCheckInput C.PLACES C.test input.now }
    requires placed { IsPlaced (graph_places input.now.graph.now) C.test state.now }
    requires groups { All (IsClosable C.test state.now) groups.now }
    requires known { IsKnownAt C.test input.now (state_at (graph_order input.now.graph.now) C.test state.now) known.now }
    requires fits { AreOfKnownSize C.test input.now (state_at (graph_order input.now.graph.now) C.test state.now) known.now groups.now }
    requires lists { AreListsOf C.test (place_problem input.now.graph.now) (graph_places input.now.graph.now) lists.old }
    requires counted { feed.old.line ≤ feed.old.steps.used }
    ensures lists { AreListsOf C.test (place_problem input.now.graph.now) (graph_places input.now.graph.now) lists.new }
    ensures counts { CountsSteps feed.old feed.new }
    ensures fed { FeedsThrough (stream_of S.left S.given feed.old from.old) (stream_of S.left S.given feed.new from.new) (λ a b. IsFed a result b) }
    ensures judged { ForEach (stream_of S.left S.given feed.old from.old) (stream_of S.left S.given feed.new from.new) (λ a b. (takes : Takes) (rest : List ItemValue) (more : List Open)
        → AreReadable input.now.round.now.format takes
        → a.reading.items ≡ items_to_mark takes ++ rest
        → IsJudged
        (graph_problem input.now.graph.now)
        (round_of input.now.round.now)
        (some_takes takes (state_at (graph_order input.now.graph.now) C.test state.now) (codes_of_sets (graph_order input.now.graph.now) C.test groups.now) ∷ more)
        more
        rest
        a
        result
        b) }
{
    let mut left = groups;
    'taking: loop {
        match next_take(feed, from) {
            Ok(Some(codes)) => match taken_state(input, state, left, codes.as_slice(), feed.line) {
                Ok(mut closed) => match closed_known(input, state, known, left) {
                    Ok(below) => match judge_tree(input, &mut closed, below, lists, feed, from) {
                        Ok(()) => left = groups_behind(left),
                        Err(stop) => return Err(stop),
                    },
                    Err(_) => return Err(Halt::Refused),
                },
                Err(stop) => return Err(stop),
            },
            Ok(None) => {
                if left.is_empty() {
                    return Ok(());
                }
                return Err(Halt::Fault(CheckFault::MissingGroup, feed.line));
            }
            Err(stop) => return Err(stop),
        }
    }
}

/// Judges the tree that begins on the next line, at `state`. The state is raised as branches of the tree are passed.
///
/// The recursion goes as deep as takes nest.
#[cycle(tree_judging)]
pub(crate) fn judge_tree<C: CountySet, F, S: ItemSource<F>>(
    input: &CheckInput<C>,
    state: &mut State<C>,
    known: Option<Position<C>>,
    lists: &mut PartLists<C>,
    feed: &mut Feed<S>,
    from: &mut F,
) -> Result<(), Halt>
    requires input { IsCheckInput C.PLACES C.test input.now }
    requires placed { IsPlaced (graph_places input.now.graph.now) C.test state.old }
    requires known { IsKnownAt C.test input.now (state_at (graph_order input.now.graph.now) C.test state.old) known }
    requires lists { AreListsOf C.test (place_problem input.now.graph.now) (graph_places input.now.graph.now) lists.old }
    requires counted { feed.old.line ≤ feed.old.steps.used }
    ensures lists { AreListsOf C.test (place_problem input.now.graph.now) (graph_places input.now.graph.now) lists.new }
    ensures counts { CountsSteps feed.old feed.new }
    ensures fed { FeedsThrough (stream_of S.left S.given feed.old from.old) (stream_of S.left S.given feed.new from.new) (λ a b. IsFed a result b) }
    ensures judged { ForEach (stream_of S.left S.given feed.old from.old) (stream_of S.left S.given feed.new from.new) (λ a b. (tree : Tree) (rest : List ItemValue) (more : List Open)
        → IsReadable input.now.round.now.format tree
        → a.reading.items ≡ items_of_tree tree ++ rest
        → IsJudged
        (graph_problem input.now.graph.now)
        (round_of input.now.round.now)
        (a_tree tree (state_at (graph_order input.now.graph.now) C.test state.old) ∷ more)
        more
        rest
        a
        result
        b) }
{
    let mut known = known;
    'branching: loop {
        match next_opening(feed, from) {
            Ok(opening) => match opening {
                Opening::Branch { county, limit } => match listed_groups(
                    input, state, county, limit, &mut known, lists, feed,
                ) {
                    Ok(branching) => match judge_takes(
                        input,
                        state,
                        &known,
                        &branching.groups,
                        lists,
                        feed,
                        from,
                    ) {
                        Ok(()) => {
                            match raised_known(
                                input,
                                state,
                                known,
                                branching.place,
                                branching.limit,
                            ) {
                                Ok(raised) => known = raised,
                                Err(_) => return Err(Halt::Refused),
                            }
                            raise_place(
                                input.graph.ordered,
                                state,
                                branching.place,
                                branching.limit,
                            )
                        }
                        Err(stop) => return Err(stop),
                    },
                    Err(stop) => return Err(stop),
                },
                Opening::Stuck(county) => return judge_stuck_leaf(input, state, county, feed.line),
                Opening::Seats => return judge_seats_leaf(input, state, feed.line),
                Opening::Bound(count) => return judge_bound_leaf(
                    input, state, &mut known, count, lists, feed, from,
                ),
            },
            Err(stop) => return Err(stop),
        }
    }
}
