//! The lists of groups that are kept by part of the rest and by size, so that none is made twice.

ghost use Rattle.std.specs.Prelude.{◌≡◌, ℕ, ◌+◌, ◌≤◌, ◌<◌, ◌++◌, true, cond, get_or, length, All, IfOk, OnOk, IfSome, IsErrOf, IsTrue};
ghost use Rattle.grouping_laws.specs.Problem.{Problem};
ghost use Rattle.connected_sets.specs.{Graphs.{graph_places, place_problem, IsGraph}, declared.stop.Stop.Stop};
ghost use Rattle.connected_laws.specs.Listing.{AreBelow, lists_of};
ghost use Rattle.state_groups.specs.StateValue.{state_of};
ghost use Rattle.search_groups.specs.{PartGroups.alone, PartLists.{IsPartList, IsListFor, ArePut, AreListsOf}};

use certificate_data::Format;
use connected_sets::{CountyGraph, Stop};
use county_problem::Steps;
use place_sets::CountySet;
use state_groups::{State, groups_of};
use std::alloc::{AllocError, Global};

/// The number of buckets, which is prime.
const BUCKETS: u32 = 1021;

/// The number of kept lists at which all of them are dropped before one more is kept.
const MOST_LISTS: usize = 20_000;

/// The number of groups in the kept lists at which all lists are dropped before one more is kept.
const MOST_GROUPS: usize = 200_000;

/// All groups of one size that fit a connected part by itself, ordered by their lists of places.
#[derive(Drop)]
pub(crate) struct PartList<C> {
    pub(crate) part: C,
    pub(crate) size: u16,
    pub(crate) groups: Vec<C>,
}

/// Lists of groups by part and size. A part has one list for all states whose rest has the part.
#[derive(Drop)]
pub struct PartLists<C> {
    pub(crate) buckets: Vec<Vec<PartList<C>>>,
    pub(crate) lists: usize,
    pub(crate) groups: usize,
}

impl<C: CountySet> PartList<C> {
    /// Returns whether the list is that of this `part` and `size`.
    fn is_for(&self, part: &C, size: u16) -> bool
        ensures { IsTrue result → IsListFor C.test part.now size self.now }
    {
        self.size == size && self.part.within(part) && part.within(&self.part)
    }
}

/// Returns the list of the `part` and the `size`, if the bucket has it.
fn find<'a, C: CountySet>(bucket: &'a [PartList<C>], part: &C, size: u16) -> Option<&'a PartList<C>>
    ensures is_for { IfSome result (λ list. IsListFor C.test part.now size list.now) }
    ensures there { IfSome result (λ list. (p : Problem) (n : ℕ) → All (IsPartList C.test p n) bucket.now
        → IsPartList C.test p n list.now) }
{
    for list in bucket {
        if list.is_for(part, size) {
            return Some(list);
        }
    }
    None
}

/// Returns the bucket of `part` and `size`, from 0 to 1,020. It depends on each place of the part.
fn bucket_of<C: CountySet>(part: &C, size: u16) -> usize {
    let mut hash = u32::from(size) % BUCKETS;
    let mut from = 0;
    while let Some(place) = part.next(from) {
        hash = (hash * 31 + u32::from(place)) % BUCKETS;
        from = u32::from(place) + 1;
    }
    hash as usize
}

/// Appends copies of the `sets` to the `groups`.
fn put_copies<C: CountySet>(
    alloc: Global,
    sets: &[C],
    groups: &mut Vec<C>,
) -> Result<(), AllocError>
    ensures lists { OnOk result ((n : ℕ)
        → lists_of n C.test groups.new.items ≡ lists_of n C.test groups.old.items ++ lists_of n C.test sets.now) }
    ensures below { OnOk result ((n : ℕ) → AreBelow n C.test sets.now → AreBelow n C.test groups.old.items
        → AreBelow n C.test groups.new.items) }
{
    for set in sets {
        groups.push(set.copy(alloc)?)?;
    }
    Ok(())
}

/// Returns, for each place, the least size that the counties of the part ask for by themselves. It is `size` at the
/// places of the part, and 0 elsewhere.
fn sizes_alone<C: CountySet>(
    alloc: Global,
    places: u16,
    part: &C,
    size: u16,
) -> Result<Vec<u16>, AllocError>
    requires fits { places ≤ C.PLACES }
    requires below { (x : ℕ) → C.test part.now x ≡ true → x < places }
    ensures count { IfOk result (λ v. length v.items ≡ places) }
    ensures sizes { IfOk result (λ v. (x : ℕ) → get_or v.items x 0 ≡ cond (C.test part.now x) size 0) }
{
    let mut least = Vec::new(alloc);
    for place in 0..places {
        least.push(if part.has(place) { size } else { 0 })?;
    }
    Ok(least)
}

/// Returns the state in which no group is closed and the part is the rest. Each county of the part must lie in a group
/// of at least `size` counties.
fn state_alone<C: CountySet>(
    alloc: Global,
    places: u16,
    part: &C,
    size: u16,
) -> Result<State<C>, AllocError>
    requires fits { places ≤ C.PLACES }
    requires below { (x : ℕ) → C.test part.now x ≡ true → x < places }
    ensures value { IfOk result (λ s. state_of C.test s ≡ alone (C.test part.now) size) }
    ensures places { IfOk result (λ s. length s.least.items ≡ places) }
    ensures rest { IfOk result (λ s. (x : ℕ) → C.test s.rest x ≡ C.test part.now x) }
{
    Ok(State {
        closed: Vec::new(alloc),
        rest: part.copy(alloc)?,
        least: sizes_alone(alloc, places, part, size)?,
    })
}

/// Makes the list of the `part` and the `size`. Steps are taken as by `groups_of`.
fn list_part<C: CountySet>(
    graph: &CountyGraph<C>,
    part: &C,
    size: u16,
    steps: &mut Steps,
) -> Result<PartList<C>, Stop>
    requires graph { IsGraph C.test C.PLACES graph.now }
    requires below { (x : ℕ) → C.test part.now x ≡ true → x < graph_places graph.now }
    requires size { 1 ≤ size }
    ensures list { IfOk result (IsPartList C.test (place_problem graph.now) (graph_places graph.now)) }
    ensures is_for { IfOk result (IsListFor C.test part.now size) }
    ensures more { steps.old.used ≤ steps.new.used }
    ensures limit { steps.new.limit ≡ steps.old.limit }
    ensures stopped { IsErrOf result Stop.StepLimit → steps.new.used ≡ steps.new.limit }
{
    let state = state_alone(graph.alloc, graph.ordered.places(), part, size)?;
    let groups = groups_of(graph, Format::Wide, &state, size, steps)?;
    Ok(PartList {
        part: part.copy(graph.alloc)?,
        size,
        groups,
    })
}

impl<C: CountySet> PartLists<C> {
    /// Creates the lists, of which there are none yet.
    pub fn new(alloc: Global) -> PartLists<C>
        ensures lists { (p : Problem) (n : ℕ) → AreListsOf C.test p n result }
    {
        PartLists {
            buckets: Vec::new(alloc),
            lists: 0,
            groups: 0,
        }
    }

    /// Drops all lists if they are full.
    fn make_room(&mut self, alloc: Global)
        ensures lists { (p : Problem) (n : ℕ) → AreListsOf C.test p n self.old → AreListsOf C.test p n self.new }
        ensures room { self.new.lists < 20000 }
    {
        if self.lists >= MOST_LISTS || self.groups >= MOST_GROUPS {
            self.buckets = Vec::new(alloc);
            self.lists = 0;
            self.groups = 0;
        }
    }

    /// Appends empty buckets until there is one at the index `at`.
    fn make_bucket(&mut self, alloc: Global, at: usize) -> Result<(), AllocError>
        ensures lists { (p : Problem) (n : ℕ) → AreListsOf C.test p n self.old → AreListsOf C.test p n self.new }
        ensures bucket { OnOk result (at < length self.new.buckets.items) }
        ensures same { self.new.lists ≡ self.old.lists }
    {
        while self.buckets.len() <= at {
            self.buckets.push(Vec::new(alloc))?;
        }
        Ok(())
    }

    /// Keeps the `list` in the bucket at the index `at`. If the lists are full, they are all dropped before.
    fn keep(&mut self, alloc: Global, at: usize, list: PartList<C>) -> Result<(), AllocError>
        ensures { (p : Problem) (n : ℕ) → IsPartList C.test p n list → AreListsOf C.test p n self.old
            → AreListsOf C.test p n self.new }
    {
        self.make_room(alloc);
        self.make_bucket(alloc, at)?;
        self.lists += 1;
        self.groups = self.groups.saturating_add(list.groups.len());
        let bucket = &mut self.buckets[at];
        bucket.push(list)?;
        Ok(())
    }

    /// Appends copies of the groups of the `part` and the `size` to the `groups`, if their list is kept. Returns
    /// whether it is. If not, the `groups` stay unchanged.
    fn put_kept(
        &self,
        alloc: Global,
        at: usize,
        part: &C,
        size: u16,
        groups: &mut Vec<C>,
    ) -> Result<bool, AllocError>
        ensures put { IfOk result (λ kept. IsTrue kept → (p : Problem) (n : ℕ) → AreListsOf C.test p n self.now
            → ArePut C.test p n part.now size groups.old.items groups.new.items) }
        ensures same { IfOk result (λ kept. ¬ IsTrue kept → groups.new.items ≡ groups.old.items) }
    {
        let Some(bucket) = self.buckets.get(at) else {
            return Ok(false);
        };
        match find(bucket, part, size) {
            Some(list) => {
                put_copies(alloc, &list.groups, groups)?;
                Ok(true)
            }
            None => Ok(false),
        }
    }

    /// Appends the groups of `size` counties that fit the `part` by itself to the `groups`.
    ///
    /// If no list of them is kept, one is made and kept. A list that wasn't made to its end is not kept. A step is
    /// taken to look for the list. If the list is made, steps are taken as by `groups_of`.
    pub(crate) fn put(
        &mut self,
        graph: &CountyGraph<C>,
        part: &C,
        size: u16,
        groups: &mut Vec<C>,
        steps: &mut Steps,
    ) -> Result<(), Stop>
        requires graph { IsGraph C.test C.PLACES graph.now }
        requires below { (x : ℕ) → C.test part.now x ≡ true → x < graph_places graph.now }
        requires size { 1 ≤ size }
        requires lists { AreListsOf C.test (place_problem graph.now) (graph_places graph.now) self.old }
        ensures put { OnOk result (ArePut C.test (place_problem graph.now) (graph_places graph.now) part.now size groups.old.items groups.new.items) }
        ensures lists { AreListsOf C.test (place_problem graph.now) (graph_places graph.now) self.new }
        ensures more { steps.old.used ≤ steps.new.used }
        ensures limit { steps.new.limit ≡ steps.old.limit }
        ensures stopped { IsErrOf result Stop.StepLimit → steps.new.used ≡ steps.new.limit }
    {
        if !steps.tick() {
            return Err(Stop::StepLimit);
        }
        let at = bucket_of(part, size);
        if self.put_kept(graph.alloc, at, part, size, groups)? {
            return Ok(());
        }
        let list = list_part(graph, part, size, steps)?;
        put_copies(graph.alloc, &list.groups, groups)?;
        self.keep(graph.alloc, at, list)?;
        Ok(())
    }
}
