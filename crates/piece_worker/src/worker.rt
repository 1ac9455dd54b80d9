//! What a worker keeps from piece to piece.

ghost use Rattle.std.specs.Prelude.{◌≡◌, ℕ, None};
ghost use Rattle.grouping_laws.specs.Problem.{Problem};
ghost use Rattle.worker_texts.specs.Coming.{nothing_held};
ghost use Rattle.search_groups.specs.PartLists.{AreListsOf};

use certificate_data::Round;
use place_sets::CountySet;
use search_groups::PartLists;
use std::alloc::Global;
use worker_texts::WorkerTextReader;

/// A round with its number.
#[derive(Drop)]
pub(crate) struct NumberedRound {
    /// The number of the round.
    pub(crate) number: u32,
    /// The round.
    pub(crate) round: Round,
}

/// A worker that proves pieces: the lists of groups that it keeps, the round that was told last, and its reader.
#[derive(Drop)]
pub struct Worker<C> {
    /// The lists of groups, kept from piece to piece.
    pub(crate) lists: PartLists<C>,
    /// The round that was told last, if one was told.
    pub(crate) last: Option<NumberedRound>,
    /// The reader of the texts that the worker is told.
    pub(crate) reader: WorkerTextReader,
}

impl<C: CountySet> Worker<C> {
    /// Creates a worker to which nothing was told. It has read nothing and keeps no list.
    pub fn new(alloc: Global) -> Self
        ensures last { result.last ≡ None }
        ensures reader { result.reader ≡ nothing_held }
        ensures lists { (p : Problem) (n : ℕ) → AreListsOf C.test p n result.lists }
    {
        Worker {
            lists: PartLists::new(alloc),
            last: None,
            reader: WorkerTextReader::new(alloc),
        }
    }
}
