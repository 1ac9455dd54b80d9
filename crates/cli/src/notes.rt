//! What a run notes on its way: what its files say beside their values, and which files it stored. It is for whoever
//! explains the run to a person; no clause speaks of it.

use crate::stored_files::StoredFiles;
use crate::warnings::Warning;
use cli_answers::FileOption;
use county_codes::County;
use pl94_counties::CensusNotes;
use std::alloc::Global;

/// What a run notes on its way.
#[derive(Drop)]
pub struct Notes {
    /// How many counties the files list for the state, and how many people they have. `None` if the counties were not
    /// read.
    pub counties: Option<(usize, u64)>,
    /// The people of the state's own line of the census files. `None` if it was not read.
    pub state_people: Option<u32>,
    /// The STUSAB of the first line of the geographic header and of that of segment 1. `None` where a line was not
    /// read.
    pub states: (Option<[u8; 2]>, Option<[u8; 2]>),
    /// Whether the adjacency file has a pair of listed counties. `None` if the file was not read.
    pub has_pairs: Option<bool>,
    /// What is odd about the files, at most the first of each kind. A warning is left out if memory for it was refused.
    pub warnings: Vec<Warning>,
    /// The file in which the names of the counties stand: the first bytes of the geographic header, at most 65,536, or
    /// the table of counties. It is empty if the counties were not read.
    pub names_head: Vec<u8>,
    /// The files that were stored.
    pub stored: StoredFiles,
    /// The report of a command, or the text of a list or of a board, whose files could not all be stored.
    pub report: Option<Vec<u8>>,
}

/// Returns the number of people of all `counties`.
pub(crate) fn people_of(counties: &[County]) -> u64 {
    let mut people: u64 = 0;
    for county in counties {
        people = people.saturating_add(u64::from(county.people));
    }
    people
}

impl Notes {
    /// Creates the notes of a run that has not met anything yet.
    pub(crate) fn new(alloc: Global) -> Self {
        Notes {
            counties: None,
            state_people: None,
            states: (None, None),
            has_pairs: None,
            warnings: Vec::new(alloc),
            names_head: Vec::new(alloc),
            stored: StoredFiles::none(),
            report: None,
        }
    }

    /// Notes how many `counties` there are, and how many people they have.
    pub(crate) fn note_people(&mut self, counties: &[County]) {
        self.counties = Some((counties.len(), people_of(counties)));
    }

    /// Notes the states that the first lines of the census files name, as far as these were read.
    pub(crate) fn note_states(&mut self, notes: &CensusNotes) {
        let (geo, segment) = self.states;
        self.states = (notes.geo_state.or(geo), notes.segment_state.or(segment));
    }

    /// Notes what the census files say besides their counties: the people of the state, and the states that are named.
    pub(crate) fn note_census(&mut self, notes: &CensusNotes) {
        self.state_people = notes.state_people;
        self.note_states(notes);
    }

    /// Notes how many `counties` were read and how many people they have, and what else the census files say, as
    /// `notes` tell.
    pub(crate) fn note_counties(&mut self, counties: &[County], notes: &CensusNotes) {
        self.note_people(counties);
        self.note_census(notes);
    }

    /// Notes `head`, the first bytes of the geographic header, or the table of counties.
    pub(crate) fn note_names(&mut self, head: Vec<u8>) {
        self.names_head = head;
    }

    /// Notes whether the adjacency file has a pair of listed counties, as `has_pairs` tells.
    pub(crate) fn note_pairs(&mut self, has_pairs: bool) {
        self.has_pairs = Some(has_pairs);
    }

    /// Notes `warning`, if there is one. It is left out if memory for it was refused.
    pub(crate) fn note_warning(&mut self, warning: Option<Warning>) {
        if let Some(warning) = warning {
            let _ = self.warnings.push(warning);
        }
    }

    /// Notes that the file of `option` was stored.
    pub(crate) fn note_stored(&mut self, option: FileOption) {
        self.stored.add(option);
    }

    /// Notes `report`, which is that of a command, or the text of a list or of a board, whose files could not all be
    /// stored.
    pub(crate) fn note_report(&mut self, report: Vec<u8>) {
        self.report = Some(report);
    }
}
