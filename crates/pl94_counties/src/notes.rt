//! What a reading of the Census files notes beside its answer.

use crate::county_names::NamedFault;
use crate::fault::Pl94Kind;
use crate::fields::DELIMITER;
use field_lines::{LineFault, MAX_LINE, field_at, number_in, two_digits};
use std::alloc::Global;
use std::collections::BTreeMap;

/// SUMLEV of the line of a state itself.
const STATE_LEVEL: &[u8] = b"040";

/// GEOCOMP of a whole area.
const WHOLE: &[u8] = b"00";

/// What a reading of the Census files noted for whoever explains it to a person. No clause speaks of it.
#[derive(Drop)]
pub struct CensusNotes {
    /// STUSAB of the first line of geo, if it has two bytes.
    pub geo_state: Option<[u8; 2]>,
    /// STUSAB of the first line of segment 1, if it has two bytes.
    pub segment_state: Option<[u8; 2]>,
    /// The people of the state's own line. `None` if geo was not read up to such a line, or segment 1 lacks its record.
    pub state_people: Option<u32>,
    /// The bytes of the line at fault, at most 65,536. There are none if no line is at fault, or if memory was refused.
    pub line: Vec<u8>,
    has_geo_line: bool,
    has_segment_line: bool,
    has_state_line: bool,
}

/// Returns STUSAB (field 2) of `line`, a line of geo or of segment 1. Returns `None` if the line lacks the field, or if
/// the field hasn't two bytes.
fn letters_on(line: &[u8]) -> Option<[u8; 2]> {
    match field_at(line, DELIMITER, 1)? {
        [first, second] => Some([*first, *second]),
        _ => None,
    }
}

/// Returns the LOGRECNO (field 8) of `line`, a line of geo, if it is the line of `state` itself. Returns `None` for any
/// other line, and if the LOGRECNO isn't a number from 0 to 4,294,967,295.
fn state_record(line: &[u8], state: u8) -> Option<u32> {
    if field_at(line, DELIMITER, 2)? != STATE_LEVEL || field_at(line, DELIMITER, 4)? != WHOLE {
        return None;
    }
    if two_digits(field_at(line, DELIMITER, 12)?)? != state {
        return None;
    }
    number_in(field_at(line, DELIMITER, 7)?, 0, u32::MAX)
}

impl CensusNotes {
    /// Creates notes that have nothing so far.
    pub fn new(alloc: Global) -> Self {
        CensusNotes {
            geo_state: None,
            segment_state: None,
            state_people: None,
            line: Vec::new(alloc),
            has_geo_line: false,
            has_segment_line: false,
            has_state_line: false,
        }
    }

    /// Notes the STUSAB of `line`, a line of segment 1 that was read. Only the first such line is noted.
    pub(crate) fn note_segment_line(&mut self, line: &[u8]) {
        if !self.has_segment_line {
            self.has_segment_line = true;
            self.segment_state = letters_on(line);
        }
    }

    /// Notes a line of geo that was read. `records` are the people of each record of segment 1.
    pub(crate) fn note_geo_line(&mut self, state: u8, records: &BTreeMap<u32, u32>, line: &[u8]) {
        if !self.has_geo_line {
            self.has_geo_line = true;
            self.geo_state = letters_on(line);
        }
        if self.has_state_line {
            return;
        }
        if let Some(record) = state_record(line, state) {
            self.has_state_line = true;
            self.state_people = records.get(&record).copied();
        }
    }

    /// Notes the bytes of `line`, which is at fault, but at most the first 65,536. They replace the bytes that were
    /// noted before. No bytes are noted if memory was refused.
    pub(crate) fn note_bad_line(&mut self, line: &[u8]) {
        let count = line.len().min(MAX_LINE);
        self.line.clear();
        if self.line.extend_from_slice(&line[..count]).is_err() {
            self.line.clear();
        }
    }

    /// Notes the bytes of a line whose fields have a fault of `kind`, unless it is `Memory`.
    pub(crate) fn note_fault(&mut self, kind: Pl94Kind, line: &[u8]) {
        if !matches!(kind, Pl94Kind::Memory) {
            self.note_bad_line(line);
        }
    }

    /// Notes the bytes of a line with this `fault` of its fields or of its name. A fault of memory notes nothing.
    pub(crate) fn note_named_fault(&mut self, fault: NamedFault, line: &[u8]) {
        match fault {
            NamedFault::Files(fault) => self.note_fault(fault.kind, line),
            NamedFault::BadName(_) => self.note_bad_line(line),
        }
    }

    /// Notes the bytes of `line`, at which a reader stands, if `fault` is that the line is too long.
    pub(crate) fn note_long_line(&mut self, fault: LineFault, line: &[u8]) {
        if matches!(fault, LineFault::LineTooLong(_)) {
            self.note_bad_line(line);
        }
    }
}
