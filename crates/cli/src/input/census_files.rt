//! What the census files give: counties, with or without their names, and census blocks. Each reading goes through both
//! files once, piece by piece.

ghost use Rattle.std.specs.{Prelude.{◌≡◌, ℕ, ◌≤◌, ◌<◌, All, IfOk, map}, List.Sorted.IsStrictlyIncreasing};
ghost use Rattle.field_lines.specs.{Source.Given, Values.GivesUnless};
ghost use Rattle.cli_file_stores.specs.History.{History};
ghost use Rattle.cli_answers.specs.Answers.{Comes};
ghost use Rattle.pl94_counties.specs.{PeopleByCode.IsPl94Memory, Counties.{county_list, block_list}};
ghost use Rattle.pl94_counties.specs.CountyNames.{IsNoMemory, county_name, named_list};
ghost use Rattle.run_laws.specs.{Reading.OfTexts, ProblemSteps.{counties_in, counties_of_census}};
ghost use Rattle.run_laws.specs.{TableSteps.{named_counties_in, named_of_census}, PlanSteps.{blocks_in, blocks_of}};

use crate::input::head_reader::HeadReader;
use crate::input::readers::{give_both_back, open_both};
use crate::notes::Notes;
use cli_answers::{
    FaultText, FileOption, Refusal, RefusedFile, refuse_file, refuse_named_counties,
};
use cli_file_stores::FileStore;
use cli_words::CensusWords;
use county_codes::County;
use pl94_counties::{
    Block, CensusNotes, File, NamedCounty, NamedFault, Pl94Fault, read_blocks_from,
    read_counties_from, read_named_counties_from,
};
use std::alloc::Global;

/// What was kept of both census files, for whoever explains a fault of one of them. No clause speaks of it.
#[derive(Drop)]
struct CensusTexts {
    geo: Vec<u8>,
    segment: Vec<u8>,
    notes: CensusNotes,
}

/// Returns the option of `file`, and the bytes that were kept of this file.
fn kept_of(file: File, geo: Vec<u8>, segment: Vec<u8>) -> (FileOption, Vec<u8>) {
    match file {
        File::Geo => (FileOption::Geo, geo),
        File::Segment1 => (FileOption::Segment, segment),
    }
}

/// Returns `file` as it is refused, by what was kept of it. The states that both files name are noted.
fn refused_of(texts: CensusTexts, file: File, notes: &mut Notes) -> RefusedFile {
    let CensusTexts {
        geo,
        segment,
        notes: read,
    } = texts;
    notes.note_states(&read);
    let (option, head) = kept_of(file, geo, segment);
    let line = read.line;
    RefusedFile {
        option,
        text: FaultText::Read { head, line },
    }
}

/// Returns the file that `fault` is of. A name that isn't UTF-8 is of the geographic header.
fn file_of(fault: &NamedFault) -> File {
    match fault {
        NamedFault::Files(fault) => fault.file,
        NamedFault::BadName(_) => File::Geo,
    }
}

/// Returns the counties that were read, or the refusal of the first fault. `texts` is what was kept of the files.
fn counties_read(
    alloc: Global,
    read: Result<Vec<County>, Pl94Fault>,
    texts: CensusTexts,
    notes: &mut Notes,
) -> Result<Vec<County>, Refusal>
    ensures { (state : ℕ) (geo segment : Given) (now : History)
        → OfTexts (λ g s. GivesUnless IsPl94Memory (λ v. v.items) read (county_list g s state)) geo segment
        → Comes (λ v. v.items) result (counties_in state geo segment now now) }
{
    match read {
        Ok(counties) => {
            notes.note_counties(&counties, &texts.notes);
            notes.note_names(texts.geo);
            Ok(counties)
        }
        Err(fault) => {
            let refused = refused_of(texts, fault.file, notes);
            Err(refuse_file(alloc, fault, refused))
        }
    }
}

/// Reads the counties of `state` from the files that `census` names. The geographic header is opened first, but
/// segment 1 is read before it. The first fault of the two files is refused.
pub(crate) fn load_census_counties<H: FileStore>(
    alloc: Global,
    census: CensusWords<'_>,
    state: u8,
    file_store: &mut H,
    notes: &mut Notes,
) -> Result<Vec<County>, Refusal>
    requires { state ≤ 99 }
    ensures steps { Comes (λ v. v.items) result (counties_of_census (H.contents file_store.old) state census.entry (H.history file_store.old) (H.history file_store.new)) }
    ensures same { H.contents file_store.new ≡ H.contents file_store.old }
    ensures kept { H.stored file_store.new ≡ H.stored file_store.old }
{
    let (geo, segment) = open_both(alloc, census, file_store)?;
    let mut geo = HeadReader::new(alloc, geo);
    let mut segment = HeadReader::new(alloc, segment);
    let mut read_notes = CensusNotes::new(alloc);
    let read = read_counties_from(alloc, &mut geo, &mut segment, state, &mut read_notes);
    let (geo_reader, geo) = geo.into_parts();
    let (segment_reader, segment) = segment.into_parts();
    give_both_back(alloc, census, (geo_reader, segment_reader), file_store)?;
    let texts = CensusTexts {
        geo,
        segment,
        notes: read_notes,
    };
    counties_read(alloc, read, texts, notes)
}

/// Returns the counties that were read with their names, or the refusal of the first fault. `texts` is what was kept of
/// the files.
fn named_read(
    alloc: Global,
    read: Result<Vec<NamedCounty>, NamedFault>,
    texts: CensusTexts,
    notes: &mut Notes,
) -> Result<Vec<NamedCounty>, Refusal>
    ensures { (state : ℕ) (geo segment : Given) (now : History)
        → OfTexts (λ g s. GivesUnless IsNoMemory (λ v. map county_name v.items) read (named_list g s state)) geo segment
        → Comes (λ v. map county_name v.items) result (named_counties_in state geo segment now now) }
{
    match read {
        Ok(named) => {
            notes.note_census(&texts.notes);
            notes.note_names(texts.geo);
            Ok(named)
        }
        Err(fault) => {
            let refused = refused_of(texts, file_of(&fault), notes);
            Err(refuse_named_counties(alloc, fault, refused))
        }
    }
}

/// Reads the counties of `state` with their names, as `load_census_counties` reads them without.
pub(crate) fn load_named_census<H: FileStore>(
    alloc: Global,
    census: CensusWords<'_>,
    state: u8,
    file_store: &mut H,
    notes: &mut Notes,
) -> Result<Vec<NamedCounty>, Refusal>
    requires { state ≤ 99 }
    ensures steps { Comes (λ v. map county_name v.items) result (named_of_census (H.contents file_store.old) state census.entry (H.history file_store.old) (H.history file_store.new)) }
    ensures same { H.contents file_store.new ≡ H.contents file_store.old }
    ensures kept { H.stored file_store.new ≡ H.stored file_store.old }
{
    let (geo, segment) = open_both(alloc, census, file_store)?;
    let mut geo = HeadReader::new(alloc, geo);
    let mut segment = HeadReader::new(alloc, segment);
    let mut read_notes = CensusNotes::new(alloc);
    let read = read_named_counties_from(alloc, &mut geo, &mut segment, state, &mut read_notes);
    let (geo_reader, geo) = geo.into_parts();
    let (segment_reader, segment) = segment.into_parts();
    give_both_back(alloc, census, (geo_reader, segment_reader), file_store)?;
    let texts = CensusTexts {
        geo,
        segment,
        notes: read_notes,
    };
    named_read(alloc, read, texts, notes)
}

/// Returns the census blocks that were read, or the refusal of the first fault. `texts` is what was kept of the files.
fn blocks_read(
    alloc: Global,
    read: Result<Vec<Block>, Pl94Fault>,
    texts: CensusTexts,
    notes: &mut Notes,
) -> Result<Vec<Block>, Refusal>
    ensures steps { (state : ℕ) (geo segment : Given) (now : History)
        → OfTexts (λ g s. GivesUnless IsPl94Memory (λ v. v.items) read (block_list g s state)) geo segment
        → Comes (λ v. v.items) result (blocks_in state geo segment now now) }
    ensures same { IfOk result (λ v. read ≡ Ok v) }
{
    match read {
        Ok(blocks) => Ok(blocks),
        Err(fault) => {
            let refused = refused_of(texts, fault.file, notes);
            Err(refuse_file(alloc, fault, refused))
        }
    }
}

/// Reads the census blocks of `state`, as `load_census_counties` reads the counties. The files are opened anew.
pub(crate) fn load_blocks<H: FileStore>(
    alloc: Global,
    census: CensusWords<'_>,
    state: u8,
    file_store: &mut H,
    notes: &mut Notes,
) -> Result<Vec<Block>, Refusal>
    requires { state ≤ 99 }
    ensures steps { Comes (λ v. v.items) result (blocks_of (H.contents file_store.old) census.entry state (H.history file_store.old) (H.history file_store.new)) }
    ensures ascending { IfOk result (λ v. IsStrictlyIncreasing (map (λ b. b.code) v.items)) }
    ensures small { IfOk result (λ v. All (λ b. b.code < 1000000000000000) v.items) }
    ensures same { H.contents file_store.new ≡ H.contents file_store.old }
    ensures kept { H.stored file_store.new ≡ H.stored file_store.old }
{
    let (geo, segment) = open_both(alloc, census, file_store)?;
    let mut geo = HeadReader::new(alloc, geo);
    let mut segment = HeadReader::new(alloc, segment);
    let mut read_notes = CensusNotes::new(alloc);
    let read = read_blocks_from(alloc, &mut geo, &mut segment, state, &mut read_notes);
    let (geo_reader, geo) = geo.into_parts();
    let (segment_reader, segment) = segment.into_parts();
    give_both_back(alloc, census, (geo_reader, segment_reader), file_store)?;
    let texts = CensusTexts {
        geo,
        segment,
        notes: read_notes,
    };
    blocks_read(alloc, read, texts, notes)
}
