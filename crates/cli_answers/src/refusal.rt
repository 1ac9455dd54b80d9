//! The lines of the program that stand in place of an answer.

ghost use Rattle.std.specs.Prelude.{◌≡◌, ◌≢◌, ℕ, ◌++◌, OnOk, IfOk, codes, decimal};
ghost use Rattle.pl94_counties.specs.declared.fault.Pl94Kind.TheVariants as kinds;
ghost use Rattle.pl94_counties.specs.CountyNames.{IsNoMemory};
ghost use Rattle.people_table.specs.declared.fault.PeopleKind.TheVariants as people;
ghost use Rattle.county_problem.specs.declared.fault.ProblemFault.TheVariants as problem;
ghost use Rattle.cli_answers.specs.Answers.{RefusalShows, IsShown};
ghost use Rattle.cli_answers.specs.Refusals.{line_fault_word, kind_word, people_word, people_answer, code_line_word, assignment_word, refused_line, input_answer, pl94_answer, named_answer, code_file_answer, fault_line, verdict_answer, after_blank, problem_words, refused_problem, problem_answer, file_store_word, device_line, file_store_answer};
ghost use Rattle.county_codes.specs.Digits.{five_digits};
ghost use Rattle.grouping_reader.specs.declared.fault.CodeLineKind.TheVariants as lines_of_codes;
ghost use Rattle.baf_auditor.specs.declared.fault.AssignmentKind.TheVariants as lines_of_assignments;
ghost use Rattle.cli_answers.specs.Refusals.{assignment_answer, cut_line, file_word, input_of as input_file_of};

use crate::answer::{Refusal, RunAnswer};
use crate::fault_text::FaultText;
use crate::file_fault::{FileFault, FileOption};
use crate::outcome::{RunOutcome, Subject};
use baf_auditor::{AssignmentFault, AssignmentKind};
use cli_file_stores::FileStoreFault;
use county_codes::{CountyCode, push_code};
use county_problem::{GroupingFault, ProblemFault};
use field_lines::{LineFault, push_number};
use grouping_reader::{CodeLineFault, CodeLineKind};
use grouping_report::push_grouping_fault;
use people_table::{PeopleFault, PeopleKind};
use pl94_counties::{File, NamedFault, Pl94Fault, Pl94Kind};
use std::alloc::{AllocError, Global};

/// The line that the program writes if memory was refused, with exit status 5. Writing it needs no memory.
pub const MEMORY: &[u8] = b"memory\n";

fn word_of_line_fault(fault: LineFault) -> &'static [u8]
    ensures { result.now ≡ line_fault_word fault }
{
    match fault {
        LineFault::LineTooLong(_) => b"LineTooLong",
        LineFault::TooManyLines => b"TooManyLines",
        LineFault::ReadFault(_) => b"ReadFault",
        LineFault::Memory => b"Memory",
    }
}

fn word_of_kind(kind: Pl94Kind) -> &'static [u8]
    ensures { result.now ≡ kind_word kind }
{
    match kind {
        Pl94Kind::TooFewFields => b"TooFewFields",
        Pl94Kind::BadCode => b"BadCode",
        Pl94Kind::BadNumber => b"BadNumber",
        Pl94Kind::DoubleRecord => b"DoubleRecord",
        Pl94Kind::NoRecord => b"NoRecord",
        Pl94Kind::DoubleCounty => b"DoubleCounty",
        Pl94Kind::DoubleBlock => b"DoubleBlock",
        Pl94Kind::NoCounties => b"NoCounties",
        Pl94Kind::NoBlocks => b"NoBlocks",
        Pl94Kind::TooMany => b"TooMany",
        Pl94Kind::Lower(fault) => word_of_line_fault(fault),
        Pl94Kind::Memory => b"Memory",
    }
}

fn word_of_people(kind: PeopleKind) -> &'static [u8]
    ensures { result.now ≡ people_word kind }
{
    match kind {
        PeopleKind::BadLine => b"BadLine",
        PeopleKind::BadCode => b"BadCode",
        PeopleKind::BadNumber => b"BadNumber",
        PeopleKind::BadName => b"BadName",
        PeopleKind::DoubleCounty => b"DoubleCounty",
        PeopleKind::NoCounties => b"NoCounties",
        PeopleKind::Lower(fault) => word_of_line_fault(fault),
        PeopleKind::Memory => b"Memory",
    }
}

fn word_of_code_line(kind: CodeLineKind) -> &'static [u8]
    ensures { result.now ≡ code_line_word kind }
{
    match kind {
        CodeLineKind::TooFewFields => b"TooFewFields",
        CodeLineKind::BadSign => b"BadSign",
        CodeLineKind::BadSeats => b"BadSeats",
        CodeLineKind::BadCode => b"BadCode",
        CodeLineKind::Lower(fault) => word_of_line_fault(fault),
        CodeLineKind::Memory => b"Memory",
    }
}

fn word_of_assignment(kind: AssignmentKind) -> &'static [u8]
    ensures { result.now ≡ assignment_word kind }
{
    match kind {
        AssignmentKind::TooFewFields => b"TooFewFields",
        AssignmentKind::BadCode => b"BadCode",
        AssignmentKind::BadLabel => b"BadLabel",
        AssignmentKind::TooMany => b"TooMany",
        AssignmentKind::Lower(fault) => word_of_line_fault(fault),
        AssignmentKind::Memory => b"Memory",
    }
}

/// An input file whose text is read line by line, as a refusal names it.
#[derive(Clone, Copy)]
pub enum InputFile {
    /// The PL 94-171 geographic header.
    Geo,
    /// The PL 94-171 data segment 1.
    Segment1,
    /// A table of counties with their people.
    People,
    /// The county adjacency file.
    Adjacency,
    /// Links over the adjacent pairs.
    Links,
    /// The withdrawn sets.
    Withdrawn,
    /// A grouping.
    Grouping,
    /// A block assignment file.
    Assignments,
    /// The events of a board.
    Events,
    /// The rounds and the open pieces that a board tells.
    Pieces,
}

fn input_of(file: File) -> InputFile
    ensures { result ≡ input_file_of file }
{
    match file {
        File::Geo => InputFile::Geo,
        File::Segment1 => InputFile::Segment1,
    }
}

fn word_of_file(file: InputFile) -> &'static [u8]
    ensures { result.now ≡ file_word file }
{
    match file {
        InputFile::Geo => b"geo",
        InputFile::Segment1 => b"segment1",
        InputFile::People => b"people",
        InputFile::Adjacency => b"adjacency",
        InputFile::Links => b"links",
        InputFile::Withdrawn => b"withdrawn",
        InputFile::Grouping => b"grouping",
        InputFile::Assignments => b"assignments",
        InputFile::Events => b"events",
        InputFile::Pieces => b"pieces",
    }
}

/// Returns the line that is shown of a line fault. It is 0 if the text has too many lines, and `line` otherwise.
fn line_of_cut(fault: LineFault, line: u32) -> u32
    ensures { result ≡ cut_line fault line }
{
    match fault {
        LineFault::TooManyLines => 0,
        _ => line,
    }
}

/// Returns the line `refused FILE KIND line L`, from `file`, `kind` and `line`.
#[tactic(auto, unfolding(crate::specs::Refusals::refused_line))]
fn refused_text(alloc: Global, file: &[u8], kind: &[u8], line: u64) -> Result<Vec<u8>, AllocError>
    ensures { IfOk result (λ v. v.items ≡ refused_line file.now kind.now line) }
{
    let mut out = Vec::from_slice(alloc, b"refused ")?;
    out.extend_from_slice(file)?;
    out.extend_from_slice(b" ")?;
    out.extend_from_slice(kind)?;
    out.extend_from_slice(b" line ")?;
    push_number(&mut out, line)?;
    out.extend_from_slice(b"\n")?;
    Ok(out)
}

/// A file that is refused: the option that names it, and what is known of its text.
#[derive(Drop)]
pub struct RefusedFile {
    /// The option that names the file.
    pub option: FileOption,
    /// What is known of its text.
    pub text: FaultText,
}

impl RefusedFile {
    /// Returns what a run comes to that is refused for this `fault` of the file.
    pub(crate) fn outcome(self, fault: FileFault) -> RunOutcome {
        let RefusedFile { option, text } = self;
        RunOutcome::Refused(option, fault, text)
    }
}

/// Returns the refusal of an input file for a fault at `line`, with exit status 4 and with `outcome`.
pub(crate) fn refuse_input(
    alloc: Global,
    file: InputFile,
    kind: &[u8],
    line: u64,
    outcome: RunOutcome,
) -> Refusal
    ensures { RefusalShows (input_answer file kind.now line) result }
{
    let text = refused_text(alloc, word_of_file(file), kind, line);
    Refusal::of_text(text, 4, outcome)
}

/// Returns the refusal of a PL 94-171 file: `refused FILE KIND line L` with exit status 4. The line counts from 1. It
/// is 0 if the file has too many lines, or if none of its lines is a county or a block of the state. Returns `Memory`
/// if that is the fault, or if memory for the line was refused. The outcome tells the file as `refused`, with its
/// `fault`.
pub fn refuse_file(alloc: Global, fault: Pl94Fault, refused: RefusedFile) -> Refusal
    ensures answer { RefusalShows (pl94_answer fault) result }
    ensures shown { IsShown result → fault.kind ≢ kinds.Memory }
{
    let line = match fault.kind {
        Pl94Kind::Memory => return Refusal::Memory,
        Pl94Kind::Lower(cut) => line_of_cut(cut, fault.line),
        _ => fault.line,
    };
    refuse_input(
        alloc,
        input_of(fault.file),
        word_of_kind(fault.kind),
        u64::from(line),
        refused.outcome(FileFault::Census(fault)),
    )
}

/// Returns the refusal of the files of a state, or of the NAME of a county. A fault of the files is refused as
/// `refuse_file` says. If a NAME isn't UTF-8, the refusal is `refused geo BadName line L` with exit status 4. Returns
/// `Memory` if memory for the line was refused. The outcome tells the file as `refused`, with its `fault`.
pub fn refuse_named_counties(alloc: Global, fault: NamedFault, refused: RefusedFile) -> Refusal
    ensures answer { RefusalShows (named_answer fault) result }
    ensures shown { IsShown result → IsNoMemory fault → ⊥ }
{
    match fault {
        NamedFault::Files(fault) => refuse_file(alloc, fault, refused),
        NamedFault::BadName(line) => {
            let outcome = refused.outcome(FileFault::BadName(line));
            refuse_input(alloc, InputFile::Geo, b"BadName", u64::from(line), outcome)
        }
    }
}

/// Returns the refusal of a table of counties: `refused people KIND line L` with exit status 4. The line counts from 1.
/// It is 0 if the table has too many lines, or if none of its lines is a county of the state. Returns `Memory` if that
/// is the fault, or if memory for the line was refused. The outcome tells the file as `refused`, with its `fault`.
pub fn refuse_people(alloc: Global, fault: PeopleFault, refused: RefusedFile) -> Refusal
    ensures answer { RefusalShows (people_answer fault) result }
    ensures shown { IsShown result → fault.kind ≢ people.Memory }
{
    let line = match fault.kind {
        PeopleKind::Memory => return Refusal::Memory,
        PeopleKind::Lower(cut) => line_of_cut(cut, fault.line),
        _ => fault.line,
    };
    let word = word_of_people(fault.kind);
    let outcome = refused.outcome(FileFault::People(fault));
    refuse_input(alloc, InputFile::People, word, u64::from(line), outcome)
}

/// Returns the refusal of a file whose lines have county codes: `refused FILE KIND line L` with exit status 4. The line
/// counts from 1. It is 0 if the file has too many lines. Returns `Memory` if that is the fault, or if memory for the
/// line was refused. The line names `file`. The outcome tells the file as `refused`, with its `fault`.
pub fn refuse_codes(
    alloc: Global,
    file: InputFile,
    fault: CodeLineFault,
    refused: RefusedFile,
) -> Refusal
    ensures answer { RefusalShows (code_file_answer file fault) result }
    ensures shown { IsShown result → fault.kind ≢ lines_of_codes.Memory }
{
    let line = match fault.kind {
        CodeLineKind::Memory => return Refusal::Memory,
        CodeLineKind::Lower(cut) => line_of_cut(cut, fault.line),
        _ => fault.line,
    };
    let word = word_of_code_line(fault.kind);
    let outcome = refused.outcome(FileFault::Codes(fault));
    refuse_input(alloc, file, word, u64::from(line), outcome)
}

/// Returns the refusal of an assignment file: `refused assignments KIND line L` with exit status 4. The line counts
/// from 1. It is 0 if the file has too many lines. Returns `Memory` if that is the fault, or if memory for the line was
/// refused. The outcome tells the file as `refused`, with its `fault`.
pub fn refuse_assignments(alloc: Global, fault: AssignmentFault, refused: RefusedFile) -> Refusal
    ensures answer { RefusalShows (assignment_answer fault) result }
    ensures shown { IsShown result → fault.kind ≢ lines_of_assignments.Memory }
{
    let line = match fault.kind {
        AssignmentKind::Memory => return Refusal::Memory,
        AssignmentKind::Lower(cut) => line_of_cut(cut, fault.line),
        _ => fault.line,
    };
    let word = word_of_assignment(fault.kind);
    let outcome = refused.outcome(FileFault::Assignments(fault));
    refuse_input(
        alloc,
        InputFile::Assignments,
        word,
        u64::from(line),
        outcome,
    )
}

/// Returns the line `fault KIND` for `fault`, with the group, the county or the seats of the fault after the kind.
#[tactic(auto, unfolding(crate::specs::Refusals::fault_line))]
fn fault_text(alloc: Global, fault: GroupingFault) -> Result<Vec<u8>, AllocError>
    ensures { IfOk result (λ v. v.items ≡ fault_line fault) }
{
    let mut out = Vec::from_slice(alloc, b"fault ")?;
    push_grouping_fault(&mut out, fault)?;
    out.extend_from_slice(b"\n")?;
    Ok(out)
}

/// Returns the answer to a grouping that isn't lawful: `fault KIND` with exit status 1. The group, the county or the
/// seats of the fault follow the kind. Returns `Memory` if that is the fault, or if memory for the line was refused.
/// The outcome tells the `fault`, with the `subject` that was judged.
pub fn refuse_verdict(alloc: Global, fault: GroupingFault, subject: Subject) -> Refusal
    ensures { RefusalShows (verdict_answer fault) result }
{
    if fault == GroupingFault::Memory {
        return Refusal::Memory;
    }
    match fault_text(alloc, fault) {
        Ok(text) => Refusal::Shown(RunAnswer {
            text,
            status: 1,
            outcome: RunOutcome::Unlawful(fault),
            subject: Some(subject),
        }),
        Err(AllocError) => Refusal::Memory,
    }
}

/// Appends a blank and then `code`.
fn push_blank_code(out: &mut Vec<u8>, code: CountyCode) -> Result<(), AllocError>
    ensures { OnOk result (out.new.items ≡ out.old.items ++ after_blank (five_digits code)) }
{
    out.extend_from_slice(b" ")?;
    push_code(out, code)
}

/// Appends `word`, a blank and then `code`.
fn push_word_code(out: &mut Vec<u8>, word: &[u8], code: CountyCode) -> Result<(), AllocError>
    ensures { OnOk result (out.new.items ≡ out.old.items ++ (word.now ++ after_blank (five_digits code))) }
{
    out.extend_from_slice(word)?;
    push_blank_code(out, code)
}

/// Appends `word`, a blank and then `number`.
fn push_word_number(out: &mut Vec<u8>, word: &[u8], number: u64) -> Result<(), AllocError>
    ensures { OnOk result (out.new.items ≡ out.old.items ++ (word.now ++ after_blank (decimal number))) }
{
    out.extend_from_slice(word)?;
    out.extend_from_slice(b" ")?;
    push_number(out, number)
}

/// Appends `word`.
fn push_word(out: &mut Vec<u8>, word: &[u8]) -> Result<(), AllocError>
    ensures { OnOk result (out.new.items ≡ out.old.items ++ word.now) }
{
    out.extend_from_slice(word)
}

/// Appends the words for the `fault` that a problem is refused for, with its codes or its set.
fn push_problem(out: &mut Vec<u8>, fault: ProblemFault) -> Result<(), AllocError>
    ensures { OnOk result (out.new.items ≡ out.old.items ++ problem_words fault) }
{
    match fault {
        ProblemFault::BadWindow => push_word(out, b"BadWindow"),
        ProblemFault::SeatsOutOfRange => push_word(out, b"SeatsOutOfRange"),
        ProblemFault::TooManyCounties => push_word(out, b"TooManyCounties"),
        ProblemFault::DoubleCounty(code) => push_word_code(out, b"DoubleCounty", code),
        ProblemFault::NoPeople => push_word(out, b"NoPeople"),
        ProblemFault::EmptyWithdrawn(set) => push_word_number(out, b"EmptyWithdrawn", set as u64),
        ProblemFault::UnknownWithdrawn(code) => push_word_code(out, b"UnknownWithdrawn", code),
        ProblemFault::WithdrawnTwice(code) => push_word_code(out, b"WithdrawnTwice", code),
        ProblemFault::WithdrawnSeats => push_word(out, b"WithdrawnSeats"),
        ProblemFault::UnknownPair(a, b) => {
            push_word_code(out, b"UnknownPair", a)?;
            push_blank_code(out, b)
        }
        ProblemFault::Memory => push_word(out, b"Memory"),
    }
}

/// Returns the line `refused problem KIND` for `fault`, with the codes or the set of the fault after the kind.
#[tactic(auto, unfolding(crate::specs::Refusals::refused_problem))]
fn problem_text(alloc: Global, fault: ProblemFault) -> Result<Vec<u8>, AllocError>
    ensures { IfOk result (λ v. v.items ≡ refused_problem fault) }
{
    let mut out = Vec::from_slice(alloc, b"refused problem ")?;
    push_problem(&mut out, fault)?;
    out.extend_from_slice(b"\n")?;
    Ok(out)
}

/// Returns the refusal of a problem for `fault`: `refused problem KIND` with exit status 4. The codes or the set of the
/// fault follow the kind. Returns `Memory` if that is the fault, or if memory for the line was refused.
pub fn refuse_problem(alloc: Global, fault: ProblemFault) -> Refusal
    ensures answer { RefusalShows (problem_answer fault) result }
    ensures shown { IsShown result → fault ≢ problem.Memory }
{
    if fault == ProblemFault::Memory {
        return Refusal::Memory;
    }
    Refusal::of_text(problem_text(alloc, fault), 4, RunOutcome::Problem(fault))
}

fn word_of_file_store_fault(fault: FileStoreFault) -> &'static [u8]
    ensures { result.now ≡ file_store_word fault }
{
    match fault {
        FileStoreFault::Missing => b"Missing",
        FileStoreFault::TooLarge => b"TooLarge",
        FileStoreFault::Device => b"Device",
        FileStoreFault::Memory => b"Memory",
    }
}

/// Returns the line `device NAME KIND`, from `name` and `kind`.
#[tactic(auto, unfolding(crate::specs::Refusals::device_line))]
fn device_text(alloc: Global, name: &[u8], kind: &[u8]) -> Result<Vec<u8>, AllocError>
    ensures { IfOk result (λ v. v.items ≡ device_line name.now kind.now) }
{
    let mut out = Vec::from_slice(alloc, b"device ")?;
    out.extend_from_slice(name)?;
    out.extend_from_slice(b" ")?;
    out.extend_from_slice(kind)?;
    out.extend_from_slice(b"\n")?;
    Ok(out)
}

/// Returns a copy of `path`, or `None` if memory for it was refused.
fn copied(alloc: Global, path: &str) -> Option<String> {
    String::from_str(alloc, path).ok()
}

/// Returns the refusal of a fault of the file store at the file `name`: `device NAME KIND` with exit status 5 and with
/// `outcome`. Returns `Memory` if that is the fault, or if memory for the line was refused.
fn refuse_device(alloc: Global, name: &str, fault: FileStoreFault, outcome: RunOutcome) -> Refusal
    ensures { RefusalShows (file_store_answer name.now fault) result }
{
    if fault == FileStoreFault::Memory {
        return Refusal::Memory;
    }
    let text = device_text(alloc, name.as_bytes(), word_of_file_store_fault(fault));
    Refusal::of_text(text, 5, outcome)
}

/// Returns the refusal of the file `name` of `option`, which could not be had: `device NAME KIND` with exit status 5.
/// Returns `Memory` if that is the fault, or if memory for the line was refused.
pub fn refuse_load(alloc: Global, option: FileOption, name: &str, fault: FileStoreFault) -> Refusal
    ensures { RefusalShows (file_store_answer name.now fault) result }
{
    let outcome = RunOutcome::NotLoaded(option, fault, copied(alloc, name));
    refuse_device(alloc, name, fault, outcome)
}

/// Returns the refusal of the file `name` of `option`, which could not be stored: `device NAME KIND` with exit status
/// 5. Returns `Memory` if that is the fault, or if memory for the line was refused.
pub fn refuse_store(alloc: Global, option: FileOption, name: &str, fault: FileStoreFault) -> Refusal
    ensures { RefusalShows (file_store_answer name.now fault) result }
{
    let outcome = RunOutcome::NotStored(option, fault, copied(alloc, name));
    refuse_device(alloc, name, fault, outcome)
}
