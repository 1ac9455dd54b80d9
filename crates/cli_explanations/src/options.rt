//! The files that the words of a command give.

use crate::shown_bytes::name_of;
use cli_answers::FileOption;
use cli_words::{
    CensusWords, CommandWords, CommonWords, CountyWords, ProblemWords, STANDARD_INPUT, parse,
};
use std::alloc::Global;
use std::fmt;

/// An option with the file that the words give it.
#[derive(Clone, Copy)]
pub(crate) struct NamedFile<'a> {
    /// The option.
    pub(crate) option: FileOption,
    /// The file's path. There is none if the words are those of a case, since no path leads to a file of a case.
    pub(crate) path: Option<&'a str>,
}

/// Shows `--option PATH`, or `--option of the case`.
impl fmt::Display for NamedFile<'_> {
    fn fmt<W: fmt::Write>(&self, f: &mut fmt::Formatter<W>) -> fmt::Result {
        match self.path {
            Some(path) => write!(f, "{} {}", self.option, name_of(path)),
            None => write!(f, "{} of the case", self.option),
        }
    }
}

/// Returns the options of `command` that give a problem, if it has them.
fn problem_of<'a>(command: CommandWords<'a>) -> Option<ProblemWords<'a>> {
    match command {
        CommandWords::Size(_) => None,
        CommandWords::Judge(words) => Some(words.problem),
        CommandWords::Solve(words) => Some(words.problem),
        CommandWords::Check(words) => Some(words.check.problem),
        CommandWords::Audit(words) => Some(words.problem),
        CommandWords::List(words) => Some(words.check.problem),
        CommandWords::Share(words) => Some(words.board.problem),
        CommandWords::Piece(words) => Some(words.board.problem),
        CommandWords::Worker(words) => Some(words.problem),
    }
}

/// Returns the options of `command` that every command has.
pub(crate) fn common_of<'a>(command: CommandWords<'a>) -> CommonWords<'a> {
    match command {
        CommandWords::Size(words) => words,
        CommandWords::Judge(words) => words.problem.common,
        CommandWords::Solve(words) => words.problem.common,
        CommandWords::Check(words) => words.check.problem.common,
        CommandWords::Audit(words) => words.problem.common,
        CommandWords::List(words) => words.check.problem.common,
        CommandWords::Share(words) => words.board.problem.common,
        CommandWords::Piece(words) => words.board.problem.common,
        CommandWords::Worker(words) => words.problem.common,
    }
}

/// Returns the census files that `command` reads, if it reads them.
fn census_of<'a>(command: CommandWords<'a>) -> Option<CensusWords<'a>> {
    match (command, common_of(command).counties) {
        (CommandWords::Audit(words), _) => Some(words.census),
        (_, CountyWords::Census(census)) => Some(census),
        (_, CountyWords::People(_)) => None,
    }
}

/// Returns the path of the table of counties that `command` reads, if it reads one.
fn people_of<'a>(command: CommandWords<'a>) -> Option<&'a str> {
    match common_of(command).counties {
        CountyWords::Census(_) => None,
        CountyWords::People(name) => Some(name),
    }
}

/// Returns the path that `command` has for `option`, if it has one.
pub(crate) fn path_in<'a>(command: CommandWords<'a>, option: FileOption) -> Option<&'a str> {
    match (command, option) {
        (_, FileOption::Geo) => Some(census_of(command)?.geo),
        (_, FileOption::Segment) => Some(census_of(command)?.segment),
        (_, FileOption::People) => people_of(command),
        (_, FileOption::Record) => common_of(command).record_file,
        (_, FileOption::Adjacency) => Some(problem_of(command)?.adjacency),
        (_, FileOption::Links) => problem_of(command)?.links,
        (_, FileOption::Withdrawn) => problem_of(command)?.withdrawn,
        (CommandWords::Judge(words), FileOption::Grouping) => Some(words.grouping),
        (CommandWords::Judge(words), FileOption::Certificate) => words.certificate,
        (CommandWords::Judge(words), FileOption::Table) => words.table,
        (CommandWords::Solve(words), FileOption::CertificateOut) => words.certificate,
        (CommandWords::Solve(words), FileOption::Out) => words.out,
        (CommandWords::Solve(words), FileOption::Table) => words.table,
        (CommandWords::Solve(words), FileOption::EventsOut) => words.events,
        (CommandWords::Check(words), FileOption::Certificate) => Some(words.check.certificate),
        (CommandWords::Check(words), FileOption::Table) => words.table,
        (CommandWords::Audit(words), FileOption::Grouping) => Some(words.grouping),
        (CommandWords::Audit(words), FileOption::Assignments) => Some(words.assignments),
        (CommandWords::Audit(words), FileOption::Districts) => words.districts,
        (CommandWords::List(words), FileOption::Certificate) => Some(words.check.certificate),
        (CommandWords::List(words), FileOption::Out) => Some(words.stored?.out),
        (CommandWords::List(words), FileOption::Which) => words.which,
        (CommandWords::List(words), FileOption::Groupings) => words.groupings,
        (CommandWords::Share(words), FileOption::Grouping) => Some(words.board.grouping),
        (CommandWords::Share(words), FileOption::Events) => Some(words.events),
        (CommandWords::Share(words), FileOption::CertificateOut) => words.certificate,
        (CommandWords::Piece(words), FileOption::Grouping) => Some(words.board.grouping),
        (CommandWords::Piece(words), FileOption::Events) => words.events,
        (CommandWords::Worker(_), FileOption::Input) => Some(STANDARD_INPUT),
        _ => None,
    }
}

/// What the words of a run ask for. They are those of a command, or it is unknown, as at a case.
#[derive(Clone, Copy)]
pub struct Options<'a> {
    /// The command, if it is known.
    pub(crate) command: Option<CommandWords<'a>>,
}

impl<'a> Options<'a> {
    /// Parses `words`, those after the program's name. If they aren't a command's, the command is unknown. The run
    /// parses them itself, since it promises what they mean.
    pub fn of(alloc: Global, words: &'a [&'a str]) -> Options<'a> {
        Options {
            command: parse(alloc, words).ok(),
        }
    }

    /// Returns an `option` with the file that the words give it.
    pub(crate) fn file(self, option: FileOption) -> NamedFile<'a> {
        let path = match self.command {
            Some(command) => path_in(command, option),
            None => None,
        };
        NamedFile { option, path }
    }
}
