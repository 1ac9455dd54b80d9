//! How a parse of the words ends where it gives no command.
ghost use Rattle.std.specs.Prelude.{◌≡◌, ◌↔◌, ◌⊎◌};
ghost use Rattle.clap.specs.Words.{kind_of};
ghost use Rattle.cli_words.specs.Words.{EndsAs, IsHelpOrVersion, IsUsage, status_of};
ghost use Rattle.cli_words.specs.declared.end.WordsEnd.TheVariants.{Memory};

use clap::error::ErrorKind;
use std::alloc::Global;
use thiserror::Error;

/// Why the words gave no command. The texts are `clap`'s, except for `Memory` and for options that don't go together.
#[derive(Debug, Drop, Error)]
pub enum WordsEnd {
    /// Help was asked for, and this is its text; the program exits with 0.
    #[error("{0}")]
    Help(String),
    /// The version was asked for, and this is its text; the program exits with 0.
    #[error("{0}")]
    Version(String),
    /// The words are no command of the program, and this text says why; it exits with 2.
    #[error("{0}")]
    Usage(String),
    /// Memory ran out; the program exits with 5.
    #[error("out of memory")]
    Memory,
}

/// A fault of options that `clap` accepts one by one, but that don't go together.
#[derive(Clone, Copy, Debug)]
pub(crate) enum OptionsFault {
    /// At a subcommand other than `audit`, neither `--people` nor both of `--geo` and `--segment` are given.
    CountyFiles,
    /// At a subcommand other than `audit`, `--people` is given beside `--geo` or `--segment`.
    PeopleAndCensus,
    /// The text of `--tolerance` writes no tolerance.
    Tolerance,
    /// `--tolerance` is given beside `--part` or `--of`.
    ToleranceAndPart,
    /// One of `--number` and `--out` of `list` is given without the other.
    NumberOrOut,
    /// `--which` of `list` is given beside `--number` and `--out`.
    WhichAndStored,
    /// `--depth` of `share` or `piece` is given without `--limit`.
    Depth,
}

/// The text of usage where no files give the counties.
const COUNTY_FILES: &str = "\
error: the counties are missing: give '--geo <FILE>' and '--segment <FILE>', or '--people <FILE>'

For more information, try '--help'.
";

/// The text of usage where the file of the people is given beside a census file.
const PEOPLE_AND_CENSUS: &str = "\
error: '--people <FILE>' can't be used with '--geo <FILE>' or '--segment <FILE>', except by `audit`

For more information, try '--help'.
";

/// The text of usage where the text of `--tolerance` writes no tolerance.
const TOLERANCE: &str = "\
error: invalid value for '--tolerance <TOLERANCE>': give a percentage, a decimal or a fraction in lowest terms of at \
most 500/1000, as 5%, 0.05 or 1/20

For more information, try '--help'.
";

/// The text of usage where `--tolerance` is given beside `--part` or `--of`.
const TOLERANCE_AND_PART: &str = "\
error: '--tolerance <TOLERANCE>' can't be used with '--part <PART>' or '--of <OF>'

For more information, try '--help'.
";

/// The text of usage where one of `--number` and `--out` is given without the other.
const NUMBER_OR_OUT: &str = "\
error: the options '--number <NUMBER>' and '--out <FILE>' of `list` stand together, and one was given without the other

For more information, try '--help'.
";

/// The text of usage where `--which` is given beside `--number` and `--out`.
const WHICH_AND_STORED: &str = "\
error: the option '--which <FILE>' of `list` can't be used with '--number <NUMBER>' and '--out <FILE>'

For more information, try '--help'.
";

/// The text of usage where `--depth` is given without `--limit`.
const DEPTH: &str = "\
error: the option '--depth <BRANCHINGS>' of `share` and `piece` needs '--limit <COUNTIES>'

For more information, try '--help'.
";

impl WordsEnd {
    /// Returns `Usage` with the text of this `fault` of the options, or `Memory` if memory was refused.
    pub(crate) fn of_options(alloc: Global, fault: OptionsFault) -> WordsEnd
        ensures { (result ≡ Memory) ⊎ IsUsage result }
    {
        let text = match fault {
            OptionsFault::CountyFiles => COUNTY_FILES,
            OptionsFault::PeopleAndCensus => PEOPLE_AND_CENSUS,
            OptionsFault::Tolerance => TOLERANCE,
            OptionsFault::ToleranceAndPart => TOLERANCE_AND_PART,
            OptionsFault::NumberOrOut => NUMBER_OR_OUT,
            OptionsFault::WhichAndStored => WHICH_AND_STORED,
            OptionsFault::Depth => DEPTH,
        };
        match String::from_str(alloc, text) {
            Ok(text) => WordsEnd::Usage(text),
            Err(_) => WordsEnd::Memory,
        }
    }

    /// Returns the exit status of the program: 0 for help and the version, 2 for usage and 5 for memory.
    pub fn status(&self) -> u8
        ensures value { result ≡ status_of self.now }
        ensures success { (result ≡ 0) ↔ IsHelpOrVersion self.now }
    {
        match self {
            WordsEnd::Help(_) => 0,
            WordsEnd::Version(_) => 0,
            WordsEnd::Usage(_) => 2,
            WordsEnd::Memory => 5,
        }
    }

    /// Returns the end of a parse that gave this `error`. Any error ends in `Memory` if memory was refused for its
    /// text.
    pub(crate) fn of_error(alloc: Global, error: &clap::Error) -> WordsEnd
        ensures { EndsAs (kind_of error.now) result }
    {
        let Ok(text) = error.to_string(alloc) else {
            return WordsEnd::Memory;
        };
        match error.kind() {
            ErrorKind::OutOfMemory => WordsEnd::Memory,
            ErrorKind::DisplayHelp => WordsEnd::Help(text),
            ErrorKind::DisplayVersion => WordsEnd::Version(text),
            _ => WordsEnd::Usage(text),
        }
    }
}
