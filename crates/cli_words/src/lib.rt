//! The words of the command line of `countygroups`, by `clap`.
//!
//! A further subcommand needs:
//!
//! - a variant of `CommandWords`;
//! - a function in `command.rt` that builds it, and one in `words.rt` that reads its values;
//! - its texts in `help.rt`;
//! - its name and options in `specs/Command.antt`, and what they mean in `specs/Words.antt`;
//! - one line of `each_has_command` in `proofs/CountygroupsLemmas.antt`, and one each of `each_has_counties`,
//!   `each_has_record`, `list_says` and `board_says` in `proofs/TogetherLemmas.antt`.
//!
//! The files that give the counties and the file of the record are read first, as `SharedWords`. For a subcommand over
//! a problem, `with_problem_options`, `problem_words`, `problem_options` and `SaysProblem` give that part, and
//! `front_values` gives the values of the options in front of its own.
//!
//! An option which is required or has a default has a value wherever `clap` takes the words. Any other option has one
//! exactly where it is given. The lemma `level_values` says this for any list of options. The values are read in
//! `values.rt`, by one function for each kind: `path`, `path_or_none`, `steps`, `number`, `number_or_none`. What the
//! getters of `clap` give is in `proofs/ReadLemmas.antt`: `text_is`, `text_given` for a text that need not be given,
//! `signed_said`, and `unsigned_said` for a `u64`.
#![tactic(auto)]

mod command;
mod end;
mod help;
mod tolerance_text;
mod values;
mod version;
mod words;

pub use end::WordsEnd;
pub use version::version_text;
pub use words::{
    AuditWords, BoardWords, CensusWords, CertificateWords, CheckWords, CommandWords, CommonWords,
    CountyWords, Form, JudgeWords, ListWords, PieceWords, ProblemWords, RoundWords, STANDARD_INPUT,
    ShareWords, SolveWords, StoredWords, WorkerWords, parse,
};
