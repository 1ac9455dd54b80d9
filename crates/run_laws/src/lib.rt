//! What a run of the program comes to, as definitions and laws: the steps of each command from its files to its answer
//! and to the files that it stores.
//!
//! The definitions stand in `specs/`. `Steps` has steps up to the first fault. `ProblemSteps`, `TableSteps` and
//! `PlanSteps` lead from files to values. `Forms` has the forms of an answer: a text with the codes or the names of the
//! counties, or an object of JSON. The commands are in `JudgeSteps`, `JudgeWithCertificate`, `SolveSteps`,
//! `CheckSteps`, `ListSteps`, `BoardSteps`, `ShareSteps` and `PieceSteps`. `WorkerSteps` has the command `worker`,
//! which writes as it goes on. `Spoken` puts an answer behind what was written before it. `Storing` is about files that
//! are stored. `Run` has the runs, and `Loads` has those over files that aren't told. `Headline` has what a run of each
//! command tells of its files, and `Agreement` what later runs say of a stored certificate. `WhichGrouping` has the
//! number of a grouping in a list. The texts themselves are made by `cli_reports`.
#![tactic(auto)]

mod laws;

pub use laws::{runs_agree, runs_are_of_their_loads, runs_tell};
