//! The verdict on a certificate and on any text, and what it costs to reach it, as definitions and laws.
//!
//! A verdict says that the target of a certificate is best, or that no grouping is lawful, or that the certificate has
//! a first fault at a line. The certificate is a value of `certificate_data`. Its lines are counted as its text would
//! have them. The head is line 1. The tolerance is line 2 if one is named, and the order is the next line. In a branch,
//! a take, a mark or a leaf the first line at fault counts, and lines behind it are not judged.
//!
//! In a bound leaf the lines are judged up to the first that allows fewer groups than the target has. Lines behind that
//! one are a fault of the line that opens the leaf, whatever they hold. A county of a `weigh` line is wrong only if it
//! isn't one of the problem's counties. A county that isn't open weighs nothing.
//!
//! A text without a fault spells one certificate, and the verdict on the text is that certificate's. If a text has a
//! fault of its words, that fault comes before all that is said of a certificate. A tree without a text has the first
//! text fault that its lines would meet.
//!
//! The definitions stand in `specs/`: `Fault`, `End` (how lines end), `Lines` (how many a value has), `Leaves`,
//! `Branches`, `Trees`, `Verdict` and `Cost`. `Work`, `WorkCost` and `BoundWork` speak of what a loop over lines has
//! left, and `TextVerdict` and `TextCost` speak of texts.
#![tactic(auto)]

mod laws;
mod text_laws;

pub use laws::{
    bound_lines_carry, bound_lines_cost, costs_are_one, first_faults, lines_carry, lines_cost,
    trees_end, verdicts_show,
};
pub use text_laws::{text_costs_are_one, text_verdicts_show, texts_spell};
