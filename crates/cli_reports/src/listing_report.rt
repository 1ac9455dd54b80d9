//! What `list` says of a text.

ghost use Rattle.std.specs.Prelude.{◌≡◌, ◌≤◌, ℕ, List, None, Some, false, length, map, IfOk, option_map};
ghost use Rattle.county_problem.specs.ProblemValue.{problem_of};
ghost use Rattle.list_groupings.specs.{Answers.{IsListing, ListsAllBest}, Walking.sets_held};
ghost use Rattle.cli_answers.specs.Answers.{answer_of};
ghost use Rattle.run_laws.specs.ListSteps.{IsListAnswer, gap_word, open_line, open_answer as answer_of_gap};
ghost use Rattle.run_laws.specs.ListSteps.{grouping_numbered as numbered_in, listed_all, listed_by_number};
ghost use Rattle.run_laws.specs.ListSteps.{listing_answer as answer_of_listing, listing_in as listing_in_form, listing_lines, listing_said, said_alone};
ghost use Rattle.run_laws.specs.ListSteps.{table_of_all as table_text_of_all};
ghost use Rattle.cli_reports.specs.Texts.{asked_of, listed_of, tabled_of};

use crate::forms::{line_in, report_in, with_names};
use crate::table_runs::Tabled;
use crate::which_grouping::{number_in_list, push_number_line};
use cli_answers::{RunAnswer, RunOutcome, budget_answer, no_answer};
use cli_words::Form;
use county_codes::Grouping;
use county_problem::Problem;
use field_lines::push_number;
use grouping_report::{Outcome, grouping_text};
use grouping_table::groupings_table;
use list_groupings::{Gap, Listing, all_best};
use list_report::{listing, listing_json};
use std::alloc::{AllocError, Global};

/// What `list` is asked for beside the listing.
#[derive(Drop)]
pub struct Asked {
    /// The number of the grouping that is to be stored, from 1 in the order of the list. `None` if none is to be
    /// stored.
    pub number: Option<u32>,
    /// The grouping whose number is to be told. `None` if no number is to be told.
    pub which: Option<Grouping>,
}

/// What `list` says, and the texts for its files.
#[derive(Drop)]
pub struct Listed {
    /// The listing, with status 0 or 1, or the line that stands in its place, with status 1, 3 or 4.
    pub answer: RunAnswer,
    /// The lines of the grouping that is to be stored, if the words give its number.
    pub grouping: Option<Vec<u8>>,
    /// The table of all listed groupings, or `None` if it isn't asked for.
    pub table: Option<Vec<u8>>,
}

/// Returns `answer` with no texts for files.
fn alone(answer: RunAnswer) -> Listed
    ensures { listed_of result ≡ said_alone (answer_of answer) }
{
    Listed {
        answer,
        grouping: None,
        table: None,
    }
}

/// Returns the word for `gap`.
fn word_of_gap(gap: Gap) -> &'static [u8]
    ensures { result.now ≡ gap_word gap }
{
    match gap {
        Gap::CountiesLeft => b"CountiesLeft",
        Gap::SeatsOff => b"SeatsOff",
    }
}

/// Returns the line `open KIND line L`, where KIND is the word for `gap` and L is `line`.
#[tactic(auto, unfolding(run_laws::specs::ListSteps::open_line))]
fn open_text(alloc: Global, gap: Gap, line: u64) -> Result<Vec<u8>, AllocError>
    ensures { IfOk result (λ v. v.items ≡ open_line gap line) }
{
    let mut out = Vec::from_slice(alloc, b"open ")?;
    out.extend_from_slice(word_of_gap(gap))?;
    out.extend_from_slice(b" line ")?;
    push_number(&mut out, line)?;
    out.extend_from_slice(b"\n")?;
    Ok(out)
}

/// Returns the answer, with status 3, that the certificate doesn't show which other groupings are best. It names the
/// `gap` at the first leaf that doesn't show it, and the leaf's `line`.
fn open_answer(alloc: Global, gap: Gap, line: u64) -> Result<RunAnswer, AllocError>
    ensures { IfOk result (λ a. answer_of a ≡ answer_of_gap gap line) }
{
    let text = open_text(alloc, gap, line)?;
    Ok(RunAnswer {
        text,
        status: 3,
        outcome: RunOutcome::ListOpen(line),
        subject: None,
    })
}

/// Returns the grouping of this `number`, which counts from 1. `None` if no grouping has it.
fn numbered(groupings: &[Grouping], number: u32) -> Option<&Grouping>
    ensures { option_map (λ g. sets_held g.now) result ≡ numbered_in (map sets_held groupings.now) number }
{
    if number == 0 {
        return None;
    }
    groupings.get(number as usize - 1)
}

/// Returns what a list of `count` groupings comes to whose answer has this `status`.
fn listed_outcome(status: u8, count: usize) -> RunOutcome {
    if status == 0 {
        RunOutcome::Done
    } else {
        RunOutcome::Unlisted(count)
    }
}

/// Returns the listing of `groupings` as a text, with the line of `number` behind it if there is one.
fn listing_text_with(
    alloc: Global,
    problem: &Problem,
    groupings: &[Grouping],
    number: Option<Option<usize>>,
) -> Result<Vec<u8>, AllocError>
    requires { 1 ≤ length groupings.now }
    ensures { IfOk result (λ v. v.items ≡ listing_lines problem.now (map sets_held groupings.now) number) }
{
    let mut text = listing(alloc, problem, groupings)?;
    if let Some(number) = number {
        push_number_line(&mut text, number)?;
    }
    Ok(text)
}

/// Returns `number` in 64 bits.
fn wider(number: Option<Option<usize>>) -> Option<Option<u64>>
    ensures { result ≡ number }
{
    match number {
        None => None,
        Some(None) => Some(None),
        Some(Some(number)) => Some(Some(number as u64)),
    }
}

/// Returns the listing of `groupings` in this `form`, with the `number` of a grouping behind it if that is asked for.
fn listing_in(
    alloc: Global,
    form: Form,
    tabled: &Tabled,
    groupings: &[Grouping],
    number: Option<Option<usize>>,
) -> Result<Vec<u8>, AllocError>
    requires { 1 ≤ length groupings.now }
    ensures { IfOk result (λ v. v.items
        ≡ listing_in_form form tabled.now.problem (tabled_of tabled.now).named (map sets_held groupings.now) number) }
{
    match form {
        Form::Codes => listing_text_with(alloc, &tabled.problem, groupings, number),
        Form::Names => {
            let text = listing_text_with(alloc, &tabled.problem, groupings, number)?;
            with_names(alloc, tabled, text)
        }
        Form::Object => listing_json(
            alloc,
            &tabled.problem,
            &tabled.named,
            groupings,
            wider(number),
        ),
    }
}

/// Returns the listing of `groupings`, with status 0. If the number of a grouping `which` is asked for, its line stands
/// behind the listing. The status is then 1 if the grouping isn't listed.
fn listing_answer(
    alloc: Global,
    form: Form,
    tabled: &Tabled,
    groupings: &[Grouping],
    which: &Option<Grouping>,
) -> Result<RunAnswer, AllocError>
    requires { 1 ≤ length groupings.now }
    ensures { IfOk result (λ a. answer_of a
        ≡ answer_of_listing form tabled.now.problem (tabled_of tabled.now).named (map sets_held groupings.now) (option_map sets_held which.now)) }
{
    match which {
        None => Ok(RunAnswer {
            text: listing_in(alloc, form, tabled, groupings, None)?,
            status: 0,
            outcome: RunOutcome::Done,
            subject: None,
        }),
        Some(grouping) => {
            let number = number_in_list(grouping, groupings);
            let text = listing_in(alloc, form, tabled, groupings, Some(number))?;
            let status = if number.is_some() { 0 } else { 1 };
            Ok(RunAnswer {
                text,
                status,
                outcome: listed_outcome(status, groupings.len()),
                subject: None,
            })
        }
    }
}

/// Returns the table of all listed `groupings`, or `None` if no table is asked for, so that `tabled` has no names.
fn table_of_all(
    alloc: Global,
    tabled: &Tabled,
    groupings: &[Grouping],
) -> Result<Option<Vec<u8>>, AllocError>
    ensures { IfOk result (λ table. option_map (λ t. t.items) table
        ≡ table_text_of_all (tabled_of tabled.now) (map sets_held groupings.now)) }
{
    match &tabled.named {
        Some(named) => {
            let withdrawn = tabled.problem.withdrawn();
            Ok(Some(groupings_table(alloc, named, withdrawn, groupings)?))
        }
        None => Ok(None),
    }
}

/// Returns the listing and the table, beside the `lines` of a grouping that is to be stored.
fn report_listing(
    alloc: Global,
    form: Form,
    tabled: &Tabled,
    groupings: &[Grouping],
    which: &Option<Grouping>,
    lines: Option<Vec<u8>>,
) -> Result<Listed, AllocError>
    requires { 1 ≤ length groupings.now }
    ensures { IfOk result (λ s. listed_of s
        ≡ listed_all form (tabled_of tabled.now) (map sets_held groupings.now) (option_map sets_held which.now) (option_map (λ t. t.items) lines)) }
{
    let answer = listing_answer(alloc, form, tabled, groupings, which)?;
    let table = table_of_all(alloc, tabled, groupings)?;
    Ok(Listed {
        answer,
        grouping: lines,
        table,
    })
}

/// Returns what is said of all best `groupings`. `asked` may give the number of one to store.
fn report_all(
    alloc: Global,
    form: Form,
    tabled: &Tabled,
    groupings: &[Grouping],
    asked: &Asked,
) -> Result<Listed, AllocError>
    requires { 1 ≤ length groupings.now }
    ensures { IfOk result (λ s. listed_of s
        ≡ listed_by_number form (tabled_of tabled.now) (map sets_held groupings.now) (asked_of asked.now).which asked.now.number) }
{
    match asked.number {
        None => report_listing(alloc, form, tabled, groupings, &asked.which, None),
        Some(number) => match numbered(groupings, number) {
            None => {
                let outcome = RunOutcome::NoSuchGrouping(groupings.len());
                let answer = RunAnswer::new(alloc, b"no such grouping\n", 4, outcome)?;
                Ok(alone(answer))
            }
            Some(grouping) => {
                let lines = grouping_text(alloc, grouping)?;
                report_listing(alloc, form, tabled, groupings, &asked.which, Some(lines))
            }
        },
    }
}

/// Returns what is said of `listing`.
fn report_list(
    alloc: Global,
    form: Form,
    tabled: &Tabled,
    asked: &Asked,
    listing: Listing,
) -> Result<Listed, AllocError>
    requires listing { (text : List ℕ) × (budget : ℕ) × IsListing (problem_of tabled.now.problem) text budget listing }
    requires all { ListsAllBest (problem_of tabled.now.problem) listing }
    ensures { IfOk result (λ s. listed_of s ≡ listing_said form (tabled_of tabled.now) (asked_of asked.now) listing) }
{
    match listing {
        Listing::All(groupings) => report_all(alloc, form, tabled, &groupings, asked),
        Listing::Open(gap, line) => {
            let answer = open_answer(alloc, gap, line)?;
            Ok(alone(line_in(alloc, form, answer)?))
        }
        Listing::Impossible => {
            let text = report_in(alloc, form, tabled, &Outcome::Impossible)?;
            Ok(alone(RunAnswer {
                text,
                status: 1,
                outcome: RunOutcome::Impossible,
                subject: None,
            }))
        }
        Listing::No(fault, line) => {
            let answer = no_answer(alloc, fault, line)?;
            Ok(alone(line_in(alloc, form, answer)?))
        }
        Listing::Budget => {
            let answer = budget_answer(alloc)?;
            Ok(alone(line_in(alloc, form, answer)?))
        }
    }
}

/// Returns what `list` says of `text`: all best groupings, as the text of a certificate shows them, or the line that
/// stands in the place of the listing. `asked` may ask for the lines of the grouping of a number, and for the number of
/// a grouping. The table of all listed groupings is beside it if `tabled` has the names of the counties. The
/// certificate is checked with this `budget`. What is said has this `form`.
///
/// # Errors
///
/// Returns `AllocError` if memory was refused.
pub fn list_and_report(
    alloc: Global,
    form: Form,
    tabled: &Tabled,
    text: &[u8],
    budget: u64,
    asked: &Asked,
) -> Result<Listed, AllocError>
    ensures { IfOk result (λ s. IsListAnswer form (tabled_of tabled.now) budget (asked_of asked.now) text.now (listed_of s)) }
{
    let found = all_best(alloc, &tabled.problem, text, budget)?;
    report_list(alloc, form, tabled, asked, found)
}
