//! The command that the words name.
ghost use Rattle.std.specs.Prelude.{◌≡◌, ◌≢◌, ◌⊎◌, ◌++◌, [], IfErr, IfOk, MatchResult, None, Some, true, codes};
ghost use Rattle.std.specs.Option.{IsSomeAnd};
ghost use Rattle.clap.specs.{Walk.texts, Words.{FailsBy, first_of, found_of, kind_of, rows_of, subcommand_rows_of}};
ghost use Rattle.cli_words.specs.Command.{audit_options, census_options, certificate_options, check_options, common_options, county_options, worker_options, grouping_options, judge_options, list_options, depth_option, limit_option, of_steps, piece_options, problem_options, share_options, size_options, solve_options, text_option};
ghost use Rattle.cli_words.specs.Options.{HasCommand, HasItsValue, HasValues};
ghost use Rattle.cli_words.specs.Words.{AreUnpaired, EndsFor, EndsTaken, GivesCensus, GivesCounties, GivesCountiesOnce, GivesRoundWords, GivesStored, GivesText, GivesToleranceOnce, IsCountiesFault, IsOptionsFault, IsToleranceFault, LacksLimit, Means, SaysAudit, SaysBoard, SaysCertificate, SaysCheck, SaysCommand, SaysCommon, SaysOptions, SaysWorker, SaysJudge, SaysList, SaysPiece, SaysProblem, SaysShare, SaysShared, SaysSolve, SaysTolerance, faults_of, subcommand_in, takes_words, words_read};
ghost use Rattle.cli_words.specs.declared.end.OptionsFault.TheVariants.{Depth, NumberOrOut};

use crate::command::program;
use crate::end::{OptionsFault, WordsEnd};
use crate::tolerance_text::tolerance_in;
use crate::values::{
    chamber, depth, form, is_given, limit, number, number_or_none, part_and_whole, path,
    path_or_none, state, steps,
};
use clap::error::ErrorKind;
use clap::{ArgMatches, Error};
use county_codes::Tolerance;
use std::alloc::Global;

/// The name of the file that `worker` reads as it comes: standard input.
pub const STANDARD_INPUT: &str = "/dev/stdin";

/// The words of the command line: a subcommand, with the values of its options.
#[derive(Clone, Copy, Debug)]
pub enum CommandWords<'a> {
    /// The size table.
    Size(CommonWords<'a>),
    /// The judge of a grouping.
    Judge(JudgeWords<'a>),
    /// The search for the best grouping.
    Solve(SolveWords<'a>),
    /// The check of a certificate.
    Check(CheckWords<'a>),
    /// The audit of a plan's assignments.
    Audit(AuditWords<'a>),
    /// The list of all best groupings.
    List(ListWords<'a>),
    /// The test of what several solvers proved, joined to one certificate.
    Share(ShareWords<'a>),
    /// The proof of one piece of a board.
    Piece(PieceWords<'a>),
    /// The proofs of the pieces that are told to a worker.
    Worker(WorkerWords<'a>),
}

/// The census files.
#[derive(Clone, Copy, Debug)]
pub struct CensusWords<'a> {
    /// The name of the PL 94-171 geographic header.
    pub geo: &'a str,
    /// The name of the PL 94-171 data segment 1.
    pub segment: &'a str,
}

/// The files that give the counties and their people.
#[derive(Clone, Copy, Debug)]
pub enum CountyWords<'a> {
    /// The census files.
    Census(CensusWords<'a>),
    /// The name of the file of the people, a table of counties.
    People(&'a str),
}

/// The form of an answer.
#[derive(Clone, Copy, Debug, PartialEq, Eq)]
pub enum Form {
    /// A text with the codes of the counties.
    Codes,
    /// A text with the names of the counties behind their codes.
    Names,
    /// An object of JSON.
    Object,
}

/// The words that each subcommand has and that are read first.
#[derive(Clone, Copy)]
pub(crate) struct SharedWords<'a> {
    /// The files that give the counties.
    counties: CountyWords<'a>,
    /// The tolerance.
    tolerance: Tolerance,
    /// The name of the file that the record of the run is written to, where the words give one.
    record_file: Option<&'a str>,
    /// The form of the answer.
    form: Form,
}

/// The options that each subcommand has.
#[derive(Clone, Copy, Debug)]
pub struct CommonWords<'a> {
    /// The files that give the counties.
    pub counties: CountyWords<'a>,
    /// The number of seats, from 1 to 1000.
    pub chamber: u16,
    /// The state's FIPS code, from 0 to 99; 37 where the words give none.
    pub state: u8,
    /// The tolerance: a part, from 0 to 500, of a whole, from 1 to 1000.
    ///
    /// If the words give `--tolerance`, it is the fraction that its text writes, in lowest terms. Else it is the part
    /// over the whole that they give: if they give no part, it is 1, and if they give no whole, it is 20.
    /// The part may be more than half of the whole: a problem refuses such a tolerance.
    pub tolerance: Tolerance,
    /// The name of the file that the record of the run is written to, where the words give one.
    pub record_file: Option<&'a str>,
    /// The form of the answer. It is an object where the words give `--json`, a text with names where they give
    /// `--names` alone, and else a text with codes. It is a text with codes in each of `share`, `piece` and `worker`.
    pub form: Form,
}

/// The options that give a problem: those of each subcommand, and the files of adjacency, links and withdrawn sets.
#[derive(Clone, Copy, Debug)]
pub struct ProblemWords<'a> {
    /// The options that each subcommand has.
    pub common: CommonWords<'a>,
    /// The name of the county adjacency file.
    pub adjacency: &'a str,
    /// The name of the file of links, where the words give one.
    pub links: Option<&'a str>,
    /// The name of the file of withdrawn sets, where the words give one.
    pub withdrawn: Option<&'a str>,
}

/// The options of `judge`.
#[derive(Clone, Copy, Debug)]
pub struct JudgeWords<'a> {
    /// The options that give the problem.
    pub problem: ProblemWords<'a>,
    /// The name of the file of the grouping.
    pub grouping: &'a str,
    /// The name of the file of a certificate, where the words give one.
    pub certificate: Option<&'a str>,
    /// The most steps of its checker; 10,000,000 where the words give none.
    pub budget: u64,
    /// The name of the file that the table is written to, where the words give one.
    pub table: Option<&'a str>,
}

/// The options of `solve`.
#[derive(Clone, Copy, Debug)]
pub struct SolveWords<'a> {
    /// The options that give the problem.
    pub problem: ProblemWords<'a>,
    /// The most steps of the search; 10,000,000 where the words give none.
    pub steps: u64,
    /// The name of the file that the certificate is written to, where the words give one.
    pub certificate: Option<&'a str>,
    /// The name of the file that the grouping is written to, where the words give one.
    pub out: Option<&'a str>,
    /// The name of the file that the table is written to, where the words give one.
    pub table: Option<&'a str>,
    /// The name of the file that the events are written to, where the words give one.
    pub events: Option<&'a str>,
}

/// The options that give a certificate.
#[derive(Clone, Copy, Debug)]
pub struct CertificateWords<'a> {
    /// The options that give the problem.
    pub problem: ProblemWords<'a>,
    /// The name of the file of the certificate.
    pub certificate: &'a str,
    /// The most steps of the checker; 10,000,000 where the words give none.
    pub budget: u64,
}

/// The options of `check`.
#[derive(Clone, Copy, Debug)]
pub struct CheckWords<'a> {
    /// The problem, the certificate and the budget.
    pub check: CertificateWords<'a>,
    /// The name of the file that the table is written to, where the words give one.
    pub table: Option<&'a str>,
}

/// The options of `audit`.
#[derive(Clone, Copy, Debug)]
pub struct AuditWords<'a> {
    /// The options that give the problem. Its counties are those of the file of the people where the words give one,
    /// and else of the census files.
    pub problem: ProblemWords<'a>,
    /// The census files, from which the blocks are read.
    pub census: CensusWords<'a>,
    /// The name of the file of the grouping.
    pub grouping: &'a str,
    /// The name of the block assignment file.
    pub assignments: &'a str,
    /// The name of the file that the table of the districts is written to, where the words give one.
    pub districts: Option<&'a str>,
}

/// Which listed grouping is stored, and where.
#[derive(Clone, Copy, Debug)]
pub struct StoredWords<'a> {
    /// The number of the grouping in the list, whose first has number 1.
    pub number: u32,
    /// The name of the file that the grouping is written to.
    pub out: &'a str,
}

/// The options of `list`.
#[derive(Clone, Copy, Debug)]
pub struct ListWords<'a> {
    /// The problem, the certificate and the budget.
    pub check: CertificateWords<'a>,
    /// The grouping that is stored, where the words give its number and a file.
    pub stored: Option<StoredWords<'a>>,
    /// The name of the file of a grouping whose number is asked for, where the words give one.
    pub which: Option<&'a str>,
    /// The name of the file that the table of all listed groupings is written to, where the words give one.
    pub groupings: Option<&'a str>,
}

/// The kind of a board's rounds, and what its options say of them.
#[derive(Clone, Copy, Debug)]
pub enum RoundWords {
    /// Plain rounds.
    Plain {
        /// The limit of the first round, in counties.
        limit: u16,
        /// The most branchings above a piece.
        depth: u8,
    },
    /// Wide rounds.
    Wide {
        /// The limit of the first round, in counties, where the words give one.
        limit: Option<u16>,
    },
}

/// The options that give a board.
#[derive(Clone, Copy, Debug)]
pub struct BoardWords<'a> {
    /// The options that give the problem.
    pub problem: ProblemWords<'a>,
    /// The name of the file of the grouping that is the board's target.
    pub grouping: &'a str,
    /// The kind of the board's rounds.
    pub round: RoundWords,
}

/// The options of `share`.
#[derive(Clone, Copy, Debug)]
pub struct ShareWords<'a> {
    /// The options that give the board.
    pub board: BoardWords<'a>,
    /// The name of the file of the events.
    pub events: &'a str,
    /// The most steps of the test of one event; 10,000,000 where the words give none.
    pub budget: u64,
    /// The name of the file that the certificate is written to, where the words give one.
    pub certificate: Option<&'a str>,
}

/// The options of `piece`.
#[derive(Clone, Copy, Debug)]
pub struct PieceWords<'a> {
    /// The options that give the board.
    pub board: BoardWords<'a>,
    /// The name of the file of the events, where the words give one.
    pub events: Option<&'a str>,
    /// The number of the round.
    pub round: u32,
    /// The number of the piece.
    pub number: u32,
    /// The most steps of the search; 10,000,000 where the words give none.
    pub steps: u64,
}

/// The options of `worker`.
#[derive(Clone, Copy, Debug)]
pub struct WorkerWords<'a> {
    /// The options that give the problem.
    pub problem: ProblemWords<'a>,
    /// The most steps of the search of one piece; 10,000,000 where the words give none.
    pub steps: u64,
}

/// Reads from `found`, the values of the options of a subcommand other than `audit`, which files give the counties.
/// Returns the fault `CountyFiles` if neither `--people` nor both of `--geo` and `--segment` are given. Returns
/// `PeopleAndCensus` if `--people` is given beside `--geo` or `--segment`.
fn county_words<'a>(found: &ArgMatches<'a>) -> Result<CountyWords<'a>, OptionsFault>
    requires { HasValues county_options (rows_of (found_of found.now)) }
    ensures { MatchResult
        result
        (GivesCountiesOnce (rows_of (found_of found.now)))
        (IsCountiesFault (rows_of (found_of found.now))) }
{
    let geo = path_or_none(found, "geo");
    let segment = path_or_none(found, "segment");
    match path_or_none(found, "people") {
        Some(people) => match geo {
            Some(_) => Err(OptionsFault::PeopleAndCensus),
            None => match segment {
                Some(_) => Err(OptionsFault::PeopleAndCensus),
                None => Ok(CountyWords::People(people)),
            },
        },
        None => match geo {
            None => Err(OptionsFault::CountyFiles),
            Some(geo) => match segment {
                None => Err(OptionsFault::CountyFiles),
                Some(segment) => Ok(CountyWords::Census(CensusWords { geo, segment })),
            },
        },
    }
}

/// Reads the tolerance from `found`, the values of the options of a subcommand: that of the text of `--tolerance` if the
/// words give it, and else that of `--part` and `--of`. Returns the fault `ToleranceAndPart` if `--tolerance` is given
/// beside `--part` or `--of`. Returns `Tolerance` if it is given alone and its text writes no tolerance.
fn tolerance_words<'a>(found: &ArgMatches<'a>) -> Result<Tolerance, OptionsFault>
    requires { HasValues common_options (rows_of (found_of found.now)) }
    ensures { MatchResult
        result
        (GivesToleranceOnce (rows_of (found_of found.now)))
        (IsToleranceFault (rows_of (found_of found.now))) }
{
    match path_or_none(found, "tolerance") {
        None => Ok(part_and_whole(found)),
        Some(text) => {
            if is_given(found, "part") || is_given(found, "of") {
                return Err(OptionsFault::ToleranceAndPart);
            }
            match tolerance_in(text) {
                Some(tolerance) => Ok(tolerance),
                None => Err(OptionsFault::Tolerance),
            }
        }
    }
}

/// Returns the files that give the counties to `audit`, whose census files are `census`: the file of the people if
/// `found` has one, and else the census files.
fn audit_county_words<'a>(found: &ArgMatches<'a>, census: CensusWords<'a>) -> CountyWords<'a>
    requires people { HasItsValue (rows_of (found_of found.now)) (text_option (codes "people")) }
    requires census { GivesCensus (rows_of (found_of found.now)) census }
    ensures { GivesCounties (rows_of (found_of found.now)) result }
{
    match path_or_none(found, "people") {
        Some(people) => CountyWords::People(people),
        None => CountyWords::Census(census),
    }
}

/// Returns the values of the options that each subcommand has: those that are `shared`, and the others from `found`.
fn common_words<'a>(found: &ArgMatches<'a>, shared: SharedWords<'a>) -> CommonWords<'a>
    requires values { HasValues common_options (rows_of (found_of found.now)) }
    requires shared { SaysShared (rows_of (found_of found.now)) shared }
    ensures { SaysCommon (rows_of (found_of found.now)) result }
{
    CommonWords {
        counties: shared.counties,
        chamber: chamber(found),
        state: state(found),
        tolerance: shared.tolerance,
        record_file: shared.record_file,
        form: shared.form,
    }
}

/// Reads from `found` the values of the options that give a problem.
fn problem_words<'a>(found: &ArgMatches<'a>, shared: SharedWords<'a>) -> ProblemWords<'a>
    requires values { HasValues problem_options (rows_of (found_of found.now)) }
    requires shared { SaysShared (rows_of (found_of found.now)) shared }
    ensures { SaysProblem (rows_of (found_of found.now)) result }
{
    ProblemWords {
        common: common_words(found, shared),
        adjacency: path(found, "adjacency"),
        links: path_or_none(found, "links"),
        withdrawn: path_or_none(found, "withdrawn"),
    }
}

/// Reads from `found` the values of the options that give a problem, and the name of the file of the grouping.
fn grouping_words<'a>(
    found: &ArgMatches<'a>,
    shared: SharedWords<'a>,
) -> (ProblemWords<'a>, &'a str)
    requires values { HasValues grouping_options (rows_of (found_of found.now)) }
    requires shared { SaysShared (rows_of (found_of found.now)) shared }
    ensures problem { SaysProblem (rows_of (found_of found.now)) result.0 }
    ensures grouping { first_of (codes "grouping") (rows_of (found_of found.now)) ≡ Some result.1.now }
{
    let problem = problem_words(found, shared);
    (problem, path(found, "grouping"))
}

/// Reads from `found` the values of the options of `judge`.
fn judge_words<'a>(found: &ArgMatches<'a>, shared: SharedWords<'a>) -> JudgeWords<'a>
    requires values { HasValues judge_options (rows_of (found_of found.now)) }
    requires shared { SaysShared (rows_of (found_of found.now)) shared }
    ensures { SaysJudge (rows_of (found_of found.now)) result }
{
    let (problem, grouping) = grouping_words(found, shared);
    let file = path_or_none(found, "certificate");
    JudgeWords {
        problem,
        grouping,
        certificate: file,
        budget: steps(found, "budget"),
        table: path_or_none(found, "table"),
    }
}

/// Reads from `found` the values of the options of `solve`.
fn solve_words<'a>(found: &ArgMatches<'a>, shared: SharedWords<'a>) -> SolveWords<'a>
    requires values { HasValues solve_options (rows_of (found_of found.now)) }
    requires shared { SaysShared (rows_of (found_of found.now)) shared }
    ensures { SaysSolve (rows_of (found_of found.now)) result }
{
    SolveWords {
        problem: problem_words(found, shared),
        steps: steps(found, "steps"),
        certificate: path_or_none(found, "certificate"),
        out: path_or_none(found, "out"),
        table: path_or_none(found, "table"),
        events: path_or_none(found, "events"),
    }
}

/// Reads from `found` the values of the options that give a problem and its certificate, and the budget of the check.
fn certificate_words<'a>(found: &ArgMatches<'a>, shared: SharedWords<'a>) -> CertificateWords<'a>
    requires values { HasValues certificate_options (rows_of (found_of found.now)) }
    requires budget { HasItsValue (rows_of (found_of found.now)) (of_steps (text_option (codes "budget"))) }
    requires shared { SaysShared (rows_of (found_of found.now)) shared }
    ensures { SaysCertificate (rows_of (found_of found.now)) result }
{
    CertificateWords {
        problem: problem_words(found, shared),
        certificate: path(found, "certificate"),
        budget: steps(found, "budget"),
    }
}

/// Reads from `found` the values of the options of `check`.
fn check_words<'a>(found: &ArgMatches<'a>, shared: SharedWords<'a>) -> CheckWords<'a>
    requires values { HasValues check_options (rows_of (found_of found.now)) }
    requires shared { SaysShared (rows_of (found_of found.now)) shared }
    ensures { SaysCheck (rows_of (found_of found.now)) result }
{
    CheckWords {
        check: certificate_words(found, shared),
        table: path_or_none(found, "table"),
    }
}

/// Reads from `found` the values of the options of `audit`, whose tolerance is `tolerance`.
fn audit_words<'a>(found: &ArgMatches<'a>, tolerance: Tolerance) -> AuditWords<'a>
    requires values { HasValues (census_options ++ audit_options) (rows_of (found_of found.now)) }
    requires tolerance { SaysTolerance (rows_of (found_of found.now)) tolerance }
    ensures { SaysAudit (rows_of (found_of found.now)) result }
{
    let census = CensusWords {
        geo: path(found, "geo"),
        segment: path(found, "segment"),
    };
    let shared = SharedWords {
        counties: audit_county_words(found, census),
        tolerance,
        record_file: path_or_none(found, "record"),
        form: form(found),
    };
    AuditWords {
        problem: problem_words(found, shared),
        census,
        grouping: path(found, "grouping"),
        assignments: path(found, "assignments"),
        districts: path_or_none(found, "districts"),
    }
}

/// Reads which listed grouping is stored, and where, from `found`, the values of the options of `list`. Returns `None`
/// if neither `--number` nor `--out` is given. Returns the fault `NumberOrOut` if one of them is given without the
/// other.
fn stored_words<'a>(found: &ArgMatches<'a>) -> Result<Option<StoredWords<'a>>, OptionsFault>
    requires { HasValues list_options (rows_of (found_of found.now)) }
    ensures { MatchResult
        result
        (GivesStored (rows_of (found_of found.now)))
        (λ fault. (fault ≡ NumberOrOut) × AreUnpaired (rows_of (found_of found.now))) }
{
    let number = number_or_none(found, "number");
    let out = path_or_none(found, "out");
    match number {
        Some(number) => match out {
            Some(out) => Ok(Some(StoredWords { number, out })),
            None => Err(OptionsFault::NumberOrOut),
        },
        None => match out {
            Some(_) => Err(OptionsFault::NumberOrOut),
            None => Ok(None),
        },
    }
}

/// Returns the words of `list`. `stored` tells which listed grouping is stored, and `which` names the file of a
/// grouping whose number is asked for. At least one of these two is `None`. The other words are read from the values of
/// the options.
fn list_words_with<'a>(
    found: &ArgMatches<'a>,
    stored: Option<StoredWords<'a>>,
    which: Option<&'a str>,
    shared: SharedWords<'a>,
) -> ListWords<'a>
    requires values { HasValues list_options (rows_of (found_of found.now)) }
    requires shared { SaysShared (rows_of (found_of found.now)) shared }
    requires stored { GivesStored (rows_of (found_of found.now)) stored }
    requires which { GivesText (codes "which") (rows_of (found_of found.now)) which }
    requires apart { (which ≡ None) ⊎ (stored ≡ None) }
    ensures { SaysList (rows_of (found_of found.now)) result }
{
    ListWords {
        check: certificate_words(found, shared),
        stored,
        which,
        groupings: path_or_none(found, "groupings"),
    }
}

/// Reads from `found` the values of the options of `list`. Returns the fault `NumberOrOut` if one of `--number` and
/// `--out` is given without the other. Returns `WhichAndStored` if `--which` is given beside both.
fn list_words<'a>(
    found: &ArgMatches<'a>,
    shared: SharedWords<'a>,
) -> Result<ListWords<'a>, OptionsFault>
    requires values { HasValues list_options (rows_of (found_of found.now)) }
    requires shared { SaysShared (rows_of (found_of found.now)) shared }
    ensures { MatchResult
        result
        (SaysList (rows_of (found_of found.now)))
        (IsOptionsFault (codes "list", rows_of (found_of found.now))) }
{
    let stored = stored_words(found)?;
    let which = path_or_none(found, "which");
    match stored {
        None => Ok(list_words_with(found, None, which, shared)),
        Some(_) => match which {
            None => Ok(list_words_with(found, stored, None, shared)),
            Some(_) => Err(OptionsFault::WhichAndStored),
        },
    }
}

/// Reads how the rounds of a board are from `found`, the values of its options. Returns the fault `Depth` if `--depth`
/// is given without `--limit`.
fn round_words<'a>(found: &ArgMatches<'a>) -> Result<RoundWords, OptionsFault>
    requires limit { HasItsValue (rows_of (found_of found.now)) limit_option }
    requires depth { HasItsValue (rows_of (found_of found.now)) depth_option }
    ensures { MatchResult
        result
        (GivesRoundWords (rows_of (found_of found.now)))
        (λ fault. (fault ≡ Depth) × LacksLimit (rows_of (found_of found.now))) }
{
    let limit = limit(found);
    let depth = depth(found);
    match depth {
        Some(depth) => match limit {
            Some(limit) => Ok(RoundWords::Plain { limit, depth }),
            None => Err(OptionsFault::Depth),
        },
        None => Ok(RoundWords::Wide { limit }),
    }
}

/// Reads from `found` the values of the options that give a board. Returns the fault `Depth` if `--depth` is given
/// without `--limit`.
fn board_words<'a>(
    found: &ArgMatches<'a>,
    shared: SharedWords<'a>,
) -> Result<BoardWords<'a>, OptionsFault>
    requires values { HasValues grouping_options (rows_of (found_of found.now)) }
    requires limit { HasItsValue (rows_of (found_of found.now)) limit_option }
    requires depth { HasItsValue (rows_of (found_of found.now)) depth_option }
    requires shared { SaysShared (rows_of (found_of found.now)) shared }
    ensures { MatchResult
        result
        (SaysBoard (rows_of (found_of found.now)))
        (λ fault. (fault ≡ Depth) × LacksLimit (rows_of (found_of found.now))) }
{
    let round = round_words(found)?;
    let (problem, grouping) = grouping_words(found, shared);
    Ok(BoardWords {
        problem,
        grouping,
        round,
    })
}

/// Reads from `found` the values of the options of `share`. Returns the fault `Depth` if `--depth` is given without
/// `--limit`.
fn share_words<'a>(
    found: &ArgMatches<'a>,
    shared: SharedWords<'a>,
) -> Result<ShareWords<'a>, OptionsFault>
    requires values { HasValues share_options (rows_of (found_of found.now)) }
    requires shared { SaysShared (rows_of (found_of found.now)) shared }
    ensures { MatchResult
        result
        (SaysShare (rows_of (found_of found.now)))
        (λ fault. (fault ≡ Depth) × LacksLimit (rows_of (found_of found.now))) }
{
    let board = board_words(found, shared)?;
    let certificate = path_or_none(found, "certificate");
    Ok(ShareWords {
        board,
        events: path(found, "events"),
        budget: steps(found, "budget"),
        certificate,
    })
}

/// Reads from `found` the values of the options of `piece`. Returns the fault `Depth` if `--depth` is given without
/// `--limit`.
fn piece_words<'a>(
    found: &ArgMatches<'a>,
    shared: SharedWords<'a>,
) -> Result<PieceWords<'a>, OptionsFault>
    requires values { HasValues piece_options (rows_of (found_of found.now)) }
    requires shared { SaysShared (rows_of (found_of found.now)) shared }
    ensures { MatchResult
        result
        (SaysPiece (rows_of (found_of found.now)))
        (λ fault. (fault ≡ Depth) × LacksLimit (rows_of (found_of found.now))) }
{
    let board = board_words(found, shared)?;
    Ok(PieceWords {
        board,
        events: path_or_none(found, "events"),
        round: number(found, "round"),
        number: number(found, "number"),
        steps: steps(found, "steps"),
    })
}

/// Reads from `found` the values of the options of `size`.
fn size_words<'a>(found: &ArgMatches<'a>, shared: SharedWords<'a>) -> CommonWords<'a>
    requires values { HasValues size_options (rows_of (found_of found.now)) }
    requires shared { SaysShared (rows_of (found_of found.now)) shared }
    ensures { SaysCommon (rows_of (found_of found.now)) result }
{
    common_words(found, shared)
}

/// Reads from `found` the values of the options of `worker`.
fn worker_words<'a>(found: &ArgMatches<'a>, shared: SharedWords<'a>) -> WorkerWords<'a>
    requires values { HasValues worker_options (rows_of (found_of found.now)) }
    requires shared { SaysShared (rows_of (found_of found.now)) shared }
    ensures { SaysWorker (rows_of (found_of found.now)) result }
{
    WorkerWords {
        problem: problem_words(found, shared),
        steps: steps(found, "steps"),
    }
}

/// Reads the command of the subcommand called `name`, which isn't `audit`, from the values of its options, of which some
/// are `shared`. Returns a fault if they don't go together.
fn command_words_with<'a>(
    name: &str,
    found: &ArgMatches<'a>,
    shared: SharedWords<'a>,
) -> Result<CommandWords<'a>, OptionsFault>
    requires values { HasCommand (name.now, rows_of (found_of found.now)) }
    requires other { name.now ≢ codes "audit" }
    requires shared { SaysShared (rows_of (found_of found.now)) shared }
    ensures { MatchResult result (SaysOptions (name.now, rows_of (found_of found.now))) (IsOptionsFault (name.now, rows_of (found_of found.now))) }
{
    match name {
        "solve" => Ok(CommandWords::Solve(solve_words(found, shared))),
        "check" => Ok(CommandWords::Check(check_words(found, shared))),
        "judge" => Ok(CommandWords::Judge(judge_words(found, shared))),
        "list" => Ok(CommandWords::List(list_words(found, shared)?)),
        "size" => Ok(CommandWords::Size(size_words(found, shared))),
        "share" => Ok(CommandWords::Share(share_words(found, shared)?)),
        "piece" => Ok(CommandWords::Piece(piece_words(found, shared)?)),
        "worker" => Ok(CommandWords::Worker(worker_words(found, shared))),
        _ => unreachable!(),
    }
}

/// Reads the command of the subcommand called `name` from the values of its options. Returns a fault if they don't go
/// together. A fault of the files that give the counties comes first, then one of the tolerance, and then any other.
fn command_words<'a>(name: &str, found: &ArgMatches<'a>) -> Result<CommandWords<'a>, OptionsFault>
    requires { HasCommand (name.now, rows_of (found_of found.now)) }
    ensures { MatchResult result (SaysCommand (name.now, rows_of (found_of found.now))) (IsOptionsFault (name.now, rows_of (found_of found.now))) }
{
    match name {
        "audit" => {
            let tolerance = tolerance_words(found)?;
            Ok(CommandWords::Audit(audit_words(found, tolerance)))
        }
        _ => {
            let counties = county_words(found)?;
            let tolerance = tolerance_words(found)?;
            let record_file = path_or_none(found, "record");
            let shared = SharedWords {
                counties,
                tolerance,
                record_file,
                form: form(found),
            };
            command_words_with(name, found, shared)
        }
    }
}

/// Reads the command of the subcommand in `matches`. Returns a fault if its options don't go together.
fn command_in<'a>(matches: &ArgMatches<'a>) -> Result<CommandWords<'a>, OptionsFault>
    requires { IsSomeAnd (subcommand_rows_of matches.now) HasCommand }
    ensures { MatchResult
        result
        (λ command. IsSomeAnd (subcommand_rows_of matches.now) (λ p. SaysCommand p command))
        (λ fault. IsSomeAnd (subcommand_rows_of matches.now) (λ p. IsOptionsFault p fault)) }
{
    match matches.subcommand() {
        Some((name, found)) => command_words(name, found),
        None => unreachable!(),
    }
}

/// The words that `help` alone stands for.
const HELP_WORDS: &[&str] = &["--help"];

/// Returns the `words` as `clap` reads them: `help` alone is `--help`.
fn words_read<'a>(words: &'a [&'a str]) -> &'a [&'a str]
    ensures { texts result.now ≡ words_read (texts words.now) }
{
    match words {
        [word] => match *word {
            "help" => HELP_WORDS,
            _ => words,
        },
        _ => words,
    }
}

/// Returns what `clap` finds in the `words`.
fn matches_in<'a>(alloc: Global, words: &'a [&'a str]) -> Result<ArgMatches<'a>, Error>
    ensures found { IfOk result (λ m. subcommand_rows_of m ≡ subcommand_in (texts words.now)) }
    ensures taken { IfErr result (λ e. takes_words (texts words.now) ≡ true → kind_of e ≡ ErrorKind.OutOfMemory) }
    ensures faults { FailsBy (faults_of (texts words.now)) result }
{
    let program = program(alloc)?;
    program.try_get_matches_from(words_read(words))
}

/// Parses `words`, those after the program's name, into the command that they say.
///
/// Words that `clap` doesn't take end in `Help` or `Version` if they ask for that before anything is wrong, and else in
/// `Usage`. The word `help` alone asks for help. Words that `clap` takes end in `Usage` too if their options don't go
/// together. For each subcommand but `audit` that is `--people` beside `--geo` or `--segment`, or none of the three, or
/// one census file alone. For each subcommand it is a `--tolerance` whose text writes none, or `--tolerance` beside
/// `--part` or `--of`. For `list` it is one of `--number` and `--out` without the other, or `--which` beside both.
/// For `share` and `piece` it is `--depth` without `--limit`. `Memory` may come for any words.
pub fn parse<'a>(alloc: Global, words: &'a [&'a str]) -> Result<CommandWords<'a>, WordsEnd>
    // The command is what the words mean.
    ensures said { IfOk result (Means (texts words.now)) }

    // Words that `clap` takes end neither in usage nor in help, unless their options don't go together.
    ensures taken { IfErr result (λ end. takes_words (texts words.now) ≡ true → EndsTaken (texts words.now) end) }

    // Only words without a fault give a command. Each end comes only of its own faults, or of options that don't go
    // together.
    ensures ends { MatchResult result (λ _. faults_of (texts words.now) ≡ []) (EndsFor (texts words.now)) }
{
    match matches_in(alloc, words) {
        Ok(matches) => match command_in(&matches) {
            Ok(command) => Ok(command),
            Err(fault) => Err(WordsEnd::of_options(alloc, fault)),
        },
        Err(error) => Err(WordsEnd::of_error(alloc, &error)),
    }
}
