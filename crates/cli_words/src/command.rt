//! The command `countygroups`, as `clap` parses it.
ghost use Rattle.std.specs.Prelude.{◌≡◌, ◌++◌, IfOk, codes, false};
ghost use Rattle.clap.specs.Words.{app_of, rule_of};
ghost use Rattle.cli_words.specs.Command.{AddsCommand, AddsOption, HasMore, HasShape, IsBare, audit_options, census_options, certificate_options, chamber_option, check_options, common_options, countygroups, countygroups_alone, county_options, depth_option, flag_option, grouping_options, json_option, judge_options, limit_option, list_options, names_option, number_option, of_steps, part_option, piece_options, problem_options, required, share_options, size_options, solve_options, state_option, subcommand, text_option, tolerance_option, whole_option, with_counties, worker_options};

use crate::help;
use crate::help::OptionHelp;
use crate::version::VERSION;
use clap::{Arg, ArgAction, Command, value_parser};
use std::alloc::{AllocError, Global};

/// Creates an option `--name VALUE`, which `help` shows under `heading`.
fn text_option<'a>(alloc: Global, heading: &'a str, name: &'a str, help: OptionHelp<'a>) -> Arg<'a>
    ensures rule { rule_of result ≡ text_option name.entry.now }
    ensures local { result.global ≡ false }
{
    Arg::new(alloc, name)
        .long(name)
        .action(ArgAction::Set)
        .value_name(help.value_name)
        .help_heading(heading)
        .help(help.short)
        .long_help(help.long)
}

/// Creates an option `--name VALUE` that is required, which `help` shows under `heading`.
fn required_option<'a>(
    alloc: Global,
    heading: &'a str,
    name: &'a str,
    help: OptionHelp<'a>,
) -> Arg<'a>
    ensures rule { rule_of result ≡ required (text_option name.entry.now) }
    ensures local { result.global ≡ false }
{
    text_option(alloc, heading, name, help).required(true)
}

/// Creates the required option `--chamber SEATS`, from 1 to 1000.
fn chamber_option<'a>(alloc: Global) -> Arg<'a>
    ensures rule { rule_of result ≡ chamber_option }
    ensures local { result.global ≡ false }
{
    required_option(alloc, help::PROBLEM, "chamber", help::CHAMBER).value_parser(value_parser!(
        u16
    ).range(1..=1000))
}

/// Creates the option `--state CODE`, from 0 to 99. The default is North Carolina's 37.
fn state_option<'a>(alloc: Global) -> Arg<'a>
    ensures rule { rule_of result ≡ state_option }
    ensures local { result.global ≡ false }
{
    text_option(alloc, help::PROBLEM, "state", help::STATE)
        .value_parser(value_parser!(u8).range(0..=99))
        .default_value("37")
}

/// Creates the option `--tolerance TOLERANCE`.
fn tolerance_option<'a>(alloc: Global) -> Arg<'a>
    ensures rule { rule_of result ≡ tolerance_option }
    ensures local { result.global ≡ false }
{
    text_option(alloc, help::PROBLEM, "tolerance", help::TOLERANCE)
}

/// Creates the option `--part PART`, the part of the tolerance, from 0 to 500. The default is 1.
fn part_option<'a>(alloc: Global) -> Arg<'a>
    ensures rule { rule_of result ≡ part_option }
    ensures local { result.global ≡ false }
{
    text_option(alloc, help::PROBLEM, "part", help::PART)
        .value_parser(value_parser!(u16).range(0..=500))
        .default_value("1")
}

/// Creates the option `--of OF`, the whole of the tolerance, from 1 to 1000. The default is 20.
fn whole_option<'a>(alloc: Global) -> Arg<'a>
    ensures rule { rule_of result ≡ whole_option }
    ensures local { result.global ≡ false }
{
    text_option(alloc, help::PROBLEM, "of", help::WHOLE)
        .value_parser(value_parser!(u16).range(1..=1000))
        .default_value("20")
}

/// Creates an option `--name STEPS` with this `name` and `help`, from 0 to 18,446,744,073,709,551,615. The default is
/// 10,000,000.
fn steps_option<'a>(alloc: Global, name: &'a str, help: OptionHelp<'a>) -> Arg<'a>
    ensures rule { rule_of result ≡ of_steps (text_option name.entry.now) }
    ensures local { result.global ≡ false }
{
    text_option(alloc, help::SEARCH, name, help)
        .value_parser(value_parser!(u64))
        .default_value("10000000")
}

/// Creates an option `--name NUMBER`, from 0 to 4,294,967,295, which `help` shows under `heading`.
fn number_option<'a>(
    alloc: Global,
    heading: &'a str,
    name: &'a str,
    help: OptionHelp<'a>,
) -> Arg<'a>
    ensures rule { rule_of result ≡ number_option name.entry.now }
    ensures local { result.global ≡ false }
{
    text_option(alloc, heading, name, help).value_parser(value_parser!(u32).range(0..=4294967295))
}

/// Creates a required option `--name NUMBER` with this `name` and `help`, from 0 to 4,294,967,295.
fn required_number_option<'a>(alloc: Global, name: &'a str, help: OptionHelp<'a>) -> Arg<'a>
    ensures rule { rule_of result ≡ required (number_option name.entry.now) }
    ensures local { result.global ≡ false }
{
    number_option(alloc, help::SEARCH, name, help).required(true)
}

/// Creates the option `--limit COUNTIES`, from 0 to 65,535.
fn limit_option<'a>(alloc: Global) -> Arg<'a>
    ensures rule { rule_of result ≡ limit_option }
    ensures local { result.global ≡ false }
{
    text_option(alloc, help::SEARCH, "limit", help::LIMIT).value_parser(value_parser!(u16).range(
        0..=65535,
    ))
}

/// Creates the option `--depth BRANCHINGS`, from 0 to 255.
fn depth_option<'a>(alloc: Global) -> Arg<'a>
    ensures rule { rule_of result ≡ depth_option }
    ensures local { result.global ≡ false }
{
    text_option(alloc, help::SEARCH, "depth", help::DEPTH).value_parser(value_parser!(u8).range(
        0..=255,
    ))
}

/// Creates the option `--record FILE`.
fn record_option<'a>(alloc: Global) -> Arg<'a>
    ensures rule { rule_of result ≡ text_option (codes "record") }
    ensures local { result.global ≡ false }
{
    text_option(alloc, help::OUTPUT, "record", help::RECORD)
}

/// Creates a flag `--name`, which help shows under the heading of the output, with this `name` and `help`.
fn flag_option<'a>(alloc: Global, name: &'a str, help: OptionHelp<'a>) -> Arg<'a>
    ensures rule { rule_of result ≡ flag_option name.entry.now }
    ensures local { result.global ≡ false }
{
    Arg::new(alloc, name)
        .long(name)
        .action(ArgAction::SetTrue)
        .help_heading(help::OUTPUT)
        .help(help.short)
        .long_help(help.long)
}

/// Creates the flag `--json`.
fn json_option<'a>(alloc: Global) -> Arg<'a>
    ensures rule { rule_of result ≡ json_option }
    ensures local { result.global ≡ false }
{
    flag_option(alloc, "json", help::JSON)
}

/// Creates the flag `--names`.
fn names_option<'a>(alloc: Global) -> Arg<'a>
    ensures rule { rule_of result ≡ names_option }
    ensures local { result.global ≡ false }
{
    flag_option(alloc, "names", help::NAMES)
}

/// Creates the option `--table FILE`.
fn table_option<'a>(alloc: Global) -> Arg<'a>
    ensures rule { rule_of result ≡ text_option (codes "table") }
    ensures local { result.global ≡ false }
{
    text_option(alloc, help::OUTPUT, "table", help::TABLE)
}

/// Returns the command that was `made`, with one more `option`. If none was made, that error is returned.
fn with_option<'a>(
    made: Result<Command<'a>, AllocError>,
    option: Arg<'a>,
) -> Result<Command<'a>, AllocError>
    ensures { AddsOption made.entry option.entry result }
{
    let command = made?;
    command.arg(option)
}

/// Returns the `command` with the options of the files that give the counties.
fn with_county_options<'a>(alloc: Global, command: Command<'a>) -> Result<Command<'a>, AllocError>
    ensures { IfOk result (HasMore command.entry county_options) }
{
    let geo = text_option(alloc, help::PROBLEM, "geo", help::GEO);
    let made = with_option(Ok(command), geo);
    let segment = text_option(alloc, help::PROBLEM, "segment", help::SEGMENT);
    let made = with_option(made, segment);
    let people = text_option(alloc, help::PROBLEM, "people", help::PEOPLE);
    with_option(made, people)
}

/// Returns the `command` with the options of the files that give the counties and the blocks: both census files are
/// required.
fn with_census_options<'a>(alloc: Global, command: Command<'a>) -> Result<Command<'a>, AllocError>
    ensures { IfOk result (HasMore command.entry census_options) }
{
    let geo = required_option(alloc, help::PROBLEM, "geo", help::GEO);
    let made = with_option(Ok(command), geo);
    let segment = required_option(alloc, help::PROBLEM, "segment", help::SEGMENT);
    let made = with_option(made, segment);
    let people = text_option(alloc, help::PROBLEM, "people", help::AUDIT_PEOPLE);
    with_option(made, people)
}

/// Returns the `command` with the options of the number of seats, the state and the tolerance.
fn with_common_options<'a>(alloc: Global, command: Command<'a>) -> Result<Command<'a>, AllocError>
    ensures { IfOk result (HasMore command.entry common_options) }
{
    let made = with_option(Ok(command), chamber_option(alloc));
    let made = with_option(made, state_option(alloc));
    let made = with_option(made, tolerance_option(alloc));
    let made = with_option(made, part_option(alloc));
    with_option(made, whole_option(alloc))
}

/// Returns the `command` with the options that give a problem, but for the files that give the counties.
fn with_problem_options<'a>(alloc: Global, command: Command<'a>) -> Result<Command<'a>, AllocError>
    ensures { IfOk result (HasMore command.entry problem_options) }
{
    let made = with_common_options(alloc, command);
    let adjacency = required_option(alloc, help::PROBLEM, "adjacency", help::ADJACENCY);
    let made = with_option(made, adjacency);
    let links = text_option(alloc, help::PROBLEM, "links", help::LINKS);
    let made = with_option(made, links);
    let withdrawn = text_option(alloc, help::PROBLEM, "withdrawn", help::WITHDRAWN);
    with_option(made, withdrawn)
}

/// Returns the `command` with the options that give a problem and the file of a grouping, of which `help` tells.
fn with_grouping_options<'a>(
    alloc: Global,
    command: Command<'a>,
    help: OptionHelp<'a>,
) -> Result<Command<'a>, AllocError>
    ensures { IfOk result (HasMore command.entry grouping_options) }
{
    let made = with_problem_options(alloc, command);
    with_option(made, required_option(alloc, help::INPUT, "grouping", help))
}

/// Returns the `command` with the options that give a problem and the file of a certificate.
fn with_certificate_options<'a>(
    alloc: Global,
    command: Command<'a>,
) -> Result<Command<'a>, AllocError>
    ensures { IfOk result (HasMore command.entry certificate_options) }
{
    let made = with_problem_options(alloc, command);
    let certificate = required_option(alloc, help::INPUT, "certificate", help::CERTIFICATE);
    with_option(made, certificate)
}

/// Creates the subcommand called `name`, without options. Help shows what it does, `about`, its `usage`, and in long
/// form `after` at the end.
fn bare_command<'a>(
    alloc: Global,
    name: &'a str,
    about: &'a str,
    usage: &'a str,
    after: &'a str,
) -> Command<'a>
    ensures { IsBare name.entry.now result }
{
    Command::new(alloc, name)
        .about(about)
        .override_usage(usage)
        .after_long_help(after)
}

/// Builds the subcommand `solve`.
fn solve_command<'a>(alloc: Global) -> Result<Command<'a>, AllocError>
    ensures { IfOk result (λ c. HasShape c (with_counties (codes "solve") solve_options)) }
{
    let about = "Finds the best grouping and its certificate";
    let bare = bare_command(alloc, "solve", about, help::USAGE_SOLVE, help::AFTER_SOLVE);
    let counties = with_county_options(alloc, bare)?;
    let made = with_problem_options(alloc, counties);
    let certificate = text_option(alloc, help::OUTPUT, "certificate", help::STORED_CERTIFICATE);
    let made = with_option(made, certificate);
    let out = text_option(alloc, help::OUTPUT, "out", help::OUT);
    let made = with_option(made, out);
    let table = table_option(alloc);
    let made = with_option(made, table);
    let events = text_option(alloc, help::OUTPUT, "events", help::SOLVE_EVENTS);
    let made = with_option(made, events);
    let run_record = record_option(alloc);
    let made = with_option(made, run_record);
    let json = json_option(alloc);
    let made = with_option(made, json);
    let names = names_option(alloc);
    let made = with_option(made, names);
    let steps = steps_option(alloc, "steps", help::STEPS);
    with_option(made, steps)
}

/// Builds the subcommand `check`.
fn check_command<'a>(alloc: Global) -> Result<Command<'a>, AllocError>
    ensures { IfOk result (λ c. HasShape c (with_counties (codes "check") check_options)) }
{
    let about = "Checks a certificate, which proves that its grouping is the best";
    let bare = bare_command(alloc, "check", about, help::USAGE_CHECK, help::AFTER_CHECK);
    let counties = with_county_options(alloc, bare)?;
    let made = with_certificate_options(alloc, counties);
    let table = table_option(alloc);
    let made = with_option(made, table);
    let run_record = record_option(alloc);
    let made = with_option(made, run_record);
    let json = json_option(alloc);
    let made = with_option(made, json);
    let names = names_option(alloc);
    let made = with_option(made, names);
    let budget = steps_option(alloc, "budget", help::BUDGET);
    with_option(made, budget)
}

/// Builds the subcommand `judge`.
fn judge_command<'a>(alloc: Global) -> Result<Command<'a>, AllocError>
    ensures { IfOk result (λ c. HasShape c (with_counties (codes "judge") judge_options)) }
{
    let about = "Judges whether a grouping is lawful, and by a certificate whether it is best";
    let bare = bare_command(alloc, "judge", about, help::USAGE_JUDGE, help::AFTER_JUDGE);
    let counties = with_county_options(alloc, bare)?;
    let made = with_grouping_options(alloc, counties, help::GROUPING);
    let certificate = text_option(alloc, help::INPUT, "certificate", help::JUDGE_CERTIFICATE);
    let made = with_option(made, certificate);
    let table = table_option(alloc);
    let made = with_option(made, table);
    let run_record = record_option(alloc);
    let made = with_option(made, run_record);
    let json = json_option(alloc);
    let made = with_option(made, json);
    let names = names_option(alloc);
    let made = with_option(made, names);
    let budget = steps_option(alloc, "budget", help::BUDGET);
    with_option(made, budget)
}

/// Builds the subcommand `list`.
fn list_command<'a>(alloc: Global) -> Result<Command<'a>, AllocError>
    ensures { IfOk result (λ c. HasShape c (with_counties (codes "list") list_options)) }
{
    let about = "Lists all best groupings, by a certificate";
    let bare = bare_command(alloc, "list", about, help::USAGE_LIST, help::AFTER_LIST);
    let counties = with_county_options(alloc, bare)?;
    let made = with_certificate_options(alloc, counties);
    let which = text_option(alloc, help::INPUT, "which", help::WHICH);
    let made = with_option(made, which);
    let number = number_option(alloc, help::OUTPUT, "number", help::NUMBER);
    let made = with_option(made, number);
    let out = text_option(alloc, help::OUTPUT, "out", help::LIST_OUT);
    let made = with_option(made, out);
    let groupings = text_option(alloc, help::OUTPUT, "groupings", help::GROUPINGS);
    let made = with_option(made, groupings);
    let run_record = record_option(alloc);
    let made = with_option(made, run_record);
    let json = json_option(alloc);
    let made = with_option(made, json);
    let names = names_option(alloc);
    let made = with_option(made, names);
    let budget = steps_option(alloc, "budget", help::BUDGET);
    with_option(made, budget)
}

/// Builds the subcommand `size`.
fn size_command<'a>(alloc: Global) -> Result<Command<'a>, AllocError>
    ensures { IfOk result (λ c. HasShape c (with_counties (codes "size") size_options)) }
{
    let about = "Shows how many seats each county's people suit";
    let bare = bare_command(alloc, "size", about, help::USAGE_SIZE, help::AFTER_SIZE);
    let counties = with_county_options(alloc, bare)?;
    let made = with_common_options(alloc, counties);
    let run_record = record_option(alloc);
    let made = with_option(made, run_record);
    let json = json_option(alloc);
    with_option(made, json)
}

/// Builds the subcommand `audit`.
fn audit_command<'a>(alloc: Global) -> Result<Command<'a>, AllocError>
    ensures { IfOk result (λ c. HasShape c (subcommand (codes "audit") (census_options ++ audit_options))) }
{
    let about =
        "Compares a plan's districts with the groups, their seats and the size of a district";
    let bare = bare_command(alloc, "audit", about, help::USAGE_AUDIT, help::AFTER_AUDIT);
    let counties = with_census_options(alloc, bare)?;
    let made = with_grouping_options(alloc, counties, help::GROUPING);
    let assignments = required_option(alloc, help::INPUT, "assignments", help::ASSIGNMENTS);
    let made = with_option(made, assignments);
    let districts = text_option(alloc, help::OUTPUT, "districts", help::DISTRICTS);
    let made = with_option(made, districts);
    let run_record = record_option(alloc);
    let made = with_option(made, run_record);
    let json = json_option(alloc);
    with_option(made, json)
}

/// Builds the subcommand `share`.
fn share_command<'a>(alloc: Global) -> Result<Command<'a>, AllocError>
    ensures { IfOk result (λ c. HasShape c (with_counties (codes "share") share_options)) }
{
    let about = "Tests what several solvers proved and joins one certificate";
    let bare = bare_command(alloc, "share", about, help::USAGE_SHARE, help::AFTER_SHARE);
    let counties = with_county_options(alloc, bare)?;
    let made = with_grouping_options(alloc, counties, help::TARGET);
    let events = required_option(alloc, help::INPUT, "events", help::SHARE_EVENTS);
    let made = with_option(made, events);
    let certificate = text_option(alloc, help::OUTPUT, "certificate", help::STORED_CERTIFICATE);
    let made = with_option(made, certificate);
    let run_record = record_option(alloc);
    let made = with_option(made, run_record);
    let limit = limit_option(alloc);
    let made = with_option(made, limit);
    let depth = depth_option(alloc);
    let made = with_option(made, depth);
    let budget = steps_option(alloc, "budget", help::SHARE_BUDGET);
    with_option(made, budget)
}

/// Builds the subcommand `piece`.
fn piece_command<'a>(alloc: Global) -> Result<Command<'a>, AllocError>
    ensures { IfOk result (λ c. HasShape c (with_counties (codes "piece") piece_options)) }
{
    let about = "Proves one piece of a shared proof";
    let bare = bare_command(alloc, "piece", about, help::USAGE_PIECE, help::AFTER_PIECE);
    let counties = with_county_options(alloc, bare)?;
    let made = with_grouping_options(alloc, counties, help::TARGET);
    let events = text_option(alloc, help::INPUT, "events", help::PIECE_EVENTS);
    let made = with_option(made, events);
    let run_record = record_option(alloc);
    let made = with_option(made, run_record);
    let limit = limit_option(alloc);
    let made = with_option(made, limit);
    let depth = depth_option(alloc);
    let made = with_option(made, depth);
    let round = required_number_option(alloc, "round", help::ROUND);
    let made = with_option(made, round);
    let number = required_number_option(alloc, "number", help::PIECE);
    let made = with_option(made, number);
    let steps = steps_option(alloc, "steps", help::STEPS);
    with_option(made, steps)
}

/// Builds the subcommand `worker`.
fn worker_command<'a>(alloc: Global) -> Result<Command<'a>, AllocError>
    ensures { IfOk result (λ c. HasShape c (with_counties (codes "worker") worker_options)) }
{
    let about = "Proves pieces of a shared proof that come on standard input";
    let bare = bare_command(
        alloc,
        "worker",
        about,
        help::USAGE_WORKER,
        help::AFTER_WORKER,
    );
    let counties = with_county_options(alloc, bare)?;
    let made = with_problem_options(alloc, counties);
    let run_record = record_option(alloc);
    let made = with_option(made, run_record);
    let steps = steps_option(alloc, "steps", help::STEPS);
    with_option(made, steps)
}

/// Builds the command of the program without its subcommands.
fn program_alone<'a>(alloc: Global) -> Result<Command<'a>, AllocError>
    ensures { IfOk result (λ c. app_of c ≡ countygroups_alone) }
{
    Command::new(alloc, "countygroups")
        .about(help::ABOUT)
        .long_about(help::LONG_ABOUT)
        .version(VERSION)
        .after_long_help(help::AFTER_HELP)
        .no_binary_name(true)
        .disable_help_subcommand(true)
        .subcommand_required(true)
        .bin_name("countygroups")
}

/// Returns the `program` with one more subcommand, the `command`. If either of them wasn't made, its error is returned.
fn with_command<'a>(
    program: Result<Command<'a>, AllocError>,
    command: Result<Command<'a>, AllocError>,
) -> Result<Command<'a>, AllocError>
    ensures { AddsCommand program.entry command.entry result }
{
    let command = command?;
    program?.subcommand(command)
}

/// Builds the command of the whole program.
pub(crate) fn program<'a>(alloc: Global) -> Result<Command<'a>, AllocError>
    ensures { IfOk result (λ c. app_of c ≡ countygroups) }
{
    let program = with_command(program_alone(alloc), solve_command(alloc));
    let program = with_command(program, check_command(alloc));
    let program = with_command(program, judge_command(alloc));
    let program = with_command(program, list_command(alloc));
    let program = with_command(program, size_command(alloc));
    let program = with_command(program, audit_command(alloc));
    let program = with_command(program, share_command(alloc));
    let program = with_command(program, piece_command(alloc));
    with_command(program, worker_command(alloc))
}
