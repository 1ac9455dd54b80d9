//! The values of options, by their kind: paths, flags, numbers of steps, numbers in a range and the tolerance.
ghost use Rattle.std.specs.Prelude.{◌≡◌, ◌≤◌, Some, codes, false};
ghost use Rattle.clap.specs.{Takes.is_given, Words.{first_of, found_of, rows_of}};
ghost use Rattle.cli_words.specs.Command.{chamber_option, depth_option, limit_option, number_option, of_steps, part_option, required, state_option, text_option, whole_option};
ghost use Rattle.cli_words.specs.{Options.HasItsValue, Words.{GivesItsNumber, GivesNumber, GivesPartAndWhole, GivesText, form_of, is_set}};

use crate::words::Form;
use clap::ArgMatches;
use clap::parser::ValueSource;
use county_codes::Tolerance;

/// Reads the path that the option `name` gives, which is required.
pub(crate) fn path<'a>(found: &ArgMatches<'a>, name: &str) -> &'a str
    requires { HasItsValue (rows_of (found_of found.now)) (required (text_option name.now)) }
    ensures { first_of name.now (rows_of (found_of found.now)) ≡ Some result.now }
{
    found.get_str(name).unwrap()
}

/// Reads the path that the option `name` gives, or `None` if the words don't give it.
pub(crate) fn path_or_none<'a>(found: &ArgMatches<'a>, name: &str) -> Option<&'a str>
    requires { HasItsValue (rows_of (found_of found.now)) (text_option name.now) }
    ensures { GivesText name.now (rows_of (found_of found.now)) result }
{
    found.get_str(name)
}

/// Returns whether the words give the option `name`. A default doesn't count.
pub(crate) fn is_given<'a>(found: &ArgMatches<'a>, name: &str) -> bool
    ensures { result ≡ is_given name.now (rows_of (found_of found.now)) }
{
    match found.value_source(name) {
        Some(ValueSource::CommandLine) => true,
        Some(ValueSource::DefaultValue) => false,
        None => found.contains_id(name),
    }
}

/// Reads whether the flag `name` is set. It isn't where the subcommand hasn't that flag.
fn flag<'a>(found: &ArgMatches<'a>, name: &str) -> bool
    ensures { result ≡ is_set (first_of name.now (rows_of (found_of found.now))) }
{
    match found.get_str(name) {
        Some(value) => value == "true",
        None => false,
    }
}

/// Reads the form of the answer from the values `found`: an object if `--json` is set, else a text with names if
/// `--names` is, and else a text with codes.
pub(crate) fn form<'a>(found: &ArgMatches<'a>) -> Form
    ensures { result ≡ form_of
        (is_set (first_of (codes "json") (rows_of (found_of found.now))))
        (is_set (first_of (codes "names") (rows_of (found_of found.now)))) }
{
    let json = flag(found, "json");
    let names = flag(found, "names");
    if json {
        Form::Object
    } else if names {
        Form::Names
    } else {
        Form::Codes
    }
}

/// Reads the number of steps that the option `name` gives, or 10,000,000 if the words don't give it.
pub(crate) fn steps<'a>(found: &ArgMatches<'a>, name: &str) -> u64
    requires { HasItsValue (rows_of (found_of found.now)) (of_steps (text_option name.now)) }
    ensures number { GivesNumber name.now (rows_of (found_of found.now)) result }
    ensures default { is_given name.now (rows_of (found_of found.now)) ≡ false → result ≡ 10000000 }
{
    found.get_one::<u64>(name).unwrap()
}

/// Reads the number that the option `name` gives, which is required.
pub(crate) fn number<'a>(found: &ArgMatches<'a>, name: &str) -> u32
    requires { HasItsValue (rows_of (found_of found.now)) (required (number_option name.now)) }
    ensures { GivesNumber name.now (rows_of (found_of found.now)) result }
{
    found.get_one::<u32>(name).unwrap()
}

/// Reads the number that the option `name` gives, or `None` if the words don't give it.
pub(crate) fn number_or_none<'a>(found: &ArgMatches<'a>, name: &str) -> Option<u32>
    requires { HasItsValue (rows_of (found_of found.now)) (number_option name.now) }
    ensures { GivesItsNumber name.now (rows_of (found_of found.now)) result }
{
    found.get_one::<u32>(name)
}

/// Reads the number of seats of the chamber, 1 to 1,000, from the values `found`.
pub(crate) fn chamber<'a>(found: &ArgMatches<'a>) -> u16
    requires { HasItsValue (rows_of (found_of found.now)) chamber_option }
    ensures number { GivesNumber (codes "chamber") (rows_of (found_of found.now)) result }
    ensures range { (1 ≤ result) × (result ≤ 1000) }
{
    found.get_one::<u16>("chamber").unwrap()
}

/// Reads the state's FIPS code, 0 to 99, from the values `found`. It is 37 if the words don't give it.
pub(crate) fn state<'a>(found: &ArgMatches<'a>) -> u8
    requires { HasItsValue (rows_of (found_of found.now)) state_option }
    ensures number { GivesNumber (codes "state") (rows_of (found_of found.now)) result }
    ensures range { result ≤ 99 }
    ensures default { is_given (codes "state") (rows_of (found_of found.now)) ≡ false → result ≡ 37 }
{
    found.get_one::<u8>("state").unwrap()
}

/// Reads the tolerance from the values `found` of `--part`, which is its numerator, and `--of`, which is its
/// denominator.
pub(crate) fn part_and_whole<'a>(found: &ArgMatches<'a>) -> Tolerance
    requires part { HasItsValue (rows_of (found_of found.now)) part_option }
    requires whole { HasItsValue (rows_of (found_of found.now)) whole_option }
    ensures { GivesPartAndWhole (rows_of (found_of found.now)) result }
{
    Tolerance {
        numerator: found.get_one::<u16>("part").unwrap(),
        denominator: found.get_one::<u16>("of").unwrap(),
    }
}

/// Reads the limit of a board's first round, in counties of a group, from the values `found`. Returns `None` if the
/// words don't give it.
pub(crate) fn limit<'a>(found: &ArgMatches<'a>) -> Option<u16>
    requires { HasItsValue (rows_of (found_of found.now)) limit_option }
    ensures { GivesItsNumber (codes "limit") (rows_of (found_of found.now)) result }
{
    found.get_one::<u16>("limit")
}

/// Reads the most branchings above a piece from the values `found`. Returns `None` if the words don't give it.
pub(crate) fn depth<'a>(found: &ArgMatches<'a>) -> Option<u8>
    requires { HasItsValue (rows_of (found_of found.now)) depth_option }
    ensures { GivesItsNumber (codes "depth") (rows_of (found_of found.now)) result }
{
    found.get_one::<u8>("depth")
}
