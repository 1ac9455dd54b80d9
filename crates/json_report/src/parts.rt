//! The parts of an answer's object.

ghost use Rattle.std.specs.Prelude.{◌≡◌, ◌∷◌, [], codes, map, option_map};
ghost use Rattle.json.specs.Token.{key, string};
ghost use Rattle.county_codes.specs.Digits.{five_digits};
ghost use Rattle.pl94_counties.specs.CountyNames.{county_name};
ghost use Rattle.json_report.specs.Parts.{Adds, code_tokens, if_utf8, name_members, names_member, number_member, run_tokens, text_member};

use county_codes::CountyCode;
use json::Writer;
use pl94_counties::NamedCounty;
use std::alloc::AllocError;

/// Returns the text of `bytes`, or no text if they aren't UTF-8.
pub(crate) fn utf8_text(bytes: &[u8]) -> &str
    ensures { result.now ≡ if_utf8 bytes.now }
{
    match str::from_utf8(bytes) {
        Ok(text) => text,
        Err(_) => "",
    }
}

/// Returns the five digits of `code`.
fn code_digits(code: CountyCode) -> [u8; 5]
    ensures digits { result ≡ five_digits code }
    ensures text { if_utf8 result ≡ result }
{
    let number = code.get();
    [
        b'0' + (number / 10_000) as u8,
        b'0' + (number / 1_000 % 10) as u8,
        b'0' + (number / 100 % 10) as u8,
        b'0' + (number / 10 % 10) as u8,
        b'0' + (number % 10) as u8,
    ]
}

/// Appends the member of this `name` whose value is `number`.
///
/// # Errors
///
/// Returns `AllocError` if memory was refused.
pub fn push_number(out: &mut Writer, name: &str, number: u64) -> Result<(), AllocError>
    ensures { Adds result out.old out.new (number_member name.now number) }
{
    out.key(name)?;
    out.u64(number)
}

/// Appends the member of this `name` whose value is `text`.
///
/// # Errors
///
/// Returns `AllocError` if memory was refused.
pub fn push_text(out: &mut Writer, name: &str, text: &str) -> Result<(), AllocError>
    ensures { Adds result out.old out.new (text_member name.now text.now) }
{
    out.key(name)?;
    out.string(text)
}

/// Appends the least and the greatest number of `run`, or null if there is none.
///
/// # Errors
///
/// Returns `AllocError` if memory was refused.
pub fn push_run(out: &mut Writer, run: Option<(u64, u64)>) -> Result<(), AllocError>
    ensures { Adds result out.old out.new (run_tokens run) }
{
    match run {
        None => out.null(),
        Some((least, greatest)) => {
            out.begin_object()?;
            push_number(out, "least", least)?;
            push_number(out, "greatest", greatest)?;
            out.end_object()
        }
    }
}

/// Returns the numbers of `run` in 64 bits.
fn wider(run: Option<(u16, u16)>) -> Option<(u64, u64)>
    ensures { result ≡ run }
{
    match run {
        None => None,
        Some((least, greatest)) => Some((u64::from(least), u64::from(greatest))),
    }
}

/// Appends the member of the seats that suit: the least and the greatest of `run`, or null if there is none.
///
/// # Errors
///
/// Returns `AllocError` if memory was refused.
pub fn push_seats(out: &mut Writer, run: Option<(u16, u16)>) -> Result<(), AllocError>
    ensures { Adds result out.old out.new (key (codes "seats") ∷ run_tokens run) }
{
    out.key("seats")?;
    push_run(out, wider(run))
}

/// Appends the text of the five digits of `code`.
pub(crate) fn push_code(out: &mut Writer, code: CountyCode) -> Result<(), AllocError>
    ensures { Adds result out.old out.new (string (five_digits code) ∷ []) }
{
    let digits = code_digits(code);
    out.string(utf8_text(&digits))
}

/// Appends the texts of the `codes` of counties, each a text of five digits.
fn push_each_code(out: &mut Writer, codes: &[CountyCode]) -> Result<(), AllocError>
    ensures { Adds result out.old out.new (map (λ c. string (five_digits c)) codes.now) }
{
    for code in codes {
        push_code(out, *code)?;
    }
    Ok(())
}

/// Appends an array of the `codes` of counties, each a text of five digits.
///
/// # Errors
///
/// Returns `AllocError` if memory was refused.
pub fn push_codes(out: &mut Writer, codes: &[CountyCode]) -> Result<(), AllocError>
    ensures { Adds result out.old out.new (code_tokens codes.now) }
{
    out.begin_array()?;
    push_each_code(out, codes)?;
    out.end_array()
}

/// Appends the member of the name of `county`, by the county's code.
fn push_name(out: &mut Writer, county: &NamedCounty) -> Result<(), AllocError>
    ensures { Adds result out.old out.new (name_members (county_name county.now ∷ [])) }
{
    let digits = code_digits(county.county.code);
    push_text(out, utf8_text(&digits), &county.name)
}

/// Appends the members of the names of the counties in `named`, each by the county's code.
fn push_name_members(out: &mut Writer, named: &[NamedCounty]) -> Result<(), AllocError>
    ensures { Adds result out.old out.new (name_members (map county_name named.now)) }
{
    for county in named {
        push_name(out, county)?;
    }
    Ok(())
}

/// Appends the member of the names of the counties in `named`, if they have names.
///
/// # Errors
///
/// Returns `AllocError` if memory was refused.
pub fn push_names(out: &mut Writer, named: &Option<Vec<NamedCounty>>) -> Result<(), AllocError>
    ensures { Adds result out.old out.new (names_member (option_map (λ v. map county_name v.items) named.now)) }
{
    match named {
        None => Ok(()),
        Some(named) => {
            out.key("names")?;
            out.begin_object()?;
            push_name_members(out, named)?;
            out.end_object()
        }
    }
}
