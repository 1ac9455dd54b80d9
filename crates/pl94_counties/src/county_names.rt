//! The names of counties, and counties with their names.

ghost use Rattle.std.specs.Prelude.{◌≡◌, ◌≤◌, ◌++◌, ◌∷◌, [], true, false, IfOk, IfErr, OnOk, MatchOption, ◌==◌, find, map, option_to_list};
ghost use Rattle.std.specs.{Option.option_copied, Str.is_utf8};
ghost use Rattle.pl94_counties.specs.CountyNames.{IsNoMemory, code_name, county_name, name_on as name_on_line};
ghost use Rattle.pl94_counties.specs.CountyNames.{has_bad_name, named_on, name_of as name_of_code};
ghost use Rattle.pl94_counties.specs.CountyNames.{with_names as named_by};
ghost use Rattle.pl94_counties.specs.NamedReaders.{IsNoReadFailure};

use crate::area_list::no_memory;
use crate::fault::Pl94Fault;
use crate::fields::{DELIMITER, field_after};
use crate::geo::county_on;
use county_codes::{County, CountyCode};
use field_lines::Fields;
use std::alloc::{AllocError, Global};
use std::marker::Model;
use thiserror::Error;

/// How many fields stand before NAME.
const BEFORE_NAME: usize = 87;

/// A county with its NAME in the geographic header.
#[derive(Debug, Drop)]
pub struct NamedCounty {
    /// The code and the people.
    pub county: County,
    /// The NAME. It is empty if the county's line has no such field.
    pub name: String,
}

/// Why the files of a state give no counties with names.
#[derive(Clone, Copy, Debug, PartialEq, Eq, Error)]
pub enum NamedFault {
    /// The files have this fault.
    #[error("{0}")]
    Files(Pl94Fault),
    /// The NAME on this line of geo isn't UTF-8.
    #[error("geographic header, line {0}: the name of the county isn't UTF-8")]
    BadName(u32),
}

/// The code and the NAME of a line that is for a county.
#[derive(Drop)]
pub(crate) struct LineName {
    code: u64,
    name: String,
}

impl Model for LineName {
    ghost use Rattle.std.specs.String.{string_bytes};
    ghost use Rattle.pl94_counties.specs.CodeNames.{CodeName};

    ghost Value = { CodeName };

    ghost view = { λ n. record { code = n.code; name = string_bytes n.name } };
}

impl LineName {
    /// Returns the NAME.
    fn name(&self) -> &str
        ensures { result.now ≡ self.now.name }
    {
        self.name.as_str()
    }

    /// Returns whether the line is for the county of this `code`.
    fn is_of(&self, code: u64) -> bool
        ensures { result ≡ (self.now.code == code) }
    {
        self.code == code
    }
}

/// Returns `bytes` as text, or `None` if they aren't UTF-8.
fn text_of(bytes: &[u8]) -> Option<&str>
    ensures { MatchOption result (is_utf8 bytes.now ≡ false) (λ s. (s.now ≡ bytes.now) × (is_utf8 bytes.now ≡ true)) }
{
    match str::from_utf8(bytes) {
        Ok(text) => Some(text),
        Err(_) => None,
    }
}

/// Returns the NAME of `line`. It is empty if the line has no such field.
fn name_on(line: &[u8]) -> &[u8]
    ensures { result.now ≡ name_on_line line.now }
{
    let mut fields = Fields::new(line, DELIMITER);
    match field_after(&mut fields, BEFORE_NAME) {
        Some(name) => name,
        None => b"",
    }
}

/// Appends `code` and `name` to `names`.
fn push_text(names: &mut Vec<LineName>, code: u64, name: &str) -> Result<(), AllocError>
    ensures { OnOk result (names.new.items ≡ names.old.items ++ code_name code name.now ∷ []) }
{
    let name = String::from_str(*names.allocator(), name)?;
    names.push(LineName { code, name })?;
    Ok(())
}

/// Appends `code` and `name` to `names`, if `name` is UTF-8. `number` is the number of the line.
///
/// # Errors
///
/// Returns `BadName` with the line's number if `name` isn't UTF-8. Returns the fault of memory if memory was refused.
fn push_name(
    names: &mut Vec<LineName>,
    code: u64,
    number: u32,
    name: &[u8],
) -> Result<(), NamedFault>
    ensures text { OnOk result (names.new.items ≡ names.old.items ++ code_name code name.now ∷ []) }
    ensures good { OnOk result (is_utf8 name.now ≡ true) }
    ensures bad { IfErr result (λ f. (IsNoMemory f → ⊥)
        → (f ≡ NamedFault.BadName number) × (is_utf8 name.now ≡ false)) }
    ensures read { IfErr result IsNoReadFailure }
{
    match text_of(name) {
        None => Err(NamedFault::BadName(number)),
        Some(name) => match push_text(names, code, name) {
            Ok(()) => Ok(()),
            Err(_) => Err(NamedFault::Files(no_memory())),
        },
    }
}

/// Appends the code and the name of `line` to `names`, if the line is for a county of the state. `number` is the number
/// of the line.
///
/// # Errors
///
/// Returns `BadName` with the line's number if the name isn't UTF-8. Returns the fault of memory if memory was refused.
pub(crate) fn add_name(
    names: &mut Vec<LineName>,
    state: u8,
    number: u32,
    line: &[u8],
) -> Result<(), NamedFault>
    requires { state ≤ 99 }
    ensures text { OnOk result (names.new.items ≡ names.old.items ++ option_to_list (named_on state line.now)) }
    ensures good { OnOk result (has_bad_name state line.now ≡ false) }
    ensures bad { IfErr result (λ f. (IsNoMemory f → ⊥)
        → (f ≡ NamedFault.BadName number) × (has_bad_name state line.now ≡ true)) }
    ensures read { IfErr result IsNoReadFailure }
{
    match county_on(state, line) {
        None => Ok(()),
        Some(code) => push_name(names, code, number, name_on(line)),
    }
}

/// Returns the first line that is for the county of this `code`, if there is one.
fn line_for(names: &[LineName], code: u64) -> Option<&LineName>
    ensures { option_copied result ≡ find (λ n. n.code == code) names.now }
{
    names.iter().find(|name| name.is_of(code))
}

/// Returns the name of the county of this `code`. It is empty if no line is for that county.
fn name_of(names: &[LineName], code: CountyCode) -> &str
    ensures { result.now ≡ name_of_code names.now code }
{
    match line_for(names, u64::from(code.get())) {
        Some(line) => line.name(),
        None => "",
    }
}

/// Returns `counties` in their order, each with its name.
pub(crate) fn with_names(
    alloc: Global,
    counties: &[County],
    names: &[LineName],
) -> Result<Vec<NamedCounty>, AllocError>
    ensures names { IfOk result (λ v. map county_name v.items ≡ named_by names.now counties.now) }
    ensures same { IfOk result (λ v. map (λ k. k.county) v.items ≡ counties.now) }
{
    let mut named = Vec::new(alloc);
    for county in counties {
        let name = String::from_str(alloc, name_of(names, county.code))?;
        named.push(NamedCounty {
            county: *county,
            name,
        })?;
    }
    Ok(named)
}
