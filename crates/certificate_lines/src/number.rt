//! The numbers, codes and weights that words spell, and the bytes that a line may have.

ghost use Rattle.std.specs.{Prelude.{◌≡◌, ◌≤◌, IfOk}, List.list_all, Char.is_ascii_digit};
ghost use Rattle.certificate_lines.specs.Words.{is_numeral, has_leading_zero, has_bytes, is_printable, words_of, number, code, pair, is_canonical};

use crate::fault::TextKind;
use certificate_data::Weight;
use county_codes::CountyCode;
use field_lines::{Fields, five_digits, number_in};

/// Returns whether each byte of the `word` is an ASCII digit.
fn is_digits(word: &[u8]) -> bool
    ensures { result ≡ list_all is_ascii_digit word.now }
{
    word.iter().all(|b| b.is_ascii_digit())
}

/// Returns whether the `word` is one or more ASCII digits.
fn is_numeral(word: &[u8]) -> bool
    ensures { result ≡ is_numeral word.now }
{
    !word.is_empty() && is_digits(word)
}

/// Returns whether the `word` begins with a zero in front of other bytes.
fn has_leading_zero(word: &[u8]) -> bool
    ensures { result ≡ has_leading_zero word.now }
{
    word.len() > 1 && word[0] == b'0'
}

/// Returns the number that the `word` spells. It has no leading zero and is from `least` to `greatest`.
#[tactic(auto, unfolding(crate::specs::Words::number))]
pub(crate) fn number_on(word: &[u8], least: u32, greatest: u32) -> Result<u32, TextKind>
    ensures value { result ≡ number least greatest word.now }
    ensures within { IfOk result (λ n. (least ≤ n) × (n ≤ greatest)) }
{
    if !is_numeral(word) {
        Err(TextKind::BadNumber)
    } else if has_leading_zero(word) {
        Err(TextKind::NotCanonical)
    } else {
        number_in(word, least, greatest).ok_or(TextKind::BadNumber)
    }
}

/// Returns the code that the `word` spells with five digits.
#[tactic(auto, unfolding(crate::specs::Words::code))]
pub(crate) fn code_on(word: &[u8]) -> Result<CountyCode, TextKind>
    ensures { result ≡ code word.now }
{
    let number = five_digits(word).ok_or(TextKind::BadNumber)?;
    CountyCode::new(number).ok_or(TextKind::BadNumber)
}

/// Returns the weight that the `word` spells as a code, a colon and a number.
#[tactic(auto, unfolding(crate::specs::Words::pair))]
pub(crate) fn weight_on(word: &[u8]) -> Result<Weight, TextKind>
    ensures { result ≡ pair word.now }
{
    let mut halves = Fields::new(word, b':');
    let first = halves.next();
    let second = halves.next();
    let third = halves.next();
    match (first, second, third) {
        (Some(first), Some(second), None) => {
            let county = code_on(first)?;
            let weight = number_on(second, 1, 1_000_000)?;
            Ok(Weight { county, weight })
        }
        _ => Err(TextKind::BadNumber),
    }
}

/// Returns whether each byte of the `line` is printable.
fn is_printed(line: &[u8]) -> bool
    ensures { result ≡ list_all is_printable line.now }
{
    line.iter().all(|b| 32 <= *b && *b <= 126)
}

/// Returns whether the `line` has a byte, and no blank stands first, last or beside another.
fn has_words(line: &[u8]) -> bool
    ensures { result ≡ list_all has_bytes (words_of line.now) }
{
    Fields::new(line, b' ').all(|word| !word.is_empty())
}

/// Returns whether the `line` has only printable bytes, at least one, and no blank stands first, last or beside
/// another.
#[tactic(auto, unfolding(crate::specs::Words::is_canonical))]
pub(crate) fn is_canonical(line: &[u8]) -> bool
    ensures { result ≡ is_canonical line.now }
{
    is_printed(line) && has_words(line)
}
