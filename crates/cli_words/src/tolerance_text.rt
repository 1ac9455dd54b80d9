//! The tolerance that a text writes: a fraction, a decimal or a percentage.

ghost use Rattle.std.specs.Prelude.{◌≡◌, ◌<◌, ◌≤◌, IfSome, length};
ghost use Rattle.std.specs.{Char.is_ascii_digit, List.list_all, Option.option_map};
ghost use Rattle.cli_words.specs.Tolerance.{decimal_in, fraction_in, halves, number_in, parts_of, percentage_of, tolerance_in, tolerance_of};

use county_codes::Tolerance;

/// Returns what stands before and behind the first `mark`, an ASCII character, in `text`. Returns `None` if it has none.
fn halves(text: &str, mark: char) -> Option<(&str, &str)>
    requires { mark < 128 }
    ensures { option_map (λ p. (p.0.now, p.1.now)) result ≡ halves mark text.now }
{
    text.split_once(mark)
}

/// Returns whether each byte of `text` is a digit.
fn is_digits(text: &str) -> bool
    ensures { result ≡ list_all is_ascii_digit text.now }
{
    text.as_bytes().iter().all(|byte| byte.is_ascii_digit())
}

/// Returns the number that `text` writes, if it has one to nine digits and nothing else.
fn number_in(text: &str) -> Option<u64>
    ensures value { result ≡ number_in text.now }
    ensures small { IfSome result (λ n. n < 1000000000) }
    ensures short { IfSome result (λ _. length text.now ≤ 9) }
{
    if !is_digits(text) || text.is_empty() || text.len() > 9 {
        return None;
    }
    text.parse::<u64>().ok()
}

/// Returns the fraction that the decimal `text` writes: digits, or digits, a point and digits. Its whole is a power of
/// ten.
fn decimal_in(text: &str) -> Option<(u64, u64)>
    ensures value { result ≡ decimal_in text.now }
    ensures small { IfSome result (λ f. (f.0 < 1000000000000000000) × (f.1 ≤ 1000000000)) }
{
    match halves(text, '.') {
        None => match number_in(text) {
            Some(number) => Some((number, 1)),
            None => None,
        },
        Some((before, behind)) => {
            let digits = number_in(behind)?;
            let whole = 10u64.pow(behind.len() as u32);
            match number_in(before) {
                Some(number) => Some((number * whole + digits, whole)),
                None => None,
            }
        }
    }
}

/// Returns the fraction of a percentage, the decimal `before` the first percent sign, if nothing stands `behind` it.
fn percentage_of(before: &str, behind: &str) -> Option<(u64, u64)>
    ensures value { result ≡ percentage_of (before.now, behind.now) }
    ensures small { IfSome result (λ f. (f.0 < 1000000000000000000) × (f.1 ≤ 100000000000)) }
{
    if !behind.is_empty() {
        return None;
    }
    match decimal_in(before) {
        Some((part, whole)) => Some((part, 100 * whole)),
        None => None,
    }
}

/// Returns the fraction that `text` writes: two numbers with a slash between them, a decimal or a percentage.
fn fraction_in(text: &str) -> Option<(u64, u64)>
    ensures value { result ≡ fraction_in text.now }
    ensures small { IfSome result (λ f. (f.0 < 1000000000000000000) × (f.1 ≤ 100000000000)) }
{
    if let Some((part, whole)) = halves(text, '/') {
        return match number_in(part) {
            Some(part) => match number_in(whole) {
                Some(whole) => Some((part, whole)),
                None => None,
            },
            None => None,
        };
    }
    match halves(text, '%') {
        Some((before, behind)) => percentage_of(before, behind),
        None => decimal_in(text),
    }
}

/// Returns the tolerance of `parts` of `whole`, the latter from 1 to 1000, if they are at most 500.
fn at_most_500(parts: u64, whole: u64) -> Option<Tolerance>
    requires { whole ≤ 1000 }
    ensures { result ≡ parts_of parts whole }
{
    if parts <= 500 {
        Some(Tolerance {
            numerator: parts as u16,
            denominator: whole as u16,
        })
    } else {
        None
    }
}

/// Returns the fraction `part`/`whole` in lowest terms, if its part is at most 500 and its whole from 1 to 1000. Its
/// whole is the least of these for which the part is a whole number. Returns `None` if `whole` is 0.
fn tolerance_of(part: u64, whole: u64) -> Option<Tolerance>
    requires { whole ≤ 100000000000 }
    ensures { result ≡ tolerance_of (part, whole) }
{
    if whole == 0 || part > 500 * whole {
        return None;
    }
    for least in 1..1001u64 {
        let product = part * least;
        if product % whole == 0 {
            return at_most_500(product / whole, least);
        }
    }
    None
}

/// Returns the tolerance that `text` writes. Returns `None` if it writes none, or if its fraction has no lowest terms
/// with a part of at most 500 and a whole from 1 to 1000.
#[tactic(auto, unfolding(crate::specs::Tolerance::tolerance_in))]
pub(crate) fn tolerance_in(text: &str) -> Option<Tolerance>
    ensures { result ≡ tolerance_in text.now }
{
    match fraction_in(text) {
        Some((part, whole)) => tolerance_of(part, whole),
        None => None,
    }
}
