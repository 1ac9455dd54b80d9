//! The answer that a text gives, as a record has it.

ghost use Rattle.std.specs.{Prelude.{◌≡◌, ◌≤◌, IfSome, length}, List.{before_first, position}, Option.option_map};
ghost use Rattle.cli_record.specs.Answers.{is_line_feed, is_answer_line as begins_with_answer};
ghost use Rattle.cli_record.specs.Answers.{recorded_answer_line as answer_line_of};
ghost use Rattle.cli_record.specs.Answers.{answer_of_lines as answer_of_its_lines, is_quote};
ghost use Rattle.cli_record.specs.Answers.{first_answer_line as first_line_of, recorded_answer as answer_of_text};

/// What an answer line begins with.
const ANSWER: &[u8] = b"answer ";

/// What the object of an answer begins with.
const OBJECT: &[u8] = b"{\"answer\":\"";

/// Returns whether `line` begins with the word `answer` and a blank.
fn is_answer_line(line: &[u8]) -> bool
    ensures { result ≡ begins_with_answer line.now }
{
    line.starts_with(ANSWER)
}

/// Returns the place of the first line feed of `text`, if it has one.
fn line_end(text: &[u8]) -> Option<usize>
    ensures { result ≡ position is_line_feed text.now }
{
    text.iter().position(|byte| *byte == b'\n')
}

/// Returns the first line of `text`, without its line feed.
fn first_line(text: &[u8]) -> &[u8]
    ensures { result.now ≡ first_line_of text.now }
{
    match line_end(text) {
        None => text,
        Some(end) => &text[..end],
    }
}

/// Returns the first answer line of `text`, without its line feed. Returns `None` if it has none.
fn answer_line(text: &[u8]) -> Option<&[u8]>
    ensures value { option_map (λ line. line.now) result ≡ answer_line_of text.now }
    ensures long { IfSome result (λ line. 7 ≤ length line.now) }
{
    text.split(|byte| *byte == b'\n')
        .find(|line| is_answer_line(line))
}

/// Returns the answer that the lines of `text` give: the first line that begins with `answer `, without this word and
/// the blank, or else the first line.
fn answer_of_lines(text: &[u8]) -> &[u8]
    ensures { result.now ≡ answer_of_its_lines text.now }
{
    match answer_line(text) {
        Some(line) => &line[ANSWER.len()..],
        None => first_line(text),
    }
}

/// Returns the place of the first quote of `text`, if it has one.
fn quote_at(text: &[u8]) -> Option<usize>
    ensures { result ≡ position is_quote text.now }
{
    text.iter().position(|byte| *byte == b'"')
}

/// Returns what stands in `text` before its first quote, or all of it if it has none.
fn before_quote(text: &[u8]) -> &[u8]
    ensures { result.now ≡ before_first is_quote text.now }
{
    match quote_at(text) {
        None => text,
        Some(end) => &text[..end],
    }
}

/// Returns the answer that `text` gives. If the text is an object that begins with the member `answer`, it is the value
/// of this member. Else it is the first line that begins with `answer `, without this word and the blank. If no line
/// begins like this, the answer is the first line. The line feed is no part of it.
pub fn answer_of(text: &[u8]) -> &[u8]
    ensures { result.now ≡ answer_of_text text.now }
{
    if text.starts_with(OBJECT) {
        before_quote(&text[OBJECT.len()..])
    } else {
        answer_of_lines(text)
    }
}
