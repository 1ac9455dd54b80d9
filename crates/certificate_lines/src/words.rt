//! The words of a line, read one after the other.

ghost use Rattle.std.specs.Prelude.{◌≡◌, ◌≤◌, ◌<◌, ◌+◌, ◌^◌, ◌==◌, ◌∷◌, length, count_by, drop, IfOk, if◌then◌else◌};
ghost use Rattle.std.specs.Result.{result_map_both};
ghost use Rattle.field_lines.specs.{Values.GivesUnless, Fields.{fields_of, fields_left}};
ghost use Rattle.certificate_lines.specs.Words.{line_bytes, line_words, code, pair};
ghost use Rattle.certificate_lines.specs.Lines.{begins, named, counted, number_at, code_word_at, each};
ghost use Rattle.certificate_lines.specs.WordsLeft.{Leaves, LeavesWords, IsNextWord};
ghost use Rattle.certificate_lines.specs.declared.fault.TextKind.TheVariants.{Memory};

use crate::fault::TextKind;
use crate::number::{code_on, is_canonical, number_on, weight_on};
use certificate_data::Weights;
use county_codes::{Codes, CountyCode};
use field_lines::MAX_LINE;
use memchr::memchr;
use std::alloc::Global;
use std::marker::Model;

/// Returns the `bytes` of a line if there are at most 65,536 of them and an LF ended the line, as `ended` says.
#[tactic(auto, unfolding(crate::specs::Words::line_bytes))]
pub(crate) fn bytes_of_line(bytes: &[u8], ended: bool) -> Result<&[u8], TextKind>
    ensures { result_map_both (λ s. s.now) (λ k. k) result ≡ line_bytes bytes.now ended }
{
    if bytes.len() > MAX_LINE {
        Err(TextKind::BadWord)
    } else if !ended {
        Err(TextKind::CutShort)
    } else {
        Ok(bytes)
    }
}

/// Returns the first of the `words`, and the words after its blank if there is one.
fn split_word(words: &[u8]) -> (&[u8], Option<&[u8]>)
    ensures { fields_of 32 words.now ≡ result.0.now ∷ fields_left 32 result.1 }
{
    match memchr(b' ', words) {
        Some(end) => (&words[..end], Some(&words[end + 1..])),
        None => (words, None),
    }
}

/// Counts the blanks of the `line`.
fn blanks(line: &[u8]) -> usize
    ensures value { result ≡ count_by (λ b. b == 32) line.now }
    ensures small { result + 1 < 2 ^ 64 }
{
    line.iter().filter(|b| **b == b' ').count()
}

/// The words of one line that are left.
#[derive(Drop)]
pub struct Words<'a> {
    rest: Option<&'a [u8]>,
}

impl<'a> Model for Words<'a> {
    ghost use Rattle.std.specs.Prelude.{List, ℕ};
    ghost use Rattle.field_lines.specs.Fields.{fields_left};

    /// The words that are left.
    ghost Value = { List (List ℕ) };

    ghost view = { λ s. fields_left 32 s.rest };
}

impl<'a> Words<'a> {
    /// Creates the words of a line from its `bytes` without the LF. `ended` says whether an LF ended them.
    #[tactic(auto, unfolding(crate::specs::Words::line_words))]
    pub fn new(bytes: &'a [u8], ended: bool) -> Result<Self, TextKind>
        ensures { result ≡ line_words bytes.now ended }
    {
        let bytes = bytes_of_line(bytes, ended)?;
        if is_canonical(bytes) {
            Ok(Words { rest: Some(bytes) })
        } else {
            Err(TextKind::NotCanonical)
        }
    }

    /// Counts the words that are left.
    pub fn count(&self) -> usize
        ensures { result ≡ length self.now }
    {
        match self.rest {
            Some(rest) => blanks(rest) + 1,
            None => 0,
        }
    }

    /// Takes the next word, or returns `None` if no word is left.
    pub fn next_word(&mut self) -> Option<&'a [u8]>
        ensures { IsNextWord self.old result self.new }
    {
        let words = self.rest?;
        let (word, rest) = split_word(words);
        self.rest = rest;
        Some(word)
    }

    /// Returns whether the next word is `name`.
    pub fn begins(&self, name: &[u8]) -> bool
        ensures { result ≡ begins name.now self.now }
    {
        match self.rest {
            Some(words) => split_word(words).0 == name,
            None => false,
        }
    }

    /// Takes the next word if it is `name`.
    ///
    /// # Errors
    ///
    /// Returns `BadWord` if it isn't.
    pub fn named(&mut self, name: &[u8]) -> Result<(), TextKind>
        ensures { LeavesWords (named name.now self.old) result self.new }
    {
        if self.skipped(name) {
            Ok(())
        } else {
            Err(TextKind::BadWord)
        }
    }

    /// Takes the next word if it is `name`, and returns whether it was.
    pub(crate) fn skipped(&mut self, name: &[u8]) -> bool
        ensures was { result ≡ begins name.now self.old }
        ensures rest { self.new ≡ (if result then drop 1 self.old else self.old) }
    {
        let is = self.begins(name);
        if is {
            let _word = self.next_word();
        }
        is
    }

    /// Checks that from `least` to `greatest` words are left.
    ///
    /// # Errors
    ///
    /// Returns `BadWord` if fewer or more are left.
    pub fn counted(&self, least: usize, greatest: usize) -> Result<(), TextKind>
        ensures { LeavesWords (counted least greatest self.now) result self.now }
    {
        let count = self.count();
        if least <= count && count <= greatest {
            Ok(())
        } else {
            Err(TextKind::BadWord)
        }
    }

    /// Takes the next word and returns the number that it spells, without a leading zero and from `least` to
    /// `greatest`.
    ///
    /// # Errors
    ///
    /// Returns `BadWord` if no word is left. Otherwise the tests come in this order: `BadNumber` if the word isn't
    /// digits, `NotCanonical` if it has a leading zero, and `BadNumber` if the number is out of range.
    pub fn number(&mut self, least: u32, greatest: u32) -> Result<u32, TextKind>
        ensures value { Leaves (number_at least greatest self.old) result self.new }
        ensures within { IfOk result (λ n. (least ≤ n) × (n ≤ greatest)) }
    {
        let word = self.next_word().ok_or(TextKind::BadWord)?;
        number_on(word, least, greatest)
    }

    /// Takes the next word and returns the code that it spells.
    ///
    /// # Errors
    ///
    /// Returns `BadNumber` if the word isn't five digits, and `BadWord` if no word is left.
    pub fn code(&mut self) -> Result<CountyCode, TextKind>
        ensures { Leaves (code_word_at self.old) result self.new }
    {
        let word = self.next_word().ok_or(TextKind::BadWord)?;
        code_on(word)
    }

    /// Returns the codes that the words left spell, in order.
    ///
    /// # Errors
    ///
    /// Returns `BadNumber` if a word isn't five digits. If memory was refused, it returns `Memory` in place of that or
    /// of an answer.
    pub fn codes(mut self, alloc: Global) -> Result<Codes, TextKind>
        ensures { GivesUnless (λ k. k ≡ Memory) (λ c. c) result (each code self.entry) }
    {
        self.codes_left(alloc)
    }

    /// Takes the words that are left and returns the codes that they spell. It stops at the first word that spells
    /// none, and returns its fault.
    pub(crate) fn codes_left(&mut self, alloc: Global) -> Result<Codes, TextKind>
        ensures { GivesUnless (λ k. k ≡ Memory) (λ c. c) result (each code self.old) }
    {
        let mut codes = Vec::new(alloc);
        while let Some(word) = self.next_word() {
            let code = code_on(word)?;
            codes.push(code)?;
        }
        Ok(Codes::new(codes))
    }

    /// Takes the words that are left and returns the weights that they spell.
    pub(crate) fn weights(&mut self, alloc: Global) -> Result<Weights, TextKind>
        ensures { GivesUnless (λ k. k ≡ Memory) (λ c. c) result (each pair self.old) }
    {
        let mut weights = Vec::new(alloc);
        while let Some(word) = self.next_word() {
            let weight = weight_on(word)?;
            weights.push(weight)?;
        }
        Ok(Weights::new(weights))
    }
}
