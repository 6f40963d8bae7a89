//! A text in parts: what stands between its separators.
ghost use Rattle.std.specs.Prelude.{◌≡◌, ℕ, ◌==◌, List, [], ◌∷◌, MatchOption, if◌then◌else◌};
ghost use Rattle.std.specs.List.{slice_split};
ghost use Rattle.memchr.specs.Find.{IsFirstByte, is_byte};
ghost use Rattle.trace_text.specs.Reading.{IsNumberTaken, LeadsWithNumber};

use crate::fields::{begins_as_number, with_digit};
use memchr::memchr;
use std::marker::Model;

/// How many bytes of a text are looked at one by one before the others are searched in wider steps. Most fields are shorter, and most lines
/// are longer, but for the empty ones.
fn near_of(byte: u8) -> usize {
    if byte == b'\n' { 1 } else { 12 }
}

/// The first place of a byte.
fn first_place(byte: u8, text: &[u8]) -> Option<usize>
    ensures { IsFirstByte (is_byte byte) text.now result }
{
    let near = text.len().min(near_of(byte));
    for place in 0..near {
        if text[place] == byte {
            return Some(place);
        }
    }
    match memchr(byte, &text[near..]) {
        Some(place) => Some(near + place),
        None => None,
    }
}

/// A number that a text begins with.
#[derive(Clone, Copy)]
struct LeadingNumber {
    value: u64,
    // How many digits write it.
    digits: usize,
}

/// The number that the first part of a text writes by digits alone, where it is below 2^64. The part ends at the first place of the byte
/// `at`.
fn leading_number(at: u8, text: &[u8]) -> Option<LeadingNumber>
    ensures { LeadsWithNumber at text.now result }
{
    let mut value = 0;
    for digits in 0..text.len() {
        let byte = text[digits];
        if byte == at {
            return Some(LeadingNumber { value, digits });
        }
        let Some(next) = with_digit(value, byte) else {
            return None;
        };
        value = next;
    }
    let digits = text.len();
    Some(LeadingNumber { value, digits })
}

/// The parts of a text between the places of a byte, from the left, as lines and fields are read. Contracts see the list of the parts
/// that are left.
#[derive(Drop)]
pub struct Parts<'a> {
    rest: &'a [u8],
    at: u8,
    ended: bool,
}

impl<'a> Model for Parts<'a> {
    ghost Value = { List (List ℕ) };

    ghost view = { λ parts. if parts.ended then [] else slice_split (λ b. b == parts.at) parts.rest.now };
}

impl<'a> Parts<'a> {
    /// All parts of `text`.
    pub fn new(text: &'a [u8], at: u8) -> Parts<'a>
        ensures { result ≡ slice_split (λ b. b == at) text.now }
    {
        Parts {
            rest: text,
            at,
            ended: false,
        }
    }

    /// The next part, or None after the last.
    pub fn next(&mut self) -> Option<&'a [u8]>
        ensures { MatchOption result (self.old ≡ []) (λ part. self.old ≡ part.now ∷ self.new) }
    {
        if self.ended {
            return None;
        }
        match first_place(self.at, self.rest) {
            Some(place) => {
                let part = &self.rest[..place];
                self.rest = &self.rest[place + 1..];
                Some(part)
            }
            None => {
                self.ended = true;
                Some(self.rest)
            }
        }
    }

    /// Takes the next part, where it spells a number in decimal, with no sign and no leading zero. Its bytes are gone over once. After None
    /// some part is left or none.
    pub fn next_number(&mut self) -> Option<u64>
        ensures { IsNumberTaken self.old self.new result }
    {
        if self.ended {
            return None;
        }
        let rest = self.rest;
        let Some(LeadingNumber { value, digits }) = leading_number(self.at, rest) else {
            return None;
        };
        if !begins_as_number(&rest[..digits]) {
            return None;
        }
        if digits < rest.len() {
            self.rest = &rest[digits + 1..];
        } else {
            self.ended = true;
        }
        Some(value)
    }
}
