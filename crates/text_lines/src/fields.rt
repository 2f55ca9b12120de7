ghost use Rattle.std.specs.Prelude.{◌≡◌, ◌≢◌, List, ℕ, MatchOption, [], ◌∷◌, length};
ghost use Rattle.text_lines.specs.Fields.{fields_of};

use bstr::{ByteSlice, Split};
use std::marker::Model;

/// The fields of a line that are still to come. The line is cut at its spaces, and each piece at its tabs.
#[derive(Drop)]
pub struct Fields<'a> {
    words: Split<'a, 'static>,
    parts: Split<'a, 'static>,
}

impl<'a> Model for Fields<'a> {
    ghost use Rattle.std.specs.Prelude.{List, ℕ, ◌++◌, filter, ◌==◌};
    ghost use Rattle.std.specs.List.{slice_split, flat_map};
    ghost use Rattle.text_lines.specs.Fields.{is_field};

    ghost Value = { List (List ℕ) };

    ghost view = { λ f. filter is_field (f.parts ++ flat_map (λ word. slice_split (λ b. b == 9) word) f.words) };
}

/// The fields of a line: its longest runs of bytes that aren't blanks.
pub fn fields_of(line: &[u8]) -> Fields<'_>
    ensures { result ≡ fields_of line.now }
{
    let nothing: &[u8] = b"";
    Fields {
        words: line.split_str(b" "),
        parts: nothing.split_str(b"\t"),
    }
}

impl<'a> Fields<'a> {
    /// The next field, or none after the last.
    pub fn next_field(&mut self) -> Option<&'a [u8]>
        ensures { MatchOption result (self.old ≡ []) (λ field. self.old ≡ field.now ∷ self.new) }
    {
        loop {
            match self.parts.next() {
                Some(part) => {
                    if !part.is_empty() {
                        return Some(part);
                    }
                }
                None => match self.words.next() {
                    Some(word) => self.parts = word.split_str(b"\t"),
                    None => return None,
                },
            }
        }
    }

    /// The fields that are left, if there are exactly two.
    pub fn two(mut self) -> Option<(&'a [u8], &'a [u8])>
        ensures { MatchOption result (length self.entry ≢ 2) (λ f. self.entry ≡ f.0.now ∷ f.1.now ∷ []) }
    {
        let first = self.next_field()?;
        let second = self.next_field()?;
        match self.next_field() {
            None => Some((first, second)),
            Some(_) => None,
        }
    }

    /// The fields that are left, if there are exactly three.
    pub fn three(mut self) -> Option<(&'a [u8], &'a [u8], &'a [u8])>
        ensures { MatchOption result (length self.entry ≢ 3) (λ f. self.entry ≡ f.0.now ∷ f.1.now ∷ f.2.now ∷ []) }
    {
        let first = self.next_field()?;
        let (second, third) = self.two()?;
        Some((first, second, third))
    }

    /// The fields that are left, if there are exactly four.
    pub fn four(mut self) -> Option<(&'a [u8], &'a [u8], &'a [u8], &'a [u8])>
        ensures { MatchOption result (length self.entry ≢ 4) (λ f. self.entry ≡ f.0.now ∷ f.1.now ∷ f.2.now ∷ f.3.now ∷ []) }
    {
        let first = self.next_field()?;
        let (second, third, fourth) = self.three()?;
        Some((first, second, third, fourth))
    }
}
