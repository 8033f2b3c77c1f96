//! Lines and columns.
ghost use Rattle.std.specs.Prelude.{◌≡◌, ◌≤◌, IfOk, length, take};
ghost use Rattle.asl_places.specs.Place.{begins_character, line_behind, column_behind, IsPlaceAt};

use asl_tree::OutOfMemory;
use std::alloc::Global;
use std::marker::Model;

/// A place in a text.
#[derive(Clone, Copy, Debug, Drop, PartialEq, Eq)]
pub struct Place {
    /// The line, counted from 1.
    pub line: usize,
    /// The column, counted from 1, in characters.
    pub column: usize,
}

/// How many bytes there are from one mark to the next.
const STRIDE: usize = 1024;

/// A text in UTF-8 with the places of its bytes. A clause sees the text.
///
/// Each `\n` ends a line, and a `\r` is a character of its line.
#[derive(Drop)]
pub struct Places<'a> {
    text: &'a [u8],
    /// The places of the bytes at the multiples of the stride.
    marks: Vec<Place>,
}

impl<'a> Model for Places<'a> {
    ghost use Rattle.std.specs.Prelude.{ℕ, List};
    ghost use Rattle.asl_places.specs.Place.{AreMarks};

    ghost Value = { List ℕ };

    ghost view = { λ p. p.text.now };

    ghost invariant = { λ p. AreMarks p.text.now p.marks.items };
}

impl<'a> Places<'a> {
    /// The places in a text. Refuses only where an allocation was refused.
    pub fn of(alloc: Global, text: &'a [u8]) -> Result<Places<'a>, OutOfMemory>
        ensures { IfOk result (λ places. places ≡ text.now) }
    {
        let mut marks = Vec::new(alloc);
        let mut place = Place { line: 1, column: 1 };
        for number in 0..text.len() / STRIDE {
            marks.push(place)?;
            place = place_from(text, number * STRIDE, place, (number + 1) * STRIDE);
        }
        marks.push(place)?;
        Ok(Places { text, marks })
    }

    /// The place of the byte at `offset`. An offset behind the text's end is the place of its end.
    pub fn place_at(&self, offset: usize) -> Place
        ensures line { result.line ≡ line_behind (take offset self.now) }
        ensures column { result.column ≡ column_behind (take offset self.now) }
    {
        let end = offset.min(self.text.len());
        let number = end / STRIDE;
        place_from(self.text, number * STRIDE, self.marks[number], end)
    }
}

/// The place of the byte at `end`, by that of an earlier one.
fn place_from(text: &[u8], start: usize, place: Place, end: usize) -> Place
    requires order { start ≤ end }
    requires inside { end ≤ length text.now }
    requires place { IsPlaceAt text.now start place }
    ensures { IsPlaceAt text.now end result }
{
    let (mut line, mut column) = (place.line, place.column);
    for at in start..end {
        if text[at] == b'\n' {
            line += 1;
            column = 1;
        } else if begins_character(text[at]) {
            column += 1;
        }
    }
    Place { line, column }
}

fn begins_character(byte: u8) -> bool
    ensures { result ≡ begins_character byte }
{
    !(128..192).contains(&byte)
}
