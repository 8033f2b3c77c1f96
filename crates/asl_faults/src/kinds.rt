//! What the values of fields have to be, and which are of another kind.
use crate::found::Found;
use crate::index::Index;
use crate::paths::values_within;
use crate::sources::{text_from, value_at};
use asl_fields::rows::{Wanted, wanted_of};
use asl_places::Spot;
use asl_tree::OutOfMemory;
use std::alloc::Global;

/// The field with the tasks of declared shapes.
const TASKS: &str = "tasks";

/// What the value of a field has to be, in words; none of a field with a template or with any value.
fn words_of(field: &str) -> Option<&'static str> {
    match wanted_of(field) {
        Some(wanted) => words(wanted),
        None if field == TASKS => Some("an object with tasks"),
        None => None,
    }
}

/// What is wanted, in words; none where no value is told as of another kind: of a template, or of any value.
fn words(wanted: Wanted) -> Option<&'static str> {
    match wanted {
        Wanted::Text => Some("a text"),
        Wanted::Language => Some("the text `JSONPath`"),
        Wanted::Positive => Some("a whole number above 0"),
        Wanted::Count => Some("a whole number, 0 or more"),
        Wanted::Number => Some("a number"),
        Wanted::Truth => Some("`true` or `false`"),
        Wanted::Path => Some("a reference path"),
        Wanted::PathOrNull => Some("a reference path or null"),
        Wanted::Template | Wanted::ItemTemplate | Wanted::Any => None,
        Wanted::Config => Some("an object"),
        Wanted::States => Some("an object with states"),
        Wanted::Scope => Some("an object with `StartAt` and `States`"),
        Wanted::Scopes => Some("a list of objects with `StartAt` and `States`"),
        Wanted::Rules => Some("a list of rules"),
        Wanted::Names => Some("a list of texts"),
        Wanted::Retriers => Some("a list of retriers"),
        Wanted::Catchers => Some("a list of catchers"),
    }
}

/// What is said of a value of another kind in that field, where these words say what it wants.
fn sentence(alloc: Global, field: &str, words: &str) -> Result<String, OutOfMemory> {
    Ok(format!(in alloc; "The value of `{field}` has to be {words}")?)
}

/// Whether a value that is written so is of the kind that the field wants.
fn is_met(field: &str, value: &[u8]) -> bool {
    match wanted_of(field) {
        Some(wanted) => is_met_by(wanted, value),
        None => value.first() == Some(&b'{'),
    }
}

/// Whether a value that is written so is of the kind that is wanted. Of what a template has to be this says nothing.
fn is_met_by(wanted: Wanted, value: &[u8]) -> bool {
    let Some(first) = value.first() else {
        return false;
    };
    match wanted {
        Wanted::Text | Wanted::Language | Wanted::Path => *first == b'"',
        Wanted::PathOrNull => *first == b'"' || *first == b'n',
        Wanted::Positive => matches!(whole_number(value), Some(number) if number > 0),
        Wanted::Count => matches!(whole_number(value), Some(number) if number >= 0),
        Wanted::Number => is_number(value),
        Wanted::Truth => *first == b't' || *first == b'f',
        Wanted::Template | Wanted::ItemTemplate | Wanted::Any => true,
        Wanted::Config | Wanted::States | Wanted::Scope => *first == b'{',
        Wanted::Scopes | Wanted::Rules | Wanted::Names | Wanted::Retriers | Wanted::Catchers =>
            *first == b'[',
    }
}

/// Whether a value that is written so is a number.
fn is_number(value: &[u8]) -> bool {
    matches!(value.first(), Some(b'-' | b'0'..=b'9'))
}

/// The whole number of 64 bits that a value is by its spelling.
fn whole_number(value: &[u8]) -> Option<i64> {
    let digits = str::from_utf8(value).ok()?;
    if digits == "-0" {
        return None;
    }
    digits.parse::<i64>().ok()
}

/// The whole number of 64 bits with which the text begins, where its first value is one.
pub fn whole_at(text: &[u8]) -> Option<i64> {
    whole_number(value_at(text))
}

/// Whether a value that is written so is a number that isn't whole.
fn is_fraction(value: &[u8]) -> bool {
    is_number(value) && whole_number(value).is_none()
}

/// What is said of a value of another kind than the field wants; none where the field may have any.
pub fn sentence_of_kind(alloc: Global, field: &str) -> Result<Option<String>, OutOfMemory> {
    match words_of(field) {
        Some(words) => Ok(Some(sentence(alloc, field, words)?)),
        None => Ok(None),
    }
}

/// What may be wrong with a value that isn't of the kind that is wanted.
#[derive(Clone, Copy, Drop, PartialEq, Eq)]
pub enum Misfit {
    /// It is of another kind, or out of the range.
    WrongKind,
    /// It is a number that isn't whole.
    NotWhole,
}

/// A text in which values are looked for that aren't of the kind that is wanted, in one of the two ways.
#[derive(Clone, Copy)]
pub struct Kinds<'k, 's, 'f, 'a> {
    pub alloc: Global,
    pub index: &'k Index<'s, 'a>,
    pub text: &'f [u8],
    pub misfit: Misfit,
}

impl Kinds<'_, '_, '_, '_> {
    /// Adds what is wrong so with the value of a field: with the value itself, or with the names of errors in it. Refuses only
    /// where an allocation was refused.
    pub fn add_of_field(
        self,
        field: &str,
        value: Spot,
        found: &mut Vec<Found>,
    ) -> Result<(), OutOfMemory> {
        let Some(words) = words_of(field) else {
            return self.add_fraction(value, found);
        };
        match wanted_of(field) {
            Some(Wanted::Config) if self.first_fraction(value)?.is_some() => {
                self.add_fraction(value, found)
            }
            Some(Wanted::Names) if self.written(value).first() == Some(&b'[') => {
                self.add_of_names(value, found)
            }
            _ if is_met(field, self.written(value)) => Ok(()),
            _ => {
                let sentence = sentence(self.alloc, field, words)?;
                self.add_misfit(value, sentence, found)
            }
        }
    }

    /// Adds that a value is no object, where one is wanted in a list. Refuses only where an allocation was refused.
    pub fn add_of_element(self, value: Spot, found: &mut Vec<Found>) -> Result<(), OutOfMemory> {
        if self.written(value).first() == Some(&b'{') {
            return Ok(());
        }
        let sentence = String::from_str(self.alloc, "An object is wanted here")?;
        self.add_misfit(value, sentence, found)
    }

    /// Adds the values in a list that aren't texts.
    fn add_of_names(self, list: Spot, found: &mut Vec<Found>) -> Result<(), OutOfMemory> {
        for name in &self.index.elements(self.alloc, list)? {
            if self.written(*name).first() != Some(&b'"') {
                let sentence = "A name of an error in `ErrorEquals` has to be a text";
                let sentence = String::from_str(self.alloc, sentence)?;
                self.add_misfit(*name, sentence, found)?;
            }
        }
        Ok(())
    }

    /// Adds a value that isn't of the kind that is wanted, if it is so in the way that is looked for.
    fn add_misfit(
        self,
        value: Spot,
        sentence: String,
        found: &mut Vec<Found>,
    ) -> Result<(), OutOfMemory> {
        match (self.misfit, is_fraction(self.written(value))) {
            (Misfit::WrongKind, false) => found.push(Found::said(value, sentence))?,
            (Misfit::NotWhole, true) => found.push(Found::at(value))?,
            _ => {}
        }
        Ok(())
    }

    /// Adds the first number in the value that isn't whole, if that is looked for. Refuses only where an allocation was
    /// refused.
    pub fn add_fraction(self, value: Spot, found: &mut Vec<Found>) -> Result<(), OutOfMemory> {
        if self.misfit != Misfit::NotWhole {
            return Ok(());
        }
        if let Some(number) = self.first_fraction(value)? {
            found.push(Found::at(number))?;
        }
        Ok(())
    }

    /// The first number in the value that isn't whole. Refuses only where an allocation was refused.
    pub fn first_fraction(self, value: Spot) -> Result<Option<Spot>, OutOfMemory> {
        let outline = self.index.outline();
        let values = values_within(self.alloc, outline, self.text.len(), value)?;
        let mut first: Option<Spot> = None;
        for part in &values {
            let is_earlier = first.is_none_or(|other| part.token < other.token);
            if is_earlier && is_fraction(self.written(*part)) {
                first = Some(*part);
            }
        }
        Ok(first)
    }

    /// The value as it is written, and of an object or a list the bracket and what follows.
    fn written(&self, value: Spot) -> &[u8] {
        let text = text_from(self.text, self.index.offset(value));
        match text.first() {
            Some(b'{' | b'[' | b'"') => text,
            _ => value_at(text),
        }
    }
}
