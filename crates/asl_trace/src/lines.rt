//! Lines of a trace, put together of texts that are always the same and of what they show.

ghost use Rattle.std.specs.Prelude.{◌≡◌, ◌++◌, [], IfOk};
ghost use Rattle.asl_model.specs.Json.{compact_text};
ghost use Rattle.asl_model.specs.TracePrinted.{numbers};
ghost use Rattle.asl_model.specs.Tree.{Array, Text};
ghost use Rattle.asl_trace.specs.Lines.{lines_text};
ghost use Rattle.asl_trace.specs.Shown.{line_of, shown_tree};
ghost use Rattle.asl_tree.specs.View.{view};

use crate::shown::{Shown, text_of};
use crate::written::{WrittenDatum, WrittenName, WrittenPlace};
use asl_run::Datum;
use asl_tree::{OutOfMemory, same};
use std::alloc::Global;
use std::rc::Rc;

/// The lines of a history so far, of runs of a machine.
#[derive(Drop)]
pub struct Lines<'m> {
    alloc: Global,
    bytes: Vec<u8>,
    /// The datum that was shown last: what leaves a state enters the next one.
    last_datum: Option<WrittenDatum>,
    /// The name of a state that was shown last: what enters it and what leaves it have its name.
    last_name: Option<WrittenName<'m>>,
    /// The place that was shown last, but for the machine's own: what happens there in a step has one place.
    last_place: Option<WrittenPlace>,
}

impl<'m> Lines<'m> {
    /// No lines yet.
    pub fn new(alloc: Global) -> Lines<'m>
        ensures { lines_text result ≡ [] }
    {
        Lines {
            alloc,
            bytes: Vec::new(alloc),
            last_datum: None,
            last_name: None,
            last_place: None,
        }
    }

    /// The lines so far, as a text.
    pub fn into_bytes(self) -> Vec<u8>
        ensures { result.items ≡ lines_text self.entry }
    {
        let Lines { bytes, .. } = self;
        bytes
    }

    /// Adds a line: an object of what is shown, each behind the text that stands in front of it.
    pub(crate) fn add_line(&mut self, fields: &[(&str, Shown<'_, 'm>)]) -> Result<(), OutOfMemory>
        ensures { IfOk result
            (λ _. self.new.bytes.items ≡ self.old.bytes.items ++ line_of fields.now) }
    {
        for field in fields {
            self.bytes.extend_from_slice(field.0.as_bytes())?;
            self.show(field.1)?;
        }
        self.bytes.extend_from_slice(b"}\n")?;
        Ok(())
    }

    /// Adds the text of what is shown.
    fn show(&mut self, shown: Shown<'_, 'm>) -> Result<(), OutOfMemory>
        ensures { IfOk result (λ _. self.new.bytes.items
            ≡ self.old.bytes.items ++ compact_text (shown_tree shown.entry)) }
    {
        match shown {
            Shown::Datum(datum) => self.show_datum(datum),
            Shown::Name(name) => self.show_name(name),
            Shown::Place(&[]) => self.put(b"[]"),
            Shown::Place(at) => self.show_place(at),
            Shown::Text(_) | Shown::Number(_) => self.show_anew(shown),
        }
    }

    /// Adds the text of what is shown, which is made for it.
    fn show_anew(&mut self, shown: Shown<'_, 'm>) -> Result<(), OutOfMemory>
        ensures { IfOk result (λ _. self.new.bytes.items
            ≡ self.old.bytes.items ++ compact_text (shown_tree shown.entry)) }
    {
        let text = text_of(self.alloc, shown)?;
        self.put(&text)
    }

    /// Adds these bytes.
    fn put(&mut self, bytes: &[u8]) -> Result<(), OutOfMemory>
        ensures { IfOk result
            (λ _. self.new.bytes.items ≡ self.old.bytes.items ++ bytes.now) }
    {
        Ok(self.bytes.extend_from_slice(bytes)?)
    }

    /// Adds the text of a state's name, which is made only where another one was shown last.
    fn show_name(&mut self, name: &'m str) -> Result<(), OutOfMemory>
        ensures { IfOk result (λ _. self.new.bytes.items
            ≡ self.old.bytes.items ++ compact_text (Text name.now)) }
    {
        if let Some(last) = &self.last_name {
            if last.name == name {
                self.bytes.extend_from_slice(&last.text)?;
                return Ok(());
            }
        }
        let text = text_of(self.alloc, Shown::Name(name))?;
        self.bytes.extend_from_slice(&text)?;
        self.last_name = Some(WrittenName { name, text });
        Ok(())
    }

    /// Adds the text of a place, which is made only where another one was shown last.
    fn show_place(&mut self, at: &[usize]) -> Result<(), OutOfMemory>
        ensures { IfOk result (λ _. self.new.bytes.items
            ≡ self.old.bytes.items ++ compact_text (Array (numbers at.now))) }
    {
        if let Some(last) = &self.last_place {
            if last.place.as_slice() == at {
                self.bytes.extend_from_slice(&last.text)?;
                return Ok(());
            }
        }
        let text = text_of(self.alloc, Shown::Place(at))?;
        self.bytes.extend_from_slice(&text)?;
        let place = Vec::from_slice(self.alloc, at)?;
        self.last_place = Some(WrittenPlace { place, text });
        Ok(())
    }

    /// Adds the text of a datum, which is made only where another one was shown last.
    fn show_datum(&mut self, datum: &Datum) -> Result<(), OutOfMemory>
        ensures { IfOk result (λ _. self.new.bytes.items
            ≡ self.old.bytes.items ++ compact_text (view datum.now.value)) }
    {
        if let Some(last) = &self.last_datum {
            if Rc::ptr_eq(&last.datum, datum) && same(&last.datum, datum) {
                self.bytes.extend_from_slice(&last.text)?;
                return Ok(());
            }
        }
        let text = text_of(self.alloc, Shown::Datum(datum))?;
        self.bytes.extend_from_slice(&text)?;
        let datum = datum.clone()?;
        self.last_datum = Some(WrittenDatum { datum, text });
        Ok(())
    }
}
