//! Labels.

use asl_tree::OutOfMemory;
use std::alloc::Global;
use std::mem;

/// From how many characters on a line ends at the next blank.
const WIDTH: usize = 24;

/// How many characters a line has at most.
const MOST: usize = 40;

/// The lines of a label. A blank stands in them for a line break or another control character.
#[derive(Drop)]
pub(crate) struct Label {
    alloc: Global,
    lines: Vec<String>,
}

impl Label {
    /// A label without lines.
    pub(crate) fn new(alloc: Global) -> Label {
        Label {
            alloc,
            lines: Vec::new(alloc),
        }
    }

    /// The label of a text, broken where it is long.
    pub(crate) fn of(alloc: Global, text: &str) -> Result<Label, OutOfMemory> {
        let mut label = Label::new(alloc);
        label.push(text)?;
        Ok(label)
    }

    /// The label of a text on one line.
    pub(crate) fn on_one_line(alloc: Global, text: &str) -> Result<Label, OutOfMemory> {
        let mut label = Label::new(alloc);
        let mut line = String::new(alloc);
        for character in text.chars() {
            line.push(shown(character))?;
        }
        label.lines.push(line)?;
        Ok(label)
    }

    /// A name with what it is behind it, or below it where the two are too long for one line.
    pub(crate) fn title(alloc: Global, name: &str, what: &str) -> Result<Label, OutOfMemory> {
        let whole = format!(in alloc; "{name} ({what})")?;
        if whole.chars().count() <= MOST {
            return Label::on_one_line(alloc, &whole);
        }
        let mut label = Label::of(alloc, name)?;
        label.push(&format!(in alloc; "({what})")?)?;
        Ok(label)
    }

    /// Puts a text below the lines, broken where it is long.
    pub(crate) fn push(&mut self, text: &str) -> Result<(), OutOfMemory> {
        let mut line = String::new(self.alloc);
        let mut width: usize = 0;
        for character in text.chars() {
            let character = shown(character);
            let is_break = width >= WIDTH && character == ' ';
            if is_break || width >= MOST {
                let full = mem::replace(&mut line, String::new(self.alloc));
                self.lines.push(full)?;
                width = 0;
            }
            if !is_break {
                line.push(character)?;
                width = width.saturating_add(1);
            }
        }
        self.lines.push(line)?;
        Ok(())
    }

    /// The lines.
    pub(crate) fn lines(&self) -> &[String] {
        &self.lines
    }
}

/// The character as a label shows it.
fn shown(character: char) -> char {
    match character {
        '\u{2028}' | '\u{2029}' => ' ',
        _ if character.is_control() => ' ',
        _ => character,
    }
}
