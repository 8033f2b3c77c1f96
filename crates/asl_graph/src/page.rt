//! Texts of indented lines.

use asl_tree::OutOfMemory;
use std::alloc::Global;

/// What stands in front of a line for each level.
const INDENT: &str = "    ";

/// A text of indented lines.
#[derive(Drop)]
pub(crate) struct Page {
    text: String,
    level: usize,
}

impl Page {
    /// The page with that line, behind which the others are indented by a level.
    pub(crate) fn new(alloc: Global, first: &str) -> Result<Page, OutOfMemory> {
        let mut page = Page {
            text: String::new(alloc),
            level: 0,
        };
        page.push_line(first)?;
        page.level = 1;
        Ok(page)
    }

    /// Puts a line behind the others.
    pub(crate) fn push_line(&mut self, line: &str) -> Result<(), OutOfMemory> {
        for _ in 0..self.level {
            self.text.push_str(INDENT)?;
        }
        self.text.push_str(line)?;
        self.text.push_str("\n")?;
        Ok(())
    }

    /// Puts a line behind the others, and indents those behind it by one more level.
    pub(crate) fn open(&mut self, line: &str) -> Result<(), OutOfMemory> {
        self.push_line(line)?;
        self.level = self.level.saturating_add(1);
        Ok(())
    }

    /// Puts a line behind the others that ends a level.
    pub(crate) fn close(&mut self, line: &str) -> Result<(), OutOfMemory> {
        self.level = self.level.saturating_sub(1);
        self.push_line(line)
    }

    /// The text.
    pub(crate) fn into_text(self) -> String {
        self.text
    }
}
