//! Texts that are cut where they are long.

use asl_tree::OutOfMemory;
use std::alloc::Global;

/// What stands for what is cut off.
const MORE: char = '…';

/// A text of so many characters at most, and an ellipsis behind them where there would be more.
#[derive(Drop)]
pub(crate) struct ShortText {
    text: String,
    left: usize,
    is_cut: bool,
}

impl ShortText {
    /// An empty text with room for so many characters.
    pub(crate) fn new(alloc: Global, most: usize) -> ShortText {
        ShortText {
            text: String::new(alloc),
            left: most,
            is_cut: false,
        }
    }

    /// Whether the text is cut, so that nothing more comes to it.
    pub(crate) fn is_cut(&self) -> bool {
        self.is_cut
    }

    /// Puts a text behind, as far as there is room.
    pub(crate) fn push_str(&mut self, text: &str) -> Result<(), OutOfMemory> {
        for character in text.chars() {
            if self.is_cut {
                break;
            }
            self.push(character)?;
        }
        Ok(())
    }

    /// Puts a character behind, or the ellipsis.
    fn push(&mut self, character: char) -> Result<(), OutOfMemory> {
        match self.left.checked_sub(1) {
            Some(left) => {
                self.left = left;
                self.text.push(character)?;
            }
            None => {
                self.is_cut = true;
                self.text.push(MORE)?;
            }
        }
        Ok(())
    }

    /// The text.
    pub(crate) fn into_text(self) -> String {
        self.text
    }
}

/// The text, cut behind so many characters.
pub(crate) fn cut(alloc: Global, text: &str, most: usize) -> Result<String, OutOfMemory> {
    let mut short = ShortText::new(alloc, most);
    short.push_str(text)?;
    Ok(short.into_text())
}
