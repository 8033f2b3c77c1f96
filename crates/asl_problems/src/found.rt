//! Where a problem stands in a text.
use asl_faults::Words;
use asl_tree::OutOfMemory;

/// The byte at which a problem stands, and the words about it, where more can be said than by its kind.
#[derive(Drop)]
pub(crate) struct At {
    pub(crate) byte: usize,
    pub(crate) words: Option<Words>,
}

impl At {
    /// A problem at that byte.
    pub(crate) fn byte(byte: usize) -> At {
        At { byte, words: None }
    }

    /// The same once more.
    pub(crate) fn again(&self) -> Result<At, OutOfMemory> {
        let words = match &self.words {
            Some(words) => Some(words.again()?),
            None => None,
        };
        Ok(At {
            byte: self.byte,
            words,
        })
    }
}
