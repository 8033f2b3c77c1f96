//! Where something is wrong, and what is said of it there.
use asl_places::Spot;
use asl_tree::OutOfMemory;
use std::alloc::Global;

/// Where something is wrong, and the words about it, where more can be said than that something is.
#[derive(Drop)]
pub struct Found {
    pub spot: Spot,
    pub words: Option<Words>,
}

/// What is said of a place.
#[derive(Drop)]
pub enum Words {
    /// A sentence without a period.
    Said(String),
    /// What the text that stands there isn't, or has and may not.
    OfText(&'static str),
}

impl Found {
    /// Something that is wrong there.
    pub fn at(spot: Spot) -> Found {
        Found { spot, words: None }
    }

    /// Something that is wrong there, of which that is said. Refuses only where an allocation was refused.
    pub fn told(alloc: Global, spot: Spot, sentence: &str) -> Result<Found, OutOfMemory> {
        Ok(Found::said(spot, String::from_str(alloc, sentence)?))
    }

    /// Something that is wrong there, of which that is said.
    pub(crate) fn said(spot: Spot, sentence: String) -> Found {
        Found {
            spot,
            words: Some(Words::Said(sentence)),
        }
    }

    /// Something that is wrong with the text that stands there.
    pub(crate) fn of_text(spot: Spot, isnt: &'static str) -> Found {
        Found {
            spot,
            words: Some(Words::OfText(isnt)),
        }
    }
}

impl Words {
    /// The same words once more. Refuses only where an allocation was refused.
    pub fn again(&self) -> Result<Words, OutOfMemory> {
        match self {
            Words::Said(sentence) => Ok(Words::Said(sentence.clone()?)),
            Words::OfText(isnt) => Ok(Words::OfText(isnt)),
        }
    }
}
