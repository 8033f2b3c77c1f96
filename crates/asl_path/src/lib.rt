//! Reference paths (States Language, "Reference Paths"): reading and writing them, and finding what they name.
//!
//! A [`RefPath`] is made by [`parse`] alone, so each of its names has a spelling; [`find`] lends the node of a tree
//! that a path names.
#![tactic(auto)]

ghost use Rattle.std.specs.Prelude.{◌≡◌};

use asl_tree::WantOfMemory;
use std::marker::Model;

mod cutting;
mod finding;
mod parsing;
mod placing;
mod printing;
mod scanning;

pub use finding::find;
pub use parsing::parse;
pub use placing::{PlaceRefusal, place};
pub use printing::print;

/// One step of a path.
#[derive(Debug, Drop)]
pub enum Segment {
    /// Into the field of that name of an object.
    Name(String),
    /// To the element at that place of a list, counted from 0.
    Index(u32),
}

/// A reference path: the steps behind its `$`.
#[derive(Debug, Drop)]
pub struct RefPath {
    segments: Vec<Segment>,
}

impl Model for RefPath {
    ghost use Rattle.std.specs.Prelude.{List, IsTrue};
    ghost use Rattle.asl_model.specs.Path as model;
    ghost use Rattle.asl_model.specs.PathSpelling.{have_spellings};

    ghost Value = { List model.Segment };

    ghost use Rattle.asl_path.specs.View.{segments_view};

    ghost view = { λ p. segments_view p.segments.items };

    ghost invariant = { λ p. IsTrue (have_spellings (segments_view p.segments.items)) };
}

impl RefPath {
    ghost use Rattle.std.specs.Prelude.{IsTrue};
    ghost use Rattle.asl_model.specs.PathSpelling.{have_spellings};
    ghost use Rattle.asl_path.specs.View.{segments_view};

    /// The path's steps, in order. Each has a spelling.
    pub fn segments(&self) -> &[Segment]
        ensures steps { segments_view result.now ≡ self.now }
        ensures spelled { IsTrue (have_spellings self.now) }
    {
        &self.segments
    }
}

/// Why a text is no reference path. The byte is where its first rest stands that isn't empty and doesn't begin with
/// a segment.
#[derive(Debug, Drop)]
pub enum PathRefusal {
    /// The text doesn't begin with `$`.
    NoDollar,
    /// No segment begins at that byte.
    BadSegment(usize),
    /// The same, and from that byte on stands what this language leaves out: one of `* ? @ , : (`, or `..`.
    LeftOut(usize),
    /// An allocation was refused.
    OutOfMemory,
}

impl<E: WantOfMemory + Drop> From<E> for PathRefusal {
    ghost use Rattle.asl_path.specs.declared.PathRefusal.{PathRefusal};

    ghost from_gives = { λ _ refusal. refusal ≡ PathRefusal.OutOfMemory };

    fn from(_want: E) -> PathRefusal {
        PathRefusal::OutOfMemory
    }
}
