//! What stands in a trace, with its text.

ghost use Rattle.std.specs.Prelude.{◌≡◌};
ghost use Rattle.asl_model.specs.Json.{compact_text};
ghost use Rattle.asl_model.specs.TracePrinted.{numbers};
ghost use Rattle.asl_model.specs.Tree.{Array, Text};
ghost use Rattle.asl_tree.specs.View.{view};

use asl_run::{Datum, Place};

/// A datum with its compact text.
#[derive(Drop)]
pub(crate) struct WrittenDatum {
    pub(crate) datum: Datum,
    pub(crate) text: Vec<u8>,
    ghost right: { text.items ≡ compact_text (view datum.value) },
}

/// The name of a state with its JSON text.
#[derive(Drop)]
pub(crate) struct WrittenName<'m> {
    pub(crate) name: &'m str,
    pub(crate) text: Vec<u8>,
    ghost right: { text.items ≡ compact_text (Text name.now) },
}

/// A place with its JSON text.
#[derive(Drop)]
pub(crate) struct WrittenPlace {
    pub(crate) place: Place,
    pub(crate) text: Vec<u8>,
    ghost right: { text.items ≡ compact_text (Array (numbers place.items)) },
}
