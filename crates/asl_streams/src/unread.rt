//! Why a text isn't read shape by shape.

ghost use Rattle.std.specs.Prelude.{◌≡◌};

use asl_numbered::NumberedRefusal;
use asl_shape::ShapeRefusal;
use asl_tree::{TreeRefusal, WantOfMemory};

/// Why a text isn't read shape by shape.
#[derive(Drop)]
pub(crate) enum Unread {
    /// It is no certificate, or none whose fields come in an order in which it can be read so.
    Whole,
    /// An allocation was refused.
    OutOfMemory,
}

impl<E: WantOfMemory + Drop> From<E> for Unread {
    ghost use Rattle.asl_streams.specs.declared.unread.Unread.{Unread};

    ghost from_gives = { λ _ unread. unread ≡ Unread.OutOfMemory };

    fn from(_want: E) -> Unread {
        Unread::OutOfMemory
    }
}

/// Why the next tree isn't read.
pub(crate) fn no_tree(refusal: TreeRefusal) -> Unread {
    match refusal {
        TreeRefusal::NotJson | TreeRefusal::NotWhole => Unread::Whole,
        TreeRefusal::OutOfMemory => Unread::OutOfMemory,
    }
}

/// Why a shape isn't read.
pub(crate) fn no_shape(refusal: ShapeRefusal) -> Unread {
    match refusal {
        ShapeRefusal::OutOfMemory => Unread::OutOfMemory,
        ShapeRefusal::NotAShape
        | ShapeRefusal::Keyword
        | ShapeRefusal::BadType
        | ShapeRefusal::MinItems => Unread::Whole,
    }
}

/// The same, where references may stand in it.
pub(crate) fn no_number(refusal: NumberedRefusal) -> Unread {
    match refusal {
        NumberedRefusal::OutOfMemory => Unread::OutOfMemory,
        NumberedRefusal::Shape(_) | NumberedRefusal::BadNumber => Unread::Whole,
    }
}
