//! What cutting a part off a call's text may answer.
ghost use Rattle.std.specs.Prelude.{◌≡◌};

use asl_tree::WantOfMemory;

/// What is wrong with a call that is written as one.
#[derive(Clone, Copy, Drop)]
pub(crate) enum Fault {
    /// A function is none of those that are served.
    UnknownFunction,
    /// A path is none, or a context path that isn't allowed.
    BadPath,
}

/// What a part of a call means, or what is wrong with it.
pub(crate) type Meant<T> = Result<T, Fault>;

/// Why a part isn't cut off.
#[derive(Clone, Copy, Drop)]
pub(crate) enum CutRefusal {
    /// The text doesn't begin with such a part.
    Malformed,
    /// An allocation was refused.
    OutOfMemory,
}

impl<E: WantOfMemory + Drop> From<E> for CutRefusal {
    ghost use Rattle.asl_intrinsic.specs.declared.cutting.CutRefusal.{CutRefusal};

    ghost from_gives = { λ _ refusal. refusal ≡ CutRefusal.OutOfMemory };

    fn from(_want: E) -> CutRefusal {
        CutRefusal::OutOfMemory
    }
}
