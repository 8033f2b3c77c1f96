//! Why a value spells no template, and why a template has no value.
ghost use Rattle.std.specs.Prelude.{◌≡◌};

use asl_tree::WantOfMemory;

/// Why a value spells no template.
#[derive(Clone, Copy, Debug, Drop)]
pub enum SpellingRefusal {
    /// It is no object.
    NotObject,
    /// The value of a field whose name ends in `.$` is no text.
    NotText,
    /// Such a text begins with one `$`, and is no reference path.
    BadPath,
    /// Such a text begins with no `$`, and is no intrinsic call.
    BadIntrinsic,
    /// Two fields of an object have one name once the suffix `.$` is lost.
    DuplicateAfterStrip,
    /// Such a text begins with `$$`, and is no context path that is allowed.
    LeftOutContext,
    /// Some number isn't whole, or is out of an `i64`'s range.
    NotWhole,
    /// An allocation was refused.
    OutOfMemory,
}

/// Why a template has no value.
#[derive(Clone, Copy, Debug, Drop)]
pub enum TemplateRefusal {
    /// A path names nothing, or needs an item where there is none.
    ParameterPathFailure,
    /// An intrinsic call has no value.
    IntrinsicFailure,
    /// An allocation was refused.
    OutOfMemory,
}

impl<E: WantOfMemory + Drop> From<E> for SpellingRefusal {
    ghost use Rattle.asl_template.specs.declared.refusal.SpellingRefusal.{SpellingRefusal};

    ghost from_gives = { λ _ refusal. refusal ≡ SpellingRefusal.OutOfMemory };

    fn from(_want: E) -> SpellingRefusal {
        SpellingRefusal::OutOfMemory
    }
}

impl<E: WantOfMemory + Drop> From<E> for TemplateRefusal {
    ghost use Rattle.asl_template.specs.declared.refusal.TemplateRefusal.{TemplateRefusal};

    ghost from_gives = { λ _ refusal. refusal ≡ TemplateRefusal.OutOfMemory };

    fn from(_want: E) -> TemplateRefusal {
        TemplateRefusal::OutOfMemory
    }
}
