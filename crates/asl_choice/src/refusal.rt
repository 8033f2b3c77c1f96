//! Why a value spells no rule.

use asl_tree::WantOfMemory;

/// Why a value spells no rule.
#[derive(Clone, Copy, Debug, Drop)]
pub enum RuleRefusal {
    /// It is no object, or its fields aren't those of a rule: exactly one of `And`, `Or` and `Not`, or `Variable` and
    /// one operator; at the top also `Next`, and `Comment` where it is wanted, both texts. Or `And` or `Or` holds no
    /// list, or `Variable` no text.
    NotARule,
    /// There is no operator of that name.
    UnknownOperator,
    /// The value behind an operator is of a wrong kind.
    BadOperand,
    /// A text is no reference path.
    BadPath,
    /// In a pattern a backslash stands before neither a star nor a backslash.
    BadPattern,
    /// `And` or `Or` holds an empty list.
    EmptyList,
    /// `Next` stands below the top.
    NextInside,
    /// Some number isn't whole, or is out of an `i64`'s range.
    NotWhole,
    /// An allocation was refused.
    OutOfMemory,
}

impl<E: WantOfMemory + Drop> From<E> for RuleRefusal {
    ghost use Rattle.std.specs.Prelude.{◌≡◌};
    ghost use Rattle.asl_choice.specs.declared.refusal.RuleRefusal.{RuleRefusal};

    ghost from_gives = { λ _ refusal. refusal ≡ RuleRefusal.OutOfMemory };

    fn from(_want: E) -> RuleRefusal {
        RuleRefusal::OutOfMemory
    }
}
