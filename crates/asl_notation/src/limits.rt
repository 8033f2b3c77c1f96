//! How much of a shape is told.
ghost use Rattle.std.specs.Prelude.{◌≡◌, ◌+◌, IfSome, option_map};
ghost use Rattle.asl_notation.specs.Notation.{noted, noted_below};

/// How much of a shape is told.
#[derive(Clone, Copy, Debug, PartialEq, Eq)]
pub struct Limits {
    /// How many levels of lists and objects are told with what is in them: with 0 none is.
    pub depth: usize,
    /// How many elements of a list, and how many fields of an object, are told, the first ones.
    pub width: usize,
}

impl Limits {
    /// The limits for what is in a list or an object; `None` where that isn't told.
    pub(crate) fn below(self) -> Option<Limits>
        ensures level { IfSome result (λ limits. self.depth ≡ limits.depth + 1) }
        ensures width { IfSome result (λ limits. limits.width ≡ self.width) }
        ensures noted { option_map (λ limits. noted limits.depth limits.width) result
            ≡ noted_below self.depth self.width }
    {
        let depth = self.depth.checked_sub(1)?;
        Some(Limits { depth, ..self })
    }
}
