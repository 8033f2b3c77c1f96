//! In which order the places of a run take their turns.

ghost use Rattle.std.specs.Prelude.{◌≡◌, ◌<◌, ◌-◌, ℕ};

/// An order of the places where an event is enabled.
pub trait Order {
    /// It may pick the place of that number, counted from 0, out of so many.
    ghost may_pick: { Self → ℕ → ℕ → Type 0 };

    /// The number of the place whose turn it is, of `n` places, counted from 0.
    fn pick(&mut self, n: usize) -> usize
        requires { 0 < n }
        ensures below { result < n }
        ensures picked { may_pick self.old n result }
        ensures lasting { (many : ℕ) (number : ℕ) → may_pick self.new many number
            → may_pick self.old many number };
}

/// The first place.
#[derive(Clone, Copy, Drop)]
pub struct First;

impl Order for First {
    ghost may_pick = { λ _ _ number. number ≡ 0 };

    fn pick(&mut self, _n: usize) -> usize {
        0
    }
}

/// The last place.
#[derive(Clone, Copy, Drop)]
pub struct Last;

impl Order for Last {
    ghost may_pick = { λ _ many number. number ≡ many - 1 };

    fn pick(&mut self, n: usize) -> usize {
        n - 1
    }
}
