//! What a run takes its turns by, and what it ends with.

ghost use Rattle.std.specs.Prelude.{◌≡◌};
ghost use Rattle.asl_texts.specs.Runs.{place_picked};

use asl_run::Order;

/// Whose turn it is, of the places where an event is enabled.
#[derive(Clone, Copy)]
pub enum Pick {
    /// The first place's.
    First,
    /// The last place's.
    Last,
}

impl Order for Pick {
    ghost may_pick = { λ order many number. number ≡ place_picked order many };

    fn pick(&mut self, n: usize) -> usize {
        match self {
            Pick::First => 0,
            Pick::Last => n - 1,
        }
    }
}

/// What a run ends with.
#[derive(Drop)]
pub enum RunEnd {
    /// It has an output.
    Output,
    /// It has failed.
    Failed,
    /// A task waits, and no answer is left.
    NoAnswer,
    /// As many events were taken as there may be.
    StepsSpent,
    /// The input isn't of its declared shape.
    InputShape,
    /// The next answer isn't of the shape that the task of that state is declared to give.
    AnswerShape(String),
}
