//! What happens in a run: events at places, and the entries of its history.

use asl_processing::{Datum, Fault};

/// Where an activity stands: the numbers of the children on the way down from the machine's own activity, whose
/// place is empty.
pub type Place = Vec<usize>;

/// The answer of a task.
#[derive(Debug, Drop)]
pub enum Answer {
    /// A value, which the run and its history share.
    Gives(Datum),
    /// A failure: an error's name and its cause.
    Fails { error: String, cause: String },
}

/// An event at a place.
#[derive(Debug, Drop)]
pub enum Event {
    /// A move of the activity there.
    Move(Place),
    /// An answer to the task that waits there.
    Answers(Place, Answer),
}

impl Event {
    ghost use Rattle.std.specs.Prelude.{◌≡◌, option_map};
    ghost use Rattle.std.specs.Option.{unwrap_or};
    ghost use Rattle.asl_model.specs.Run.{Move};
    ghost use Rattle.asl_run.specs.Entries.{answer_view, event_view};

    /// Its place.
    pub(crate) fn place(&self) -> &[usize]
        ensures { result.now ≡ (event_view self.now).place }
    {
        match self {
            Event::Move(place) => place,
            Event::Answers(place, _) => place,
        }
    }

    /// The answer; a move has none.
    pub(crate) fn answer(&self) -> Option<&Answer>
        ensures { unwrap_or (option_map (λ a. answer_view a.now) result) Move
            ≡ (event_view self.now).action }
    {
        match self {
            Event::Move(_) => None,
            Event::Answers(_, answer) => Some(answer),
        }
    }
}

/// The kind of event that a place wants.
#[derive(Clone, Copy, Debug, Drop)]
pub enum Want {
    Move,
    Answer,
}

/// How a scope ends.
#[derive(Debug, Drop)]
pub enum Outcome {
    /// With an output, which the run and its history share.
    Output(Datum),
    /// With an error and its cause.
    Failed { error: String, cause: String },
}

/// An entry of a run's history. All but `Ended` have the name of a state, which the machine lends. Its trees are those of
/// the run itself, shared and not copied.
#[derive(Debug, Drop)]
pub enum Entry<'m> {
    /// The state is entered with its raw input.
    Enter {
        at: Place,
        state: &'m str,
        input: Datum,
    },
    /// Its task is asked with a payload.
    Task {
        at: Place,
        state: &'m str,
        payload: Datum,
    },
    /// It is left with its output.
    Leave {
        at: Place,
        state: &'m str,
        output: Datum,
    },
    /// It raises a data-flow fault.
    Raise {
        at: Place,
        state: &'m str,
        fault: Fault,
    },
    /// Its task has failed.
    TaskFailed {
        at: Place,
        state: &'m str,
        error: String,
        cause: String,
    },
    /// The child of that number has failed.
    BranchFailed {
        at: Place,
        state: &'m str,
        child: usize,
        error: String,
        cause: String,
    },
    /// The retrier of that number retries.
    Retried {
        at: Place,
        state: &'m str,
        retrier: usize,
    },
    /// The catcher of that number hands on to that state.
    Caught {
        at: Place,
        state: &'m str,
        catcher: usize,
        next: &'m str,
    },
    /// A scope has ended.
    Ended {
        at: Place,
        outcome: Outcome,
    },
}
