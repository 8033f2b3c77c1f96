//! Where the answers of tasks come from.

ghost use Rattle.std.specs.Prelude.{◌≡◌, ℕ, List, [], map, Ok, None, IfOk, IfSome, OnErr};
ghost use Rattle.asl_model.specs.Run.{Action};
ghost use Rattle.asl_model.specs.Tree as model;
ghost use Rattle.asl_run.specs.Answering.{TakesFront};
ghost use Rattle.asl_run.specs.Entries.{answer_view};
ghost use Rattle.asl_tree.specs.View.{view};

use crate::entries::Answer;
use asl_tree::{OutOfMemory, Tree};
use std::collections::VecDeque;

/// A source of answers.
pub trait Answers {
    /// The answers that are left, in their order.
    ghost content: { Self → List Action };
    /// It may give that answer for a state of that name and that payload.
    ghost may_give: { Self → List ℕ → model.Tree → Action → Type 0 };
    /// Once it has come from the first to the second, it may have none for a state of that name and that payload.
    ghost may_be_silent: { Self → Self → List ℕ → model.Tree → Type 0 };

    /// The next answer, for the state of that name and its task's payload; none where the source is silent.
    fn next(&mut self, state: &str, payload: &Tree) -> Result<Option<Answer>, OutOfMemory>
        ensures front { TakesFront result (content self.old) (content self.new) }
        ensures given { IfOk result (λ o. IfSome o
            (λ answer. may_give self.old state.now (view payload.now) (answer_view answer))) }
        ensures silent { result ≡ Ok None
            → may_be_silent self.old self.new state.now (view payload.now) }
        ensures lasting { (n : List ℕ) (t : model.Tree) (answer : Action)
            → may_give self.new n t answer → may_give self.old n t answer }
        ensures lasting_silent { (later : Self) (n : List ℕ) (t : model.Tree)
            → may_be_silent self.new later n t → may_be_silent self.old later n t };
}

/// Answers from a list, whatever state and payload they are for.
#[derive(Drop)]
pub struct ListAnswers {
    list: VecDeque<Answer>,
}

impl ListAnswers {
    /// The answers of the list, from its front on.
    pub fn new(list: VecDeque<Answer>) -> ListAnswers
        ensures content { map answer_view result.list.items ≡ map answer_view list.items }
    {
        ListAnswers { list }
    }
}

impl Answers for ListAnswers {
    ghost content = { λ s. map answer_view s.list.items };

    ghost may_give = { λ _ _ _ _. Unit {0} };

    ghost may_be_silent = { λ _ s _ _. s.list.items ≡ [] };

    /// Never out of memory.
    fn next(&mut self, _state: &str, _payload: &Tree) -> Result<Option<Answer>, OutOfMemory>
        ensures answered { OnErr result ⊥ }
        ensures front { TakesFront result (map answer_view self.old.list.items)
            (map answer_view self.new.list.items) }
        ensures silent { result ≡ Ok None → self.new.list.items ≡ [] }
    {
        Ok(self.list.pop_front())
    }
}
