//! Answers from a list, each of which has to be of the shape that is declared for it.

ghost use Rattle.std.specs.Prelude.{◌≡◌, ℕ, List, map, option_map, Ok, None, IfOk, IfSome, OnErr};
ghost use Rattle.asl_model.specs.Certificate.{gives_of};
ghost use Rattle.asl_model.specs.Run.{Action};
ghost use Rattle.asl_model.specs.Shape.{has as has_shape};
ghost use Rattle.asl_model.specs.Tree as trees;
ghost use Rattle.asl_records.specs.View.{declared_view};
ghost use Rattle.asl_run.specs.Answering.{TakesFront};
ghost use Rattle.asl_run.specs.Entries.{answer_view};
ghost use Rattle.asl_tree.specs.View.{view};
ghost use Rattle.asl_texts.specs.Runs.{MayBeSilent, MayGive, shape_given, fits_task, is_spent, next_fits};

use asl_records::Declared;
use asl_run::{Answer, Answers};
use asl_shape::has;
use asl_tree::{OutOfMemory, Tree};
use std::collections::VecDeque;

/// A list of answers, from its front on, and the declared shapes where there are any. It is silent where the next
/// answer gives what isn't of the shape that the state's task is declared to give: that answer stays.
#[derive(Drop)]
pub(crate) struct DeclaredAnswers<'d> {
    pub(crate) declared: Option<&'d Declared>,
    pub(crate) list: VecDeque<Answer>,
}

impl Answers for DeclaredAnswers<'_> {
    ghost use Rattle.asl_texts.specs.declared.declared_answers.DeclaredAnswers.{DeclaredAnswers};

    ghost content = { λ s. map answer_view s.list.items };

    ghost may_give = { λ s. MayGive (option_map (λ d. declared_view d.now) s.declared) };

    ghost may_be_silent = { λ s later.
        MayBeSilent (option_map (λ d. declared_view d.now) s.declared)
        (map answer_view later.list.items) };

    /// Never out of memory.
    fn next(&mut self, state: &str, _payload: &Tree) -> Result<Option<Answer>, OutOfMemory>
        ensures answered { OnErr result ⊥ }
        ensures front { TakesFront result (map answer_view self.old.list.items)
            (map answer_view self.new.list.items) }
        ensures given { let shapes = option_map (λ d. declared_view d.now) self.old.declared in
            IfOk result (λ o. IfSome o
            (λ answer. MayGive shapes state.now (view _payload.now) (answer_view answer))) }
        ensures silent { let shapes = option_map (λ d. declared_view d.now) self.old.declared in
            result ≡ Ok None → MayBeSilent shapes (map answer_view self.new.list.items)
            state.now (view _payload.now) }
        ensures lasting { (n : List ℕ) (t : trees.Tree) (answer : Action)
            → MayGive (option_map (λ d. declared_view d.now) self.new.declared) n t answer
            → MayGive (option_map (λ d. declared_view d.now) self.old.declared) n t answer }
        ensures lasting_silent { (later : DeclaredAnswers) (n : List ℕ) (t : trees.Tree)
            → MayBeSilent (option_map (λ d. declared_view d.now) self.new.declared)
            (map answer_view later.list.items) n t
            → MayBeSilent (option_map (λ d. declared_view d.now) self.old.declared)
            (map answer_view later.list.items) n t }
    {
        if self.next_fits(state) {
            Ok(self.list.pop_front())
        } else {
            Ok(None)
        }
    }
}

impl DeclaredAnswers<'_> {
    /// Whether no answer is left.
    pub(crate) fn is_spent(&self) -> bool
        ensures { result ≡ is_spent (map answer_view self.now.list.items) }
    {
        self.list.front().is_none()
    }

    /// Whether there is a next answer, and the state of that name may be given it.
    fn next_fits(&self, state: &str) -> bool
        ensures { result ≡ next_fits (option_map (λ d. declared_view d.now) self.now.declared)
            state.now (map answer_view self.now.list.items) }
    {
        match self.list.front() {
            Some(answer) => fits_task(self.declared, state, answer),
            None => false,
        }
    }
}

/// Whether the state of that name may be given the answer: what it gives is of the shape that is declared for the task.
fn fits_task(declared: Option<&Declared>, state: &str, answer: &Answer) -> bool
    ensures { result ≡ fits_task (option_map (λ d. declared_view d.now) declared.entry)
        state.now (answer_view answer.now) }
{
    match answer {
        Answer::Gives(tree) => is_given(declared, state, tree),
        Answer::Fails { error: _, cause: _ } => true,
    }
}

/// Whether the tree is of the shape of what the task of that name gives; where no shapes are declared, that is any.
fn is_given(declared: Option<&Declared>, state: &str, tree: &Tree) -> bool
    ensures { result ≡ has_shape
        (shape_given (option_map (λ d. declared_view d.now) declared.entry) state.now)
        (view tree.now) }
{
    match declared {
        Some(declared) => is_given_by(declared, state, tree),
        None => true,
    }
}

/// Whether the tree is of the shape of what the task of that name is declared to give; where it isn't declared, that is
/// any.
fn is_given_by(declared: &Declared, state: &str, tree: &Tree) -> bool
    ensures { result
        ≡ has_shape (gives_of (declared_view declared.now) state.now) (view tree.now) }
{
    match declared.task(state) {
        Some(task) => has(&task.gives, tree),
        None => true,
    }
}
