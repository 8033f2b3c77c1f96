//! The answers of a case, by the names of states.
ghost use Rattle.std.specs.Prelude.{◌≡◌, ◌≢◌, ℕ, List, Some, None, IfOk, OnErr, OnOk, String};
ghost use Rattle.std.specs.Prelude.{map, option_map, slice_index_or, slice_set, string_bytes};
ghost use Rattle.std.specs.declared.alloc.Global.{Global};
ghost use Rattle.std.specs.Iterator.{YieldsFirstBy, item_count};
ghost use Rattle.std.specs.Option.{option_or};
ghost use Rattle.asl_run.specs.Entries.{answer_view};
ghost use Rattle.asl_suites.specs.Scripts as model;
ghost use Rattle.asl_suites.specs.View.{answers_under, is_by_item, script_view, state_kind, state_view, states_view, told_view};

use crate::scripts::Script;
use asl_run::Answer;
use asl_tree::OutOfMemory;
use std::alloc::Global;
use std::collections::BTreeMap;
use std::collections::btree_map::Iter;

/// What a state's tasks are answered.
#[derive(Debug, Drop)]
pub(crate) enum StateAnswers {
    /// In the order of its attempts, wherever they are made.
    ByAttempt(Script),
    /// In that order for each item of the innermost Map that the state stands in, by the number of the item.
    ByItem(Vec<Script>),
}

impl StateAnswers {
    /// Whether there are answers for each item.
    fn are_by_item(&self) -> bool
        ensures { result ≡ is_by_item self.now }
    {
        match self {
            StateAnswers::ByAttempt(_) => false,
            StateAnswers::ByItem(_) => true,
        }
    }

    /// The next answer in that item of the innermost Map, or outside of any.
    fn next(&mut self, item: Option<usize>) -> Result<Option<Answer>, OutOfMemory>
        ensures given { IfOk result (λ answer. option_map answer_view answer
            ≡ model.next_of (model.script_for (state_view self.old) item)) }
        ensures left { OnOk result
            (state_view self.new ≡ model.left_of (state_view self.old) item) }
        ensures kept { OnErr result (state_view self.new ≡ state_view self.old) }
    {
        match self {
            StateAnswers::ByAttempt(script) => script.next(),
            StateAnswers::ByItem(scripts) => match item {
                Some(item) => next_of_item(scripts, item),
                None => Ok(None),
            },
        }
    }
}

/// The next answer of the item's script; none behind the last script.
fn next_of_item(scripts: &mut Vec<Script>, item: usize) -> Result<Option<Answer>, OutOfMemory>
    ensures given { IfOk result (λ answer. option_map answer_view answer
        ≡ model.next_of (slice_index_or (map script_view scripts.old.items) item model.silent)) }
    ensures left { OnOk result (map script_view scripts.new.items
        ≡ slice_set (map script_view scripts.old.items) item
        (model.rest_of (slice_index_or (map script_view scripts.old.items) item model.silent))) }
    ensures kept { OnErr result
        (map script_view scripts.new.items ≡ map script_view scripts.old.items) }
{
    match scripts.get_mut(item) {
        Some(script) => script.next(),
        None => Ok(None),
    }
}

/// The answers of a case, each under the name of the state whose task gets it.
#[derive(Debug, Drop)]
pub struct CaseAnswers {
    pub(crate) states: BTreeMap<String, StateAnswers>,
}

impl CaseAnswers {
    /// No answers.
    pub fn new(alloc: Global) -> CaseAnswers
        ensures { (n : List ℕ) → answers_under result n ≡ None }
    {
        CaseAnswers {
            states: BTreeMap::new(alloc),
        }
    }

    /// The next answer for the state of that name, in that item of the innermost Map that it stands in, or outside of
    /// any Map; it is taken, but where it comes for ever. None where the state has no answers (any more), where they
    /// are by item and no item is given, and where the item is behind the last that has answers.
    ///
    /// Refuses only where an allocation was refused; no answer is taken then.
    pub fn next(&mut self, state: &str, item: Option<usize>) -> Result<Option<Answer>, OutOfMemory>
        ensures given { IfOk result (λ answer. option_map answer_view answer
            ≡ model.answer_of (answers_under self.old state.now) item) }
        ensures left { OnOk result (answers_under self.new state.now
            ≡ option_map (λ own. model.left_of own item) (answers_under self.old state.now)) }
        ensures kept { OnErr result
            (answers_under self.new state.now ≡ answers_under self.old state.now) }
        ensures others { (n : List ℕ) → n ≢ state.now
            → answers_under self.new n ≡ answers_under self.old n }
    {
        match self.states.get_mut(state) {
            Some(own) => own.next(item),
            None => Ok(None),
        }
    }

    /// The names of the states that have answers, in the order of their bytes, and of each whether its answers are by
    /// item.
    pub fn states(&self) -> States<'_>
        ensures { told_view result ≡ states_view self.now }
    {
        States {
            entries: self.states.iter(),
        }
    }

    /// These answers; for the states that have none among them, the mocked ones. Refuses only where an allocation was
    /// refused.
    pub fn or_mocked(self, mocked: CaseAnswers) -> Result<CaseAnswers, OutOfMemory>
        ensures { IfOk result (λ both. (n : String Global) → answers_under both (string_bytes n)
            ≡ option_or (answers_under self (string_bytes n))
            (answers_under mocked (string_bytes n))) }
    {
        let mut own = self.states;
        let mut both = mocked;
        both.states.append(&mut own)?;
        Ok(both)
    }
}

/// The names of states that have answers, and of each whether its answers are by item.
#[derive(Drop)]
pub struct States<'a> {
    entries: Iter<'a, String, StateAnswers>,
}

impl<'a> Iterator for States<'a> {
    type Item = (&'a str, bool);

    ghost next_gives = { YieldsFirstBy state_kind told_view };

    ghost remaining = { item_count told_view };

    fn next(&mut self) -> Option<(&'a str, bool)> {
        let (name, answers) = self.entries.next()?;
        Some((name.as_str(), answers.are_by_item()))
    }
}
