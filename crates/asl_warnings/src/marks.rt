//! Marks on states.

ghost use Rattle.asl_warnings.specs.Marks.{AreListed};

use asl_states::{Catcher, ChoiceRule, Kind, Settings, State, Target};
use asl_tree::OutOfMemory;
use std::alloc::Global;

/// Marks on the states of a machine.
#[derive(Drop)]
pub(crate) struct Marks {
    /// Whether each is marked, by number.
    marks: Vec<bool>,
    /// The numbers of those that are, in the order in which they were marked.
    order: Vec<usize>,
    ghost listed: { AreListed marks.items order.items },
}

impl Marks {
    ghost use Rattle.std.specs.Prelude.{◌≡◌, ◌∷◌, [], ℕ, IfOk, OnOk, false, length, map, option_map, option_to_list, slice_get};
    ghost use Rattle.asl_warnings.specs.Adding.{Adds, is_marked};
    ghost use Rattle.asl_warnings.specs.Led.{caught_by, chosen_by, named_in, named_in_kind, named_in_settings, number_of};

    /// None of so many states is marked.
    pub(crate) fn new(alloc: Global, count: usize) -> Result<Marks, OutOfMemory>
        ensures many { IfOk result (λ marks. length marks.marks.items ≡ count) }
        ensures none { IfOk result (λ marks. (number : ℕ) → is_marked marks number ≡ false) }
    {
        Ok(Marks {
            marks: vec![in alloc; false; count]?,
            order: Vec::new(alloc),
        })
    }

    /// Whether the state of that number is marked.
    pub(crate) fn has(&self, number: usize) -> bool
        ensures { result ≡ is_marked self.now number }
    {
        match self.marks.get(number) {
            Some(is_marked) => *is_marked,
            None => false,
        }
    }

    /// Whether each state is marked, by its number.
    pub(crate) fn into_flags(self) -> Vec<bool> {
        self.marks
    }

    /// The number of the state that was marked as that one, counted from 0.
    pub(crate) fn nth(&self, place: usize) -> Option<usize>
        ensures { result ≡ slice_get self.now.order.items place }
    {
        self.order.get(place).copied()
    }

    /// Marks the state of that number, if there is one.
    pub(crate) fn mark(&mut self, number: usize) -> Result<(), OutOfMemory>
        ensures { OnOk result (Adds self.old self.new (number ∷ [])) }
    {
        if number >= self.marks.len() || self.marks[number] {
            return Ok(());
        }
        self.order.push(number)?;
        self.marks[number] = true;
        Ok(())
    }

    /// Marks each state that the fields of a state name.
    pub(crate) fn mark_targets(&mut self, state: &State) -> Result<(), OutOfMemory>
        ensures { OnOk result (Adds self.old self.new (named_in state.now)) }
    {
        self.mark_settings(&state.settings)?;
        self.mark_kind(&state.kind)
    }

    /// Marks those that settings name.
    fn mark_settings(&mut self, settings: &Settings) -> Result<(), OutOfMemory>
        ensures { OnOk result (Adds self.old self.new (named_in_settings settings.now)) }
    {
        self.mark_if_named(&settings.next)?;
        self.mark_catchers(&settings.catchers)
    }

    /// Marks the state that a field names, if it names one.
    fn mark_if_named(&mut self, target: &Option<Target>) -> Result<(), OutOfMemory>
        ensures { OnOk result (Adds self.old self.new
            (option_to_list (option_map number_of target.now))) }
    {
        match target {
            Some(target) => self.mark(target.number),
            None => Ok(()),
        }
    }

    /// Marks those to which catchers lead.
    pub(crate) fn mark_catchers(&mut self, catchers: &[Catcher]) -> Result<(), OutOfMemory>
        ensures { OnOk result (Adds self.old self.new (map caught_by catchers.now)) }
    {
        for catcher in catchers {
            self.mark(catcher.next.number)?;
        }
        Ok(())
    }

    /// Marks those that a type names: to which a Choice leads, and with which children start.
    pub(crate) fn mark_kind(&mut self, kind: &Kind) -> Result<(), OutOfMemory>
        ensures { OnOk result (Adds self.old self.new (named_in_kind kind.now)) }
    {
        match kind {
            Kind::Choice { choices, default } => {
                self.mark_choices(choices)?;
                self.mark_if_named(default)
            }
            Kind::Parallel { branches } => self.mark_branches(branches),
            Kind::Map { processor, .. } => self.mark(processor.number),
            Kind::Pass { .. }
            | Kind::Task { .. }
            | Kind::Wait { .. }
            | Kind::Succeed
            | Kind::Fail { .. } => Ok(()),
        }
    }

    /// Marks those to which rules lead.
    pub(crate) fn mark_choices(&mut self, choices: &[ChoiceRule]) -> Result<(), OutOfMemory>
        ensures { OnOk result (Adds self.old self.new (map chosen_by choices.now)) }
    {
        for choice in choices {
            self.mark(choice.next.number)?;
        }
        Ok(())
    }

    /// Marks those with which branches start.
    fn mark_branches(&mut self, branches: &[Target]) -> Result<(), OutOfMemory>
        ensures { OnOk result (Adds self.old self.new (map number_of branches.now)) }
    {
        for start in branches {
            self.mark(start.number)?;
        }
        Ok(())
    }
}
