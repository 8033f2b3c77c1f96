//! What runs have taken of a state.

ghost use Rattle.std.specs.Prelude.{◌≡◌, ◌||◌, ◌&&◌, ℕ, IfOk, List, Bool, false, map, option_map, slice_set, true};
ghost use Rattle.std.specs.Option.{is_some};
ghost use Rattle.asl_model.specs.Run as model;
ghost use Rattle.asl_model.specs.Tree.{Object, NoFields};
ghost use Rattle.asl_states.specs.Machine.{choice_rule_view, kind_view, settings_view, state_view};
ghost use Rattle.asl_tree.specs.View.{view};
ghost use Rattle.asl_run.specs.Entries.{entry_view};
ghost use Rattle.asl_cases.specs.Coverage.{Part, are_false, choice_input, default_of, flags_of, flags_view, is_first_true, rules_of, takes};
ghost use Rattle.asl_cases.specs.Taking.{is_default, is_rule, left_by};

use asl_choice::holds;
use asl_path::find;
use asl_run::Entry;
use asl_states::{ChoiceRule, Kind, Settings, State};
use asl_tree::{OutOfMemory, Tree};
use std::alloc::Global;

/// What runs have taken of a state.
#[derive(Drop)]
pub(crate) struct Covered {
    pub(crate) entered: bool,
    /// For each rule of a Choice, by its number.
    pub(crate) rules: Vec<bool>,
    pub(crate) default: bool,
    /// For each retrier, by its number.
    pub(crate) retriers: Vec<bool>,
    /// For each catcher, by its number.
    pub(crate) catchers: Vec<bool>,
}

/// How a Choice is left.
#[derive(Clone, Copy)]
enum Taken {
    Rule(usize),
    Default,
}

impl Covered {
    /// Nothing of the state was taken.
    pub(crate) fn nothing(alloc: Global, state: &State) -> Result<Covered, OutOfMemory>
        ensures { IfOk result (λ covered.
            flags_view covered ≡ flags_of (λ part. false) (state_view state.now)) }
    {
        Ok(Covered {
            entered: false,
            rules: vec![in alloc; false; rules_of(state).len()]?,
            default: false,
            retriers: vec![in alloc; false; state.settings.retriers.len()]?,
            catchers: vec![in alloc; false; state.settings.catchers.len()]?,
        })
    }

    /// Adds what an entry takes of the state, of which it tells.
    pub(crate) fn add(&mut self, state: &State, entry: &Entry, empty: &Tree)
        ensures { (taken : Part → Bool) → let told = entry_view entry.now in
            let shown = state_view state.now in
            view empty.now ≡ Object NoFields → flags_view self.old ≡ flags_of taken shown
            → flags_view self.new
            ≡ flags_of (λ part. taken part || takes shown told.1 part) shown }
    {
        match entry {
            Entry::Enter { input, .. } => self.enter(state, input, empty),
            Entry::Retried { retrier, .. } => mark(&mut self.retriers, *retrier),
            Entry::Caught { catcher, .. } => mark(&mut self.catchers, *catcher),
            // What a fault comes to is an entry of its own.
            Entry::Task { .. }
            | Entry::Leave { .. }
            | Entry::Raise { .. }
            | Entry::TaskFailed { .. }
            | Entry::BranchFailed { .. }
            | Entry::Ended { .. } => {}
        }
    }

    /// The state is entered with that raw input; a Choice is left, too.
    fn enter(&mut self, state: &State, raw: &Tree, empty: &Tree)
        ensures { (taken : Part → Bool) (n : List ℕ) → let shown = state_view state.now in
            view empty.now ≡ Object NoFields → flags_view self.old ≡ flags_of taken shown
            → flags_view self.new ≡ flags_of
            (λ part. taken part || takes shown (model.Entered n (view raw.now)) part) shown }
    {
        self.leave(taken_at(state, raw, empty));
    }

    /// The state is entered, and left so if it is a Choice.
    fn leave(&mut self, way: Option<Taken>)
        ensures { flags_view self.new ≡ left_by way (flags_view self.old) }
    {
        self.entered = true;
        match way {
            Some(Taken::Rule(rule)) => mark(&mut self.rules, rule),
            Some(Taken::Default) => self.default = true,
            None => {}
        }
    }
}

/// Sets the flag of that number.
fn mark(flags: &mut Vec<bool>, number: usize)
    ensures { flags.new.items ≡ slice_set flags.old.items number true }
{
    if let Some(flag) = flags.get_mut(number) {
        *flag = true;
    }
}

/// The rules of a Choice; none for another type.
pub(crate) fn rules_of(state: &State) -> &[ChoiceRule]
    ensures { map choice_rule_view result.now ≡ rules_of (kind_view state.now.kind) }
{
    match &state.kind {
        Kind::Choice { choices, .. } => choices,
        Kind::Pass { .. }
        | Kind::Task { .. }
        | Kind::Wait { .. }
        | Kind::Succeed
        | Kind::Fail { .. }
        | Kind::Parallel { .. }
        | Kind::Map { .. } => &[],
    }
}

/// Whether the state is a Choice with a Default.
pub(crate) fn has_default(state: &State) -> bool
    ensures { result ≡ is_some (default_of (kind_view state.now.kind)) }
{
    match &state.kind {
        Kind::Choice { default, .. } => default.is_some(),
        Kind::Pass { .. }
        | Kind::Task { .. }
        | Kind::Wait { .. }
        | Kind::Succeed
        | Kind::Fail { .. }
        | Kind::Parallel { .. }
        | Kind::Map { .. } => false,
    }
}

/// How a Choice with that raw input is left; none for another type, and where it can't be left.
fn taken_at(state: &State, raw: &Tree, empty: &Tree) -> Option<Taken>
    ensures rule { (i : ℕ) (n : List ℕ) → view empty.now ≡ Object NoFields
        → takes (state_view state.now) (model.Entered n (view raw.now)) (Part.RuleAt i)
        ≡ is_rule i result }
    ensures default { (n : List ℕ) → view empty.now ≡ Object NoFields
        → takes (state_view state.now) (model.Entered n (view raw.now)) Part.ByDefault
        ≡ is_default result }
{
    let input = effective_input(&state.settings, raw, empty)?;
    way_out(rules_of(state), has_default(state), input)
}

/// How a Choice of these rules with that effective input is left; none where it can't be left.
fn way_out(rules: &[ChoiceRule], has_default: bool, input: &Tree) -> Option<Taken>
    ensures rule { (i : ℕ)
        → is_first_true (map choice_rule_view rules.now) i (view input.now) ≡ is_rule i result }
    ensures default { has_default && are_false (map choice_rule_view rules.now) (view input.now)
        ≡ is_default result }
{
    for (number, rule) in rules.iter().enumerate() {
        match holds(&rule.test, input) {
            Ok(true) => return Some(Taken::Rule(number)),
            Ok(false) => {}
            Err(_) => return None,
        }
    }
    if has_default {
        Some(Taken::Default)
    } else {
        None
    }
}

/// The effective input of a Choice, which has no `Parameters`; none where `InputPath` names nothing.
fn effective_input<'t>(settings: &Settings, raw: &'t Tree, empty: &'t Tree) -> Option<&'t Tree>
    ensures { view empty.now ≡ Object NoFields → option_map (λ input. view input.now) result
        ≡ choice_input (settings_view settings.now) (view raw.now) }
{
    match &settings.input_path {
        Some(path) => find(raw, path),
        None => Some(empty),
    }
}
