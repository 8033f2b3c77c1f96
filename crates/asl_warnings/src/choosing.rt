//! Rules of a Choice, and `Default`, to which no data comes.

ghost use Rattle.std.specs.Prelude.{◌<◌, ◌≤◌, length};

use crate::reason::Reason;
use crate::truths::settled_truth;
use asl_flow::effective_at;
use asl_numbered::Shapes;
use asl_shape_rules::{let_through_at, settles_at};
use asl_states::{ChoiceRule, Kind, State};
use asl_tree::OutOfMemory;
use std::alloc::Global;

/// What is known of the rules of a Choice, for the shape of its effective input.
#[derive(Drop)]
pub(crate) struct Judged {
    /// By number whether a rule is true for none of the data.
    pub(crate) never_true: Vec<bool>,
    /// How many rules from the first on are enough for all of the data: one of them is true for each tree.
    enough: Option<usize>,
    /// Whether there is a `Default`.
    has_default: bool,
}

impl Judged {
    /// Whether there is a `Default` that is led to with no data.
    pub(crate) fn is_default_idle(&self) -> bool {
        self.has_default && self.enough.is_some()
    }

    /// Why the rule of that number leads on with no data, if it does with none; `is_never_true` is what is known of it.
    pub(crate) fn reason_of(&self, index: usize, is_never_true: bool) -> Option<Reason> {
        match self.enough {
            Some(enough) if index >= enough => Some(Reason::ChosenInFront),
            Some(_) | None if is_never_true => Some(Reason::NeverTrue),
            Some(_) | None => None,
        }
    }
}

/// What is known of the rules of a state whose raw input has the shape of that number: nothing where it is no Choice, where
/// no tree has the shape, or where a path on the way may name nothing.
pub(crate) fn judge_at(
    alloc: Global,
    shapes: &mut Shapes,
    state: &State,
    input: usize,
) -> Result<Option<Judged>, OutOfMemory> {
    let Kind::Choice { choices, default } = &state.kind else {
        return Ok(None);
    };
    if shapes.inhabited(input) != Some(true) {
        return Ok(None);
    }
    match effective_at(alloc, shapes, &state.settings, input)? {
        Ok(effective) => judge(alloc, shapes, choices, default.is_some(), effective),
        Err(_) => Ok(None),
    }
}

/// What is known of these rules on trees of the shape of that number; nothing where a path of one may name nothing.
fn judge(
    alloc: Global,
    shapes: &mut Shapes,
    choices: &[ChoiceRule],
    has_default: bool,
    number: usize,
) -> Result<Option<Judged>, OutOfMemory>
    requires { number < length shapes.old }
{
    if !are_decided(alloc, shapes, choices, number)? {
        return Ok(None);
    }
    let mut never_true = Vec::with_capacity(alloc, choices.len())?;
    let mut enough = enough_together(alloc, shapes, choices, number)?;
    for (index, choice) in choices.iter().enumerate() {
        let truth = settled_truth(alloc, shapes, &choice.test, number)?;
        never_true.push(truth == Some(false))?;
        if truth == Some(true) {
            enough = Some(lesser(enough, index + 1));
        }
    }
    Ok(Some(Judged {
        never_true,
        enough,
        has_default,
    }))
}

/// Whether each rule is true or false for each tree of the shape.
#[tactic(auto, using(asl_numbered::specs::Laws::keeps_longer))]
fn are_decided(
    alloc: Global,
    shapes: &mut Shapes,
    choices: &[ChoiceRule],
    number: usize,
) -> Result<bool, OutOfMemory>
    requires { number < length shapes.old }
    ensures { length shapes.old ≤ length shapes.new }
{
    for choice in choices {
        if let Err(_) = let_through_at(alloc, shapes, &choice.test, number)? {
            return Ok(false);
        }
    }
    Ok(true)
}

/// How many rules from the first on it takes for two that ask the same, one for yes and one for no; None where no two do.
fn enough_together(
    alloc: Global,
    shapes: &Shapes,
    choices: &[ChoiceRule],
    number: usize,
) -> Result<Option<usize>, OutOfMemory>
    requires { number < length shapes.now }
{
    if !settles_at(alloc, shapes, choices, number)? {
        return Ok(None);
    }
    let mut too_few = 0;
    let mut enough = choices.len();
    while enough - too_few > 1 {
        let middle = too_few + (enough - too_few) / 2;
        if settles_at(alloc, shapes, &choices[..middle], number)? {
            enough = middle;
        } else {
            too_few = middle;
        }
    }
    Ok(Some(enough))
}

/// The lesser of a number that may be there and another one.
fn lesser(first: Option<usize>, second: usize) -> usize {
    match first {
        Some(first) => first.min(second),
        None => second,
    }
}
