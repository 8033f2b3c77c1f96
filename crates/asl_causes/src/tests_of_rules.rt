//! The tests of choice rules by which they may narrow what they are true of.

use asl_choice::{Test, ValueKind};
use asl_machine::Machine;
use asl_path::{RefPath, print};
use asl_states::{Kind, State};
use asl_tree::OutOfMemory;
use std::alloc::Global;
use std::collections::BTreeMap;

/// A test by which a rule may narrow what it is true of.
#[derive(Clone, Copy, Drop)]
pub(crate) struct Asked<'m> {
    /// The number of the rule, counted from 0.
    pub(crate) rule: usize,
    pub(crate) variable: &'m RefPath,
    /// The kind that it asks for; none where it asks whether the variable names something.
    pub(crate) kind: Option<ValueKind>,
    /// Whether the test is true whenever its rule is: it stands alone or in an And.
    pub(crate) is_needed: bool,
}

impl Asked<'_> {
    /// The operator by which it asks.
    pub(crate) fn operator(&self) -> &'static str {
        match self.kind {
            Some(ValueKind::Null) => "IsNull",
            Some(ValueKind::Numeric) => "IsNumeric",
            Some(ValueKind::String) => "IsString",
            Some(ValueKind::Boolean) => "IsBoolean",
            None => "IsPresent",
        }
    }
}

/// The tests of a state's choice rules, in their order, and by the texts of their variables.
#[derive(Drop)]
pub(crate) struct Listed<'m> {
    tests: Vec<Asked<'m>>,
    by_variable: BTreeMap<String, Vec<usize>>,
}

impl<'m> Listed<'m> {
    /// The test of that number.
    pub(crate) fn test(&self, number: usize) -> Option<Asked<'m>> {
        self.tests.get(number).copied()
    }

    /// The numbers of the tests whose variable has that text, in their order.
    pub(crate) fn on(&self, variable: &str) -> &[usize] {
        match self.by_variable.get(variable) {
            Some(numbers) => numbers,
            None => &[],
        }
    }
}

/// The tests of the states that were looked at so far, by the numbers of the states.
#[derive(Drop)]
pub(crate) struct Tests<'m> {
    states: BTreeMap<usize, Listed<'m>>,
}

impl<'m> Tests<'m> {
    /// None were looked at.
    pub(crate) fn new(alloc: Global) -> Tests<'m> {
        Tests {
            states: BTreeMap::new(alloc),
        }
    }

    /// The tests of the state of that number; none where there is no such state.
    pub(crate) fn of(
        &mut self,
        alloc: Global,
        machine: &'m Machine,
        state: usize,
    ) -> Result<Option<&Listed<'m>>, OutOfMemory> {
        if self.states.get(&state).is_none() {
            if let Some(looked_at) = machine.state(state) {
                drop(self.states.insert(state, list(alloc, looked_at)?)?);
            }
        }
        Ok(self.states.get(&state))
    }
}

/// Lists the tests of a state.
fn list<'m>(alloc: Global, state: &'m State) -> Result<Listed<'m>, OutOfMemory> {
    let mut tests = Vec::new(alloc);
    push_tests_of(&mut tests, state)?;
    let mut by_variable = BTreeMap::new(alloc);
    for (number, asked) in tests.iter().enumerate() {
        note(
            alloc,
            &mut by_variable,
            print(alloc, asked.variable)?,
            number,
        )?;
    }
    Ok(Listed { tests, by_variable })
}

/// Notes the number of a test by the text of its variable.
fn note(
    alloc: Global,
    by_variable: &mut BTreeMap<String, Vec<usize>>,
    variable: String,
    number: usize,
) -> Result<(), OutOfMemory> {
    if let Some(numbers) = by_variable.get_mut(variable.as_str()) {
        numbers.push(number)?;
        return Ok(());
    }
    let mut numbers = Vec::new(alloc);
    numbers.push(number)?;
    drop(by_variable.insert(variable, numbers)?);
    Ok(())
}

/// Adds the tests by which the rules of a Choice may narrow what they are true of; other states have none.
fn push_tests_of<'m>(found: &mut Vec<Asked<'m>>, state: &'m State) -> Result<(), OutOfMemory> {
    let Kind::Choice { choices, .. } = &state.kind else {
        return Ok(());
    };
    for (number, rule) in choices.iter().enumerate() {
        push_asked(found, number, &rule.test, true)?;
    }
    Ok(())
}

/// Adds those that stand in a test of the rule of that number; `is_needed` says that the test is true whenever the rule is.
#[cycle(asked)]
fn push_asked<'m>(
    found: &mut Vec<Asked<'m>>,
    rule: usize,
    test: &'m Test,
    is_needed: bool,
) -> Result<(), OutOfMemory> {
    match test {
        Test::And(parts) => push_each(found, rule, parts, is_needed),
        Test::Or(parts) => push_each(found, rule, parts, false),
        Test::Not(part) => push_asked(found, rule, part, false),
        Test::IsOfKind { variable, kind, .. } => {
            push_test(found, rule, variable, Some(*kind), is_needed)
        }
        Test::IsPresent { variable, .. } => push_test(found, rule, variable, None, is_needed),
        Test::Compare { .. } | Test::StringMatches { .. } => Ok(()),
    }
}

/// Adds those that stand in parts of a test.
#[cycle(asked)]
fn push_each<'m>(
    found: &mut Vec<Asked<'m>>,
    rule: usize,
    parts: &'m [Test],
    is_needed: bool,
) -> Result<(), OutOfMemory> {
    for part in parts {
        push_asked(found, rule, part, is_needed)?;
    }
    Ok(())
}

/// Adds a test.
fn push_test<'m>(
    found: &mut Vec<Asked<'m>>,
    rule: usize,
    variable: &'m RefPath,
    kind: Option<ValueKind>,
    is_needed: bool,
) -> Result<(), OutOfMemory> {
    found.push(Asked {
        rule,
        variable,
        kind,
        is_needed,
    })?;
    Ok(())
}

/// The lower of two numbers that may be there.
pub(crate) fn sooner(first: Option<usize>, second: Option<usize>) -> Option<usize> {
    match (first, second) {
        (Some(one), Some(other)) if other < one => second,
        (Some(_), _) => first,
        (None, _) => second,
    }
}
