//! Tests of choice rules that narrow nothing of the data with which a rule of the certificate is broken.

use crate::causes::{Cause, Way};
use crate::flows::Explainer;
use crate::origins::numbered;
use crate::results::is_whole;
use crate::tests_of_rules::{Asked, Listed, Tests, sooner};
use crate::unsure::{Unsure, UnsureKind};
use asl_numbered::Shapes;
use asl_phrases::{front_of, push_line};
use asl_states::Kind;
use asl_tree::OutOfMemory;
use asl_ways::{Exit, Origin, way_to};

impl<'m> Explainer<'m> {
    /// Puts down which test asks for what isn't sure and makes sure of nothing here: one of the state itself, or of a Choice
    /// from which the data comes on as it is.
    pub(crate) fn push_idle_test(
        &self,
        shapes: &mut Shapes,
        tests: &mut Tests<'m>,
        text: &mut String,
        cause: &Cause<'m>,
    ) -> Result<(), OutOfMemory> {
        let Some(unsure) = self.unsure_of(shapes, cause)? else {
            return Ok(());
        };
        match self.idle_test(tests, cause, &unsure)? {
            Some((state, asked)) => {
                let told = self.told_of_test(state, &asked)?;
                push_line(text, "What isn't enough: ", &told)
            }
            None => Ok(()),
        }
    }

    /// The number of the state and the first test that asks for what isn't sure: of the state itself, or of a Choice from
    /// which the data comes on as it is.
    fn idle_test(
        &self,
        tests: &mut Tests<'m>,
        cause: &Cause,
        unsure: &Unsure,
    ) -> Result<Option<(usize, Asked<'m>)>, OutOfMemory> {
        if let Some(asked) = self.test_of(tests, unsure, cause.state, None)? {
            return Ok(Some((cause.state, asked)));
        }
        match cause.way {
            Way::Visit(number) => self.test_on_way(tests, unsure, number),
            Way::Arrival(_) | Way::Together => Ok(None),
        }
    }

    /// The same of the Choices in front, on the way that ends with the visit of that number.
    fn test_on_way(
        &self,
        tests: &mut Tests<'m>,
        unsure: &Unsure,
        last: usize,
    ) -> Result<Option<(usize, Asked<'m>)>, OutOfMemory> {
        for number in way_to(self.alloc, &self.flows.visits, last)?.iter().rev() {
            let Some(origin) = self.front_of_visit(*number) else {
                break;
            };
            if let Some(asked) = self.test_of(tests, unsure, origin.state, Some(origin.exit))? {
                return Ok(Some((origin.state, asked)));
            }
        }
        Ok(None)
    }

    /// The state in front of the visit of that number, where its output is its input as it is, and how it is left.
    fn front_of_visit(&self, number: usize) -> Option<Origin> {
        let origin = self.flows.visits.get(number)?.arrival.origin?;
        if self.hands_on(origin.state) {
            Some(origin)
        } else {
            None
        }
    }

    /// Whether the output of a state is its input as it is.
    fn hands_on(&self, state: usize) -> bool {
        let Some(state) = self.machine.state(state) else {
            return false;
        };
        match state.kind {
            Kind::Choice { .. } | Kind::Wait { .. } => {
                is_whole(&state.settings.input_path) && is_whole(&state.settings.output_path)
            }
            Kind::Pass { .. }
            | Kind::Task { .. }
            | Kind::Succeed
            | Kind::Fail { .. }
            | Kind::Parallel { .. }
            | Kind::Map { .. } => false,
        }
    }

    /// The first test of a state's choice rules that asks for what isn't sure, and that isn't sure to be true where the state
    /// is left so.
    fn test_of(
        &self,
        tests: &mut Tests<'m>,
        unsure: &Unsure,
        state: usize,
        exit: Option<Exit>,
    ) -> Result<Option<Asked<'m>>, OutOfMemory> {
        match tests.of(self.alloc, self.machine, state)? {
            Some(listed) => Ok(first_asking(listed, unsure, exit)),
            None => Ok(None),
        }
    }

    /// In words what a test asks, and for what such a test makes sure of it.
    fn told_of_test(&self, state: usize, asked: &Asked) -> Result<String, OutOfMemory> {
        let name = self.state_text(state)?;
        let rule = numbered(self.alloc, "rule", asked.rule)?;
        let path = front_of(self.alloc, asked.variable, asked.variable.segments().len())?;
        let sure = match asked.kind {
            Some(_) => "such a test",
            None => "IsPresent true",
        };
        Ok(format!(in self.alloc;
            "{name}{rule} tests {path} by {}, but that makes sure of nothing for other rules and for Default; alone or in an And, \
            {sure} does for the tests behind it and for its rule's Next",
            asked.operator()
        )?)
    }
}

/// The first of the listed tests that asks for what isn't sure, and that isn't sure to be true where the state is left so.
fn first_asking<'m>(listed: &Listed<'m>, unsure: &Unsure, exit: Option<Exit>) -> Option<Asked<'m>> {
    let mut first = match &unsure.kind {
        Some(kind) => first_on(listed, &kind.path, Some(kind), exit),
        None => None,
    };
    for path in &unsure.present {
        first = sooner(first, first_on(listed, path, None, exit));
    }
    listed.test(first?)
}

/// The number of the first test on that path that asks for the kind, or whether it names something.
fn first_on(
    listed: &Listed,
    path: &str,
    kind: Option<&UnsureKind>,
    exit: Option<Exit>,
) -> Option<usize> {
    for number in listed.on(path) {
        let asked = listed.test(*number)?;
        if asks_for(&asked, kind) && !is_passed(&asked, exit) {
            return Some(*number);
        }
    }
    None
}

/// Whether a test asks for the kind, or whether its variable names something.
fn asks_for(asked: &Asked, unsure: Option<&UnsureKind>) -> bool {
    match (asked.kind, unsure) {
        (Some(kind), Some(unsure)) => unsure.is_settled_by(kind),
        (None, None) => true,
        _ => false,
    }
}

/// Whether the state is left by the rule of the test, which is true then.
fn is_passed(asked: &Asked, exit: Option<Exit>) -> bool {
    match exit {
        Some(Exit::Rule(rule)) => asked.is_needed && asked.rule == rule,
        _ => false,
    }
}
