//! Mock files, as Step Functions Local reads them.

use crate::answering::read_answer;
use crate::answers::{CaseAnswers, StateAnswers};
use crate::attempts::read_attempts;
use crate::fields::{Fields, object_of};
use crate::places::Place;
use crate::refusals::{SuiteFault, SuiteRefusal, Wanted};
use crate::scripts::{Script, Times};
use crate::similar::unknown;
use asl_tree::{OutOfMemory, Tree, copy};
use std::alloc::Global;
use std::collections::BTreeMap;

/// What a mock file has for one state machine.
#[derive(Debug, Drop)]
pub struct Mocks {
    /// The way to the test cases.
    place: String,
    test_cases: BTreeMap<String, Tree>,
    responses: BTreeMap<String, Tree>,
}

/// What the mock file has for the state machine of that name: its test cases, and the mocked responses. They are
/// judged once [`Mocks::answers`] is asked for them; other state machines and other fields are passed over.
///
/// Refused, with the place: fields that are missing or of a wrong kind, and a state machine that isn't there. Want of
/// memory is told apart.
pub fn read_mocks(alloc: Global, tree: Tree, state_machine: &str) -> Result<Mocks, SuiteRefusal> {
    let whole = Place::Whole;
    let mut fields = Fields::of(alloc, &whole, tree)?;
    let machines = fields.required("StateMachines")?;
    let responses = fields.required("MockedResponses")?;
    let place = Place::Field(&whole, "StateMachines");
    let mut machines = object_of(alloc, &place, machines)?;
    let Some(machine) = machines.remove(state_machine) else {
        let unknown = unknown(alloc, state_machine, &machines)?;
        return Err(place.refusal(alloc, SuiteFault::NoStateMachine(unknown)));
    };
    let place = Place::Field(&place, state_machine);
    let test_cases = Fields::of(alloc, &place, machine)?.required("TestCases")?;
    let place = Place::Field(&place, "TestCases");
    Ok(Mocks {
        place: place.text(alloc)?,
        test_cases: object_of(alloc, &place, test_cases)?,
        responses: object_of(alloc, &Place::Field(&whole, "MockedResponses"), responses)?,
    })
}

impl Mocks {
    /// The answers of the test case of that name: each state's are those of the response that it names, in the order
    /// of their attempts. Responses that the test case doesn't name aren't judged.
    ///
    /// Refused, with the place: a test case or a response that isn't there, values of a wrong kind, attempts that
    /// aren't 0, 1, 2 and so on without a gap and without one twice, and answers that are none. Want of memory is
    /// told apart.
    pub fn answers(&self, alloc: Global, test_case: &str) -> Result<CaseAnswers, SuiteRefusal> {
        let test_cases = Place::Told(&self.place);
        let Some(tree) = self.test_cases.get(test_case) else {
            let unknown = unknown(alloc, test_case, &self.test_cases)?;
            return Err(test_cases.refusal(alloc, SuiteFault::NoTestCase(unknown)));
        };
        let place = Place::Field(&test_cases, test_case);
        match tree {
            Tree::Object(states) => self.answers_of(alloc, &place, states),
            Tree::Null | Tree::Bool(_) | Tree::Int(_) | Tree::Text(_) | Tree::List(_) => {
                Err(place.refusal(alloc, SuiteFault::WrongKind(Wanted::Object)))
            }
        }
    }

    /// The place of the test case of that name, whether it is there or not. Refuses only where an allocation was refused.
    pub fn place_of(&self, alloc: Global, test_case: &str) -> Result<String, OutOfMemory> {
        Place::Field(&Place::Told(&self.place), test_case).text(alloc)
    }

    /// The answers of those states, each of the response that it names.
    fn answers_of(
        &self,
        alloc: Global,
        place: &Place<'_>,
        states: &BTreeMap<String, Tree>,
    ) -> Result<CaseAnswers, SuiteRefusal> {
        let mut answers = CaseAnswers::new(alloc);
        for (state, response) in states.iter() {
            let script = self.named_response(alloc, &Place::Field(place, state), response)?;
            let state = state.clone()?;
            drop(
                answers
                    .states
                    .insert(state, StateAnswers::ByAttempt(script))?,
            );
        }
        Ok(answers)
    }

    /// The response that a text names.
    fn named_response(
        &self,
        alloc: Global,
        place: &Place<'_>,
        tree: &Tree,
    ) -> Result<Script, SuiteRefusal> {
        let Tree::Text(name) = tree else {
            return Err(place.refusal(alloc, SuiteFault::WrongKind(Wanted::Text)));
        };
        match self.responses.get(name.as_str()) {
            Some(response) => {
                let whole = Place::Whole;
                let responses = Place::Field(&whole, "MockedResponses");
                read_response(alloc, &Place::Field(&responses, name), response)
            }
            None => {
                let unknown = unknown(alloc, name, &self.responses)?;
                Err(place.refusal(alloc, SuiteFault::NoResponse(unknown)))
            }
        }
    }
}

/// The answers of a response, in the order of their attempts.
fn read_response(
    alloc: Global,
    place: &Place<'_>,
    response: &Tree,
) -> Result<Script, SuiteRefusal> {
    let Tree::Object(fields) = response else {
        return Err(place.refusal(alloc, SuiteFault::WrongKind(Wanted::Object)));
    };
    let mut script = Script::new(alloc);
    for attempts in read_attempts(alloc, place, fields)? {
        let place = Place::Field(place, attempts.name);
        let answer = read_answer(alloc, &place, copy(alloc, attempts.answer)?)?;
        script.add(answer, Times::Further(u64::from(attempts.further)))?;
    }
    Ok(script)
}
