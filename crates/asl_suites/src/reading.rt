//! Reading suites.

use crate::answering::read_case_answers;
use crate::answers::CaseAnswers;
use crate::fields::{Fields, list_of, object_of, text_of};
use crate::places::Place;
use crate::refusals::{SuiteFault, SuiteRefusal};
use crate::suites::{Case, Expected, ExpectedEnd, ExpectedPayloads, Input, MockSource, Suite};
use asl_tree::Tree;
use std::alloc::Global;
use std::collections::BTreeSet;

const SUITE_FIELDS: [&str; 6] = [
    "Comment",
    "cases",
    "declared",
    "definition",
    "description",
    "mocks",
];

const CASE_FIELDS: [&str; 8] = [
    "Comment",
    "answers",
    "description",
    "expect",
    "input",
    "inputFile",
    "name",
    "testCase",
];

const EXPECT_FIELDS: [&str; 5] = ["cause", "error", "output", "path", "payloads"];

/// The suite that a JSON value spells; names, texts and data move from it.
///
/// Refused, with the place: fields that are unknown, missing or of a wrong kind; two cases of one name; a case that
/// has not exactly one of `input` and `inputFile`, that names a test case though the suite has no `mocks`, or that
/// expects nothing, an output and an error, or a cause without an error; and answers that are none (see
/// [`SuiteFault`]). Want of memory is told apart.
pub fn read_suite(alloc: Global, tree: Tree) -> Result<Suite, SuiteRefusal> {
    let whole = Place::Whole;
    let mut fields = Fields::among(alloc, &whole, tree, &SUITE_FIELDS)?;
    fields.pass_remarks()?;
    let definition = fields.required_text("definition")?;
    let declared = fields.text("declared")?;
    let mocks = match fields.take("mocks") {
        Some(tree) => Some(read_source(alloc, &Place::Field(&whole, "mocks"), tree)?),
        None => None,
    };
    let cases = fields.required("cases")?;
    let place = Place::Field(&whole, "cases");
    let cases = read_cases(alloc, &place, cases, mocks.is_some())?;
    are_distinct(alloc, &place, &cases)?;
    Ok(Suite {
        definition,
        declared,
        mocks,
        cases,
    })
}

/// Where mocked answers come from.
fn read_source(alloc: Global, place: &Place<'_>, tree: Tree) -> Result<MockSource, SuiteRefusal> {
    let mut fields = Fields::among(alloc, place, tree, &["file", "stateMachine"])?;
    let file = fields.required_text("file")?;
    let state_machine = fields.required_text("stateMachine")?;
    Ok(MockSource {
        file,
        state_machine,
    })
}

/// The cases of a suite that has mocks or hasn't.
fn read_cases(
    alloc: Global,
    place: &Place<'_>,
    tree: Tree,
    mocked: bool,
) -> Result<Vec<Case>, SuiteRefusal> {
    let elements = list_of(alloc, place, tree)?;
    let mut cases = Vec::with_capacity(alloc, elements.len())?;
    for element in elements {
        let place = Place::Element(place, cases.len());
        cases.push(read_case(alloc, &place, element, mocked)?)?;
    }
    Ok(cases)
}

/// Refused: SameName, for the first case that has the name of an earlier one.
fn are_distinct(alloc: Global, place: &Place<'_>, cases: &[Case]) -> Result<(), SuiteRefusal> {
    let mut names = BTreeSet::new(alloc);
    for (number, case) in cases.iter().enumerate() {
        if !names.insert(case.name.as_str())? {
            let place = Place::Element(place, number);
            return Err(Place::Field(&place, "name").refusal(alloc, SuiteFault::SameName));
        }
    }
    Ok(())
}

/// A case.
fn read_case(
    alloc: Global,
    place: &Place<'_>,
    tree: Tree,
    mocked: bool,
) -> Result<Case, SuiteRefusal> {
    let mut fields = Fields::among(alloc, place, tree, &CASE_FIELDS)?;
    fields.pass_remarks()?;
    let name = fields.required_text("name")?;
    let test_case = fields.text("testCase")?;
    if test_case.is_some() && !mocked {
        let place = Place::Field(place, "testCase");
        return Err(place.refusal(alloc, SuiteFault::WithoutMocks));
    }
    let expected = fields.required("expect")?;
    let expected = read_expected(alloc, &Place::Field(place, "expect"), expected)?;
    let answers = read_answers(alloc, place, &mut fields)?;
    let input = read_input(&mut fields)?;
    Ok(Case {
        name,
        input,
        answers,
        test_case,
        expected,
    })
}

/// The answers of the case at that place; none where they are absent.
fn read_answers(
    alloc: Global,
    place: &Place<'_>,
    fields: &mut Fields<'_>,
) -> Result<CaseAnswers, SuiteRefusal> {
    match fields.take("answers") {
        Some(tree) => read_case_answers(alloc, &Place::Field(place, "answers"), tree),
        None => Ok(CaseAnswers::new(alloc)),
    }
}

/// The input of a case. Refused: OneInput.
fn read_input(fields: &mut Fields<'_>) -> Result<Input, SuiteRefusal> {
    let file = fields.text("inputFile")?;
    match (fields.take("input"), file) {
        (Some(tree), None) => Ok(Input::Given(tree)),
        (None, Some(file)) => Ok(Input::File(file)),
        (Some(_), Some(_)) | (None, None) => Err(fields.refusal(SuiteFault::OneInput)),
    }
}

/// What is expected of a case. Refused: ExpectsNothing.
fn read_expected(alloc: Global, place: &Place<'_>, tree: Tree) -> Result<Expected, SuiteRefusal> {
    let mut fields = Fields::among(alloc, place, tree, &EXPECT_FIELDS)?;
    let path = match fields.take("path") {
        Some(tree) => Some(read_path(alloc, &Place::Field(place, "path"), tree)?),
        None => None,
    };
    let payloads = match fields.take("payloads") {
        Some(tree) => read_payloads(alloc, &Place::Field(place, "payloads"), tree)?,
        None => Vec::new(alloc),
    };
    let end = read_end(&mut fields)?;
    if end.is_none() && path.is_none() && payloads.is_empty() {
        return Err(place.refusal(alloc, SuiteFault::ExpectsNothing));
    }
    Ok(Expected {
        end,
        path,
        payloads,
    })
}

/// How a case is expected to end. Refused: OutputAndError, CauseWithoutError.
fn read_end(fields: &mut Fields<'_>) -> Result<Option<ExpectedEnd>, SuiteRefusal> {
    let error = fields.text("error")?;
    let cause = fields.text("cause")?;
    match (fields.take("output"), error, cause) {
        (None, None, None) => Ok(None),
        (Some(tree), None, None) => Ok(Some(ExpectedEnd::Output(tree))),
        (None, Some(error), cause) => Ok(Some(ExpectedEnd::Error { error, cause })),
        (Some(_), Some(_), _) => Err(fields.refusal(SuiteFault::OutputAndError)),
        (_, None, Some(_)) => Err(fields.refusal(SuiteFault::CauseWithoutError)),
    }
}

/// The names of the states that are expected to be entered.
fn read_path(alloc: Global, place: &Place<'_>, tree: Tree) -> Result<Vec<String>, SuiteRefusal> {
    let elements = list_of(alloc, place, tree)?;
    let mut names = Vec::with_capacity(alloc, elements.len())?;
    for element in elements {
        let place = Place::Element(place, names.len());
        names.push(text_of(alloc, &place, element)?)?;
    }
    Ok(names)
}

/// The payloads that are expected, by the names of states.
fn read_payloads(
    alloc: Global,
    place: &Place<'_>,
    tree: Tree,
) -> Result<Vec<ExpectedPayloads>, SuiteRefusal> {
    let mut expected = Vec::new(alloc);
    for (state, tree) in object_of(alloc, place, tree)? {
        let payloads = list_of(alloc, &Place::Field(&*place, &state), tree)?;
        expected.push(ExpectedPayloads { state, payloads })?;
    }
    Ok(expected)
}
