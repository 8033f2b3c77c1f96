//! Reading the answers of cases.

use crate::answers::{CaseAnswers, StateAnswers};
use crate::fields::{Fields, list_of, object_of};
use crate::places::Place;
use crate::refusals::{SuiteFault, SuiteRefusal};
use crate::scripts::{Script, Times};
use asl_run::Answer;
use asl_tree::Tree;
use std::alloc::Global;
use std::rc::Rc;

/// The answers that an object with the names of states spells.
pub(crate) fn read_case_answers(
    alloc: Global,
    place: &Place<'_>,
    tree: Tree,
) -> Result<CaseAnswers, SuiteRefusal> {
    let mut answers = CaseAnswers::new(alloc);
    for (state, tree) in object_of(alloc, place, tree)? {
        let own = read_state_answers(alloc, &Place::Field(&*place, &state), tree)?;
        drop(answers.states.insert(state, own)?);
    }
    Ok(answers)
}

/// The answers of a state: a list of them, or of such lists, one for each item. Refused: Mixed, where it is neither.
fn read_state_answers(
    alloc: Global,
    place: &Place<'_>,
    tree: Tree,
) -> Result<StateAnswers, SuiteRefusal> {
    let elements = list_of(alloc, place, tree)?;
    let lists = elements.iter().filter(|element| is_list(element)).count();
    if lists == 0 {
        Ok(StateAnswers::ByAttempt(read_script(alloc, place, elements)?))
    } else if lists == elements.len() {
        Ok(StateAnswers::ByItem(read_scripts(alloc, place, elements)?))
    } else {
        Err(place.refusal(alloc, SuiteFault::Mixed))
    }
}

fn is_list(tree: &Tree) -> bool {
    matches!(tree, Tree::List(_))
}

/// The answers of each item.
fn read_scripts(
    alloc: Global,
    place: &Place<'_>,
    elements: Vec<Tree>,
) -> Result<Vec<Script>, SuiteRefusal> {
    let mut scripts = Vec::with_capacity(alloc, elements.len())?;
    for element in elements {
        let place = Place::Element(place, scripts.len());
        let answers = list_of(alloc, &place, element)?;
        scripts.push(read_script(alloc, &place, answers)?)?;
    }
    Ok(scripts)
}

/// The answers that a list spells, one after the other. Refused: BehindForEver, and what is no answer.
fn read_script(
    alloc: Global,
    place: &Place<'_>,
    elements: Vec<Tree>,
) -> Result<Script, SuiteRefusal> {
    let mut script = Script::new(alloc);
    for (number, element) in elements.into_iter().enumerate() {
        let place = Place::Element(&*place, number);
        if script.for_ever.is_some() {
            return Err(place.refusal(alloc, SuiteFault::BehindForEver));
        }
        let (answer, times) = read_timed_answer(alloc, &place, element)?;
        script.add(answer, times)?;
    }
    Ok(script)
}

/// An answer, and how often it is given: once where `Times` is absent.
fn read_timed_answer(
    alloc: Global,
    place: &Place<'_>,
    tree: Tree,
) -> Result<(Answer, Times), SuiteRefusal> {
    let mut fields = Fields::among(alloc, place, tree, &["Return", "Throw", "Times"])?;
    let times = match fields.take("Times") {
        Some(tree) => read_times(alloc, &Place::Field(place, "Times"), tree)?,
        None => Times::Further(0),
    };
    let answer = read_answer_in(alloc, place, &mut fields)?;
    Ok((answer, times))
}

/// How often an answer is given. Refused: BadTimes.
fn read_times(alloc: Global, place: &Place<'_>, tree: Tree) -> Result<Times, SuiteRefusal> {
    match times_of(&tree) {
        Some(times) => Ok(times),
        None => Err(place.refusal(alloc, SuiteFault::BadTimes)),
    }
}

/// The times that a number above 0 or the text `*` stands for.
fn times_of(tree: &Tree) -> Option<Times> {
    match tree {
        Tree::Int(number) => {
            let times = u64::try_from(*number).ok()?;
            Some(Times::Further(times.checked_sub(1)?))
        }
        Tree::Text(text) if text.as_str() == "*" => Some(Times::ForEver),
        Tree::Null | Tree::Bool(_) | Tree::Text(_) | Tree::List(_) | Tree::Object(_) => None,
    }
}

/// An answer that is given once: an object with `Return` or `Throw`.
pub(crate) fn read_answer(
    alloc: Global,
    place: &Place<'_>,
    tree: Tree,
) -> Result<Answer, SuiteRefusal> {
    let mut fields = Fields::among(alloc, place, tree, &["Return", "Throw"])?;
    read_answer_in(alloc, place, &mut fields)
}

/// The answer that the fields of the object at that place say. Refused: OneAnswer.
fn read_answer_in(
    alloc: Global,
    place: &Place<'_>,
    fields: &mut Fields<'_>,
) -> Result<Answer, SuiteRefusal> {
    match (fields.take("Return"), fields.take("Throw")) {
        (Some(value), None) => Ok(Answer::Gives(Rc::new(alloc, value)?)),
        (None, Some(failure)) => read_failure(alloc, &Place::Field(place, "Throw"), failure),
        (Some(_), Some(_)) | (None, None) => Err(fields.refusal(SuiteFault::OneAnswer)),
    }
}

/// The failure that is thrown: `Error`, and `Cause`, which is empty where it is absent.
fn read_failure(alloc: Global, place: &Place<'_>, tree: Tree) -> Result<Answer, SuiteRefusal> {
    let mut fields = Fields::among(alloc, place, tree, &["Error", "Cause"])?;
    let error = fields.required_text("Error")?;
    let cause = match fields.text("Cause")? {
        Some(cause) => cause,
        None => String::new(alloc),
    };
    Ok(Answer::Fails { error, cause })
}
