// Reading retriers and catchers (States Language, "Errors").

ghost use Rattle.std.specs.Prelude.{◌≡◌, IfOk, codes, map, string_bytes};
ghost use Rattle.std.specs.List.{filter_map};
ghost use Rattle.serde_json.specs.Find.{as_str};
ghost use Rattle.serde_json.specs.View.{view, items_view, number_view};
ghost use Rattle.asl_model.specs.ShapeSpelling.{is_among};
ghost use Rattle.asl_model.specs.StandsFor as model;
ghost use Rattle.asl_model.specs.StandsFor.{place_within, listed, items_at, error_names, default_rate as model_default_rate, retrier_of, catcher_of};
ghost use Rattle.asl_states.specs.Machine.{retrier_view, catcher_view};
ghost use Rattle.asl_fields.specs.Rows.{rows_view};
ghost use Rattle.asl_fields.specs.Verdicts.{IsVerdict, place_view};
ghost use Rattle.asl_machine.specs.Reading.{are_proper as model_are_proper, element_checked, names_in, names_told, retrier_told, catcher_told, caught_checked};
ghost use Rattle.asl_fields.specs.Reading.{fields_of};

use crate::state_checking::check_target;
use asl_fields::rows::{self, Row};
use asl_fields::{
    Complaint, DefFault, Place, build_text, build_text_or, build_text_or_empty, check_fields,
    elements_of, natural_of, number_of, optional_natural_of, path_or_null_of, wrong_kind,
};
use asl_states::{Catcher, Retrier, Target};
use asl_tree::OutOfMemory;
use serde_json::{Number, Value};
use std::alloc::Global;

/// The seconds before the first retry of a retrier without `IntervalSeconds`.
const DEFAULT_INTERVAL: u64 = 1;

/// How often a retrier without `MaxAttempts` retries.
const DEFAULT_ATTEMPTS: u64 = 3;

/// The jitter of a retrier without `JitterStrategy`.
const DEFAULT_JITTER: &str = "NONE";

/// What a state does about errors.
#[derive(Drop)]
pub(crate) struct Trouble {
    pub(crate) retriers: Vec<Retrier>,
    pub(crate) catchers: Vec<Catcher>,
}

/// The retriers and catchers of a state. The catchers go on to states of `scope`.
pub(crate) fn read_trouble<'a>(
    alloc: Global,
    name: &'a str,
    state: &'a Value,
    scope: &Value,
) -> Result<Trouble, Complaint<'a>>
    ensures retried { IfOk result (λ t. map retrier_view t.retriers.items
        ≡ map retrier_of (listed (items_at (codes "Retry") (fields_of state.now)))) }
    ensures caught { IfOk result (λ t. map catcher_view t.catchers.items
        ≡ map catcher_of (listed (items_at (codes "Catch") (fields_of state.now)))) }
    ensures told { IsVerdict
        (model.trouble_complaints name.now (names_in scope.now) (fields_of state.now)) result }
{
    let retriers = read_retry(alloc, name, state)?;
    let catchers = read_catch(alloc, name, state, scope)?;
    Ok(Trouble { retriers, catchers })
}

/// The retriers in `Retry`.
fn read_retry<'a>(
    alloc: Global,
    name: &'a str,
    state: &'a Value,
) -> Result<Vec<Retrier>, Complaint<'a>>
    ensures retriers { IfOk result (λ read. map retrier_view read.items
        ≡ map retrier_of (listed (items_at (codes "Retry") (fields_of state.now)))) }
    ensures told { IsVerdict (model.retriers_complaints
        (place_within name.now (codes "Retry"))
        (items_at (codes "Retry") (fields_of state.now))) result }
{
    let place = Place {
        state: name,
        within: Some("Retry"),
    };
    read_retriers(alloc, &place, elements_of(state, "Retry"))
}

/// The catchers in `Catch`, which go on to states of `scope`.
fn read_catch<'a>(
    alloc: Global,
    name: &'a str,
    state: &'a Value,
    scope: &Value,
) -> Result<Vec<Catcher>, Complaint<'a>>
    ensures catchers { IfOk result (λ read. map catcher_view read.items
        ≡ map catcher_of (listed (items_at (codes "Catch") (fields_of state.now)))) }
    ensures told { IsVerdict (model.catchers_complaints
        (place_within name.now (codes "Catch")) (names_in scope.now)
        (items_at (codes "Catch") (fields_of state.now))) result }
{
    let place = Place {
        state: name,
        within: Some("Catch"),
    };
    read_catchers(alloc, &place, elements_of(state, "Catch"), scope)
}

/// The retriers that the elements of `Retry` stand for.
fn read_retriers<'a>(
    alloc: Global,
    place: &Place<'a>,
    elements: &'a [Value],
) -> Result<Vec<Retrier>, Complaint<'a>>
    ensures retriers { IfOk result (λ read. map retrier_view read.items
        ≡ map retrier_of (listed (items_view elements.now))) }
    ensures told { IsVerdict
        (model.retriers_complaints (place_view place.now) (items_view elements.now)) result }
{
    let mut retriers = Vec::new(alloc);
    for (index, element) in elements.iter().enumerate() {
        let retrier = read_retrier(alloc, place, element, index + 1 == elements.len())?;
        match retriers.push(retrier) {
            Ok(()) => {}
            Err(_) => return Err(place.complaint("Retry", DefFault::OutOfMemory)),
        }
    }
    Ok(retriers)
}

/// The retrier that an element of `Retry` stands for.
fn read_retrier<'a>(
    alloc: Global,
    place: &Place<'a>,
    element: &'a Value,
    is_last: bool,
) -> Result<Retrier, Complaint<'a>>
    ensures retrier { IfOk result (λ r. retrier_view r ≡ retrier_of (view element.now)) }
    ensures told { IsVerdict
        (retrier_told (place_view place.now) is_last (view element.now)) result }
{
    check_element(place, "Retry", element, &rows::RETRIER)?;
    let error_equals = read_error_names(alloc, place, "Retry", element, is_last)?;
    let jitter_strategy = build_text_or(alloc, element, "JitterStrategy", DEFAULT_JITTER);
    let jitter_strategy = place.or_out_of_memory("Retry", jitter_strategy)?;
    let comment = place.or_out_of_memory("Retry", build_text(alloc, element, "Comment"))?;
    Ok(Retrier {
        error_equals,
        interval_seconds: natural_of(element, "IntervalSeconds", DEFAULT_INTERVAL),
        max_attempts: natural_of(element, "MaxAttempts", DEFAULT_ATTEMPTS),
        backoff_rate: number_of(element, "BackoffRate", default_rate()),
        max_delay_seconds: optional_natural_of(element, "MaxDelaySeconds"),
        jitter_strategy,
        comment,
    })
}

/// The growth of the intervals of a retrier without `BackoffRate`.
#[tactic(auto, using(crate::proofs::Rates::two_is_the_rate))]
fn default_rate() -> Number
    ensures { number_view result ≡ model_default_rate }
{
    Number::from_f64(2.0).unwrap()
}

/// The catchers that the elements of `Catch` stand for.
fn read_catchers<'a>(
    alloc: Global,
    place: &Place<'a>,
    elements: &'a [Value],
    scope: &Value,
) -> Result<Vec<Catcher>, Complaint<'a>>
    ensures catchers { IfOk result (λ read. map catcher_view read.items
        ≡ map catcher_of (listed (items_view elements.now))) }
    ensures told { IsVerdict (model.catchers_complaints
        (place_view place.now) (names_in scope.now) (items_view elements.now)) result }
{
    let mut catchers = Vec::new(alloc);
    for (index, element) in elements.iter().enumerate() {
        let catcher = read_catcher(alloc, place, element, index + 1 == elements.len(), scope)?;
        match catchers.push(catcher) {
            Ok(()) => {}
            Err(_) => return Err(place.complaint("Catch", DefFault::OutOfMemory)),
        }
    }
    Ok(catchers)
}

/// The catcher that an element of `Catch` stands for.
fn read_catcher<'a>(
    alloc: Global,
    place: &Place<'a>,
    element: &'a Value,
    is_last: bool,
    scope: &Value,
) -> Result<Catcher, Complaint<'a>>
    ensures catcher { IfOk result (λ c. catcher_view c ≡ catcher_of (view element.now)) }
    ensures told { IsVerdict
        (catcher_told (place_view place.now)
        (names_in scope.now) is_last (view element.now)) result }
{
    let error_equals = read_caught(alloc, place, element, is_last, scope)?;
    let result_path = path_or_null_of(alloc, place, element, "ResultPath")?;
    let next = place.or_out_of_memory("Catch", build_text_or_empty(alloc, element, "Next"))?;
    let comment = place.or_out_of_memory("Catch", build_text(alloc, element, "Comment"))?;
    Ok(Catcher {
        error_equals,
        result_path,
        next: Target::new(next),
        comment,
    })
}

/// The error names of an element of `Catch`, which is in order but for its path.
fn read_caught<'a>(
    alloc: Global,
    place: &Place<'a>,
    element: &'a Value,
    is_last: bool,
    scope: &Value,
) -> Result<Vec<String>, Complaint<'a>>
    ensures names { IfOk result
        (λ names. map string_bytes names.items ≡ error_names (fields_of element.now)) }
    ensures told { IsVerdict
        (caught_checked (place_view place.now)
        (names_in scope.now) is_last (view element.now)) result }
{
    check_element(place, "Catch", element, &rows::CATCHER)?;
    let names = read_error_names(alloc, place, "Catch", element, is_last)?;
    check_target(place, "Catch", element, "Next", scope)?;
    Ok(names)
}

/// Checks that an element is an object of those fields, but for what is read.
fn check_element<'a>(
    place: &Place<'a>,
    field: &'static str,
    element: &'a Value,
    rows: &'static [Row],
) -> Result<(), Complaint<'a>>
    ensures { IsVerdict (element_checked (place_view place.now) field.now
        (rows_view rows.now) (view element.now)) result }
{
    if element.is_object() {
        check_fields(place, element, rows)
    } else {
        Err(place.complaint(field, wrong_kind(element)))
    }
}

/// The error names of an element, among which `States.ALL` stands alone, and in the last element.
pub(crate) fn read_error_names<'a>(
    alloc: Global,
    place: &Place<'a>,
    field: &'static str,
    element: &Value,
    is_last: bool,
) -> Result<Vec<String>, Complaint<'a>>
    ensures names { IfOk result
        (λ names. map string_bytes names.items ≡ error_names (fields_of element.now)) }
    ensures told { IsVerdict
        (names_told (place_view place.now) field.now is_last (fields_of element.now)) result }
{
    let names = place.or_out_of_memory(field, build_error_names(alloc, element))?;
    place.complain_unless(are_proper(&names, is_last), field, DefFault::BadErrorEquals)?;
    Ok(names)
}

/// Whether `States.ALL`, where it is among the error names of an element, is the only one, and the element the last.
fn are_proper(names: &[String], is_last: bool) -> bool
    ensures { result ≡ model_are_proper (map string_bytes names.now) is_last }
{
    !has_all_errors(names) || (is_last && names.len() == 1)
}

/// Whether `States.ALL` is one of the names.
fn has_all_errors(names: &[String]) -> bool
    ensures { result ≡ is_among (codes "States.ALL") (map string_bytes names.now) }
{
    for name in names {
        if name.as_str() == "States.ALL" {
            return true;
        }
    }
    false
}

/// The error names of a retrier or catcher.
fn build_error_names(alloc: Global, object: &Value) -> Result<Vec<String>, OutOfMemory>
    ensures { IfOk result
        (λ names. map string_bytes names.items ≡ error_names (fields_of object.now)) }
{
    build_texts(alloc, elements_of(object, "ErrorEquals"))
}

/// The texts among the elements.
fn build_texts(alloc: Global, elements: &[Value]) -> Result<Vec<String>, OutOfMemory>
    ensures { IfOk result (λ texts. map string_bytes texts.items
        ≡ filter_map as_str (listed (items_view elements.now))) }
{
    let mut texts = Vec::with_capacity(alloc, elements.len())?;
    for element in elements {
        if let Some(text) = element.as_str() {
            texts.push(String::from_str(alloc, text)?)?;
        }
    }
    Ok(texts)
}
