//! What comes of an error in a state (States Language, "Retrying after error", "Fallback States").

ghost use Rattle.std.specs.Prelude.{◌≡◌, ◌<◌, ◌≤◌, ◌+◌, ◌^◌, ℕ, List, length, Ok, IfOk, IfErr, IfSome, Some, map, string_bytes, option_map};
ghost use Rattle.asl_states.specs.Machine.{catcher_view, retrier_view, settings_view, target_name};
ghost use Rattle.asl_model.specs.Run as model;
ghost use Rattle.asl_processing.specs.Data.{datum_view};
ghost use Rattle.asl_processing.specs.Leading.{Leads};
ghost use Rattle.asl_states.specs.Targets.{EachCatcherTarget, EachSettingsTarget};
ghost use Rattle.asl_processing.specs.Troubles.{CanRise, Reaches, TroubleLeads, trouble_view};
ghost use Rattle.asl_processing.specs.declared.troubles.Trouble.TheVariants.{Retries};
ghost use Rattle.asl_tree.specs.View.{view};

use crate::data::Datum;
use asl_path::{PlaceRefusal, RefPath, place};
use asl_states::{Catcher, Retrier, Settings, Target};
use asl_tree::{OutOfMemory, Tree, copy};
use std::alloc::Global;
use std::collections::BTreeMap;
use std::rc::Rc;

/// What comes of an error in a state.
#[derive(Drop)]
pub enum Trouble<'m> {
    /// The retrier of that number retries.
    Retries(usize),
    /// The catcher of that number hands this input to that state.
    Catches {
        catcher: usize,
        next: &'m Target,
        input: Datum,
    },
    /// A catcher takes the error, and its output can't be placed.
    Misfits,
    /// Nothing takes the error.
    Escapes,
}

/// What comes of an error in a state with that raw input and those counts: a retrier that retries, else the first
/// catcher that takes it, else the state fails. The count of a retrier that retries can rise.
///
/// Refused: want of memory.
pub fn trouble_of<'m>(
    alloc: Global,
    settings: &'m Settings,
    raw: &Datum,
    counts: &[u64],
    error: &str,
    cause: &str,
) -> Result<Trouble<'m>, OutOfMemory>
    ensures rises { (i : ℕ) → result ≡ Ok (Retries i) → CanRise counts.now i }
    ensures exact { IfOk result (λ t. trouble_view t ≡ model.trouble_of (settings_view settings.now)
        (view raw.now.value) counts.now error.now cause.now) }
    ensures leads { (names : List (List ℕ)) → EachSettingsTarget (Leads names) settings.now
        → IfOk result (TroubleLeads names) }
{
    if let Some(retrier) = retrying(&settings.retriers, counts, error) {
        return Ok(Trouble::Retries(retrier));
    }
    match catching(&settings.catchers, error) {
        Some((number, catcher)) => caught(alloc, number, catcher, raw, error, cause),
        None => Ok(Trouble::Escapes),
    }
}

/// Whether an `ErrorEquals` takes the error: one of its names is the error's, or `States.ALL`.
fn takes_error(error_equals: &[String], error: &str) -> bool
    ensures { result ≡ model.takes_error error.now (map string_bytes error_equals.now) }
{
    for name in error_equals {
        if name.as_str() == error || name.as_str() == "States.ALL" {
            return true;
        }
    }
    false
}

/// The number of the retrier that retries: the first that takes the error decides, and retries while its count is below
/// its `MaxAttempts`.
fn retrying(retriers: &[Retrier], counts: &[u64], error: &str) -> Option<usize>
    ensures rises { IfSome result (λ i. CanRise counts.now i) }
    ensures exact { result ≡ model.retrying 0 (map retrier_view retriers.now) counts.now error.now }
{
    for (number, retrier) in retriers.iter().enumerate() {
        if takes_error(&retrier.error_equals, error) {
            return if count_at(counts, number) < retrier.max_attempts {
                Some(number)
            } else {
                None
            };
        }
    }
    None
}

/// The count of the retrier of that number; one that isn't written is 0.
#[tactic(auto, using(crate::proofs::Counts::count_within, crate::proofs::Counts::count_past))]
fn count_at(counts: &[u64], retrier: usize) -> u64
    ensures { result ≡ model.count_at retrier counts.now }
{
    match counts.get(retrier) {
        Some(count) => *count,
        None => 0,
    }
}

/// The first catcher that takes the error, with its number.
fn catching<'m>(catchers: &'m [Catcher], error: &str) -> Option<(usize, &'m Catcher)>
    ensures exact { option_map (λ f. (f.0, catcher_view f.1.now)) result
        ≡ model.catching 0 (map catcher_view catchers.now) error.now }
    ensures leads { (names : List (List ℕ)) → EachCatcherTarget (Leads names) catchers.now
        → IfSome result (λ f. Leads names f.1.now.next) }
{
    for (number, catcher) in catchers.iter().enumerate() {
        if takes_error(&catcher.error_equals, error) {
            return Some((number, catcher));
        }
    }
    None
}

/// What the catcher of that number does: it hands on the error output placed in the raw input, where it can be placed.
fn caught<'m>(
    alloc: Global,
    number: usize,
    catcher: &'m Catcher,
    raw: &Datum,
    error: &str,
    cause: &str,
) -> Result<Trouble<'m>, OutOfMemory>
    ensures exact { IfOk result
        (λ t. trouble_view t ≡ model.caught_as number (target_name catcher.now.next)
        (model.caught_input (catcher_view catcher.now) (view raw.now.value) error.now cause.now)) }
    ensures leads { (names : List (List ℕ)) → Leads names catcher.now.next
        → IfOk result (TroubleLeads names) }
{
    match caught_input(alloc, catcher, raw, error, cause)? {
        Some(input) => Ok(Trouble::Catches {
            catcher: number,
            next: &catcher.next,
            input,
        }),
        None => Ok(Trouble::Misfits),
    }
}

/// What the catcher hands to its next state, where the error output can be placed. Where nothing is placed, that is the
/// raw input itself.
fn caught_input(
    alloc: Global,
    catcher: &Catcher,
    raw: &Datum,
    error: &str,
    cause: &str,
) -> Result<Option<Datum>, OutOfMemory>
    ensures { IfOk result (λ d. option_map datum_view d
        ≡ model.caught_input (catcher_view catcher.now) (view raw.now.value) error.now cause.now) }
{
    let Some(path) = &catcher.result_path else {
        return Ok(Some(raw.clone()?));
    };
    match place_error(alloc, path, raw, error, cause)? {
        Some(input) => Ok(Some(Rc::new(alloc, input)?)),
        None => Ok(None),
    }
}

/// The error output placed in the raw input, where it can be placed. Only where it is placed deeper than at `$` the raw
/// input is copied.
fn place_error(
    alloc: Global,
    path: &RefPath,
    raw: &Tree,
    error: &str,
    cause: &str,
) -> Result<Option<Tree>, OutOfMemory>
    ensures { IfOk result (λ t.
        option_map view t ≡ model.error_placed (Some path.now) (view raw.now) error.now cause.now) }
{
    let output = error_output(alloc, error, cause)?;
    if path.segments().is_empty() {
        return Ok(Some(output));
    }
    match place(alloc, copy(alloc, raw)?, path, output) {
        Ok(input) => Ok(Some(input)),
        Err((PlaceRefusal::CannotPlace, _, _)) => Ok(None),
        Err((PlaceRefusal::OutOfMemory, _, _)) => Err(OutOfMemory),
    }
}

/// The object that tells an error and its cause.
fn error_output(alloc: Global, error: &str, cause: &str) -> Result<Tree, OutOfMemory>
    ensures { IfOk result (λ t. view t ≡ model.error_output error.now cause.now) }
{
    let mut fields = BTreeMap::new(alloc);
    let told = Tree::Text(String::from_str(alloc, cause)?);
    drop(fields.insert(String::from_str(alloc, "Cause")?, told)?);
    let named = Tree::Text(String::from_str(alloc, error)?);
    drop(fields.insert(String::from_str(alloc, "Error")?, named)?);
    Ok(Tree::Object(fields))
}

/// Raises the count of the retrier of that number by one. A refusal, which is out of memory and comes only where that count
/// isn't written, leaves the counts as they are.
#[tactic(auto, using(crate::proofs::Counts::count_within, crate::proofs::Counts::raised_within))]
pub(crate) fn one_higher(counts: &mut Vec<u64>, retrier: usize) -> Result<(), OutOfMemory>
    requires { CanRise counts.old.items retrier }
    ensures raised { IfOk result
        (λ _. counts.new.items ≡ model.one_higher retrier counts.old.items) }
    ensures unchanged { IfErr result (λ _. counts.new.items ≡ counts.old.items) }
    ensures unwritten { IfErr result (λ _. length counts.old.items ≤ retrier) }
{
    reach(counts, retrier)?;
    counts[retrier] += 1;
    Ok(())
}

/// Writes the counts up to that of the retrier of that number; those that weren't written are 0. A refusal leaves the
/// counts as they are.
fn reach(counts: &mut Vec<u64>, retrier: usize) -> Result<(), OutOfMemory>
    requires { retrier + 1 < 2 ^ 64 }
    ensures reached { IfOk result (λ _. Reaches retrier counts.old.items counts.new.items) }
    ensures unchanged { IfErr result (λ _. counts.new.items ≡ counts.old.items) }
    ensures unwritten { IfErr result (λ _. length counts.old.items ≤ retrier) }
{
    if retrier < counts.len() {
        return Ok(());
    }
    counts.resize(retrier + 1, 0)?;
    Ok(())
}
