//! Which answer of a case a task asks for.

ghost use Rattle.std.specs.Prelude.{◌≡◌, ℕ, List, map, slice_get};
ghost use Rattle.asl_run.specs.Entries.{entry_view};
ghost use Rattle.asl_machine_table.specs.Table.{table_view};
ghost use Rattle.asl_suites.specs.View.{answers_under};
ghost use Rattle.asl_cases.specs.Asking.{IsTurnOf, are_by_item, is_attempt, is_item, is_map, item_at};
ghost use Rattle.asl_cases.specs.Stepping.{place_asked, place_in};

use asl_machine_table::Machine;
use asl_run::Entry;
use asl_suites::CaseAnswers;

/// The place of the task that was asked last: while each is answered before anything else happens, it is the one that
/// waits. The machine's own place where none was asked last.
pub(crate) fn asked_place<'t>(trace: &'t [Entry<'_>]) -> &'t [usize]
    ensures { result.now ≡ place_asked (map entry_view trace.now) }
{
    match trace.last() {
        Some(entry) => place_in(entry),
        None => &[],
    }
}

/// The place of the task that the entry tells was asked; the machine's own where it tells something else.
fn place_in<'e>(entry: &'e Entry<'_>) -> &'e [usize]
    ensures { result.now ≡ place_in (entry_view entry.now) }
{
    match entry {
        Entry::Task { at, .. } => at,
        Entry::Enter { .. }
        | Entry::Leave { .. }
        | Entry::Raise { .. }
        | Entry::TaskFailed { .. }
        | Entry::BranchFailed { .. }
        | Entry::Retried { .. }
        | Entry::Caught { .. }
        | Entry::Ended { .. } => &[],
    }
}

/// The number of the item of the innermost Map that the state stands in, at that place; none where it stands in none.
#[tactic(auto, using(crate::proofs::Around::item_step, crate::proofs::Around::none_further))]
pub(crate) fn item_at(machine: &Machine, state: usize, place: &[usize]) -> Option<usize>
    ensures { result ≡ item_at (table_view machine.now) state place.now }
{
    let mut inner = state;
    for child in place.iter().rev() {
        let (owner, _) = machine.scope_of(inner)?.owner?;
        if is_map(machine, owner) {
            return Some(*child);
        }
        inner = owner;
    }
    None
}

/// Whether the state stands in a Map, at whatever depth.
pub(crate) fn stands_in_map(machine: &Machine, state: usize) -> bool {
    let mut inner = state;
    // A state stands in fewer scopes than there are states.
    for _scope in 0..machine.states() {
        let Some((owner, _)) = machine.scope_of(inner).and_then(|scope| scope.owner) else {
            return false;
        };
        if is_map(machine, owner) {
            return true;
        }
        inner = owner;
    }
    false
}

/// Whether the state of that number is a Map.
fn is_map(machine: &Machine, number: usize) -> bool
    ensures { result ≡ is_map (slice_get (table_view machine.now).states number) }
{
    match machine.state(number) {
        Some(state) => state.kind.is_map(),
        None => false,
    }
}

/// Which attempt of the state's task was asked last, counted from 0, and, where the state's answers are by item, in
/// which item: only the attempts in that item count then.
pub(crate) fn turn_of(
    machine: &Machine,
    answers: &CaseAnswers,
    state: usize,
    item: Option<usize>,
    trace: &[Entry],
) -> (usize, Option<usize>)
    ensures { (name : List ℕ) → slice_get (table_view machine.now).names state ≡ Some name
        → IsTurnOf (table_view machine.now) state name (answers_under answers.now name) item
        (map entry_view trace.now) result.0 result.1 }
{
    let name = machine.name(state).unwrap_or("");
    let item = if is_by_item(answers, name) {
        item
    } else {
        None
    };
    let asked = trace
        .iter()
        .filter(|entry| is_attempt(machine, state, name, item, entry));
    (asked.count().saturating_sub(1), item)
}

/// Whether the entry tells that the task of that state was asked, in that item, where one is given.
fn is_attempt(
    machine: &Machine,
    state: usize,
    name: &str,
    item: Option<usize>,
    entry: &Entry,
) -> bool
    ensures { result
        ≡ is_attempt (table_view machine.now) state name.now item (entry_view entry.now) }
{
    match entry {
        Entry::Task {
            at,
            state: asked,
            ..
        } => *asked == name && is_item(item, item_at(machine, state, at)),
        Entry::Enter { .. }
        | Entry::Leave { .. }
        | Entry::Raise { .. }
        | Entry::TaskFailed { .. }
        | Entry::BranchFailed { .. }
        | Entry::Retried { .. }
        | Entry::Caught { .. }
        | Entry::Ended { .. } => false,
    }
}

/// Whether the item is the one that is meant, where one is.
fn is_item(meant: Option<usize>, item: Option<usize>) -> bool
    ensures { result ≡ is_item meant item }
{
    meant.is_none() || item == meant
}

/// Whether the answers of the state of that name are by item.
#[tactic(auto, using(crate::proofs::NamedKinds::kind_among, crate::proofs::NamedKinds::kind_known))]
fn is_by_item(answers: &CaseAnswers, name: &str) -> bool
    ensures { result ≡ are_by_item (answers_under answers.now name.now) }
{
    for (state, by_item) in answers.states() {
        if state == name {
            return by_item;
        }
    }
    false
}
