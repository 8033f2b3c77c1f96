//! The entries of a draft: the shapes of the states of a machine.

ghost use Rattle.std.specs.Prelude.{◌≡◌, ◌<◌, ℕ, List, length, map, IfOk, replicate};
ghost use Rattle.asl_draft_laws.specs.Drafts as drafts;
ghost use Rattle.asl_draft_laws.specs.Drafts.{entry_with, taken_in, with_element};
ghost use Rattle.asl_model.specs.Shape.{Shape};
ghost use Rattle.asl_state_edges.specs.Entry.{entry_view as shapes_view, IsEntryBelow};
ghost use Rattle.asl_model.specs.Machine.{kind_of};
ghost use Rattle.asl_states.specs.Machine.{kind_view};
ghost use Rattle.asl_machine_table.specs.Table.{table_view};
ghost use Rattle.asl_numbered.specs.Expansion.{shape_at, Keeps};
ghost use Rattle.asl_drafts.specs.Entries.{AreAllBelow, AreNumbersIn, Makes};
ghost use Rattle.asl_drafts.specs.Entries.{ends_room, ends_view, entries_room, entries_view, entry_room, entry_view};
ghost use Rattle.asl_drafts.specs.Entries.{filled_with, growths_in, made_part};
ghost use Rattle.asl_drafts.specs.Growing.{AreGrown, AreEndsGrown, IsEntryGrown};

use crate::growing::Growing;
use crate::store::Store;
use asl_machine_table::Machine;
use asl_state_edges::Entry;
use asl_states::Kind;
use asl_tree::OutOfMemory;
use std::alloc::Global;

/// The shapes of a state: of its input, of its output, and of the end of each of its children.
#[derive(Drop)]
pub(crate) struct DraftEntry {
    input: Growing,
    output: Growing,
    ends: Vec<Growing>,
}

/// One of the shapes of an entry.
#[derive(Clone, Copy)]
pub(crate) enum Part {
    Input,
    Output,
    /// That of the end of the child of that number.
    End(usize),
}

/// The numbers of the shapes of an entry.
#[derive(Drop)]
pub(crate) struct EntryNumbers {
    pub(crate) input: usize,
    pub(crate) output: usize,
    pub(crate) ends: Vec<usize>,
}

impl DraftEntry {
    ghost use Rattle.std.specs.Prelude.{◌≡◌, IfOk};
    ghost use Rattle.asl_drafts.specs.Entries.{growing_in, numbers_in, numbers_seen};

    /// One of the shapes, if it is there.
    pub(crate) fn growing(&self, part: Part) -> Option<Growing>
        ensures { result ≡ growing_in part self.now }
    {
        match part {
            Part::Input => Some(self.input),
            Part::Output => Some(self.output),
            Part::End(child) => self.ends.get(child).copied(),
        }
    }

    /// Their numbers.
    pub(crate) fn numbers(&self, alloc: Global) -> Result<EntryNumbers, OutOfMemory>
        ensures { IfOk result (λ numbers. numbers_seen numbers ≡ numbers_in self.now) }
    {
        Ok(EntryNumbers {
            input: self.input.number,
            output: self.output.number,
            ends: numbers_of(alloc, &self.ends)?,
        })
    }
}

/// The entries of the machine's states by number, with that shape throughout.
pub(crate) fn new_entries(
    alloc: Global,
    machine: &Machine,
    never: Growing,
) -> Result<Vec<DraftEntry>, OutOfMemory>
    ensures { IfOk result
        (λ entries. map growths_in entries.items
        ≡ map (λ state. filled_with never (drafts.children_in (kind_of state)))
        (table_view machine.now).states) }
{
    let mut entries = Vec::new(alloc);
    for number in 0..machine.states() {
        let state = machine.state(number).unwrap();
        entries.push(new_entry(alloc, &state.kind, never)?)?;
    }
    Ok(entries)
}

/// The entry of a state of that type, with that shape throughout.
fn new_entry(alloc: Global, kind: &Kind, never: Growing) -> Result<DraftEntry, OutOfMemory>
    ensures { IfOk result
        (λ entry. growths_in entry
        ≡ filled_with never (drafts.children_in (kind_view kind.now))) }
{
    let mut ends = Vec::new(alloc);
    for _ in 0..children_in(kind) {
        ends.push(never)?;
    }
    Ok(DraftEntry {
        input: never,
        output: never,
        ends,
    })
}

/// How many children a state of that type has.
fn children_in(kind: &Kind) -> usize
    ensures { result ≡ drafts.children_in (kind_view kind.now) }
{
    match kind {
        Kind::Parallel { branches } => branches.len(),
        Kind::Map { .. } => 1,
        Kind::Pass { .. }
        | Kind::Task { .. }
        | Kind::Choice { .. }
        | Kind::Wait { .. }
        | Kind::Succeed
        | Kind::Fail { .. } => 0,
    }
}

/// Takes in what flows into one of the shapes of the state of that number, if it is there, and says whether this
/// changed it.
pub(crate) fn take_in_entries(
    store: &mut Store,
    entries: &mut Vec<DraftEntry>,
    number: usize,
    part: Part,
    flowing: usize,
) -> Result<bool, OutOfMemory>
    requires grown { AreGrown store.old entries.old.items }
    requires flowing { flowing < length store.old }
    ensures takes { IfOk result
        (λ changed. Makes entries_room (with_element number
        (made_part part (taken_in (shape_at store.old flowing))))
        (entries_view store.old entries.old.items) changed
        (entries_view store.new entries.new.items)) }
    ensures grown { AreGrown store.new entries.new.items }
    ensures keeps { Keeps store.old store.new }
{
    match entries.get_mut(number) {
        Some(entry) => take_in_entry(store, entry, part, flowing),
        None => Ok(false),
    }
}

/// So for one of the shapes of an entry.
fn take_in_entry(
    store: &mut Store,
    entry: &mut DraftEntry,
    part: Part,
    flowing: usize,
) -> Result<bool, OutOfMemory>
    requires grown { IsEntryGrown store.old entry.old }
    requires flowing { flowing < length store.old }
    ensures takes { IfOk result
        (λ changed. Makes entry_room (made_part part (taken_in (shape_at store.old flowing)))
        (entry_view store.old entry.old) changed (entry_view store.new entry.new)) }
    ensures grown { IsEntryGrown store.new entry.new }
    ensures keeps { Keeps store.old store.new }
{
    match part {
        Part::Input => entry.input.take(store, flowing),
        Part::Output => entry.output.take(store, flowing),
        Part::End(child) => take_in_ends(store, &mut entry.ends, child, flowing),
    }
}

/// So for the end of one of the children.
fn take_in_ends(
    store: &mut Store,
    ends: &mut Vec<Growing>,
    child: usize,
    flowing: usize,
) -> Result<bool, OutOfMemory>
    requires grown { AreEndsGrown store.old ends.old }
    requires flowing { flowing < length store.old }
    ensures takes { IfOk result
        (λ changed. Makes ends_room (with_element child (taken_in (shape_at store.old flowing)))
        (ends_view store.old ends.old) changed (ends_view store.new ends.new)) }
    ensures grown { AreEndsGrown store.new ends.new }
    ensures keeps { Keeps store.old store.new }
{
    match ends.get_mut(child) {
        Some(growing) => growing.take(store, flowing),
        None => Ok(false),
    }
}

/// The entry of a state of that type with the shapes of those numbers.
pub(crate) fn entry_in<'e>(kind: &Kind, numbers: &'e EntryNumbers) -> Entry<'e>
    ensures shown { (table : List Shape) (entry : drafts.DraftEntry)
        → AreNumbersIn table entry numbers.now
        → shapes_view table result ≡ entry_with (kind_view kind.now) entry }
    ensures below { (bound : ℕ) → AreAllBelow bound numbers.now → IsEntryBelow bound result }
{
    if kind.is_map() {
        Entry {
            input: numbers.input,
            output: numbers.output,
            branches: &[],
            item: numbers.ends.first().copied(),
        }
    } else {
        Entry {
            input: numbers.input,
            output: numbers.output,
            branches: &numbers.ends,
            item: None,
        }
    }
}

/// The numbers of the shapes.
fn numbers_of(alloc: Global, shapes: &[Growing]) -> Result<Vec<usize>, OutOfMemory>
    ensures { IfOk result (λ numbers. numbers.items ≡ map (λ g. g.number) shapes.now) }
{
    let mut numbers = Vec::with_capacity(alloc, shapes.len())?;
    for growing in shapes {
        numbers.push(growing.number)?;
    }
    Ok(numbers)
}
