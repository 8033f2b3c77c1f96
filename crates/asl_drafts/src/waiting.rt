//! The states that are still to be walked.

ghost use Rattle.std.specs.Prelude.{◌≡◌, IfOk, length, replicate, slice_set, true};
ghost use Rattle.asl_drafts.specs.Waiting.{ArePlaced, AreQueued, AreTurnsAt};

use asl_tree::OutOfMemory;
use std::alloc::Global;
use std::collections::BTreeSet;

/// The turn of a state: where it stands in the order, and its number.
#[derive(Clone, Copy)]
pub struct Turn {
    pub place: usize,
    pub number: usize,
}

/// Which states are still to be walked: in this round, where their turn hasn't come, or else in the next.
#[derive(Drop)]
pub struct Waiting {
    /// Which states wait, by their numbers.
    waits: Vec<bool>,
    /// The numbers of the states in the order in which they are walked.
    order: Vec<usize>,
    /// Where each state stands in that order, by its number.
    places: Vec<usize>,
    /// The places of those that wait.
    turns: BTreeSet<usize>,
    ghost queued: { AreQueued order.items places.items waits.items turns },
}

impl Waiting {
    ghost use Rattle.std.specs.Prelude.{false, IfNone, IfSome, OnErr, OnOk};
    ghost use Rattle.asl_drafts.specs.Waiting.{IsNextTurn, NoneWaits, waits_in};
    ghost use Rattle.asl_drafts.specs.Walker.{StaysWaiting};

    /// So many states wait, which are walked in that order.
    pub fn new(alloc: Global, count: usize, order: Vec<usize>) -> Result<Waiting, OutOfMemory>
        ensures waits { IfOk result (λ waiting. waiting.waits.items ≡ replicate count true) }
        ensures order { IfOk result (λ waiting. waiting.order ≡ order) }
    {
        let waits = all_waiting(alloc, count)?;
        let places = places_in(alloc, count, &order)?;
        let turns = turns_at(alloc, &places)?;
        Ok(Waiting {
            waits,
            order,
            places,
            turns,
        })
    }

    /// The turn of the first state that waits, of those that stand from that place of the order on, where no number
    /// stands twice in it.
    pub fn next(&self, from: usize) -> Option<Turn>
        ensures first { IfSome result (IsNextTurn self.now.order.items self.now.waits.items from) }
        ensures none { IfNone result (NoneWaits self.now.order.items self.now.waits.items from
            (length self.now.order.items)) }
    {
        let place = *self.turns.range(from..).next()?;
        let number = *self.order.get(place)?;
        Some(Turn { place, number })
    }

    /// Whether the state of that number waits; it doesn't then.
    pub fn stop(&mut self, number: usize) -> bool
        ensures told { result ≡ waits_in self.old.waits.items number }
        ensures stops { self.new.waits.items ≡ slice_set self.old.waits.items number false }
        ensures order { self.new.order ≡ self.old.order }
    {
        if number >= self.waits.len() {
            return false;
        }
        let did = self.waits[number];
        self.waits[number] = false;
        let place = self.places[number];
        self.turns.remove(&place);
        did
    }

    /// The state of that number waits. Where memory is refused, the same states wait as before.
    pub fn wake(&mut self, number: usize) -> Result<(), OutOfMemory>
        ensures wakes { OnOk result
            (self.new.waits.items ≡ slice_set self.old.waits.items number true) }
        ensures refused { OnErr result (self.new.waits ≡ self.old.waits) }
        ensures stays { StaysWaiting self.old self.new }
    {
        if number >= self.waits.len() || self.waits[number] {
            return Ok(());
        }
        let place = self.places[number];
        self.turns.insert(place)?;
        self.waits[number] = true;
        Ok(())
    }
}

/// So many states wait.
fn all_waiting(alloc: Global, count: usize) -> Result<Vec<bool>, OutOfMemory>
    ensures { IfOk result (λ waits. waits.items ≡ replicate count true) }
{
    let mut waits = Vec::with_capacity(alloc, count)?;
    for _ in 0..count {
        waits.push(true)?;
    }
    Ok(waits)
}

/// Where each of so many states stands in the order. A state that doesn't stand there has the place behind its end.
fn places_in(alloc: Global, count: usize, order: &[usize]) -> Result<Vec<usize>, OutOfMemory>
    ensures many { IfOk result (λ places. length places.items ≡ count) }
    ensures placed { IfOk result (λ places. ArePlaced order.now places.items) }
{
    let mut places = vec![in alloc; order.len(); count]?;
    for (place, number) in order.iter().enumerate() {
        put(&mut places, *number, place);
    }
    Ok(places)
}

/// The state of that number stands at the place, if there is such a state.
fn put(places: &mut Vec<usize>, number: usize, place: usize)
    ensures { places.new.items ≡ slice_set places.old.items number place }
{
    if let Some(stands) = places.get_mut(number) {
        *stands = place;
    }
}

/// The turns at these places.
fn turns_at(alloc: Global, places: &[usize]) -> Result<BTreeSet<usize>, OutOfMemory>
    ensures { IfOk result (AreTurnsAt places.now (length places.now)) }
{
    let mut turns = BTreeSet::new(alloc);
    for place in places {
        turns.insert(*place)?;
    }
    Ok(turns)
}
