//! The visits so far of a search.

ghost use Rattle.std.specs.Prelude.{◌≡◌, ◌≤◌, ◌∷◌, ◌++◌, [], length, take, IfOk, IsTrue, false, true};
ghost use Rattle.asl_model.specs.Shape.{inhabited};
ghost use Rattle.asl_numbered.specs.Expansion.{shape_at};
ghost use Rattle.asl_ways.specs.Noted.{AreNoted, IsInsideNone, IsInsideOne};

use crate::arriving::Arrival;
use crate::visiting::Visit;
use arrayvec::ArrayVec;
use asl_numbered::Shapes;
use asl_tree::OutOfMemory;
use std::alloc::Global;

/// With how many shapes of earlier visits of a state, the first ones, one that comes is compared.
pub(crate) const MOST_COMPARED: usize = 16;

/// The visits so far.
#[derive(Drop)]
pub(crate) struct Search {
    /// In the order in which they were found.
    visits: Vec<Visit>,
    /// Of each state up to the greatest that was visited the numbers of the shapes of its first visits.
    shapes_at: Vec<ArrayVec<usize, MOST_COMPARED>>,
    /// How many visits there may be.
    most: usize,
    ghost noted: { AreNoted visits.items shapes_at.items },
    ghost few: { length visits.items ≤ most },
}

impl Search {
    ghost use Rattle.std.specs.Prelude.{◌≡◌, ◌<◌, [], ◌∷◌, ◌++◌, length, map, IfOk, IsTrue, OnOk, Some, slice_get, false, true};
    ghost use Rattle.asl_model.specs.Shape.{inhabited};
    ghost use Rattle.asl_numbered.specs.Expansion.{shape_at};
    ghost use Rattle.asl_ways.specs.Adding.{AreBelow};
    ghost use Rattle.asl_ways.specs.Coming.{coming};
    ghost use Rattle.asl_ways.specs.Seeking.{Visits};
    ghost use Rattle.asl_ways.specs.Visits.{IsNew, IsTakenIn};

    /// No visits yet, of at most so many.
    pub(crate) fn new(alloc: Global, most: usize) -> Search
        ensures none { result.visits.items ≡ [] }
        ensures most { result.most ≡ most }
    {
        Search {
            visits: Vec::new(alloc),
            shapes_at: Vec::new(alloc),
            most,
        }
    }

    /// The visit of that number.
    pub(crate) fn nth(&self, place: usize) -> Option<Visit>
        ensures { result ≡ slice_get self.now.visits.items place }
    {
        self.visits.get(place).copied()
    }

    /// All visits.
    pub(crate) fn into_visits(self) -> Vec<Visit>
        ensures { result.items ≡ self.visits.items }
    {
        self.visits
    }

    /// Adds each of what comes, from the visit of that number, as a visit.
    pub(crate) fn visit_all(
        &mut self,
        shapes: &mut Shapes,
        arrivals: &[Arrival],
        before: usize,
    ) -> Result<(), OutOfMemory>
        requires below { AreBelow (length shapes.old) arrivals.now }
        ensures visits { OnOk result
            (Visits shapes.old self.old self.new
            (map (coming shapes.old) arrivals.now) (Some before)) }
        ensures unchanged { shapes.new ≡ shapes.old }
    {
        for arrival in arrivals {
            self.visit(shapes, *arrival, Some(before))?;
        }
        Ok(())
    }

    /// Adds what comes as a visit, from the one before it, unless there are as many as there may be, no tree has its shape,
    /// or it is inside that of one of the first visits of the state.
    pub(crate) fn visit(
        &mut self,
        shapes: &mut Shapes,
        arrival: Arrival,
        before: Option<usize>,
    ) -> Result<(), OutOfMemory>
        requires below { arrival.shape < length shapes.old }
        ensures visits { OnOk result
            (Visits shapes.old self.old self.new (coming shapes.old arrival ∷ []) before) }
        ensures unchanged { shapes.new ≡ shapes.old }
    {
        if self.is_wanted(shapes, &arrival)? {
            self.push(Visit { arrival, before })
        } else {
            Ok(())
        }
    }

    /// Whether what comes is to be a visit.
    fn is_wanted(&self, shapes: &mut Shapes, arrival: &Arrival) -> Result<bool, OutOfMemory>
        requires below { arrival.now.shape < length shapes.old }
        ensures room { IfOk result
            (λ wanted. IsTrue wanted → length self.now.visits.items < self.now.most) }
        ensures inhabited { IfOk result (λ wanted. IsTrue wanted
            → inhabited (shape_at shapes.old arrival.now.shape) ≡ true) }
        ensures taken_in { IfOk result
            (λ wanted. wanted ≡ false → length self.now.visits.items < self.now.most
            → inhabited (shape_at shapes.old arrival.now.shape) ≡ true
            → IsTakenIn shapes.old self.now.visits.items (coming shapes.old arrival.now)) }
        ensures new { IfOk result (λ wanted. IsTrue wanted
            → IsNew shapes.old self.now.visits.items (coming shapes.old arrival.now)) }
        ensures unchanged { shapes.new ≡ shapes.old }
    {
        if self.visits.len() >= self.most {
            return Ok(false);
        }
        match shapes.inhabited(arrival.shape) {
            Some(true) => {
                let there = self.was_there(shapes, arrival)?;
                Ok(!there)
            }
            Some(false) | None => Ok(false),
        }
    }

    /// Adds a visit, where there is room for one.
    fn push(&mut self, visit: Visit) -> Result<(), OutOfMemory>
        requires room { length self.old.visits.items < self.old.most }
        ensures visits { OnOk result
            (self.new.visits.items ≡ self.old.visits.items ++ visit ∷ []) }
        ensures most { self.new.most ≡ self.old.most }
    {
        self.make_room(visit.arrival.state)?;
        self.visits.push(visit)?;
        if let Some(numbers) = self.shapes_at.get_mut(visit.arrival.state) {
            note(numbers, visit.arrival.shape);
        }
        Ok(())
    }

    /// Makes a place for the shapes of visits of the state of that number, where there is none.
    fn make_room(&mut self, state: usize) -> Result<(), OutOfMemory>
        ensures visits { self.new.visits ≡ self.old.visits }
        ensures most { self.new.most ≡ self.old.most }
        ensures room { OnOk result (state < length self.new.shapes_at.items) }
    {
        while self.shapes_at.len() <= state {
            self.shapes_at.push(ArrayVec::new())?;
        }
        Ok(())
    }

    /// Whether the shape of what comes is inside that of one of the first visits of the state.
    fn was_there(&self, shapes: &mut Shapes, arrival: &Arrival) -> Result<bool, OutOfMemory>
        ensures there { IfOk result (λ there. IsTrue there
            → IsTakenIn shapes.old self.now.visits.items (coming shapes.old arrival.now)) }
        ensures new { IfOk result (λ there. there ≡ false
            → inhabited (shape_at shapes.old arrival.now.shape) ≡ true
            → IsNew shapes.old self.now.visits.items (coming shapes.old arrival.now)) }
        ensures unchanged { shapes.new ≡ shapes.old }
    {
        match self.shapes_at.get(arrival.state) {
            Some(outer) => is_inside_one(shapes, arrival.shape, outer.as_slice()),
            None => Ok(false),
        }
    }
}

/// Notes a shape, unless as many are noted as are compared.
fn note(numbers: &mut ArrayVec<usize, MOST_COMPARED>, shape: usize)
    ensures { numbers.new.items ≡ take MOST_COMPARED (numbers.old.items ++ shape ∷ []) }
{
    if !numbers.is_full() {
        numbers.push(shape);
    }
}

/// Whether the shape of that number is inside one of those.
fn is_inside_one(shapes: &mut Shapes, inner: usize, outer: &[usize]) -> Result<bool, OutOfMemory>
    ensures inside { IfOk result (λ inside. IsTrue inside
        → IsInsideOne shapes.old inner outer.now) }
    ensures outside { IfOk result (λ inside. inside ≡ false
        → inhabited (shape_at shapes.old inner) ≡ true → IsInsideNone shapes.old inner outer.now) }
    ensures unchanged { shapes.new ≡ shapes.old }
{
    shapes.are_proper();
    for number in outer {
        if shapes.sub(inner, *number)? == Some(true) {
            return Ok(true);
        }
    }
    Ok(false)
}
