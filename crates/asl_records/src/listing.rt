//! The list of a certificate's shapes.
//!
//! A walk goes through the shapes, and lists each shape of lists, of objects or of several kinds once its parts are
//! listed. What is still to be done stands in a list of tasks, so that no call goes from a shape to its parts.

ghost use Rattle.std.specs.Prelude.{◌≡◌, ◌<◌, ◌++◌, [], IfOk, IfSome, OnOk, None, Some, get_or, length, map, option_map};
ghost use Rattle.asl_model.specs.WrittenNumbered.{is_listed, list_after, list_after_all, list_after_item, list_after_state, shapes_listed};
ghost use Rattle.asl_numbered.specs.Expansion.{shape_at, numbers_in, AreBelow};
ghost use Rattle.asl_numbered.specs.TakenApart.{kinds_over};
ghost use Rattle.asl_records.specs.Listing.{IsListing, IsOpened, Opens, Puts, array_visits, listed_shapes, object_visits, task_if, visits};
ghost use Rattle.asl_records.specs.declared.listing.Task.TheVariants.{List as Put};
ghost use Rattle.asl_records.specs.Numbered.{AreWithin, AreNumbersBelow, numbered_view, numbers_view};

use crate::records::{NumberedCertificate, StateNumbers};
use crate::version::is_with_several;
use asl_numbered::{NodeArrays, NodeField, NodeKinds, NodeObjects, Shapes};
use asl_tree::OutOfMemory;
use std::alloc::Global;
use std::collections::BTreeMap;
use std::rc::RcStr;

/// What is left to do with a number's shape.
#[derive(Clone, Copy)]
pub(crate) enum Task {
    /// To go through it.
    Visit(usize),
    /// To list it, as its parts are listed.
    List(usize),
}

/// Shapes of a table that are listed, each under its number.
#[derive(Drop)]
pub struct Listing {
    alloc: Global,
    /// The numbers, in order.
    pub(crate) order: Vec<usize>,
    /// Of each number of the table its place among those, where it has one.
    pub(crate) places: Vec<Option<usize>>,
}

impl Listing {
    /// The list of the certificate's shapes: each distinct one of lists, of objects or of several kinds, behind its parts.
    /// Refuses only where an allocation was refused.
    pub fn of(alloc: Global, certificate: &NumberedCertificate) -> Result<Listing, OutOfMemory>
        requires within { AreWithin certificate.now }
        ensures listing { IfOk result (IsListing certificate.now.shapes) }
        ensures listed { IfOk result (λ listing.
            listed_shapes certificate.now.shapes listing
            ≡ shapes_listed (numbered_view certificate.now)) }
    {
        let shapes = &certificate.shapes;
        let mut listing = Listing::new(alloc, shapes)?;
        listing.list(shapes, certificate.output)?;
        for (_, state) in certificate.states.iter() {
            listing.list_state(shapes, state)?;
        }
        Ok(listing)
    }

    /// The list without any shape of the table. Refuses only where an allocation was refused.
    pub fn new(alloc: Global, shapes: &Shapes) -> Result<Listing, OutOfMemory>
        ensures listing { IfOk result (IsListing shapes.now) }
        ensures none { IfOk result (λ listing. listed_shapes shapes.now listing ≡ []) }
    {
        Ok(Listing {
            alloc,
            order: Vec::new(alloc),
            places: vec![in alloc; None; shapes.len()]?,
        })
    }

    /// Lists the shapes of a state.
    fn list_state(&mut self, shapes: &Shapes, state: &StateNumbers) -> Result<(), OutOfMemory>
        requires listing { IsListing shapes.now self.old }
        requires below { AreNumbersBelow (length shapes.now) state.now }
        ensures listing { OnOk result (IsListing shapes.now self.new) }
        ensures listed { OnOk result (listed_shapes shapes.now self.new
            ≡ list_after_state (listed_shapes shapes.now self.old)
            (numbers_view shapes.now state.now)) }
    {
        self.list_all(shapes, &state.branches)?;
        self.list(shapes, state.input)?;
        self.list_item(shapes, state.item)?;
        self.list(shapes, state.output)
    }

    /// Lists the shapes of the branches' ends.
    fn list_all(&mut self, shapes: &Shapes, numbers: &[usize]) -> Result<(), OutOfMemory>
        requires listing { IsListing shapes.now self.old }
        requires below { AreBelow (length shapes.now) numbers.now }
        ensures listing { OnOk result (IsListing shapes.now self.new) }
        ensures listed { OnOk result (listed_shapes shapes.now self.new
            ≡ list_after_all (listed_shapes shapes.now self.old)
            (map (shape_at shapes.now) numbers.now)) }
    {
        for number in numbers {
            self.list(shapes, *number)?;
        }
        Ok(())
    }

    /// Lists the shape of the processor's end, where there is one.
    fn list_item(&mut self, shapes: &Shapes, item: Option<usize>) -> Result<(), OutOfMemory>
        requires listing { IsListing shapes.now self.old }
        requires below { IfSome item (λ n. n < length shapes.now) }
        ensures listing { OnOk result (IsListing shapes.now self.new) }
        ensures listed { OnOk result (listed_shapes shapes.now self.new
            ≡ list_after_item (listed_shapes shapes.now self.old)
            (option_map (shape_at shapes.now) item)) }
    {
        match item {
            Some(number) => self.list(shapes, number),
            None => Ok(()),
        }
    }

    /// Lists the shape of that number, unless it has no parts, and those in it.
    fn list(&mut self, shapes: &Shapes, number: usize) -> Result<(), OutOfMemory>
        requires listing { IsListing shapes.now self.old }
        requires below { number < length shapes.now }
        ensures listing { OnOk result (IsListing shapes.now self.new) }
        ensures listed { OnOk result (listed_shapes shapes.now self.new
            ≡ list_after (listed_shapes shapes.now self.old) (shape_at shapes.now number)) }
    {
        shapes.are_distinct();
        shapes.are_proper();
        let mut tasks = Vec::new(self.alloc);
        tasks.push(Task::Visit(number))?;
        while let Some(task) = tasks.pop() {
            match task {
                Task::Visit(next) => self.visit(shapes, next, &mut tasks)?,
                Task::List(next) => self.put(next)?,
            }
        }
        Ok(())
    }

    /// Puts down what is to be done to go through the shape of that number.
    fn visit(
        &self,
        shapes: &Shapes,
        number: usize,
        tasks: &mut Vec<Task>,
    ) -> Result<(), OutOfMemory>
        requires below { number < length shapes.now }
        requires within { number < length self.now.places.items }
        ensures put { IfOk result (λ _. Opens (get_or self.now.places.items number None)
            shapes.now number tasks.old.items tasks.new.items) }
    {
        match self.places[number] {
            Some(_) => Ok(()),
            None => put_parts(tasks, shapes, number),
        }
    }

    /// Lists the shape of that number itself, unless it is listed.
    fn put(&mut self, number: usize) -> Result<(), OutOfMemory>
        requires within { number < length self.old.places.items }
        ensures put { OnOk result
            (Puts (get_or self.old.places.items number None) number self.old self.new) }
    {
        if self.places[number].is_none() {
            let place = self.order.len();
            self.order.push(number)?;
            self.places[number] = Some(place);
        }
        Ok(())
    }
}

/// Puts down that the shape of that number is to be listed, where it is, and before it its parts: those of its lists, and
/// then those of its objects.
fn put_parts(tasks: &mut Vec<Task>, shapes: &Shapes, number: usize) -> Result<(), OutOfMemory>
    ensures put { IfOk result
        (λ _. IsOpened shapes.now number tasks.old.items tasks.new.items) }
{
    let Some(kinds) = shapes.take_apart(number) else {
        return Ok(());
    };
    put_itself(tasks, shapes, number, &kinds)?;
    put_objects(tasks, kinds.objects)?;
    put_arrays(tasks, kinds.arrays)
}

/// Puts down that the shape of that number, which takes these kinds, is to be listed, where it is.
fn put_itself(
    tasks: &mut Vec<Task>,
    shapes: &Shapes,
    number: usize,
    kinds: &NodeKinds<'_>,
) -> Result<(), OutOfMemory>
    requires shown { kinds_over shapes.now kinds.now ≡ shape_at shapes.now number }
    ensures put { IfOk result
        (λ _. tasks.new.items ≡ tasks.old.items
        ++ task_if (is_listed (shape_at shapes.now number)) (Put number)) }
{
    if is_listed(shapes, number, kinds) {
        tasks.push(Task::List(number))?;
    }
    Ok(())
}

/// Whether the shape of that number is listed: where it takes lists or objects, or is of several kinds.
fn is_listed(shapes: &Shapes, number: usize, kinds: &NodeKinds<'_>) -> bool
    requires shown { kinds_over shapes.now kinds.now ≡ shape_at shapes.now number }
    ensures { result ≡ is_listed (shape_at shapes.now number) }
{
    kinds.arrays.is_some() || kinds.objects.is_some() || is_with_several(shapes, number)
}

/// Puts down the walks through the parts of lists, so that the first element's comes first.
fn put_arrays(tasks: &mut Vec<Task>, arrays: Option<NodeArrays<'_>>) -> Result<(), OutOfMemory>
    ensures put { IfOk result
        (λ _. tasks.new.items ≡ tasks.old.items ++ array_visits arrays.entry) }
{
    match arrays {
        Some(NodeArrays { first, rest, .. }) => {
            tasks.push(Task::Visit(rest))?;
            put_places(tasks, first)
        }
        None => Ok(()),
    }
}

/// Puts down the walks through the parts of objects, so that the first field's comes first.
fn put_objects(tasks: &mut Vec<Task>, objects: Option<NodeObjects<'_>>) -> Result<(), OutOfMemory>
    ensures put { IfOk result
        (λ _. tasks.new.items ≡ tasks.old.items ++ object_visits objects.entry) }
{
    match objects {
        Some(NodeObjects { fields, .. }) => put_fields(tasks, fields),
        None => Ok(()),
    }
}

/// Puts down the walks through the first elements' shapes, so that the first comes first.
fn put_places(tasks: &mut Vec<Task>, places: &[usize]) -> Result<(), OutOfMemory>
    ensures put { IfOk result (λ _. tasks.new.items ≡ tasks.old.items ++ visits places.now) }
{
    for place in places.iter().rev() {
        tasks.push(Task::Visit(*place))?;
    }
    Ok(())
}

/// Puts down the walks through the fields' shapes, so that the first comes first.
fn put_fields(tasks: &mut Vec<Task>, fields: &BTreeMap<RcStr, NodeField>) -> Result<(), OutOfMemory>
    ensures put { IfOk result
        (λ _. tasks.new.items ≡ tasks.old.items ++ visits (numbers_in fields.now.entries)) }
{
    for (_, field) in fields.iter().rev() {
        tasks.push(Task::Visit(field.shape))?;
    }
    Ok(())
}
