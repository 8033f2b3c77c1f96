// Whether one shape of a table is inside another.
//
// A shape is inside another exactly where, of all pairs of parts that these two lead to, each agrees in what isn't a
// part. So the pairs are gone through one by one, from a list of those that are still open, and no call goes from a shape
// to its parts.
ghost use Rattle.asl_model.specs.Shape as shape;
ghost use Rattle.asl_model.specs.ShapeOrder as model;
ghost use Rattle.asl_numbered.specs.Comparison.{inside, array_parts, object_parts, place_tasks, field_tasks, mentions_fit_in, objects_fit_in, IsWithin, AreRight, AreOutside, RestsOn, PartsRestOn};
ghost use Rattle.asl_numbered.specs.Expansion.{shape_at, fields_at};
ghost use Rattle.asl_numbered.specs.TakenApart.{simple_of, arrays_over, objects_over, kinds_over, AreArraysIfAny, AreObjectsIfAny, AreKindsAt};
ghost use Rattle.std.specs.Prelude.{◌≡◌, ◌++◌, List, IfSome, IfOk};

use crate::kinds::{NodeArrays, NodeKinds, NodeObjects, take_apart};
use crate::node::NodeField;
use crate::pair::Pair;
use crate::table::Table;
use asl_model::shape_laws::sub_is_exactly_inside;
use asl_tree::OutOfMemory;
use indexmap::IndexMap;
use std::alloc::Global;
use std::collections::BTreeMap;
use std::rc::RcStr;

/// For pairs of numbers, whether the first's shape is inside the second's.
pub(crate) type Compared = IndexMap<Pair, bool>;

/// What is left to do.
#[derive(Clone, Copy)]
pub(crate) enum Task {
    /// To find out whether the first shape is inside the second.
    Compare(Pair),
    /// To remember that the first shape is inside the second, as it is once all pairs that are compared after this
    /// task was put down are found to be so.
    Conclude(Pair),
}

/// Whether the first shape of the pair is inside the second: as before, where that is remembered; else it is found out
/// and remembered, and so it is for the pairs of parts that had to be compared.
pub(crate) fn compare(
    table: &Table,
    compared: &mut Compared,
    alloc: Global,
    pair: Pair,
) -> Result<bool, OutOfMemory>
    requires right { AreRight table.now compared.old.entries }
    requires within { IsWithin table.now pair }
    ensures as_defined { IfOk result (λ b. b ≡ inside table.now pair) }
    ensures right { AreRight table.now compared.new.entries }
{
    let mut tasks = Vec::new(alloc);
    tasks.push(Task::Compare(pair))?;
    while let Some(task) = tasks.pop() {
        match task {
            Task::Compare(next) => {
                if !look(table, compared, next, &mut tasks)? {
                    refuse(compared, &tasks)?;
                    return Ok(false);
                }
            }
            Task::Conclude(next) => remember(compared, next, true)?,
        }
    }
    Ok(true)
}

// Remembers of each pair that was to be concluded that its first shape isn't inside its second.
fn refuse(compared: &mut Compared, tasks: &[Task]) -> Result<(), OutOfMemory>
    ensures right { (table : List shape.Shape) → AreOutside table tasks.now
        → AreRight table compared.old.entries → AreRight table compared.new.entries }
{
    for task in tasks {
        match task {
            Task::Compare(_) => {}
            Task::Conclude(pair) => remember(compared, *pair, false)?,
        }
    }
    Ok(())
}

// Remembers the answer for the pair.
fn remember(compared: &mut Compared, pair: Pair, answer: bool) -> Result<(), OutOfMemory>
    ensures right { (table : List shape.Shape) → IsWithin table pair → answer ≡ inside table pair
        → AreRight table compared.old.entries → AreRight table compared.new.entries }
{
    drop(compared.insert(pair, answer)?);
    Ok(())
}

// The answer that is remembered for the pair.
fn known(compared: &Compared, pair: Pair) -> Option<bool>
    ensures right { (table : List shape.Shape) → AreRight table compared.now.entries
        → IfSome result (λ b. b ≡ inside table pair) }
{
    match compared.get(&pair) {
        Some(answer) => Some(*answer),
        None => None,
    }
}

// Looks at one pair, which is inside at once where it is of one shape. False says that its first shape isn't inside its
// second; otherwise it is where all pairs are that are put behind the tasks.
fn look(
    table: &Table,
    compared: &Compared,
    pair: Pair,
    tasks: &mut Vec<Task>,
) -> Result<bool, OutOfMemory>
    requires right { AreRight table.now compared.now.entries }
    requires within { IsWithin table.now pair }
    ensures rests { IfOk result (λ b. RestsOn table.now pair b tasks.old.items tasks.new.items) }
{
    if pair.first == pair.second {
        sub_is_exactly_inside();
        table.are_proper();
        return Ok(true);
    }
    if let Some(answer) = known(compared, pair) {
        return Ok(answer);
    }
    match take_apart(table, pair.second) {
        None => Ok(true),
        Some(outer) => match take_apart(table, pair.first) {
            None => Ok(table.takes_all(pair.second)),
            Some(inner) => look_inside(table, pair, inner, outer, tasks),
        },
    }
}

// The same kind by kind, where neither is `Any` and nothing is remembered.
fn look_inside(
    table: &Table,
    pair: Pair,
    inner: NodeKinds<'_>,
    outer: NodeKinds<'_>,
    tasks: &mut Vec<Task>,
) -> Result<bool, OutOfMemory>
    requires within { IsWithin table.now pair }
    requires first { kinds_over table.now inner ≡ shape_at table.now pair.first }
    requires second { kinds_over table.now outer ≡ shape_at table.now pair.second }
    requires inner { AreKindsAt table.now pair.first inner }
    requires outer { AreKindsAt table.now pair.second outer }
    ensures rests { IfOk result (λ b. RestsOn table.now pair b tasks.old.items tasks.new.items) }
{
    if !are_simple_inside(inner, outer) {
        return Ok(false);
    }
    tasks.push(Task::Conclude(pair))?;
    if !look_at_arrays(table, pair, inner.arrays, outer.arrays, tasks)? {
        return Ok(false);
    }
    look_at_objects(table, pair, inner.objects, outer.objects, tasks)
}

// Whether the simple kinds of the first are among those of the second.
fn are_simple_inside(inner: NodeKinds<'_>, outer: NodeKinds<'_>) -> bool
    ensures { result ≡ model.simple_sub (simple_of inner.entry) (simple_of outer.entry) }
{
    (!inner.null || outer.null)
        && (!inner.boolean || outer.boolean)
        && (!inner.integer || outer.integer)
        && (!inner.text || outer.text)
}

// Looks at the lists of a pair, as at the pair.
fn look_at_arrays(
    table: &Table,
    pair: Pair,
    inner: Option<NodeArrays<'_>>,
    outer: Option<NodeArrays<'_>>,
    tasks: &mut Vec<Task>,
) -> Result<bool, OutOfMemory>
    requires within { IsWithin table.now pair }
    requires inner { AreArraysIfAny table.now pair.first inner }
    requires outer { AreArraysIfAny table.now pair.second outer }
    ensures rests { IfOk result (λ b. PartsRestOn table.now pair.first
        (array_parts (arrays_over table.now inner.entry))
        (model.arrays_sub (arrays_over table.now inner.entry)
        (arrays_over table.now outer.entry))
        b tasks.old.items tasks.new.items) }
{
    let Some(inner) = inner else {
        return Ok(true);
    };
    if !table.is_inhabited(inner.number) {
        return Ok(true);
    }
    let Some(outer) = outer else {
        return Ok(false);
    };
    if inner.first.len() < outer.first.len() {
        return Ok(false);
    }
    put_places(inner.first, outer.first, outer.rest, tasks)?;
    tasks.push(Task::Compare(Pair {
        first: inner.rest,
        second: outer.rest,
    }))?;
    Ok(true)
}

// Puts down the places, each to be compared with the bound that stands there or, behind the bounds, with `rest`.
fn put_places(
    places: &[usize],
    bounds: &[usize],
    rest: usize,
    tasks: &mut Vec<Task>,
) -> Result<(), OutOfMemory>
    ensures put { IfOk result
        (λ _. tasks.new.items ≡ tasks.old.items ++ place_tasks places.now bounds.now rest) }
{
    let mut left = bounds.iter();
    for place in places {
        let bound = left.next().unwrap_or(&rest);
        tasks.push(Task::Compare(Pair {
            first: *place,
            second: *bound,
        }))?;
    }
    Ok(())
}

// Looks at the objects of a pair, as at the pair.
fn look_at_objects(
    table: &Table,
    pair: Pair,
    inner: Option<NodeObjects<'_>>,
    outer: Option<NodeObjects<'_>>,
    tasks: &mut Vec<Task>,
) -> Result<bool, OutOfMemory>
    requires within { IsWithin table.now pair }
    requires inner { AreObjectsIfAny table.now pair.first inner }
    requires outer { AreObjectsIfAny table.now pair.second outer }
    ensures rests { IfOk result (λ b. PartsRestOn table.now pair.first
        (object_parts (objects_over table.now outer.entry))
        (model.objects_sub (objects_over table.now inner.entry)
        (objects_over table.now outer.entry))
        b tasks.old.items tasks.new.items) }
{
    let Some(inner) = inner else {
        return Ok(true);
    };
    if !table.is_inhabited(inner.number) {
        return Ok(true);
    }
    let Some(outer) = outer else {
        return Ok(false);
    };
    if !objects_fit(table, inner, outer) {
        return Ok(false);
    }
    put_fields(inner.fields, outer.fields, tasks)?;
    Ok(true)
}

// Whether the inner objects are among the outer ones, where the shapes of the fields are that both mention.
fn objects_fit(table: &Table, inner: NodeObjects<'_>, outer: NodeObjects<'_>) -> bool
    ensures { result ≡ objects_fit_in table.now inner.entry outer.entry }
{
    (outer.extra || (!inner.extra && others_never_there(table, outer.fields, inner.fields)))
        && mentions_fit(table, inner.fields, inner.extra, outer.fields)
}

// Puts down the fields that both objects mention, to be compared.
fn put_fields(
    inner: &BTreeMap<RcStr, NodeField>,
    outer: &BTreeMap<RcStr, NodeField>,
    tasks: &mut Vec<Task>,
) -> Result<(), OutOfMemory>
    ensures put { IfOk result
        (λ _. tasks.new.items ≡ tasks.old.items
        ++ field_tasks inner.now.entries outer.now.entries) }
{
    for (name, field) in outer.iter() {
        if let Some(other) = inner.get(name) {
            tasks.push(Task::Compare(Pair {
                first: other.shape,
                second: field.shape,
            }))?;
        }
    }
    Ok(())
}

// Whether each field of the outer object fits what the inner one says of that field, but for its shape where both
// mention it; `more` says whether the inner one has fields that it doesn't mention.
fn mentions_fit(
    table: &Table,
    inner: &BTreeMap<RcStr, NodeField>,
    more: bool,
    outer: &BTreeMap<RcStr, NodeField>,
) -> bool
    ensures { result ≡ mentions_fit_in table.now inner.now.entries more outer.now.entries }
{
    for (name, field) in outer.iter() {
        let fits = match inner.get(name) {
            Some(other) => !field.needed || other.needed,
            None => !field.needed && (!more || table.takes_all(field.shape)),
        };
        if !fits {
            return false;
        }
    }
    true
}

// Whether no field that the inner object alone mentions can be there.
#[tactic(auto, using(crate::proofs::Comparisons::mentions_number))]
fn others_never_there(
    table: &Table,
    outer: &BTreeMap<RcStr, NodeField>,
    inner: &BTreeMap<RcStr, NodeField>,
) -> bool
    ensures { result
        ≡ model.others_never_there
        (fields_at table.now outer.now.entries)
        (fields_at table.now inner.now.entries) }
{
    for (name, field) in inner.iter() {
        if !outer.contains_key(name) && table.is_inhabited(field.shape) {
            return false;
        }
    }
    true
}
