// The join of two shapes of a table.
//
// Where no tree has one of the two, it is the other; where one is `Any`, it is `Any`. Else it takes what either takes,
// kind by kind, where a shape's lists are left out if there are none such, and so are its objects: the join of a shape
// with itself may be another shape. Where nothing in a shape is left out so, it is that shape, which is told at once.
// Lists that one alone takes, and objects, stand as they are; those of both are made of the joins of their parts.
//
// The parts are gone through one by one, from a list of what is still to be done, and the numbers that are found stand
// in a second list, so that no call goes from a shape to its parts.
ghost use Rattle.asl_model.specs.Shape as shape;
ghost use Rattle.asl_model.specs.ShapeOrder as order;
ghost use Rattle.asl_numbered.specs.declared.joining.JoinTask.TheVariants.{Join, Finish};
ghost use Rattle.asl_numbered.specs.declared.joining.Part.TheVariants.{Level};
ghost use Rattle.asl_numbered.specs.Comparison.{IsWithin};
ghost use Rattle.asl_numbered.specs.Expansion.{shape_at, AreBelow, Keeps, Shows};
ghost use Rattle.asl_numbered.specs.Joins.{joint, kept, AreJoins, AreInhabited, IsTaskWithin, IsFed, Moves, AreArraysWithin, AreObjectsWithin, AreKindsWithin, AreKindsOf, AreMadeOf, IsPartWithin, IsPutPart, AreJoined, IsArrayJoin, IsObjectJoin, AreJoinedFields, AreWithOthers, IsListOf, array_joins, step_of, found_in, place_joinings, joinings_with, list_joinings, array_joinings, object_joinings, field_joinings};
ghost use Rattle.asl_numbered.specs.TakenApart.{arrays_over, objects_over, taken_apart, AreKindsAt};
ghost use Rattle.std.specs.Prelude.{◌≡◌, ◌<◌, ◌++◌, List, None, Some, IfSome, IfOk, drop, false, length};

use crate::kinds::{KindNumbers, NodeArrays, NodeKinds, NodeObjects, put_kinds, take_apart};
use crate::node::{Node, NodeField};
use crate::pair::Pair;
use crate::table::Table;
use asl_tree::OutOfMemory;
use indexmap::IndexMap;
use std::alloc::Global;
use std::collections::BTreeMap;
use std::rc::RcStr;

/// For pairs of numbers, the number of the join of their shapes.
pub(crate) type Joined = IndexMap<Pair, usize>;

/// What is left to do.
#[derive(Clone, Copy)]
pub(crate) enum JoinTask {
    /// To put the number of the join of the two shapes behind the numbers.
    Join(Pair),
    /// To put the number of `Never` there.
    Nothing,
    /// To replace the last number by that of the join of its shape with this one.
    With(usize),
    /// To replace all numbers from that index on, which are those of the joins of the parts, of lists first, by the
    /// number of the join of the two shapes.
    Finish { pair: Pair, start: usize },
}

// What is left to do, the next task last, and the numbers that were found.
#[derive(Drop)]
struct Work {
    alloc: Global,
    tasks: Vec<JoinTask>,
    numbers: Vec<usize>,
}

// The lists of a join, or its objects.
#[derive(Drop)]
enum Part {
    // Those of the shape of that number.
    Number(usize),
    // Those of the shape with that first level, which may have no number.
    Level(Node),
}

// A join, kind by kind.
#[derive(Drop)]
struct JoinedKinds {
    null: bool,
    boolean: bool,
    integer: bool,
    text: bool,
    arrays: Option<Part>,
    objects: Option<Part>,
}

/// The number of the join of the two shapes of the pair: as before, where that is remembered; else it is found out and
/// remembered, and so it is for the pairs of parts that had to be joined.
#[tactic(auto, using(crate::proofs::Expansions::keeps_unchanged))]
pub(crate) fn join(
    table: &mut Table,
    joined: &mut Joined,
    alloc: Global,
    pair: Pair,
) -> Result<usize, OutOfMemory>
    requires right { AreJoins table.old joined.old.entries }
    requires within { IsWithin table.old pair }
    ensures number { IfOk result (Shows table.new (joint table.old pair)) }
    ensures keeps { Keeps table.old table.new }
    ensures right { AreJoins table.new joined.new.entries }
{
    match known(table, joined, pair) {
        Some(number) => Ok(number),
        None => find_join(table, joined, alloc, pair),
    }
}

// The same, where it is looked for part by part.
fn find_join(
    table: &mut Table,
    joined: &mut Joined,
    alloc: Global,
    pair: Pair,
) -> Result<usize, OutOfMemory>
    requires right { AreJoins table.old joined.old.entries }
    requires within { IsWithin table.old pair }
    ensures number { IfOk result (Shows table.new (joint table.old pair)) }
    ensures keeps { Keeps table.old table.new }
    ensures right { AreJoins table.new joined.new.entries }
{
    let mut work = Work {
        alloc,
        tasks: Vec::new(alloc),
        numbers: Vec::new(alloc),
    };
    work.tasks.push(JoinTask::Join(pair))?;
    while let Some(task) = work.tasks.pop() {
        perform(table, joined, &mut work, task)?;
    }
    Ok(work.numbers.pop().unwrap_or(pair.first))
}

// Does one task, which may put down others.
fn perform(
    table: &mut Table,
    joined: &mut Joined,
    work: &mut Work,
    task: JoinTask,
) -> Result<(), OutOfMemory>
    requires right { AreJoins table.old joined.old.entries }
    requires within { IsTaskWithin table.old task }
    requires below { AreBelow (length table.old) work.old.numbers.items }
    requires fed { IsFed (step_of table.old task) (found_in table.old work.old.numbers.items) }
    ensures moves { IfOk result
        (λ _. Moves table.old table.new task
        work.old.tasks.items work.new.tasks.items work.old.numbers.items work.new.numbers.items) }
    ensures keeps { Keeps table.old table.new }
    ensures right { AreJoins table.new joined.new.entries }
{
    match task {
        JoinTask::Join(pair) => look(table, joined, work, pair),
        JoinTask::Nothing => {
            let never = table.put(Node::Never)?;
            work.numbers.push(never)?;
            Ok(())
        }
        JoinTask::With(number) => {
            if let Some(last) = work.numbers.pop() {
                work.tasks.push(JoinTask::Join(Pair {
                    first: last,
                    second: number,
                }))?;
            }
            Ok(())
        }
        JoinTask::Finish { pair, start } => finish(table, joined, work, pair, start),
    }
}

// Puts the number of the join of the two shapes behind the numbers, or what leads to it behind the tasks.
fn look(table: &Table, joined: &Joined, work: &mut Work, pair: Pair) -> Result<(), OutOfMemory>
    requires right { AreJoins table.now joined.now.entries }
    requires within { IsWithin table.now pair }
    requires below { AreBelow (length table.now) work.old.numbers.items }
    ensures moves { IfOk result
        (λ _. Moves table.now table.now (Join pair)
        work.old.tasks.items work.new.tasks.items work.old.numbers.items work.new.numbers.items) }
{
    match known(table, joined, pair) {
        Some(number) => {
            work.numbers.push(number)?;
            Ok(())
        }
        None => look_inside(table, work, pair),
    }
}

// The number of the join, where one of the shapes isn't inhabited, where both are one of which nothing is left out, or
// where it is remembered.
fn known(table: &Table, joined: &Joined, pair: Pair) -> Option<usize>
    requires right { AreJoins table.now joined.now.entries }
    requires within { IsWithin table.now pair }
    ensures number { IfSome result (Shows table.now (joint table.now pair)) }
    ensures inhabited { result ≡ None → AreInhabited table.now pair }
{
    if !table.is_inhabited(pair.first) {
        return Some(pair.second);
    }
    if !table.is_inhabited(pair.second) {
        return Some(pair.first);
    }
    if pair.first == pair.second && table.is_tidy(pair.second) {
        table.are_proper();
        return Some(pair.second);
    }
    match joined.get(&pair) {
        Some(number) => Some(*number),
        None => None,
    }
}

// Puts down the task that finishes the join of two shapes that are inhabited, and behind it the joins of their parts.
fn look_inside(table: &Table, work: &mut Work, pair: Pair) -> Result<(), OutOfMemory>
    requires within { IsWithin table.now pair }
    requires inhabited { AreInhabited table.now pair }
    requires below { AreBelow (length table.now) work.old.numbers.items }
    ensures moves { IfOk result
        (λ _. Moves table.now table.now (Join pair)
        work.old.tasks.items work.new.tasks.items work.old.numbers.items work.new.numbers.items) }
{
    let start = work.numbers.len();
    work.tasks.push(JoinTask::Finish { pair, start })?;
    match kinds_of_both(table, pair) {
        None => Ok(()),
        Some((first, second)) => {
            put_objects(&mut work.tasks, first.objects, second.objects)?;
            put_arrays(&mut work.tasks, first.arrays, second.arrays)?;
            Ok(())
        }
    }
}

// What each of the two shapes takes of each kind, without lists or objects where there are none such;
// none where one is `Any`.
fn kinds_of_both<'t>(table: &'t Table, pair: Pair) -> Option<(NodeKinds<'t>, NodeKinds<'t>)>
    requires within { IsWithin table.now pair }
    ensures both { AreKindsOf table.now pair result }
{
    let first = kept_kinds(table, pair.first)?;
    let second = kept_kinds(table, pair.second)?;
    Some((first, second))
}

/// What the shape takes of each kind, without lists or objects where there are none such; none where it is `Any`.
pub(crate) fn kept_kinds(table: &Table, number: usize) -> Option<NodeKinds<'_>>
    requires within { number < length table.now }
    ensures kept { taken_apart table.now result ≡ kept (shape_at table.now number) }
    ensures within { IfSome result (AreKindsWithin table.now) }
    ensures below { IfSome result (AreKindsAt table.now number) }
{
    let kinds = take_apart(table, number)?;
    Some(NodeKinds {
        arrays: kept_arrays(table, kinds.arrays),
        objects: kept_objects(table, kinds.objects),
        ..kinds
    })
}

// The lists, if there are any such.
fn kept_arrays<'t>(table: &Table, arrays: Option<NodeArrays<'t>>) -> Option<NodeArrays<'t>>
    requires within { AreArraysWithin table.now arrays }
    ensures kept { arrays_over table.now result
        ≡ order.kept_arrays (arrays_over table.now arrays.entry) }
    ensures within { AreArraysWithin table.now result }
    ensures same { IfSome result (λ lists. arrays.entry ≡ Some lists) }
{
    match arrays {
        Some(lists) if table.is_inhabited(lists.number) => Some(lists),
        _ => None,
    }
}

// The objects, if there are any such.
fn kept_objects<'t>(table: &Table, objects: Option<NodeObjects<'t>>) -> Option<NodeObjects<'t>>
    requires within { AreObjectsWithin table.now objects }
    ensures kept { objects_over table.now result
        ≡ order.kept_objects (objects_over table.now objects.entry) }
    ensures within { AreObjectsWithin table.now result }
    ensures same { IfSome result (λ mentions. objects.entry ≡ Some mentions) }
{
    match objects {
        Some(mentions) if table.is_inhabited(mentions.number) => Some(mentions),
        _ => None,
    }
}

// Puts down the joins of the parts of the lists, where both shapes take some.
fn put_arrays(
    tasks: &mut Vec<JoinTask>,
    first: Option<NodeArrays<'_>>,
    second: Option<NodeArrays<'_>>,
) -> Result<(), OutOfMemory>
    ensures put { IfOk result
        (λ _. tasks.new.items ≡ tasks.old.items ++ array_joinings first.entry second.entry) }
{
    match first {
        None => Ok(()),
        Some(arrays) => match second {
            None => Ok(()),
            Some(others) => put_lists(tasks, arrays, others),
        },
    }
}

// Puts down the joins of the parts of the lists of both shapes.
fn put_lists(
    tasks: &mut Vec<JoinTask>,
    arrays: NodeArrays<'_>,
    others: NodeArrays<'_>,
) -> Result<(), OutOfMemory>
    ensures put { IfOk result
        (λ _. tasks.new.items ≡ tasks.old.items
        ++ list_joinings arrays.entry.first.now arrays.entry.rest
        others.entry.first.now others.entry.rest) }
{
    put_places(tasks, arrays.first, others.first)?;
    tasks.push(JoinTask::With(others.rest))?;
    tasks.push(JoinTask::With(arrays.rest))?;
    put_behind(tasks, arrays.first, others.first.len())?;
    put_behind(tasks, others.first, arrays.first.len())?;
    tasks.push(JoinTask::Nothing)?;
    Ok(())
}

// Puts down the joins place by place, as far as both go, so that the first comes first.
fn put_places(
    tasks: &mut Vec<JoinTask>,
    places: &[usize],
    others: &[usize],
) -> Result<(), OutOfMemory>
    ensures put { IfOk result
        (λ _. tasks.new.items ≡ tasks.old.items ++ place_joinings places.now others.now) }
{
    let mut index = places.len().min(others.len());
    while index > 0 {
        index -= 1;
        tasks.push(JoinTask::Join(Pair {
            first: places[index],
            second: others[index],
        }))?;
    }
    Ok(())
}

// Puts down the joins with the places from that index on, so that the first comes first.
fn put_behind(tasks: &mut Vec<JoinTask>, places: &[usize], start: usize) -> Result<(), OutOfMemory>
    ensures put { IfOk result
        (λ _. tasks.new.items ≡ tasks.old.items ++ joinings_with (drop start places.now)) }
{
    let mut index = places.len();
    while index > start {
        index -= 1;
        tasks.push(JoinTask::With(places[index]))?;
    }
    Ok(())
}

// Puts down the joins of the fields that both mention, where both shapes take objects.
fn put_objects(
    tasks: &mut Vec<JoinTask>,
    first: Option<NodeObjects<'_>>,
    second: Option<NodeObjects<'_>>,
) -> Result<(), OutOfMemory>
    ensures put { IfOk result
        (λ _. tasks.new.items ≡ tasks.old.items ++ object_joinings first.entry second.entry) }
{
    match first {
        None => Ok(()),
        Some(objects) => match second {
            None => Ok(()),
            Some(others) => put_fields(tasks, objects.fields, others.fields),
        },
    }
}

// Puts down the joins of the fields that both objects mention, so that the first comes first.
fn put_fields(
    tasks: &mut Vec<JoinTask>,
    fields: &BTreeMap<RcStr, NodeField>,
    others: &BTreeMap<RcStr, NodeField>,
) -> Result<(), OutOfMemory>
    ensures put { IfOk result
        (λ _. tasks.new.items
        ≡ tasks.old.items ++ field_joinings fields.now.entries others.now.entries) }
{
    for (name, field) in fields.iter().rev() {
        if let Some(other) = others.get(name) {
            tasks.push(JoinTask::Join(Pair {
                first: field.shape,
                second: other.shape,
            }))?;
        }
    }
    Ok(())
}

// Makes the join of the two shapes of the joins of their parts, and remembers its number.
fn finish(
    table: &mut Table,
    joined: &mut Joined,
    work: &mut Work,
    pair: Pair,
    start: usize,
) -> Result<(), OutOfMemory>
    requires right { AreJoins table.old joined.old.entries }
    requires within { IsWithin table.old pair }
    requires below { AreBelow (length table.old) work.old.numbers.items }
    requires fed { IsFed (step_of table.old (Finish pair start))
        (found_in table.old work.old.numbers.items) }
    ensures moves { IfOk result
        (λ _. Moves table.old table.new (Finish pair start)
        work.old.tasks.items work.new.tasks.items work.old.numbers.items work.new.numbers.items) }
    ensures keeps { Keeps table.old table.new }
    ensures right { AreJoins table.new joined.new.entries }
{
    let parts = &work.numbers[start..];
    let number = assemble(table, work.alloc, pair, parts)?;
    remember(joined, pair, number)?;
    work.numbers.truncate(start);
    work.numbers.push(number)?;
    Ok(())
}

// Remembers the number for the pair.
fn remember(joined: &mut Joined, pair: Pair, number: usize) -> Result<(), OutOfMemory>
    ensures right { (table : List shape.Shape)
        → IsWithin table pair
        → Shows table (joint table pair) number
        → AreJoins table joined.old.entries
        → AreJoins table joined.new.entries }
{
    drop(joined.insert(pair, number)?);
    Ok(())
}

// The number of the join of two shapes that are inhabited, made of the joins of their parts.
fn assemble(
    table: &mut Table,
    alloc: Global,
    pair: Pair,
    parts: &[usize],
) -> Result<usize, OutOfMemory>
    requires parts { AreMadeOf table.old pair parts.now }
    ensures number { IfOk result (Shows table.new (joint table.old pair)) }
    ensures keeps { Keeps table.old table.new }
{
    match join_kinds(table, alloc, pair, parts)? {
        None => table.put(Node::Any),
        Some(kinds) => {
            let numbers = KindNumbers {
                null: kinds.null,
                boolean: kinds.boolean,
                integer: kinds.integer,
                text: kinds.text,
                arrays: put_part(table, kinds.arrays)?,
                objects: put_part(table, kinds.objects)?,
            };
            put_kinds(table, alloc, numbers)
        }
    }
}

// The number of the part, where there is one.
fn put_part(table: &mut Table, part: Option<Part>) -> Result<Option<usize>, OutOfMemory>
    requires within { IfSome part (IsPartWithin table.old) }
    ensures number { IfOk result (IsPutPart table.old table.new part) }
    ensures keeps { Keeps table.old table.new }
{
    match part {
        None => Ok(None),
        Some(Part::Number(number)) => Ok(Some(number)),
        Some(Part::Level(node)) => Ok(Some(table.put(node)?)),
    }
}

// The join of two shapes that are inhabited, kind by kind, made of the joins of their parts; none where it is `Any`.
fn join_kinds(
    table: &Table,
    alloc: Global,
    pair: Pair,
    parts: &[usize],
) -> Result<Option<JoinedKinds>, OutOfMemory>
    requires parts { AreMadeOf table.now pair parts.now }
    ensures kinds { IfOk result (λ r. AreJoined table.now r (joint table.now pair)) }
{
    match kinds_of_both(table, pair) {
        None => Ok(None),
        Some((first, second)) => {
            let (of_arrays, of_objects) = parts.split_at(count_array_joins(
                first.arrays,
                second.arrays,
            ));
            Ok(Some(JoinedKinds {
                null: first.null | second.null,
                boolean: first.boolean | second.boolean,
                integer: first.integer | second.integer,
                text: first.text | second.text,
                arrays: join_arrays(alloc, first.arrays, second.arrays, of_arrays)?,
                objects: join_objects(alloc, first.objects, second.objects, of_objects)?,
            }))
        }
    }
}

// How many of the joins of parts are those of lists: where both shapes take some, one for each place that both have, and
// one for the further elements.
fn count_array_joins(first: Option<NodeArrays<'_>>, second: Option<NodeArrays<'_>>) -> usize
    ensures counted { (table : List shape.Shape) → result
        ≡ length (array_joins (arrays_over table first.entry) (arrays_over table second.entry)) }
{
    match first {
        None => 0,
        Some(arrays) => match second {
            None => 0,
            Some(others) => 1 + arrays.first.len().min(others.first.len()),
        },
    }
}

// The lists of the join: those of the shape that takes some; of both made of the joins of their parts.
fn join_arrays(
    alloc: Global,
    first: Option<NodeArrays<'_>>,
    second: Option<NodeArrays<'_>>,
    parts: &[usize],
) -> Result<Option<Part>, OutOfMemory>
    ensures joined { IfOk result (IsArrayJoin first.entry second.entry parts.now) }
{
    match first {
        None => match second {
            None => Ok(None),
            Some(arrays) => Ok(Some(Part::Number(arrays.number))),
        },
        Some(arrays) => match second {
            None => Ok(Some(Part::Number(arrays.number))),
            Some(_) => Ok(Some(Part::Level(join_lists(alloc, parts)?))),
        },
    }
}

// The first level of lists: the first part is that of the further elements, and the others are those of the places.
fn join_lists(alloc: Global, parts: &[usize]) -> Result<Node, OutOfMemory>
    ensures list { IfOk result (IsListOf parts.now) }
{
    match parts.split_first() {
        None => Ok(Node::Any),
        Some((rest, places)) => {
            let mut first = Vec::new(alloc);
            first.extend_from_slice(places)?;
            Ok(Node::List { first, rest: *rest })
        }
    }
}

// The objects of the join: those of the shape that takes some; of both made of the joins of their parts.
fn join_objects(
    alloc: Global,
    first: Option<NodeObjects<'_>>,
    second: Option<NodeObjects<'_>>,
    parts: &[usize],
) -> Result<Option<Part>, OutOfMemory>
    ensures joined { IfOk result (IsObjectJoin first.entry second.entry parts.now) }
{
    match first {
        None => match second {
            None => Ok(None),
            Some(objects) => Ok(Some(Part::Number(objects.number))),
        },
        Some(objects) => match second {
            None => Ok(Some(Part::Number(objects.number))),
            Some(others) => Ok(Some(Part::Level(join_both_objects(
                alloc, objects, others, parts,
            )?))),
        },
    }
}

// The first level of the objects of the join, where both shapes take some.
fn join_both_objects(
    alloc: Global,
    objects: NodeObjects<'_>,
    others: NodeObjects<'_>,
    parts: &[usize],
) -> Result<Node, OutOfMemory>
    ensures joined { IfOk result
        (λ node. IsObjectJoin (Some objects.entry) (Some others.entry) parts.now
        (Some (Level node))) }
{
    let mut joined = join_fields(alloc, objects.fields, others.fields, others.extra, parts)?;
    add_others(objects.fields, objects.extra, others.fields, &mut joined)?;
    Ok(Node::Object {
        fields: joined,
        extra: objects.extra | others.extra,
    })
}

// The first object's fields, joined with the second's, where `more` says whether the second may have fields that it
// doesn't mention, and `parts` are the joins of those that both mention.
fn join_fields(
    alloc: Global,
    fields: &BTreeMap<RcStr, NodeField>,
    others: &BTreeMap<RcStr, NodeField>,
    more: bool,
    parts: &[usize],
) -> Result<BTreeMap<RcStr, NodeField>, OutOfMemory>
    ensures joined { IfOk result
        (λ map. AreJoinedFields fields.now.entries others.now.entries more parts.now map.entries) }
{
    let mut joined = BTreeMap::new(alloc);
    let mut left = parts.iter();
    for (name, field) in fields.iter() {
        match others.get(name) {
            Some(other) => {
                let key = name.clone()?;
                let both = NodeField {
                    needed: field.needed && other.needed,
                    shape: *left.next().unwrap_or(&field.shape),
                };
                drop(joined.insert(key, both)?);
            }
            None if more => {}
            None => {
                let key = name.clone()?;
                drop(joined.insert(key, optional(field))?);
            }
        }
    }
    Ok(joined)
}

// Adds the second object's fields that the first doesn't mention, the last one first, as optional ones, unless `extra`
// says that the first may have fields that it doesn't mention.
fn add_others(
    fields: &BTreeMap<RcStr, NodeField>,
    extra: bool,
    others: &BTreeMap<RcStr, NodeField>,
    joined: &mut BTreeMap<RcStr, NodeField>,
) -> Result<(), OutOfMemory>
    ensures added { IfOk result
        (λ _. AreWithOthers fields.now.entries extra others.now.entries joined.old.entries
        joined.new.entries) }
{
    for (name, other) in others.iter().rev() {
        if !extra && !fields.contains_key(name) {
            let key = name.clone()?;
            drop(joined.insert(key, optional(other))?);
        }
    }
    Ok(())
}

// The field, as one that doesn't have to be there.
fn optional(field: &NodeField) -> NodeField
    ensures needed { result.needed ≡ false }
    ensures same { result.shape ≡ field.now.shape }
{
    NodeField {
        needed: false,
        shape: field.shape,
    }
}
