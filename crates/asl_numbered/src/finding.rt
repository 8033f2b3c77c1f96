// Where a tree of one shape lacks another.
//
// Two shapes are gone through side by side, from the outermost level down to where a tree of the first lacks the second by
// that level alone. At each level the comparison, which is remembered, tells which two parts to go down to, so that no two
// are searched that aren't gone through.
ghost use Rattle.std.specs.Prelude.{◌≡◌, ◌<◌, ◌≤◌, ℕ, List, [], Some, IfOk, IfSome, length, option_map};
ghost use Rattle.asl_model.specs.Examples as model;
ghost use Rattle.asl_model.specs.ShapeOrder.{sub};
ghost use Rattle.asl_model.specs.Shape as shape;
ghost use Rattle.asl_model.specs.Tree as json;
ghost use Rattle.asl_numbered.specs.Comparison.{AreRight};
ghost use Rattle.asl_numbered.specs.Expansion.{shape_at, fields_at, numbers_in, AreBelow};
ghost use Rattle.asl_numbered.specs.Joins.{kept, AreKindsWithin};
ghost use Rattle.asl_numbered.specs.Outside.{first_shape, first_simple, places_over, mentions_over, levels_over, simple_in, found_elements, found_fields, mentioned_fields, unmentioned_fields, forbidden_fields, IsSought, IsFound, AreLivePlaces, AreLiveMentions, AreLiveLevels};
ghost use Rattle.asl_numbered.specs.TakenApart.{simple_of, arrays_over, objects_over, kinds_over, taken_apart, AreArraysAt, AreObjectsAt, AreArraysIfAny, AreObjectsIfAny, AreKindsAt};

use crate::comparing::{Compared, compare};
use crate::joining::kept_kinds;
use crate::kinds::{NodeArrays, NodeKinds, NodeObjects, take_apart};
use crate::node::NodeField;
use crate::pair::Pair;
use crate::table::Table;
use asl_tree::OutOfMemory;
use std::alloc::Global;
use std::collections::BTreeMap;
use std::rc::RcStr;

/// Two shapes: a tree is sought that has the first and lacks the second.
#[derive(Clone, Copy)]
pub(crate) struct Sought {
    /// The number of the first; `None` for `Any`, which may stand under no number.
    pub(crate) first: Option<usize>,
    /// The number of the second.
    pub(crate) second: usize,
}

/// One level of a tree that has one shape and lacks another; the tree inside it, if there is one, does so of two parts.
#[derive(Clone, Copy)]
pub(crate) enum Step<'t> {
    /// The list of examples of the shapes of these numbers.
    Examples(&'t [usize]),
    /// The list of the tree inside, with examples of the shapes of these numbers before it and behind it.
    Between {
        before: &'t [usize],
        behind: &'t [usize],
    },
    /// `false`.
    False,
    /// The number 0.
    Zero,
    /// `null`.
    Null,
    /// The empty text.
    Empty,
    /// The object of the needed ones of these fields, with examples of their shapes.
    Needed(&'t BTreeMap<RcStr, NodeField>),
    /// The same with the field of that name set to the tree inside.
    With {
        fields: &'t BTreeMap<RcStr, NodeField>,
        name: &'t RcStr,
    },
    /// The same with the field of that name set to a tree of the shape of that number.
    WithFirst {
        fields: &'t BTreeMap<RcStr, NodeField>,
        name: &'t RcStr,
        number: usize,
    },
    /// The same with a field set to `null` that neither these nor the others mention.
    WithNew {
        fields: &'t BTreeMap<RcStr, NodeField>,
        others: &'t BTreeMap<RcStr, NodeField>,
    },
}

/// What is found at two shapes.
#[derive(Clone, Copy)]
pub(crate) struct Found<'t> {
    /// The tree, but for the one inside it.
    pub(crate) step: Step<'t>,
    /// The parts for which the tree inside is sought; `None` where there is no tree inside.
    pub(crate) next: Option<Sought>,
}

/// What a first shape takes of each kind, `Any` taking all trees of all six.
#[derive(Clone, Copy)]
pub(crate) struct Levels<'t> {
    /// Whether `null` has the shape.
    pub(crate) null: bool,
    /// Whether `true` and `false` have it.
    pub(crate) boolean: bool,
    /// Whether every whole number has it.
    pub(crate) integer: bool,
    /// Whether every text has it.
    pub(crate) text: bool,
    /// The lists that have it, if there is one.
    pub(crate) places: Option<Places<'t>>,
    /// The objects that have it, if there is one.
    pub(crate) mentions: Option<Mentions<'t>>,
}

/// The lists of a first shape.
#[derive(Clone, Copy)]
pub(crate) struct Places<'t> {
    /// The numbers of the shapes of the first elements.
    pub(crate) places: &'t [usize],
    /// The number of the shape of each further element; `None` for `Any`.
    pub(crate) further: Option<usize>,
}

/// The objects of a first shape.
#[derive(Clone, Copy)]
pub(crate) struct Mentions<'t> {
    /// The mentioned fields.
    pub(crate) fields: &'t BTreeMap<RcStr, NodeField>,
    /// Whether there may be other fields.
    pub(crate) more: bool,
}

/// The outermost level of a tree that has the first shape and lacks the second, if there is such a tree. `none` has no
/// fields, as `Any` mentions none.
pub(crate) fn find<'t>(
    table: &'t Table,
    compared: &mut Compared,
    alloc: Global,
    none: &'t BTreeMap<RcStr, NodeField>,
    sought: Sought,
) -> Result<Option<Found<'t>>, OutOfMemory>
    requires right { AreRight table.now compared.old.entries }
    requires sought { IsSought table.now (length table.now) sought }
    requires none { none.now.entries ≡ [] }
    ensures found { IfOk result (IsFound table.now sought.second
        (model.outside (first_shape table.now sought.first)
        (shape_at table.now sought.second))) }
    ensures right { AreRight table.now compared.new.entries }
{
    match take_apart(table, sought.second) {
        None => Ok(None),
        Some(outer) => {
            let inner = levels_of(table, none, sought.first);
            find_kind(table, compared, alloc, inner, outer, sought.second)
        }
    }
}

// The kinds of the first shape.
fn levels_of<'t>(
    table: &'t Table,
    none: &'t BTreeMap<RcStr, NodeField>,
    first: Option<usize>,
) -> Levels<'t>
    requires first { IfSome first (λ n. n < length table.now) }
    requires none { none.now.entries ≡ [] }
    ensures shown { (b : shape.Shape) → model.outside (first_shape table.now first) b
        ≡ model.outside (levels_over table.now result) b }
    ensures live { AreLiveLevels table.now result }
{
    match first_kinds(table, first) {
        None => Levels {
            null: true,
            boolean: true,
            integer: true,
            text: true,
            places: Some(Places {
                places: &[],
                further: None,
            }),
            mentions: Some(Mentions {
                fields: none,
                more: true,
            }),
        },
        Some(kinds) => Levels {
            null: kinds.null,
            boolean: kinds.boolean,
            integer: kinds.integer,
            text: kinds.text,
            places: places_of(kinds.arrays),
            mentions: mentions_of(kinds.objects),
        },
    }
}

// What is kept of the first shape's kinds; `None` for `Any`.
fn first_kinds(table: &Table, first: Option<usize>) -> Option<NodeKinds<'_>>
    requires { IfSome first (λ n. n < length table.now) }
    ensures kept { taken_apart table.now result ≡ kept (first_shape table.now first) }
    ensures within { IfSome result (AreKindsWithin table.now) }
{
    kept_kinds(table, first?)
}

// The lists as those of a first shape.
fn places_of(arrays: Option<NodeArrays<'_>>) -> Option<Places<'_>>
    ensures { result
        ≡ option_map (λ lists. record { places = lists.first; further = Some lists.rest })
        arrays.entry }
{
    let lists = arrays?;
    Some(Places {
        places: lists.first,
        further: Some(lists.rest),
    })
}

// The objects as those of a first shape.
fn mentions_of(objects: Option<NodeObjects<'_>>) -> Option<Mentions<'_>>
    ensures { result
        ≡ option_map (λ own. record { fields = own.fields; more = own.extra }) objects.entry }
{
    let own = objects?;
    Some(Mentions {
        fields: own.fields,
        more: own.extra,
    })
}

// The same of the first kind of which there is such a tree, in byte order of the names of the types. The numbers of the
// second shape's parts are below the bound.
fn find_kind<'t>(
    table: &'t Table,
    compared: &mut Compared,
    alloc: Global,
    inner: Levels<'t>,
    outer: NodeKinds<'t>,
    bound: usize,
) -> Result<Option<Found<'t>>, OutOfMemory>
    requires right { AreRight table.now compared.old.entries }
    requires inner { AreLiveLevels table.now inner }
    requires outer { AreKindsAt table.now bound outer }
    requires bound { bound < length table.now }
    ensures found { IfOk result (IsFound table.now bound
        (model.outside (levels_over table.now inner.entry)
        (kinds_over table.now outer.entry))) }
    ensures right { AreRight table.now compared.new.entries }
{
    let list = find_list(table, compared, alloc, inner.places, outer.arrays, bound)?;
    if list.is_some() {
        return Ok(list);
    }
    if let Some(step) = simple_step(inner, outer) {
        return Ok(Some(Found { step, next: None }));
    }
    let object = find_object(table, compared, alloc, inner.mentions, outer.objects, bound)?;
    if object.is_some() {
        return Ok(object);
    }
    if inner.text && !outer.text {
        let step = Step::Empty;
        return Ok(Some(Found { step, next: None }));
    }
    Ok(None)
}

// The first of `false`, 0 and `null` that the first shape takes and the second doesn't.
fn simple_step<'t>(inner: Levels<'t>, outer: NodeKinds<'t>) -> Option<Step<'t>>
    ensures { result ≡ first_simple (simple_in inner.entry) (simple_of outer.entry) }
{
    if inner.boolean && !outer.boolean {
        return Some(Step::False);
    }
    if inner.integer && !outer.integer {
        return Some(Step::Zero);
    }
    if inner.null && !outer.null {
        return Some(Step::Null);
    }
    None
}

// Whether the first shape is seen to be inside the second.
fn is_inside(
    table: &Table,
    compared: &mut Compared,
    alloc: Global,
    sought: Sought,
) -> Result<bool, OutOfMemory>
    requires right { AreRight table.now compared.old.entries }
    requires sought { IsSought table.now (length table.now) sought }
    ensures as_defined { IfOk result (λ b. b
        ≡ sub (first_shape table.now sought.first)
        (shape_at table.now sought.second)) }
    ensures right { AreRight table.now compared.new.entries }
{
    match sought.first {
        None => Ok(table.takes_all(sought.second)),
        Some(first) => compare(
            table,
            compared,
            alloc,
            Pair {
                first,
                second: sought.second,
            },
        ),
    }
}

// A list of the first shape that the second doesn't have, if there is one.
fn find_list<'t>(
    table: &'t Table,
    compared: &mut Compared,
    alloc: Global,
    inner: Option<Places<'t>>,
    outer: Option<NodeArrays<'t>>,
    bound: usize,
) -> Result<Option<Found<'t>>, OutOfMemory>
    requires right { AreRight table.now compared.old.entries }
    requires inner { IfSome inner (AreLivePlaces table.now) }
    requires outer { AreArraysIfAny table.now bound outer }
    requires bound { bound < length table.now }
    ensures found { IfOk result (IsFound table.now bound
        (option_map json.Array
        (model.arrays_outside (places_over table.now inner.entry)
        (arrays_over table.now outer.entry)))) }
    ensures right { AreRight table.now compared.new.entries }
{
    let Some(inner) = inner else {
        return Ok(None);
    };
    let whole = Found {
        step: Step::Examples(inner.places),
        next: None,
    };
    let Some(outer) = outer else {
        return Ok(Some(whole));
    };
    if inner.places.len() < outer.first.len() {
        return Ok(Some(whole));
    }
    find_place(table, compared, alloc, inner, outer, bound)
}

// A list with one place changed, the first where a tree of the first shape lacks the second, or else with one element more.
fn find_place<'t>(
    table: &'t Table,
    compared: &mut Compared,
    alloc: Global,
    inner: Places<'t>,
    outer: NodeArrays<'t>,
    bound: usize,
) -> Result<Option<Found<'t>>, OutOfMemory>
    requires right { AreRight table.now compared.old.entries }
    requires inner { AreLivePlaces table.now inner }
    requires outer { AreArraysAt table.now bound outer }
    requires bound { bound < length table.now }
    requires enough { length outer.first.now ≤ length inner.places.now }
    ensures found { IfOk result (IsFound table.now bound
        (option_map json.Array (found_elements table.now inner.entry outer.entry))) }
    ensures right { AreRight table.now compared.new.entries }
{
    let mut left = outer.first.iter();
    for index in 0..inner.places.len() {
        let second = *left.next().unwrap_or(&outer.rest);
        let sought = Sought {
            first: Some(inner.places[index]),
            second,
        };
        if !is_inside(table, compared, alloc, sought)? {
            let (before, _) = inner.places.split_at(index);
            let (_, behind) = inner.places.split_at(index + 1);
            let step = Step::Between { before, behind };
            return Ok(Some(Found {
                step,
                next: Some(sought),
            }));
        }
    }
    let sought = Sought {
        first: inner.further,
        second: outer.rest,
    };
    if is_inside(table, compared, alloc, sought)? {
        return Ok(None);
    }
    let before = inner.places;
    let step = Step::Between {
        before,
        behind: &[],
    };
    Ok(Some(Found {
        step,
        next: Some(sought),
    }))
}

// An object of the first shape that the second doesn't have, if there is one.
fn find_object<'t>(
    table: &'t Table,
    compared: &mut Compared,
    alloc: Global,
    inner: Option<Mentions<'t>>,
    outer: Option<NodeObjects<'t>>,
    bound: usize,
) -> Result<Option<Found<'t>>, OutOfMemory>
    requires right { AreRight table.now compared.old.entries }
    requires inner { IfSome inner (AreLiveMentions table.now) }
    requires outer { AreObjectsIfAny table.now bound outer }
    requires bound { bound < length table.now }
    ensures found { IfOk result (IsFound table.now bound
        (option_map json.Object
        (model.objects_outside (mentions_over table.now inner.entry)
        (objects_over table.now outer.entry)))) }
    ensures right { AreRight table.now compared.new.entries }
{
    let Some(inner) = inner else {
        return Ok(None);
    };
    let whole = Found {
        step: Step::Needed(inner.fields),
        next: None,
    };
    let Some(outer) = outer else {
        return Ok(Some(whole));
    };
    if needs_more(inner.fields, outer.fields) {
        return Ok(Some(whole));
    }
    find_fields(table, compared, alloc, inner, outer, bound)
}

// Whether a field is needed by the outer object and not by the inner one.
#[tactic(auto, using(crate::proofs::Comparisons::mention_of_number))]
fn needs_more(inner: &BTreeMap<RcStr, NodeField>, outer: &BTreeMap<RcStr, NodeField>) -> bool
    ensures { (table : List shape.Shape) → result
        ≡ model.needs_more (fields_at table inner.now.entries) (fields_at table outer.now.entries) }
{
    for (name, field) in outer.iter() {
        let needed = match inner.get(name) {
            Some(other) => other.needed,
            None => false,
        };
        if field.needed && !needed {
            return true;
        }
    }
    false
}

// The same, where the outer object needs no more fields than the inner one.
fn find_fields<'t>(
    table: &'t Table,
    compared: &mut Compared,
    alloc: Global,
    inner: Mentions<'t>,
    outer: NodeObjects<'t>,
    bound: usize,
) -> Result<Option<Found<'t>>, OutOfMemory>
    requires right { AreRight table.now compared.old.entries }
    requires inner { AreLiveMentions table.now inner }
    requires outer { AreObjectsAt table.now bound outer }
    requires bound { bound < length table.now }
    ensures found { IfOk result (IsFound table.now bound
        (option_map json.Object (found_fields table.now inner.entry outer.entry))) }
    ensures right { AreRight table.now compared.new.entries }
{
    let mentioned = find_mentioned(table, compared, alloc, inner.fields, outer.fields, bound)?;
    if mentioned.is_some() {
        return Ok(mentioned);
    }
    let unmentioned = find_unmentioned(table, inner, outer.fields, bound);
    if unmentioned.is_some() || outer.extra {
        return Ok(unmentioned);
    }
    Ok(find_forbidden(table, inner, outer.fields))
}

// An object with one field changed: the first that both mention where a tree of the inner shape lacks the outer one.
fn find_mentioned<'t>(
    table: &'t Table,
    compared: &mut Compared,
    alloc: Global,
    inner: &'t BTreeMap<RcStr, NodeField>,
    outer: &'t BTreeMap<RcStr, NodeField>,
    bound: usize,
) -> Result<Option<Found<'t>>, OutOfMemory>
    requires right { AreRight table.now compared.old.entries }
    requires inner { AreBelow (length table.now) (numbers_in inner.now.entries) }
    requires outer { AreBelow bound (numbers_in outer.now.entries) }
    requires bound { bound < length table.now }
    ensures found { IfOk result (IsFound table.now bound
        (option_map json.Object
        (mentioned_fields table.now inner.now.entries outer.now.entries))) }
    ensures right { AreRight table.now compared.new.entries }
{
    for (name, field) in outer.iter() {
        if let Some(other) = inner.get(name) {
            let sought = Sought {
                first: Some(other.shape),
                second: field.shape,
            };
            if !is_inside(table, compared, alloc, sought)? {
                let step = Step::With {
                    fields: inner,
                    name,
                };
                return Ok(Some(Found {
                    step,
                    next: Some(sought),
                }));
            }
        }
    }
    Ok(None)
}

// An object with one field more, where the inner one may have it: the first that the outer one alone mentions with a shape
// that a tree lacks.
fn find_unmentioned<'t>(
    table: &'t Table,
    inner: Mentions<'t>,
    outer: &'t BTreeMap<RcStr, NodeField>,
    bound: usize,
) -> Option<Found<'t>>
    requires inner { AreBelow (length table.now) (numbers_in inner.fields.now.entries) }
    requires outer { AreBelow bound (numbers_in outer.now.entries) }
    ensures { IsFound table.now bound
        (option_map json.Object
        (unmentioned_fields table.now inner.entry outer.now.entries)) result }
{
    for (name, field) in outer.iter() {
        if inner.more && !inner.fields.contains_key(name) && !table.takes_all(field.shape) {
            let sought = Sought {
                first: None,
                second: field.shape,
            };
            let step = Step::With {
                fields: inner.fields,
                name,
            };
            return Some(Found {
                step,
                next: Some(sought),
            });
        }
    }
    None
}

// An object with one field more that the outer one doesn't mention: the first that the inner one mentions and that can be
// there, or else, where the inner one may have others, a new one.
fn find_forbidden<'t>(
    table: &'t Table,
    inner: Mentions<'t>,
    outer: &'t BTreeMap<RcStr, NodeField>,
) -> Option<Found<'t>>
    requires inner { AreBelow (length table.now) (numbers_in inner.fields.now.entries) }
    ensures { (bound : ℕ) → IsFound table.now bound
        (option_map json.Object
        (forbidden_fields table.now inner.entry outer.now.entries)) result }
{
    let fields = inner.fields;
    for (name, field) in fields.iter() {
        if !outer.contains_key(name) && table.is_inhabited(field.shape) {
            let step = Step::WithFirst {
                fields,
                name,
                number: field.shape,
            };
            return Some(Found { step, next: None });
        }
    }
    if inner.more {
        let step = Step::WithNew {
            fields,
            others: outer,
        };
        return Some(Found { step, next: None });
    }
    None
}
