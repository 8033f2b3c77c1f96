//! Certificates with shapes of their own, and with numbers of a table.

ghost use Rattle.std.specs.Prelude.{◌≡◌, ◌<◌, All, IfOk, IfSome, length, map, option_map};
ghost use Rattle.asl_numbered.specs.Expansion.{shape_at, AreBelow, Keeps};
ghost use Rattle.asl_shape.specs.View.{view};
ghost use Rattle.asl_records.specs.Numbered.{AreWithin, AreNumbersBelow, AreEntriesBelow, numbered_view, numbers_view, numbered_entries};
ghost use Rattle.asl_records.specs.Numbering.{IsItemOf, AreListOf, AreStateOf, AreStatesOf};
ghost use Rattle.asl_records.specs.Proper.{AreProperStates, IsProper, IsProperCertificate, IsProperState};
ghost use Rattle.asl_records.specs.View.{certificate_view, entry_view, entries_view};

use crate::records::{Certificate, NumberedCertificate, StateNumbers, StateShapes};
use asl_numbered::Shapes;
use asl_shape::Shape;
use asl_tree::OutOfMemory;
use std::alloc::Global;
use std::collections::BTreeMap;

/// The certificate with its shapes in a table, each distinct one once. Refuses only where an allocation was refused.
pub fn number_certificate(
    alloc: Global,
    certificate: &Certificate,
) -> Result<NumberedCertificate, OutOfMemory>
    ensures same { IfOk result
        (λ numbered. numbered_view numbered ≡ certificate_view certificate.now) }
    ensures within { IfOk result AreWithin }
{
    let mut shapes = Shapes::new(alloc);
    let output = shapes.add(&certificate.output)?;
    let states = number_states(alloc, &mut shapes, &certificate.states)?;
    Ok(NumberedCertificate {
        shapes,
        output,
        states,
    })
}

/// The states' shapes by number.
fn number_states(
    alloc: Global,
    shapes: &mut Shapes,
    states: &BTreeMap<String, StateShapes>,
) -> Result<BTreeMap<String, StateNumbers>, OutOfMemory>
    ensures numbered { IfOk result
        (λ numbered. AreStatesOf shapes.new (entries_view states.now.entries) numbered.entries) }
    ensures keeps { Keeps shapes.old shapes.new }
{
    let mut numbered = BTreeMap::new(alloc);
    for (name, state) in states.iter() {
        let key = name.clone()?;
        drop(numbered.insert(key, number_state(alloc, shapes, state)?)?);
    }
    Ok(numbered)
}

/// The shapes of a state by number.
fn number_state(
    alloc: Global,
    shapes: &mut Shapes,
    state: &StateShapes,
) -> Result<StateNumbers, OutOfMemory>
    ensures numbered { IfOk result (AreStateOf shapes.new (entry_view state.now)) }
    ensures keeps { Keeps shapes.old shapes.new }
{
    Ok(StateNumbers {
        input: shapes.add(&state.input)?,
        output: shapes.add(&state.output)?,
        branches: number_branches(alloc, shapes, &state.branches)?,
        item: number_item(shapes, &state.item)?,
    })
}

/// The shapes of the branches' ends by number.
fn number_branches(
    alloc: Global,
    shapes: &mut Shapes,
    branches: &[Shape],
) -> Result<Vec<usize>, OutOfMemory>
    ensures numbered { IfOk result
        (λ numbers. AreListOf shapes.new (map view branches.now) numbers.items) }
    ensures keeps { Keeps shapes.old shapes.new }
{
    let mut numbers = Vec::with_capacity(alloc, branches.len())?;
    for branch in branches {
        numbers.push(shapes.add(branch)?)?;
    }
    Ok(numbers)
}

/// The shape of the processor's end by number, where there is one.
fn number_item(shapes: &mut Shapes, item: &Option<Shape>) -> Result<Option<usize>, OutOfMemory>
    ensures numbered { IfOk result (IsItemOf shapes.new (option_map view item.now)) }
    ensures keeps { Keeps shapes.old shapes.new }
{
    match item {
        Some(item) => Ok(Some(shapes.add(item)?)),
        None => Ok(None),
    }
}

/// The certificate with shapes of its own, in place of numbers: each of them is proper. Refuses only where an allocation
/// was refused.
pub fn expand_certificate(
    alloc: Global,
    numbered: &NumberedCertificate,
) -> Result<Certificate, OutOfMemory>
    requires within { AreWithin numbered.now }
    ensures same { IfOk result
        (λ certificate. certificate_view certificate ≡ numbered_view numbered.now) }
    ensures proper { IfOk result IsProperCertificate }
{
    let shapes = &numbered.shapes;
    Ok(Certificate {
        output: expand(shapes, numbered.output)?,
        states: expand_states(alloc, shapes, &numbered.states)?,
    })
}

/// The states' shapes of their own.
fn expand_states(
    alloc: Global,
    shapes: &Shapes,
    states: &BTreeMap<String, StateNumbers>,
) -> Result<BTreeMap<String, StateShapes>, OutOfMemory>
    requires below { AreEntriesBelow (length shapes.now) states.now.entries }
    ensures same { IfOk result (λ expanded. entries_view expanded.entries
        ≡ numbered_entries shapes.now states.now.entries) }
    ensures proper { IfOk result (λ expanded. AreProperStates expanded.entries) }
{
    let mut expanded = BTreeMap::new(alloc);
    for (name, state) in states.iter() {
        let key = name.clone()?;
        drop(expanded.insert(key, expand_state(alloc, shapes, state)?)?);
    }
    Ok(expanded)
}

/// The shapes of a state.
fn expand_state(
    alloc: Global,
    shapes: &Shapes,
    state: &StateNumbers,
) -> Result<StateShapes, OutOfMemory>
    requires below { AreNumbersBelow (length shapes.now) state.now }
    ensures same { IfOk result
        (λ expanded. entry_view expanded ≡ numbers_view shapes.now state.now) }
    ensures proper { IfOk result IsProperState }
{
    Ok(StateShapes {
        input: expand(shapes, state.input)?,
        output: expand(shapes, state.output)?,
        branches: expand_branches(alloc, shapes, &state.branches)?,
        item: expand_item(shapes, state.item)?,
    })
}

/// The shapes of the branches' ends.
fn expand_branches(
    alloc: Global,
    shapes: &Shapes,
    branches: &[usize],
) -> Result<Vec<Shape>, OutOfMemory>
    requires below { AreBelow (length shapes.now) branches.now }
    ensures same { IfOk result
        (λ expanded. map view expanded.items ≡ map (shape_at shapes.now) branches.now) }
    ensures proper { IfOk result (λ expanded. All IsProper expanded.items) }
{
    let mut expanded = Vec::with_capacity(alloc, branches.len())?;
    for number in branches {
        expanded.push(expand(shapes, *number)?)?;
    }
    Ok(expanded)
}

/// The shape of the processor's end, where there is one.
fn expand_item(shapes: &Shapes, item: Option<usize>) -> Result<Option<Shape>, OutOfMemory>
    requires below { IfSome item (λ n. n < length shapes.now) }
    ensures same { IfOk result
        (λ expanded. option_map view expanded ≡ option_map (shape_at shapes.now) item) }
    ensures proper { IfOk result (λ expanded. IfSome expanded IsProper) }
{
    match item {
        Some(number) => Ok(Some(expand(shapes, number)?)),
        None => Ok(None),
    }
}

/// The shape of a number of the table.
pub(crate) fn expand(shapes: &Shapes, number: usize) -> Result<Shape, OutOfMemory>
    requires below { number < length shapes.now }
    ensures same { IfOk result (λ shape. view shape ≡ shape_at shapes.now number) }
    ensures proper { IfOk result IsProper }
{
    match shapes.expand(number)? {
        Some(shape) => Ok(shape),
        None => unreachable!(),
    }
}
