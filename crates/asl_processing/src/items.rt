//! The children of a Parallel and of a Map (States Language, "Parallel State", "Map State").

ghost use Rattle.std.specs.Prelude.{◌≡◌, ◌<◌, ◌^◌, IfOk, List, option_map, ℕ};
ghost use Rattle.std.specs.List.{All};
ghost use Rattle.asl_states.specs.Machine.{branches_view, started_at};
ghost use Rattle.asl_model.specs.Flow as model;
ghost use Rattle.asl_model.specs.Machine.{scope_at};
ghost use Rattle.asl_processing.specs.Activities.{StartIn, inputs_of};
ghost use Rattle.asl_processing.specs.Data.{datum_view};
ghost use Rattle.asl_processing.specs.Flowing.{Finds, Flows};
ghost use Rattle.asl_processing.specs.Leading.{Leads};
ghost use Rattle.asl_template.specs.View as templates;
ghost use Rattle.asl_tree.specs.View.{view, elements_view};

use crate::activities::Visit;
use crate::data::Datum;
use crate::faults::{DataFlowError, Fault, Stop};
use crate::flowing::{by_template, named_in};
use asl_intrinsic::Item;
use asl_path::RefPath;
use asl_states::Target;
use asl_template::Template;
use asl_tree::{OutOfMemory, Tree, copy};
use std::alloc::Global;
use std::rc::Rc;

/// A child for each branch, about to enter the branch's start with the input, which all share.
pub(crate) fn start_branches(
    alloc: Global,
    branches: &[Target],
    input: &Datum,
) -> Result<Vec<Visit>, OutOfMemory>
    ensures inputs { IfOk result (λ v. inputs_of v.items
        ≡ model.branch_inputs (branches_view branches.now) (view input.now.value)) }
    ensures starts { (names : List (List ℕ)) → All (Leads names) branches.now
        → IfOk result (λ v. StartIn names (λ i. scope_at i (branches_view branches.now)) v.items) }
{
    let mut children = Vec::with_capacity(alloc, branches.len())?;
    for start in branches {
        children.push(Visit::new(alloc, start.number, input.clone()?))?;
    }
    Ok(children)
}

/// The items of a Map: the list that `ItemsPath` names in its effective input.
pub(crate) fn find_items<'t>(path: &RefPath, input: &'t Tree) -> Result<&'t [Tree], Fault>
    ensures { Finds (λ ts. elements_view ts.now) result
        (model.map_items path.now (view input.now)) }
{
    match named_in("ItemsPath", path, input)? {
        Tree::List(items) => Ok(items),
        Tree::Null | Tree::Bool(_) | Tree::Int(_) | Tree::Text(_) | Tree::Object(_) => {
            Err(Fault {
                error: DataFlowError::WrongKind,
                field: "ItemsPath",
            })
        }
    }
}

/// A Map's child for each item, about to enter the start with the item's input; the first fault counts.
pub(crate) fn start_items(
    alloc: Global,
    start: &Target,
    selector: &Option<Template>,
    input: &Tree,
    items: &[Tree],
) -> Result<Vec<Visit>, Stop>
    ensures inputs { Flows (λ v. inputs_of v.items) result (model.item_inputs
        (option_map templates.view selector.now) (view input.now) 0 (elements_view items.now)) }
    ensures starts { (names : List (List ℕ)) → Leads names start.now
        → IfOk result (λ v. StartIn names (λ i. started_at start.now) v.items) }
{
    let mut children = Vec::with_capacity(alloc, items.len())?;
    for (index, item) in items.iter().enumerate() {
        let own = item_input(alloc, selector, input, index, item)?;
        children.push(Visit::new(alloc, start.number, own))?;
    }
    Ok(children)
}

/// The input of a Map's child: the item of that number, or the value of `ItemSelector` for it.
fn item_input(
    alloc: Global,
    selector: &Option<Template>,
    input: &Tree,
    number: usize,
    item: &Tree,
) -> Result<Datum, Stop>
    requires { number < 2 ^ 63 }
    ensures { Flows datum_view result (model.item_input (option_map templates.view selector.now)
        (view input.now) number (view item.now)) }
{
    match selector {
        Some(template) => {
            let item = Item {
                index: number as i64,
                value: item,
            };
            let value = by_template(alloc, "ItemSelector", template, input, Some(item))?;
            Ok(Rc::new(alloc, value)?)
        }
        None => Ok(Rc::new(alloc, copy(alloc, item)?)?),
    }
}
