//! What a state's first move comes to (States Language, "State Types").

ghost use Rattle.std.specs.Prelude.{◌≡◌, IfOk, IfSome, List, map, option_map, ℕ};
ghost use Rattle.std.specs.List.{All};
ghost use Rattle.asl_states.specs.Machine.{branches_view, choice_rule_view, delay_view, kind_view, settings_view, started_at, state_view, target_name};
ghost use Rattle.asl_model.specs.Flow as model;
ghost use Rattle.asl_model.specs.Machine as machine;
ghost use Rattle.asl_processing.specs.Leading.{Leads, LeadsOn};
ghost use Rattle.asl_states.specs.Targets.{EachChoiceTarget, EachSettingsTarget};
ghost use Rattle.asl_processing.specs.Working.{WorkLeads, Works, work_view};
ghost use Rattle.asl_template.specs.View as templates;
ghost use Rattle.asl_tree.specs.View.{view};

use crate::activities::Visit;
use crate::choosing::choose;
use crate::data::{Data, Datum};
use crate::delays::find_delay;
use crate::faults::{Fault, Stop};
use crate::flowing::effective_input;
use crate::items::{find_items, start_branches, start_items};
use asl_path::RefPath;
use asl_states::{ChoiceRule, Delay, Kind, Settings, State, Target};
use asl_template::Template;
use asl_tree::{OutOfMemory, Tree};
use std::alloc::Global;

/// What a state's first move comes to.
#[derive(Drop)]
pub enum Work<'m> {
    /// It has a result.
    Finishes(Data<'m>),
    /// It leaves with its effective input, for that next state or for the end of its scope.
    Leaves {
        next: Option<&'m Target>,
        input: Data<'m>,
    },
    /// It fails, with an error and a cause.
    Fails {
        error: &'m str,
        cause: &'m str,
    },
    /// It asks its task, with a payload.
    Asks(Data<'m>),
    /// It starts these children.
    Splits(Vec<Visit>),
    /// A data-flow fault.
    Raises(Fault),
}

/// What the state's first move comes to, for its raw input.
///
/// Refused: want of memory. A data-flow fault is what it comes to (`Work::Raises`).
pub fn first_move<'m>(
    alloc: Global,
    state: &'m State,
    raw: &'m Datum,
) -> Result<Work<'m>, OutOfMemory>
    ensures exact { IfOk result
        (λ w. work_view w ≡ model.first_move (state_view state.now) (view raw.now.value)) }
    ensures leads { (names : List (List ℕ)) → LeadsOn names state.now
        → IfOk result (WorkLeads names (kind_view state.now.kind)) }
{
    match work_of(alloc, state, raw) {
        Ok(work) => Ok(work),
        Err(Stop::Fault(fault)) => Ok(Work::Raises(fault)),
        Err(Stop::OutOfMemory) => Err(OutOfMemory),
    }
}

/// The same by the state's type.
fn work_of<'m>(alloc: Global, state: &'m State, raw: &'m Datum) -> Result<Work<'m>, Stop>
    ensures exact { Works result (model.work_of (kind_view state.now.kind)
        (settings_view state.now.settings) (view raw.now.value)) }
    ensures leads { (names : List (List ℕ)) → LeadsOn names state.now
        → IfOk result (WorkLeads names (kind_view state.now.kind)) }
{
    let settings = &state.settings;
    match &state.kind {
        Kind::Pass { result } => pass(alloc, settings, result, raw),
        Kind::Task { resource: _ } => Ok(Work::Asks(effective_input(alloc, settings, raw)?)),
        Kind::Choice { choices, default } => choice(alloc, settings, choices, default, raw),
        Kind::Wait { delay } => wait(alloc, settings, delay, raw),
        Kind::Succeed => Ok(Work::Leaves {
            next: None,
            input: effective_input(alloc, settings, raw)?,
        }),
        Kind::Fail { error, cause } => Ok(Work::Fails { error, cause }),
        Kind::Parallel { branches } => parallel(alloc, settings, branches, raw),
        Kind::Map {
            items_path,
            item_selector,
            processor,
        } => map(alloc, settings, items_path, item_selector, processor, raw),
    }
}

/// A Pass finishes with `Result`, or else its effective input.
fn pass<'m>(
    alloc: Global,
    settings: &Settings,
    value: &'m Option<Tree>,
    raw: &'m Datum,
) -> Result<Work<'m>, Stop>
    ensures exact { Works result (model.work_of (machine.Pass (option_map view value.now))
        (settings_view settings.now) (view raw.now.value)) }
    ensures leads { (names : List (List ℕ)) (kind : machine.Kind)
        → IfOk result (WorkLeads names kind) }
{
    let input = effective_input(alloc, settings, raw)?;
    match value {
        Some(value) => Ok(Work::Finishes(Data::Lent(value))),
        None => Ok(Work::Finishes(input)),
    }
}

/// A Choice leaves for the state that is chosen by its effective input.
fn choice<'m>(
    alloc: Global,
    settings: &Settings,
    rules: &'m [ChoiceRule],
    default: &'m Option<Target>,
    raw: &'m Datum,
) -> Result<Work<'m>, Stop>
    ensures exact { Works result (model.work_of (machine.Choice (map choice_rule_view rules.now)
        (option_map target_name default.now)) (settings_view settings.now) (view raw.now.value)) }
    ensures leads { (names : List (List ℕ)) (kind : machine.Kind)
        → EachChoiceTarget (Leads names) rules.now → IfSome default.now (Leads names)
        → IfOk result (WorkLeads names kind) }
{
    let input = effective_input(alloc, settings, raw)?;
    let next = choose(rules, default, input.as_tree())?;
    Ok(Work::Leaves {
        next: Some(next),
        input,
    })
}

/// A Wait looks at what its path names, and leaves.
fn wait<'m>(
    alloc: Global,
    settings: &'m Settings,
    delay: &Delay,
    raw: &'m Datum,
) -> Result<Work<'m>, Stop>
    ensures exact { Works result (model.work_of (machine.Wait (delay_view delay.now))
        (settings_view settings.now) (view raw.now.value)) }
    ensures leads { (names : List (List ℕ)) (kind : machine.Kind)
        → EachSettingsTarget (Leads names) settings.now
        → IfOk result (WorkLeads names kind) }
{
    let input = effective_input(alloc, settings, raw)?;
    find_delay(delay, input.as_tree())?;
    Ok(Work::Leaves {
        next: settings.next.as_ref(),
        input,
    })
}

/// A Parallel splits into its branches, each with the effective input.
fn parallel<'m>(
    alloc: Global,
    settings: &Settings,
    branches: &[Target],
    raw: &Datum,
) -> Result<Work<'m>, Stop>
    ensures exact { Works result (model.work_of (machine.Parallel (branches_view branches.now))
        (settings_view settings.now) (view raw.now.value)) }
    ensures leads { (names : List (List ℕ)) → All (Leads names) branches.now
        → IfOk result (WorkLeads names (machine.Parallel (branches_view branches.now))) }
{
    let input = effective_input(alloc, settings, raw)?;
    let shared = input.into_datum(alloc)?;
    Ok(Work::Splits(start_branches(alloc, branches, &shared)?))
}

/// A Map splits into a child for each of its items.
fn map<'m>(
    alloc: Global,
    settings: &Settings,
    items_path: &RefPath,
    item_selector: &Option<Template>,
    processor: &Target,
    raw: &Datum,
) -> Result<Work<'m>, Stop>
    ensures exact { Works result (model.work_of (machine.Map items_path.now
        (option_map templates.view item_selector.now) (started_at processor.now))
        (settings_view settings.now) (view raw.now.value)) }
    ensures leads { (names : List (List ℕ)) → Leads names processor.now
        → IfOk result (WorkLeads names (machine.Map items_path.now
        (option_map templates.view item_selector.now) (started_at processor.now))) }
{
    let input = effective_input(alloc, settings, raw)?;
    let items = find_items(items_path, input.as_tree())?;
    let children = start_items(alloc, processor, item_selector, input.as_tree(), items)?;
    Ok(Work::Splits(children))
}
