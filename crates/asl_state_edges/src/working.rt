//! The walk over what comes of an effective input, and over what needs none, by the state's type.

ghost use Rattle.std.specs.Prelude.{◌<◌, ◌++◌, OnOk, length};
ghost use Rattle.asl_state_edges.specs.Entry.{IsEntryBelow};
ghost use Rattle.asl_state_edges.specs.Steps.{result_steps, settled_steps, work_steps};
ghost use Rattle.asl_state_edges.specs.Walks.{Adds};
ghost use Rattle.asl_states.specs.Machine.{delay_view};
ghost use Rattle.asl_model.specs.Edges as model;
ghost use Rattle.asl_numbered.specs.Expansion.{shape_at, Keeps};

use crate::faults::FindingFault;
use crate::found::Step;
use crate::items::Children;
use crate::pushing::{push_branches, push_missing, push_payload, push_unless};
use crate::walking::Walk;
use asl_flow::{list_at, literal_shape_at};
use asl_numbered::Shapes;
use asl_shape_paths::{find_at, is_only_integers, is_only_texts};
use asl_states::{Delay, Kind};
use asl_tree::OutOfMemory;

impl<'m> Walk<'_, 'm> {
    /// Walks over what comes of the effective input of that number.
    pub(crate) fn walk_work(
        &self,
        shapes: &mut Shapes,
        steps: &mut Vec<Step<'m>>,
        effective: usize,
    ) -> Result<(), OutOfMemory>
        requires entry { IsEntryBelow (length shapes.old) self.now.entry }
        requires effective { effective < length shapes.old }
        ensures adds { OnOk result
            (Adds shapes.new steps.old.items steps.new.items
            (work_steps shapes.old self.now effective)) }
        ensures keeps { Keeps shapes.old shapes.new }
    {
        match &self.state.kind {
            Kind::Pass { result: None } => self.walk_result(shapes, steps, effective),
            Kind::Task { .. } => push_payload(steps, effective),
            Kind::Choice { choices, default } => {
                self.walk_choice(shapes, steps, choices, default, effective)
            }
            Kind::Wait { delay } => self.walk_wait(shapes, steps, delay, effective),
            Kind::Succeed => self.walk_end(shapes, steps, effective),
            Kind::Parallel { branches } => push_branches(steps, branches, effective),
            Kind::Map {
                items_path,
                item_selector,
                processor,
            } => {
                let children = Children {
                    selector: item_selector,
                    processor,
                    effective,
                };
                self.walk_map(shapes, steps, items_path, children)
            }
            Kind::Pass { result: Some(_) } | Kind::Fail { .. } => Ok(()),
        }
    }

    /// Walks over what needs no effective input: a result that is a literal, given by the task, or the list of what stands
    /// at the branches' ends.
    pub(crate) fn walk_settled(
        &self,
        shapes: &mut Shapes,
        steps: &mut Vec<Step<'m>>,
        gives: usize,
    ) -> Result<(), OutOfMemory>
        requires entry { IsEntryBelow (length shapes.old) self.now.entry }
        requires gives { gives < length shapes.old }
        ensures adds { OnOk result
            (Adds shapes.new steps.old.items steps.new.items
            (settled_steps shapes.old self.now gives)) }
        ensures keeps { Keeps shapes.old shapes.new }
    {
        match &self.state.kind {
            Kind::Pass { result: Some(tree) } => {
                let literal = literal_shape_at(self.alloc, shapes, tree)?;
                self.walk_result(shapes, steps, literal)
            }
            Kind::Task { .. } => self.walk_result(shapes, steps, gives),
            Kind::Parallel { .. } => {
                let ends = list_at(self.alloc, shapes, self.entry.branches)?;
                self.walk_result(shapes, steps, ends)
            }
            Kind::Pass { result: None }
            | Kind::Choice { .. }
            | Kind::Wait { .. }
            | Kind::Succeed
            | Kind::Fail { .. }
            | Kind::Map { .. } => Ok(()),
        }
    }

    /// Walks over what a Wait's path names, and over its output.
    fn walk_wait(
        &self,
        shapes: &mut Shapes,
        steps: &mut Vec<Step<'m>>,
        delay: &'m Delay,
        effective: usize,
    ) -> Result<(), OutOfMemory>
        requires input { self.now.entry.input < length shapes.old }
        requires effective { effective < length shapes.old }
        ensures adds { OnOk result
            (Adds shapes.new steps.old.items steps.new.items
            (model.walk_delay (delay_view delay.now) (shape_at shapes.old effective)
            ++ result_steps shapes.old self.now effective)) }
        ensures keeps { Keeps shapes.old shapes.new }
    {
        walk_delay(shapes, steps, delay, effective)?;
        self.walk_result(shapes, steps, effective)
    }
}

/// Walks over what a Wait's path names, from which nothing flows.
fn walk_delay<'m>(
    shapes: &mut Shapes,
    steps: &mut Vec<Step<'m>>,
    delay: &'m Delay,
    effective: usize,
) -> Result<(), OutOfMemory>
    requires effective { effective < length shapes.old }
    ensures adds { OnOk result
        (Adds shapes.new steps.old.items steps.new.items
        (model.walk_delay (delay_view delay.now) (shape_at shapes.old effective))) }
    ensures keeps { Keeps shapes.old shapes.new }
{
    match delay {
        Delay::SecondsPath(path) => match find_at(shapes, effective, path)? {
            Ok(named) => {
                let is_number = is_only_integers(shapes, named);
                push_unless(steps, is_number, "SecondsPath", FindingFault::WrongKind)
            }
            Err(path) => push_missing(steps, "SecondsPath", path),
        },
        Delay::TimestampPath(path) => match find_at(shapes, effective, path)? {
            Ok(named) => {
                let is_text = is_only_texts(shapes, named);
                push_unless(steps, is_text, "TimestampPath", FindingFault::WrongKind)
            }
            Err(path) => push_missing(steps, "TimestampPath", path),
        },
        Delay::Seconds(_) | Delay::Timestamp(_) => Ok(()),
    }
}
