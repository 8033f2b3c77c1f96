//! The walk over a Map's items, over what its children take, and over what they give.

ghost use Rattle.std.specs.Prelude.{◌<◌, OnOk, length};
ghost use Rattle.asl_state_edges.specs.Entry.{IsEntryBelow};
ghost use Rattle.asl_state_edges.specs.Items.{elements_steps, item_steps, items_steps, listed_steps, outputs_steps};
ghost use Rattle.asl_state_edges.specs.Walks.{Adds};
ghost use Rattle.asl_flow.specs.Elements.{elements_view, AreElementsBelow};
ghost use Rattle.asl_numbered.specs.Expansion.{Keeps};

use crate::faults::FindingFault;
use crate::found::Step;
use crate::pushing::{push_broken, push_child, push_doubts, push_missing};
use crate::walking::Walk;
use asl_flow::{Elements, element_at, elements_of, item_input_at, outputs_at};
use asl_numbered::Shapes;
use asl_path::RefPath;
use asl_shape_paths::find_at;
use asl_states::Target;
use asl_template::Template;
use asl_tree::OutOfMemory;

/// What a Map makes of its items: `ItemSelector`, the start state of `ItemProcessor`, and the effective input.
#[derive(Clone, Copy, Drop)]
pub(crate) struct Children<'m> {
    pub(crate) selector: &'m Option<Template>,
    pub(crate) processor: &'m Target,
    pub(crate) effective: usize,
}

impl<'m> Walk<'_, 'm> {
    /// Walks over what `ItemsPath` names, over the children's input, and over the result.
    pub(crate) fn walk_map(
        &self,
        shapes: &mut Shapes,
        steps: &mut Vec<Step<'m>>,
        items_path: &'m RefPath,
        children: Children<'m>,
    ) -> Result<(), OutOfMemory>
        requires entry { IsEntryBelow (length shapes.old) self.now.entry }
        requires effective { children.effective < length shapes.old }
        ensures adds { OnOk result
            (Adds shapes.new steps.old.items steps.new.items
            (items_steps shapes.old self.now items_path.now children.entry)) }
        ensures keeps { Keeps shapes.old shapes.new }
    {
        match find_at(shapes, children.effective, items_path)? {
            Ok(items) => self.walk_items(shapes, steps, children, items),
            Err(path) => push_missing(steps, "ItemsPath", path),
        }
    }

    /// Walks over the elements of what `ItemsPath` names, if it has elements alone.
    fn walk_items(
        &self,
        shapes: &mut Shapes,
        steps: &mut Vec<Step<'m>>,
        children: Children<'m>,
        items: usize,
    ) -> Result<(), OutOfMemory>
        requires entry { IsEntryBelow (length shapes.old) self.now.entry }
        requires effective { children.effective < length shapes.old }
        requires items { items < length shapes.old }
        ensures adds { OnOk result
            (Adds shapes.new steps.old.items steps.new.items
            (listed_steps shapes.old self.now children.entry items)) }
        ensures keeps { Keeps shapes.old shapes.new }
    {
        match elements_of(self.alloc, shapes, items)? {
            Some(elements) => self.walk_elements(shapes, steps, children, &elements),
            None => push_broken(steps, "ItemsPath", FindingFault::WrongKind),
        }
    }

    /// Walks over the children's input, and over the result.
    fn walk_elements(
        &self,
        shapes: &mut Shapes,
        steps: &mut Vec<Step<'m>>,
        children: Children<'m>,
        elements: &Elements,
    ) -> Result<(), OutOfMemory>
        requires entry { IsEntryBelow (length shapes.old) self.now.entry }
        requires effective { children.effective < length shapes.old }
        requires elements { AreElementsBelow (length shapes.old) elements.now }
        ensures adds { OnOk result
            (Adds shapes.new steps.old.items steps.new.items
            (elements_steps shapes.old self.now children.entry
            (elements_view shapes.old elements.now))) }
        ensures keeps { Keeps shapes.old shapes.new }
    {
        self.walk_item(shapes, steps, children, elements)?;
        self.walk_outputs(shapes, steps, elements)
    }

    /// Walks over the children's input.
    fn walk_item(
        &self,
        shapes: &mut Shapes,
        steps: &mut Vec<Step<'m>>,
        children: Children<'m>,
        elements: &Elements,
    ) -> Result<(), OutOfMemory>
        requires effective { children.effective < length shapes.old }
        requires elements { AreElementsBelow (length shapes.old) elements.now }
        ensures adds { OnOk result
            (Adds shapes.new steps.old.items steps.new.items (item_steps shapes.old children.entry
            (elements_view shapes.old elements.now))) }
        ensures keeps { Keeps shapes.old shapes.new }
    {
        let element = element_at(shapes, elements)?;
        match item_input_at(
            self.alloc,
            shapes,
            children.selector,
            children.effective,
            element,
        )? {
            Ok(input) => push_child(steps, "ItemProcessor", children.processor, input),
            Err(doubts) => push_doubts(steps, &doubts),
        }
    }

    /// Walks over the list of what the children give, where a shape stands for it.
    fn walk_outputs(
        &self,
        shapes: &mut Shapes,
        steps: &mut Vec<Step<'m>>,
        elements: &Elements,
    ) -> Result<(), OutOfMemory>
        requires entry { IsEntryBelow (length shapes.old) self.now.entry }
        requires elements { AreElementsBelow (length shapes.old) elements.now }
        ensures adds { OnOk result
            (Adds shapes.new steps.old.items steps.new.items (outputs_steps shapes.old self.now
            (elements_view shapes.old elements.now))) }
        ensures keeps { Keeps shapes.old shapes.new }
    {
        match self.entry.item {
            Some(item) => {
                let outputs = outputs_at(self.alloc, shapes, item, elements)?;
                self.walk_result(shapes, steps, outputs)
            }
            None => Ok(()),
        }
    }
}
