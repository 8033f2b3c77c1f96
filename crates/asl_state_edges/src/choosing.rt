//! The walk over the rules of a Choice, and over `Default`.

ghost use Rattle.std.specs.Prelude.{◌<◌, ◌++◌, OnOk, length};
ghost use Rattle.asl_state_edges.specs.Steps.{default_steps, rule_steps, rules_steps};
ghost use Rattle.asl_state_edges.specs.Walks.{Adds};
ghost use Rattle.asl_numbered.specs.Expansion.{Keeps};

use crate::faults::FindingFault;
use crate::found::Step;
use crate::pushing::{push_missing, push_unless};
use crate::walking::Walk;
use asl_numbered::Shapes;
use asl_shape_rules::{let_through_at, settles_at};
use asl_states::{ChoiceRule, Target};
use asl_tree::OutOfMemory;

impl<'m> Walk<'_, 'm> {
    /// Walks over each rule of a Choice, and over `Default`.
    pub(crate) fn walk_choice(
        &self,
        shapes: &mut Shapes,
        steps: &mut Vec<Step<'m>>,
        rules: &'m [ChoiceRule],
        default: &'m Option<Target>,
        effective: usize,
    ) -> Result<(), OutOfMemory>
        requires input { self.now.entry.input < length shapes.old }
        requires effective { effective < length shapes.old }
        ensures adds { OnOk result
            (Adds shapes.new steps.old.items steps.new.items
            (rules_steps shapes.old self.now rules.now effective
            ++ default_steps shapes.old self.now rules.now default.now effective)) }
        ensures keeps { Keeps shapes.old shapes.new }
    {
        self.walk_rules(shapes, steps, rules, effective)?;
        self.walk_default(shapes, steps, rules, default, effective)
    }

    /// Walks over the rules, each of which is taken on the whole effective input.
    fn walk_rules(
        &self,
        shapes: &mut Shapes,
        steps: &mut Vec<Step<'m>>,
        rules: &'m [ChoiceRule],
        effective: usize,
    ) -> Result<(), OutOfMemory>
        requires input { self.now.entry.input < length shapes.old }
        requires effective { effective < length shapes.old }
        ensures adds { OnOk result
            (Adds shapes.new steps.old.items steps.new.items
            (rules_steps shapes.old self.now rules.now effective)) }
        ensures keeps { Keeps shapes.old shapes.new }
    {
        for rule in rules {
            self.walk_rule(shapes, steps, rule, effective)?;
        }
        Ok(())
    }

    /// Walks over a rule: over its paths, and over the output for what it lets through.
    fn walk_rule(
        &self,
        shapes: &mut Shapes,
        steps: &mut Vec<Step<'m>>,
        rule: &'m ChoiceRule,
        effective: usize,
    ) -> Result<(), OutOfMemory>
        requires input { self.now.entry.input < length shapes.old }
        requires effective { effective < length shapes.old }
        ensures adds { OnOk result
            (Adds shapes.new steps.old.items steps.new.items
            (rule_steps shapes.old self.now rule.now effective)) }
        ensures keeps { Keeps shapes.old shapes.new }
    {
        match let_through_at(self.alloc, shapes, &rule.test, effective)? {
            Ok(shape) => self.walk_chosen(shapes, steps, "Choices", &rule.next, shape),
            Err(path) => push_missing(steps, "Choices", path),
        }
    }

    /// Walks over the output that goes to `Default`. Where there is none, two of the rules are to stand for it: they ask
    /// the same, one for yes and one for no.
    fn walk_default(
        &self,
        shapes: &mut Shapes,
        steps: &mut Vec<Step<'m>>,
        rules: &[ChoiceRule],
        default: &'m Option<Target>,
        effective: usize,
    ) -> Result<(), OutOfMemory>
        requires input { self.now.entry.input < length shapes.old }
        requires effective { effective < length shapes.old }
        ensures adds { OnOk result
            (Adds shapes.new steps.old.items steps.new.items
            (default_steps shapes.old self.now rules.now default.now effective)) }
        ensures keeps { Keeps shapes.old shapes.new }
    {
        match default {
            Some(next) => self.walk_chosen(shapes, steps, "Default", next, effective),
            None => {
                let settled = settles_at(self.alloc, shapes, rules, effective)?;
                push_unless(steps, settled, "Default", FindingFault::NoDefault)
            }
        }
    }
}
