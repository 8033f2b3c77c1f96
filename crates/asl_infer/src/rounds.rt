//! The rounds of an inference: the states are walked, and what flows out of them is taken in.

ghost use Rattle.std.specs.Prelude.{◌≡◌, length, IfErr, IfNone, IfOk, IfSome, OnOk};
ghost use Rattle.asl_draft_laws.specs.Drafts.{first_draft, input_taken};
ghost use Rattle.asl_numbered.specs.Expansion.{Keeps};
ghost use Rattle.asl_state_edges.specs.View.{AreStepsBelow};
ghost use Rattle.asl_drafts.specs.Drafted.{draft_view, room};
ghost use Rattle.asl_drafts.specs.Entries.{Makes};
ghost use Rattle.asl_infer.specs.Rounds.{AreCalm, AreStepsOf, EndsWhereDistinct, IsChanged};
ghost use Rattle.asl_infer.specs.Rounds.{IsGiven, IsGivenOf, IsNoRow, IsRowOf, RoundTells};
ghost use Rattle.asl_infer.specs.Rounds.{SettlesWhereDistinct, TakesRound, Walks, WalkTells};
ghost use Rattle.asl_infer.specs.Rounds.{declared_in, row_view, table_in};

use crate::inferring::InferRefusal;
use crate::tasks::{TaskNumbers, task_numbers};
use crate::telling::{finding, first_broken};
use asl_drafts::{Draft, Store, Target, Walker};
use asl_machine_table::Machine;
use asl_records::Declared;
use asl_state_edges::Step;
use asl_states::State;
use asl_tree::OutOfMemory;
use std::alloc::Global;

/// What becomes of a round in which a state breaks a rule of its own.
#[derive(Clone, Copy)]
pub(crate) enum Strictness {
    /// It ends, and the rule is told.
    Strict,
    /// It goes on, and nothing flows on where the rule is broken.
    Lenient,
}

/// What is given: the machine and what is declared, with the numbers of the shapes of the tasks and of the input, and how
/// strict the rounds are.
#[derive(Drop)]
pub(crate) struct Given<'m> {
    alloc: Global,
    machine: &'m Machine,
    declared: &'m Declared,
    strictness: Strictness,
    tasks: Vec<TaskNumbers>,
    input: usize,
}

/// A state that is walked: its name, itself, and the numbers of its task's shapes.
#[derive(Clone, Copy)]
pub(crate) struct Row<'m> {
    name: &'m str,
    state: &'m State,
    task: TaskNumbers,
}

impl<'m> Given<'m> {
    /// What is given, with its shapes in that table.
    pub(crate) fn new(
        alloc: Global,
        machine: &'m Machine,
        declared: &'m Declared,
        strictness: Strictness,
        store: &mut Store,
    ) -> Result<Given<'m>, OutOfMemory>
        ensures given { IfOk result (IsGivenOf machine.now declared.now strictness store.new) }
        ensures keeps { Keeps store.old store.new }
    {
        let tasks = task_numbers(alloc, machine, declared, store)?;
        let input = store.add(&declared.input)?;
        Ok(Given {
            alloc,
            machine,
            declared,
            strictness,
            tasks,
            input,
        })
    }

    /// Takes rounds until one changes no shape. Refuses where all of them change one, and with the finding that a round
    /// tells.
    pub(crate) fn take_rounds(
        &self,
        max_rounds: u32,
        walker: &mut Walker,
    ) -> Result<(), InferRefusal>
        requires given { IsGiven walker.old.draft.store self.now }
        requires first { draft_view walker.old.draft ≡ first_draft (table_in self.now) }
        requires calm { AreCalm (table_in self.now) (declared_in self.now) walker.old }
        ensures settled { OnOk result
            (SettlesWhereDistinct self.now.strictness (table_in self.now) (declared_in self.now)
            max_rounds (draft_view walker.new.draft)) }
        ensures told { IfErr result
            (EndsWhereDistinct self.now.strictness (table_in self.now) (declared_in self.now)
            max_rounds) }
    {
        for _ in 0..max_rounds {
            let changed = self.take_round(walker)?;
            if !changed {
                return Ok(());
            }
        }
        Err(InferRefusal::NotSettled)
    }

    /// One round: what flows into the machine, and then out of each of the states that wait, in byte order of their
    /// names, is taken in. Says whether a shape was changed.
    fn take_round(&self, walker: &mut Walker) -> Result<bool, InferRefusal>
        requires given { IsGiven walker.old.draft.store self.now }
        requires calm { AreCalm (table_in self.now) (declared_in self.now) walker.old }
        ensures round { OnOk result
            (TakesRound self.now.strictness (table_in self.now) (declared_in self.now)
            (draft_view walker.old.draft) (draft_view walker.new.draft)) }
        ensures changed { IfOk result
            (λ changed. IsChanged (draft_view walker.old.draft) changed
            (draft_view walker.new.draft)) }
        ensures told { IfErr result
            (RoundTells self.now.strictness (table_in self.now) (declared_in self.now)
            (draft_view walker.old.draft)) }
        ensures calm { OnOk result
            (AreCalm (table_in self.now) (declared_in self.now) walker.new) }
        ensures keeps { Keeps walker.old.draft.store walker.new.draft.store }
    {
        let mut changed = self.take_input(walker)?;
        let mut from = 0;
        while let Some(turn) = walker.waiting.next(from) {
            if self.take_turn(turn.number, walker)? {
                changed = true;
            }
            from = turn.place + 1;
        }
        Ok(changed)
    }

    /// Takes the declared input into the start state's input, and says whether this changed it.
    fn take_input(&self, walker: &mut Walker) -> Result<bool, OutOfMemory>
        requires given { IsGiven walker.old.draft.store self.now }
        requires calm { AreCalm (table_in self.now) (declared_in self.now) walker.old }
        ensures takes { IfOk result
            (λ changed. Makes room (input_taken (table_in self.now) (declared_in self.now))
            (draft_view walker.old.draft) changed (draft_view walker.new.draft)) }
        ensures calm { OnOk result
            (AreCalm (table_in self.now) (declared_in self.now) walker.new) }
        ensures keeps { Keeps walker.old.draft.store walker.new.draft.store }
    {
        match self.machine.scope_of(0) {
            Some(scope) => walker.take(Target::Input(scope.start), self.input),
            None => Ok(false),
        }
    }

    /// Takes in what flows out of the state of that number if it waits, and says whether a shape was changed. A walk
    /// through one that doesn't wait would change nothing. One that breaks a rule of its own waits again.
    fn take_turn(&self, number: usize, walker: &mut Walker) -> Result<bool, InferRefusal>
        requires given { IsGiven walker.old.draft.store self.now }
        requires calm { AreCalm (table_in self.now) (declared_in self.now) walker.old }
        ensures walks { OnOk result
            (Walks self.now.strictness (table_in self.now) (declared_in self.now) number
            (draft_view walker.old.draft) (draft_view walker.new.draft)) }
        ensures changed { IfOk result
            (λ changed. IsChanged (draft_view walker.old.draft) changed
            (draft_view walker.new.draft)) }
        ensures told { IfErr result
            (WalkTells self.now.strictness (table_in self.now) (declared_in self.now) number
            (draft_view walker.old.draft)) }
        ensures calm { OnOk result
            (AreCalm (table_in self.now) (declared_in self.now) walker.new) }
        ensures order { walker.new.waiting.order ≡ walker.old.waiting.order }
        ensures keeps { Keeps walker.old.draft.store walker.new.draft.store }
    {
        if !walker.waiting.stop(number) {
            return Ok(false);
        }
        let Some(row) = self.row(number) else {
            return Ok(false);
        };
        let (steps, are_whole) = self.steps(number, &row, &mut walker.draft)?;
        let changed = walker.take_steps(self.machine, number, &steps)?;
        if are_whole {
            return Ok(changed);
        }
        walker.waiting.wake(number)?;
        Ok(changed)
    }

    /// The state of that number, with its name and the numbers of its task's shapes.
    fn row(&self, number: usize) -> Option<Row<'m>>
        requires { length self.now.tasks.items ≡ length (table_in self.now).states }
        ensures there { IfSome result (IsRowOf self.now number) }
        ensures none { IfNone result (IsNoRow (table_in self.now) number) }
    {
        let name = self.machine.name(number)?;
        let state = self.machine.state(number)?;
        let task = self.tasks.get(number)?;
        Some(Row {
            name,
            state,
            task: *task,
        })
    }

    /// The steps of the walk through the state of that number, and whether they are whole: they break no rule of its own,
    /// whatever is certified elsewhere. Strict rounds refuse where one is broken, with the first of them.
    fn steps(
        &self,
        number: usize,
        row: &Row<'m>,
        draft: &mut Draft,
    ) -> Result<(Vec<Step<'m>>, bool), InferRefusal>
        requires given { IsGiven draft.old.store self.now }
        requires row { IsRowOf self.now number row.now }
        ensures steps { IfOk result
            (λ found. AreStepsOf self.now.strictness (declared_in self.now)
            (row_view number row.now) (draft_view draft.old)
            draft.new.store found.0.items found.1) }
        ensures below { IfOk result
            (λ found. AreStepsBelow (length draft.new.store) found.0.items) }
        ensures told { IfErr result
            (WalkTells self.now.strictness (table_in self.now) (declared_in self.now) number
            (draft_view draft.old)) }
        ensures same { draft_view draft.new ≡ draft_view draft.old }
        ensures keeps { Keeps draft.old.store draft.new.store }
    {
        let steps = draft.edges(number, row.state, row.task.gives)?;
        let Some(breach) = first_broken(draft, &steps, row.task.takes)? else {
            return Ok((steps, true));
        };
        match self.strictness {
            Strictness::Strict => {
                Err(InferRefusal::Finding(finding(self.alloc, row.name, breach)?))
            }
            Strictness::Lenient => Ok((steps, false)),
        }
    }
}
