//! A certificate in the making: its shapes, which grow as the machine's states are walked.

ghost use Rattle.asl_drafts.specs.Growing.{AreGrown, IsGrown};

use crate::certificate::certified_states;
use crate::entries::{DraftEntry, EntryNumbers, Part, entry_in, new_entries, take_in_entries};
use crate::growing::Growing;
use crate::store::Store;
use asl_machine_table::Machine;
use asl_numbered::Node;
use asl_records::{NumberedCertificate, StateNumbers};
use asl_shape_paths::DoubtfulPath;
use asl_state_edges::Step;
use asl_states::State;
use asl_tree::{OutOfMemory, Tree};
use std::alloc::Global;
use std::collections::BTreeMap;

/// A shape of a draft, by the numbers of states and of their children.
#[derive(Clone, Copy, PartialEq, Eq, Hash)]
pub enum Target {
    /// That of the machine's output.
    MachineOutput,
    /// That of a state's input.
    Input(usize),
    /// That of a state's output.
    Output(usize),
    /// That of the end of a child of a state.
    End { state: usize, child: usize },
}

impl Target {
    ghost use Rattle.std.specs.Prelude.{◌≡◌};
    ghost use Rattle.asl_drafts.specs.Drafted.{part_of};

    /// The state whose entry has the shape, and which of the entry's it is.
    fn part(self) -> Option<(usize, Part)>
        ensures { result ≡ part_of self }
    {
        match self {
            Target::MachineOutput => None,
            Target::Input(state) => Some((state, Part::Input)),
            Target::Output(state) => Some((state, Part::Output)),
            Target::End { state, child } => Some((state, Part::End(child))),
        }
    }
}

/// The shapes of a certificate, so far.
#[derive(Drop)]
pub struct Draft {
    store: Store,
    /// The machine's output.
    output: Growing,
    /// Each state's shapes, by its number.
    entries: Vec<DraftEntry>,
    ghost output_grown: { IsGrown store output },
    ghost entries_grown: { AreGrown store entries.items },
}

impl Draft {
    ghost use Rattle.std.specs.Prelude.{◌≡◌, ◌≢◌, ◌<◌, false, length, option_map, true, IfOk, IfSome, Some};
    ghost use Rattle.asl_model.specs.Edges.{walk};
    ghost use Rattle.asl_model.specs.Examples as examples;
    ghost use Rattle.asl_model.specs.Missing as missing;
    ghost use Rattle.asl_model.specs.RecordShapes.{HoldsForCertificate};
    ghost use Rattle.asl_model.specs.Shape.{Never};
    ghost use Rattle.asl_model.specs.ShapeSpelling.{are_distinct};
    ghost use Rattle.asl_draft_laws.specs.Drafts.{certificate_of, first_draft, taken_at};
    ghost use Rattle.asl_tree.specs.View.{view as tree_view};
    ghost use Rattle.asl_shape_paths.specs.Doubts.{doubtful_view};
    ghost use Rattle.asl_state_edges.specs.View.{steps_of, AreStepsBelow};
    ghost use Rattle.asl_states.specs.Machine.{kind_view, settings_view};
    ghost use Rattle.asl_machine_table.specs.Table.{table_view};
    ghost use Rattle.asl_numbered.specs.Expansion.{shape_at, Keeps, Shows};
    ghost use Rattle.asl_records.specs.Numbered.{numbered_view, AreWithin};
    ghost use Rattle.asl_drafts.specs.Cutting.{IsShallow};
    ghost use Rattle.asl_drafts.specs.Drafted.{draft_view, growing_of, numbers_at, room, shapes_of, target_view};
    ghost use Rattle.asl_drafts.specs.Entries.{Makes, numbers_seen};

    /// The draft of a machine over that table: no tree has any of its shapes.
    pub fn new(machine: &Machine, store: Store) -> Result<Draft, OutOfMemory>
        ensures first { IfOk result
            (λ draft. draft_view draft ≡ first_draft (table_view machine.now)) }
        ensures keeps { IfOk result (λ draft. Keeps store draft.store) }
    {
        let mut store = store;
        let never = store.put(Node::Never)?;
        let entries = new_entries(store.alloc, machine, Growing::new(never))?;
        Ok(Draft {
            store,
            output: Growing::new(never),
            entries,
        })
    }

    /// The steps of the walk through the state of that number, for what its task gives: its edges, and the rules that are
    /// broken on the way to one.
    pub fn edges<'m>(
        &mut self,
        number: usize,
        state: &'m State,
        gives: usize,
    ) -> Result<Vec<Step<'m>>, OutOfMemory>
        requires { gives < length self.old.store }
        ensures walked { IfOk result
            (λ steps. steps_of self.new.store steps.items ≡ walk (shape_at self.old.store gives)
            (settings_view state.now.settings) (kind_view state.now.kind)
            (shapes_of (draft_view self.old) number (kind_view state.now.kind))) }
        ensures below { IfOk result
            (λ steps. AreStepsBelow (length self.new.store) steps.items) }
        ensures same { draft_view self.new ≡ draft_view self.old }
        ensures keeps { Keeps self.old.store self.new.store }
    {
        let never = self.never()?;
        let numbers = self.numbers(number, never)?;
        let entry = entry_in(&state.kind, &numbers);
        self.store.edges(state, entry, gives)
    }

    /// Where the draft takes memory.
    pub(crate) fn alloc(&self) -> Global {
        self.store.alloc
    }

    /// The numbers of the shapes of the state of that number. Where it has no entry, these are the one of the shape that
    /// no tree has, and no ends.
    pub(crate) fn numbers(&self, number: usize, never: usize) -> Result<EntryNumbers, OutOfMemory>
        ensures { IfOk result
            (λ numbers. numbers_seen numbers ≡ numbers_at self.now number never) }
    {
        let alloc = self.store.alloc;
        match self.entries.get(number) {
            Some(entry) => entry.numbers(alloc),
            None => Ok(EntryNumbers {
                input: never,
                output: never,
                ends: Vec::new(alloc),
            }),
        }
    }

    /// A tree of the first number's shape that lacks the second's; `None` where every tree of the first has the second.
    /// Refuses only where an allocation was refused.
    pub fn outside(&mut self, inner: usize, outer: usize) -> Result<Option<Tree>, OutOfMemory>
        requires inner { inner < length self.old.store }
        requires outer { outer < length self.old.store }
        ensures as_defined { IfOk result
            (λ tree. option_map tree_view tree ≡ examples.outside (shape_at self.old.store inner)
            (shape_at self.old.store outer)) }
        ensures same { draft_view self.new ≡ draft_view self.old }
        ensures kept { self.new.store ≡ self.old.store }
    {
        self.store.outside(inner, outer)
    }

    /// A tree that shows the path to be doubtful: one of the shape of its number, in which it names nothing. `None` where it
    /// names something in every tree of that shape. It may leave further shapes in the table. Refuses only where an
    /// allocation was refused.
    pub fn counterexample(&mut self, path: DoubtfulPath) -> Result<Option<Tree>, OutOfMemory>
        requires { path.shape < length self.old.store }
        ensures as_defined { IfOk result
            (λ tree. option_map tree_view tree
            ≡ missing.counterexample (doubtful_view self.old.store path.entry)) }
        ensures same { draft_view self.new ≡ draft_view self.old }
        ensures keeps { Keeps self.old.store self.new.store }
    {
        self.store.counterexample(path)
    }

    /// Takes in what flows into one of the shapes, and says whether this changed it. A shape that isn't there stays so.
    pub fn take(&mut self, target: Target, flowing: usize) -> Result<bool, OutOfMemory>
        requires { flowing < length self.old.store }
        ensures takes { IfOk result
            (λ changed. Makes room
            (taken_at (Some (target_view target)) (shape_at self.old.store flowing))
            (draft_view self.old) changed (draft_view self.new)) }
        ensures keeps { Keeps self.old.store self.new.store }
    {
        match target.part() {
            None => self.output.take(&mut self.store, flowing),
            Some((state, part)) => {
                take_in_entries(&mut self.store, &mut self.entries, state, part, flowing)
            }
        }
    }

    /// Whether one of the shapes would be changed by what flows into it. A shape that isn't there isn't changed, and
    /// neither is one by a number that no shape has.
    pub fn would_change(&mut self, target: Target, flowing: usize) -> Result<bool, OutOfMemory>
        ensures stays { IfOk result
            (λ changed. changed ≡ false → flowing < length self.old.store
            → taken_at (Some (target_view target)) (shape_at self.old.store flowing)
            (draft_view self.old) ≡ draft_view self.old) }
        ensures changes { IfOk result
            (λ changed. changed ≡ true → (flowing < length self.old.store)
            × (taken_at (Some (target_view target)) (shape_at self.old.store flowing)
            (draft_view self.old) ≢ draft_view self.old)) }
        ensures same { draft_view self.new ≡ draft_view self.old }
        ensures keeps { Keeps self.old.store self.new.store }
    {
        let Some(growing) = self.growing(target) else {
            return Ok(false);
        };
        if !self.store.has(flowing) {
            return Ok(false);
        }
        let mut changed = growing;
        changed.take(&mut self.store, flowing)
    }

    /// The certificate that the draft has come to.
    pub fn certificate(self, machine: &Machine) -> Result<NumberedCertificate, OutOfMemory>
        ensures same { IfOk result
            (λ certificate. are_distinct (table_view machine.now).names ≡ true
            → numbered_view certificate
            ≡ certificate_of (table_view machine.now) (draft_view self)) }
        ensures within { IfOk result AreWithin }
        ensures shallow { IfOk result
            (λ certificate. HoldsForCertificate IsShallow (numbered_view certificate)) }
    {
        let mut draft = self;
        let never = draft.never()?;
        let states = certified_states(machine, &draft, never)?;
        Ok(draft.with_states(states))
    }

    /// The certificate with those entries.
    fn with_states(self, states: BTreeMap<String, StateNumbers>) -> NumberedCertificate
        ensures { result
            ≡ record { shapes = self.store; output = self.output.number; states = states } }
    {
        NumberedCertificate {
            shapes: self.store.into_shapes(),
            output: self.output.number,
            states,
        }
    }

    /// The number of the shape that no tree has.
    fn never(&mut self) -> Result<usize, OutOfMemory>
        ensures number { IfOk result (Shows self.new.store Never) }
        ensures same { draft_view self.new ≡ draft_view self.old }
        ensures keeps { Keeps self.old.store self.new.store }
    {
        self.store.put(Node::Never)
    }

    /// The shape, so far, where it is there.
    fn growing(&self, target: Target) -> Option<Growing>
        ensures grown { IfSome result (IsGrown self.now.store) }
        ensures there { result ≡ growing_of self.now target }
    {
        match target.part() {
            None => Some(self.output),
            Some((state, part)) => self.entries.get(state)?.growing(part),
        }
    }
}
