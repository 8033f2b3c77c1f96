//! Where what has flowed into the shapes of a draft came from.

ghost use Rattle.std.specs.Prelude.{◌≡◌, ◌≢◌, ℕ, Contains, IfOk, None, OnOk, Some};
ghost use mathlib.Core.Logic.{◌⊎◌};
ghost use Rattle.asl_drafts.specs.Predecessors.{flowed};
ghost use Rattle.asl_drafts.specs.declared.draft.Target.{Target as Into};
ghost use Rattle.asl_drafts.specs.declared.predecessors.Origin.{Origin as From};

use crate::draft::Target;
use asl_tree::OutOfMemory;
use indexmap::IndexMap;
use std::alloc::Global;
use std::collections::BTreeMap;

/// An edge of a state: the state's number, and the edge's place among the steps of the walk through it.
#[derive(Clone, Copy, PartialEq, Eq, PartialOrd, Ord)]
pub struct Origin {
    pub state: usize,
    pub place: usize,
}

/// What flowed out of the state of that number: the number of a shape.
#[derive(Clone, Copy)]
pub struct Inflow {
    pub state: usize,
    pub flowing: usize,
}

/// For each shape of a draft that an edge has led to, the number of the shape that flowed last along each such edge.
#[derive(Drop)]
pub struct Predecessors {
    alloc: Global,
    inflows: IndexMap<Target, BTreeMap<Origin, usize>>,
}

impl Predecessors {
    /// Nothing has flowed yet.
    pub fn new(alloc: Global) -> Predecessors
        ensures none { (into : Into) (from : From) → flowed result into from ≡ None }
    {
        Predecessors {
            alloc,
            inflows: IndexMap::new(alloc),
        }
    }

    /// A shape of that number flows along the edge.
    pub fn add(&mut self, target: Target, origin: Origin, flowing: usize) -> Result<(), OutOfMemory>
        ensures here { OnOk result (flowed self.new target origin ≡ Some flowing) }
        ensures elsewhere { OnOk result
            ((into : Into) (from : From) → (into ≢ target) ⊎ (from ≢ origin)
            → flowed self.new into from ≡ flowed self.old into from) }
    {
        match self.inflows.get_mut(&target) {
            Some(inflows) => {
                drop(inflows.insert(origin, flowing)?);
            }
            None => {
                let mut inflows = BTreeMap::new(self.alloc);
                drop(inflows.insert(origin, flowing)?);
                drop(self.inflows.insert(target, inflows)?);
            }
        }
        Ok(())
    }

    /// All that flowed into that shape.
    pub fn inflows(&self, target: Target) -> Result<Vec<Inflow>, OutOfMemory>
        ensures all { IfOk result
            (λ found. (from : From) (n : ℕ) → flowed self.now target from ≡ Some n
            → Contains found.items (record { state = from.state; flowing = n })) }
    {
        let mut found = Vec::new(self.alloc);
        if let Some(inflows) = self.inflows.get(&target) {
            for (origin, flowing) in inflows.iter() {
                found.push(Inflow {
                    state: origin.state,
                    flowing: *flowing,
                })?;
            }
        }
        Ok(found)
    }
}
