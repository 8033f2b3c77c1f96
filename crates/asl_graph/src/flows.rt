//! What flows along the lines between states.

ghost use Rattle.asl_records.specs.Numbered.{AreWithin};

use crate::words::cut;
use asl_machine_table::Machine;
use asl_notation::{Limits, note};
use asl_numbered::Shapes;
use asl_records::{Declared, NumberedCertificate};
use asl_tree::OutOfMemory;
use asl_ways::{Arrival, Exit, arrivals};
use std::alloc::Global;
use std::collections::BTreeMap;

/// How much is told of a shape.
const LIMITS: Limits = Limits { depth: 2, width: 6 };

/// How many characters of a shape are told.
const MOST: usize = 60;

/// How data leaves a state, as [`Exit`] tells it, in an order of all that it may tell.
#[derive(Clone, Copy, PartialEq, Eq, PartialOrd, Ord)]
enum Way {
    Next,
    Rule(usize),
    Default,
    Catcher(usize),
    Branch(usize),
    Items,
}

impl Way {
    /// The way through an exit.
    fn through(exit: Exit) -> Way {
        match exit {
            Exit::Next => Way::Next,
            Exit::Rule(number) => Way::Rule(number),
            Exit::Default => Way::Default,
            Exit::Catcher(number) => Way::Catcher(number),
            Exit::Branch(number) => Way::Branch(number),
            Exit::Items => Way::Items,
        }
    }
}

/// The state of that number with a way that leads out of it.
#[derive(Clone, Copy, PartialEq, Eq, PartialOrd, Ord)]
struct Leaving {
    state: usize,
    way: Way,
}

impl Leaving {
    /// The state with the way through an exit.
    fn through(state: usize, exit: Exit) -> Leaving {
        let way = Way::through(exit);
        Leaving { state, way }
    }
}

/// The numbers of the shapes of what flows into the machine and between its states.
#[derive(Drop)]
pub(crate) struct Flows {
    /// Into the start state.
    input: Option<usize>,
    along: BTreeMap<Leaving, usize>,
}

impl Flows {
    /// Nothing is known.
    pub(crate) fn unknown(alloc: Global) -> Flows {
        Flows {
            input: None,
            along: BTreeMap::new(alloc),
        }
    }

    /// The flows under a certificate. Further shapes may stand in its table afterwards.
    pub(crate) fn find(
        alloc: Global,
        machine: &Machine,
        declared: &Declared,
        certificate: &mut NumberedCertificate,
    ) -> Result<Flows, OutOfMemory>
        requires { AreWithin certificate.old }
    {
        let all = arrivals(alloc, machine, declared, certificate)?;
        let mut flows = Flows::unknown(alloc);
        for arrival in &all {
            flows.add(&mut certificate.shapes, arrival)?;
        }
        Ok(flows)
    }

    /// Adds what comes to a state. What comes along one line several times is joined.
    fn add(&mut self, shapes: &mut Shapes, arrival: &Arrival) -> Result<(), OutOfMemory> {
        let Some(origin) = arrival.origin else {
            self.input = Some(arrival.shape);
            return Ok(());
        };
        let leaving = Leaving::through(origin.state, origin.exit);
        let shape = match self.along.get(&leaving) {
            Some(other) => shapes.join(*other, arrival.shape)?.unwrap_or(*other),
            None => arrival.shape,
        };
        self.along.insert(leaving, shape)?;
        Ok(())
    }

    /// The machine's input in short notation, where it is known and there is any.
    pub(crate) fn input_text(
        &self,
        alloc: Global,
        shapes: &Shapes,
    ) -> Result<Option<String>, OutOfMemory> {
        noted(alloc, shapes, self.input)
    }

    /// What flows from the state of that number through an exit in short notation, where anything is known to.
    pub(crate) fn text_along(
        &self,
        alloc: Global,
        shapes: &Shapes,
        state: usize,
        exit: Exit,
    ) -> Result<Option<String>, OutOfMemory> {
        let shape = self.along.get(&Leaving::through(state, exit)).copied();
        noted(alloc, shapes, shape)
    }
}

/// The shape of that number in short notation; none where no data is of it.
fn noted(
    alloc: Global,
    shapes: &Shapes,
    number: Option<usize>,
) -> Result<Option<String>, OutOfMemory> {
    match number {
        Some(number) if shapes.inhabited(number) != Some(false) => {
            let text = note(alloc, shapes, number, LIMITS)?;
            Ok(Some(cut(alloc, &text, MOST)?))
        }
        Some(_) | None => Ok(None),
    }
}
