//! Driving a run: its places take turns, in an order, and a source answers its tasks.

ghost use Rattle.std.specs.Prelude.{◌≡◌, ℕ, List, [], map, Option, None, IfOk, IfErr, OnOk};
ghost use Rattle.asl_machine_table.specs.Table.{scope_in};
ghost use Rattle.asl_model.specs.Run as model;
ghost use Rattle.asl_model.specs.Tree as trees;
ghost use Rattle.asl_run.specs.Driving.{policy_of, stage_of, Drives, Stops, BreaksOff, answer_in, unused};
ghost use Rattle.asl_run.specs.Driving.{ComesNext, EndsSo, IsLeft, IsPicked, IsTold, IsUnanswered};
ghost use Rattle.asl_run.specs.Driving.{Pauses, Suits, TurnIsUnanswered};
ghost use Rattle.asl_run.specs.Entries.{entry_view, event_view};
ghost use Rattle.asl_run.specs.Nodes.{shown_at};
ghost use Rattle.asl_run.specs.Running.{run_view, scope_of, step_of};
ghost use Rattle.asl_run.specs.Standing.{StandsIn};
ghost use Rattle.std.specs.Option.{IsSome};

use crate::answers::Answers;
use crate::entries::{Answer, Entry, Event, Outcome, Place};
use crate::nodes::Nodes;
use crate::orders::Order;
use crate::running::Run;
use crate::waiting::waiting_at;
use asl_machine_table::Machine;
use asl_tree::OutOfMemory;

/// How many entries a step makes at most.
const MOST_ENTRIES: usize = 4;

/// Why driving stops.
#[derive(Clone, Copy, Debug, PartialEq, Drop)]
pub enum Stop {
    /// The run has ended with an output.
    Output,
    /// The run has failed.
    Failed,
    /// The source has no answer for the state of that number.
    NoAnswer(usize),
    /// As many events were taken as there may be.
    StepsSpent,
}

/// Driving was broken off by want of memory: the run stands after the events that its trace tells.
#[derive(Drop)]
pub struct DriveRefusal<'m> {
    pub trace: Vec<Entry<'m>>,
    /// The answer that was taken from the source and not used.
    pub answer: Option<Answer>,
}

/// Why a turn has no event.
#[derive(Drop)]
pub(crate) enum Pause {
    /// The source has no answer for the state of that number.
    NoAnswer(usize),
    /// An allocation was refused, with the answer that was taken from the source and not used.
    OutOfMemory(Option<Answer>),
}

/// Drives the run until it has ended, until `max_steps` events were taken, or until the place whose turn it is
/// waits and the source has no answer for it. It tells what has happened.
///
/// Refused: want of memory.
pub fn drive<'m, O: Order, A: Answers>(
    run: &mut Run<'m>,
    order: &mut O,
    answers: &mut A,
    max_steps: u64,
) -> Result<(Stop, Vec<Entry<'m>>), DriveRefusal<'m>>
    ensures machine { run.new.machine ≡ run.old.machine }
    ensures stops { let policy = policy_of (O.may_pick order.old) (A.may_give answers.old)
        (A.may_be_silent answers.old answers.new) in
        IfOk result (λ driven. Stops policy (scope_of run.old) max_steps
        (stage_of (run_view run.old) (A.content answers.old) []) driven.0
        (stage_of (run_view run.new) (A.content answers.new)
        (map entry_view driven.1.items))) }
    ensures broken_off { let policy = policy_of (O.may_pick order.old) (A.may_give answers.old)
        (A.may_be_silent answers.old answers.new) in
        IfErr result (λ refusal. BreaksOff policy (scope_of run.old) max_steps
        (stage_of (run_view run.old) (A.content answers.old) []) refusal.answer
        (stage_of (run_view run.new) (A.content answers.new)
        (map entry_view refusal.trace.items))) }
    ensures lasting_order { (n : ℕ) (k : ℕ) → O.may_pick order.new n k → O.may_pick order.old n k }
    ensures lasting { (n : List ℕ) (t : trees.Tree) (answer : model.Action)
        → A.may_give answers.new n t answer → A.may_give answers.old n t answer }
    ensures lasting_silent { (later : A) (n : List ℕ) (t : trees.Tree)
        → A.may_be_silent answers.new later n t → A.may_be_silent answers.old later n t }
{
    run.stands();
    let mut trace = Vec::new(run.alloc);
    'turns: for _taken in 0..max_steps {
        if let Some(stop) = how_ended(run) {
            return Ok((stop, trace));
        }
        match turn(run, order, answers, &mut trace) {
            Ok(()) => {}
            Err(Pause::NoAnswer(state)) => return Ok((Stop::NoAnswer(state), trace)),
            Err(Pause::OutOfMemory(answer)) => return Err(DriveRefusal { trace, answer }),
        }
    }
    match how_ended(run) {
        Some(stop) => Ok((stop, trace)),
        None => Ok((Stop::StepsSpent, trace)),
    }
}

/// How a run has ended; none while it goes on.
fn how_ended(run: &Run) -> Option<Stop>
    ensures { EndsSo result (model.outcome_of (run_view run.now)) }
{
    match run.outcome() {
        Some(Outcome::Output(_)) => Some(Stop::Output),
        Some(Outcome::Failed { .. }) => Some(Stop::Failed),
        None => None,
    }
}

/// One turn of a run that hasn't ended: an event at the place whose turn it is, which the trace tells.
///
/// Refused: no answer of the source, or want of memory; the run and the trace stay.
fn turn<'m, O: Order, A: Answers>(
    run: &mut Run<'m>,
    order: &mut O,
    answers: &mut A,
    trace: &mut Vec<Entry<'m>>,
) -> Result<(), Pause>
    requires goes_on { model.outcome_of (run_view run.old) ≡ None }
    ensures machine { run.new.machine ≡ run.old.machine }
    ensures goes_on { let policy = policy_of (O.may_pick order.old) (A.may_give answers.old)
        (A.may_be_silent answers.old answers.new) in
        OnOk result (Drives policy (scope_of run.old) 1
        (stage_of (run_view run.old) (A.content answers.old) (map entry_view trace.old.items))
        (stage_of (run_view run.new) (A.content answers.new)
        (map entry_view trace.new.items))) }
    ensures pauses { let policy = policy_of (O.may_pick order.old) (A.may_give answers.old)
        (A.may_be_silent answers.old answers.new) in
        IfErr result (λ pause. Pauses (TurnIsUnanswered policy (scope_of run.old) (run_view run.old))
        run.old.machine.names (A.content answers.old) (A.content answers.new) pause) }
    ensures stays { IfErr result (λ _. IsLeft (run_view run.old) (map entry_view trace.old.items)
        (run_view run.new) (map entry_view trace.new.items)) }
    ensures lasting_order { (n : ℕ) (k : ℕ) → O.may_pick order.new n k → O.may_pick order.old n k }
    ensures lasting { (n : List ℕ) (t : trees.Tree) (answer : model.Action)
        → A.may_give answers.new n t answer → A.may_give answers.old n t answer }
    ensures lasting_silent { (later : A) (n : List ℕ) (t : trees.Tree)
        → A.may_be_silent answers.new later n t → A.may_be_silent answers.old later n t }
{
    run.stands();
    let place = match picked_place(run, order) {
        Ok(place) => place,
        Err(OutOfMemory) => return Err(Pause::OutOfMemory(None)),
    };
    let event = match next_event(run.machine, run.standing.nodes(), answers, place) {
        Ok(event) => event,
        Err(pause) => return Err(pause),
    };
    match take(run, event, trace) {
        Ok(()) => Ok(()),
        Err(answer) => Err(Pause::OutOfMemory(answer)),
    }
}

/// The place whose turn it is, of those where an event is enabled, of a run that hasn't ended.
fn picked_place<O: Order>(run: &Run, order: &mut O) -> Result<Place, OutOfMemory>
    requires goes_on { model.outcome_of (run_view run.now) ≡ None }
    ensures picked { IfOk result (λ place.
        IsPicked (O.may_pick order.old) (scope_of run.now) (run_view run.now) place.items) }
    ensures lasting { (n : ℕ) (k : ℕ) → O.may_pick order.new n k → O.may_pick order.old n k }
{
    run.stands();
    let count = run.standing.open_count();
    let picked = order.pick(count);
    if picked == 0 {
        return run.standing.first_open(run.alloc);
    }
    if picked == count - 1 {
        return run.standing.last_open(run.alloc);
    }
    let mut places = run.open_places()?;
    let (place, _) = places.swap_remove(picked);
    Ok(place)
}

/// The next event at the place: an answer of the source where a task waits, else a move.
fn next_event<A: Answers>(
    machine: &Machine,
    nodes: &Nodes,
    answers: &mut A,
    place: Place,
) -> Result<Event, Pause>
    ensures place { IfOk result (λ event. (event_view event).place ≡ place.items) }
    ensures next { IfOk result (λ event. ComesNext (A.may_give answers.old)
        (shown_at machine.now.names nodes.now 0) (A.content answers.old)
        (event_view event) (A.content answers.new)) }
    ensures suited { let a = shown_at machine.now.names nodes.now 0 in
        StandsIn a (scope_in machine.now) → IfOk result (λ event.
        Suits (model.activity_at (event_view event).place a) (event_view event).action) }
    ensures pauses { let names = machine.now.names in
        let Unanswered = IsUnanswered (A.may_be_silent answers.old answers.new) place.items
        (shown_at names nodes.now 0) in
        IfErr result (λ pause.
        Pauses Unanswered names (A.content answers.old) (A.content answers.new) pause) }
    ensures lasting { (n : List ℕ) (t : trees.Tree) (answer : model.Action)
        → A.may_give answers.new n t answer → A.may_give answers.old n t answer }
    ensures lasting_silent { (later : A) (n : List ℕ) (t : trees.Tree)
        → A.may_be_silent answers.new later n t → A.may_be_silent answers.old later n t }
{
    let Some(asked) = waiting_at(machine, nodes, &place) else {
        return Ok(Event::Move(place));
    };
    match answers.next(asked.name, asked.payload) {
        Ok(Some(answer)) => Ok(Event::Answers(place, answer)),
        Ok(None) => Err(Pause::NoAnswer(asked.state)),
        Err(OutOfMemory) => Err(Pause::OutOfMemory(None)),
    }
}

/// Takes the event, which is enabled and which the trace tells.
///
/// Refused: want of memory, with the event's answer; the run and the trace stay.
fn take<'m>(
    run: &mut Run<'m>,
    event: Event,
    trace: &mut Vec<Entry<'m>>,
) -> Result<(), Option<Answer>>
    requires enabled { IsSome (step_of run.old event) }
    ensures machine { run.new.machine ≡ run.old.machine }
    ensures taken { OnOk result (IsTold (scope_of run.old) (run_view run.old) (event_view event)
        (map entry_view trace.old.items) (map entry_view trace.new.items) (run_view run.new)) }
    ensures stays { IfErr result (λ _. IsLeft (run_view run.old) (map entry_view trace.old.items)
        (run_view run.new) (map entry_view trace.new.items)) }
    ensures returned { IfErr result
        (λ answer. unused answer ≡ answer_in (event_view event).action) }
{
    let Ok(()) = trace.reserve(MOST_ENTRIES) else {
        return Err(answer_of(event));
    };
    match run.step(event) {
        Ok(mut entries) => match trace.append(&mut entries) {
            Ok(()) => Ok(()),
            Err(_) => Err(None),
        },
        // The event is enabled, so an allocation was refused.
        Err((_, event)) => Err(answer_of(event)),
    }
}

/// The answer that an event is; a move is none.
fn answer_of(event: Event) -> Option<Answer>
    ensures { unused result ≡ answer_in (event_view event).action }
{
    match event {
        Event::Move(_) => None,
        Event::Answers(_, answer) => Some(answer),
    }
}
