//! The entries of the certificate that a draft has come to.

ghost use Rattle.std.specs.Prelude.{◌<◌, length, suc, IfOk, OnOk};
ghost use Rattle.asl_model.specs.Shape.{Never};
ghost use Rattle.asl_numbered.specs.Expansion.{Shows};
ghost use Rattle.asl_states.specs.Machine.{kind_view};
ghost use Rattle.asl_machine_table.specs.Table.{table_view};
ghost use Rattle.asl_drafts.specs.Certified.{AreCertified, AreNumbersOf, IsCertified};

use crate::draft::Draft;
use crate::entries::entry_in;
use asl_machine_table::Machine;
use asl_records::StateNumbers;
use asl_state_edges::Entry;
use asl_states::Kind;
use asl_tree::OutOfMemory;
use std::alloc::Global;
use std::collections::BTreeMap;

/// The entries of the machine's states by their names. The number is that of the shape that no tree has.
pub(crate) fn certified_states(
    machine: &Machine,
    draft: &Draft,
    never: usize,
) -> Result<BTreeMap<String, StateNumbers>, OutOfMemory>
    requires { Shows draft.now.store Never never }
    ensures { IfOk result
        (λ states. AreCertified (table_view machine.now) draft.now 0 states.entries) }
{
    let alloc = draft.alloc();
    let mut states = BTreeMap::new(alloc);
    let count = machine.states();
    for passed in 0..count {
        add_state(
            alloc,
            machine,
            draft,
            never,
            count - passed - 1,
            &mut states,
        )?;
    }
    Ok(states)
}

/// Adds the entry of the state of that number, if it has a name.
fn add_state(
    alloc: Global,
    machine: &Machine,
    draft: &Draft,
    never: usize,
    number: usize,
    states: &mut BTreeMap<String, StateNumbers>,
) -> Result<(), OutOfMemory>
    requires never { Shows draft.now.store Never never }
    requires within { number < length (table_view machine.now).states }
    ensures { OnOk result
        (AreCertified (table_view machine.now) draft.now (suc number) states.old.entries
        → AreCertified (table_view machine.now) draft.now number states.new.entries) }
{
    if let Some(name) = machine.name(number) {
        let state = machine.state(number).unwrap();
        let name = String::from_str(alloc, name)?;
        let numbers = certified(alloc, draft, never, number, &state.kind)?;
        drop(states.insert(name, numbers)?);
    }
    Ok(())
}

/// The entry of the state of that number, which has that type.
fn certified(
    alloc: Global,
    draft: &Draft,
    never: usize,
    number: usize,
    kind: &Kind,
) -> Result<StateNumbers, OutOfMemory>
    requires { Shows draft.now.store Never never }
    ensures { IfOk result (IsCertified draft.now number (kind_view kind.now)) }
{
    let numbers = draft.numbers(number, never)?;
    let entry = entry_in(kind, &numbers);
    numbers_of_entry(alloc, entry)
}

/// The numbers of an entry.
fn numbers_of_entry(alloc: Global, entry: Entry) -> Result<StateNumbers, OutOfMemory>
    ensures { IfOk result (AreNumbersOf entry.entry) }
{
    Ok(StateNumbers {
        input: entry.input,
        output: entry.output,
        branches: Vec::from_slice(alloc, entry.branches)?,
        item: entry.item,
    })
}
