// The states of a definition as they are built, in the order of their numbers.

ghost use Rattle.std.specs.Prelude.{◌≡◌, ◌∷◌, [], OnOk};
ghost use Rattle.asl_model.specs.Machine as model;
ghost use Rattle.asl_model.specs.Numbering.{outline};
ghost use Rattle.asl_machine.specs.Built.{stands_at, Added};
ghost use Rattle.asl_states.specs.Machine.{state_view};

use asl_states::State;
use asl_tree::OutOfMemory;
use std::alloc::Global;

/// Where a state stands, by names.
#[derive(Clone, Copy)]
pub(crate) struct Home<'a> {
    /// The name of its scope's start state.
    pub(crate) start: &'a str,
    /// The name of the state that its scope belongs to and the number of the branch; none for the machine's own scope.
    pub(crate) owner: Option<(&'a str, usize)>,
}

/// A state as it is built: its name, and where it stands.
#[derive(Drop)]
pub(crate) struct BuiltState<'a> {
    pub(crate) name: String,
    pub(crate) state: State,
    pub(crate) home: Home<'a>,
}

/// Makes room for so many states more.
pub(crate) fn make_room(states: usize, built: &mut Vec<BuiltState>) -> Result<(), OutOfMemory>
    ensures same { built.new.items ≡ built.old.items }
{
    built.reserve(states)?;
    Ok(())
}

/// Adds a state of that name.
pub(crate) fn add_state<'a>(
    alloc: Global,
    name: &str,
    state: State,
    home: Home<'a>,
    built: &mut Vec<BuiltState<'a>>,
) -> Result<(), OutOfMemory>
    ensures { OnOk result ((s : model.State) → state_view state ≡ outline s
        → Added built.old.items built.new.items (stands_at home.entry name.now s ∷ [])) }
{
    built.push(BuiltState {
        name: String::from_str(alloc, name)?,
        state,
        home,
    })?;
    Ok(())
}
