//! The states that a state's fields name.

ghost use Rattle.std.specs.Prelude.{◌≡◌, map, string_bytes};
ghost use Rattle.asl_states.specs.Numbered.{IsNumbered};

use indexmap::IndexSet;

/// A state that a field names: its name, and its number in the machine's table.
#[derive(Drop)]
pub struct Target {
    pub name: String,
    pub number: usize,
}

impl Target {
    /// The state of that name. Its number is 0 until a machine is made of the states, which finds it.
    pub fn new(name: String) -> Target
        ensures name { result.name ≡ name }
    {
        Target { name, number: 0 }
    }

    /// Finds its number by its name among those of the table.
    pub(crate) fn find(&mut self, names: &IndexSet<String>)
        ensures name { self.new.name ≡ self.old.name }
        ensures number { IsNumbered (map string_bytes names.now.keys) self.new }
    {
        if let Some(number) = names.get_index_of(self.name.as_str()) {
            self.number = number;
        }
    }
}
