// Numbering the states of a definition: the table of the rows that were built.

ghost use Rattle.std.specs.Prelude.{◌≡◌, ◌++◌, ◌∷◌, [], List, map, string_bytes, IfOk, IfErr, OnOk, false, string_eq};
ghost use Rattle.std.specs.List.{list_any};
ghost use Rattle.asl_model.specs.Numbering.{Standing, table_among};
ghost use Rattle.asl_model.specs.StandsFor.{duplicate_complaints, number_complaints};
ghost use Rattle.asl_fields.specs.Verdicts.{IsAmong};
ghost use Rattle.asl_machine.specs.Numbered.{home_view, number_in, placed_in, placed_view, names_of_all, Holds, names_of_rows};
ghost use Rattle.asl_states.specs.Machine.{scope_view};
ghost use Rattle.asl_machine.specs.Built.{built_view};
ghost use Rattle.asl_fields.specs.View.{refusal_view};

use crate::building::{BuiltState, Home};
use asl_fields::{DefFault, DefRefusal};
use asl_states::{Scope, State};
use asl_tree::OutOfMemory;
use indexmap::IndexSet;
use std::alloc::Global;

/// How many states a machine may have.
pub(crate) const MOST_STATES: usize = 10000;

/// The states numbered so far: the names and the states by number, and where each stands.
#[derive(Drop)]
pub(crate) struct Numbered<'a> {
    names: IndexSet<String>,
    states: Vec<State>,
    homes: Vec<Home<'a>>,
}

/// The names and the states by number, and where each stands by the numbers of others.
#[derive(Drop)]
pub(crate) struct Placed {
    pub(crate) names: IndexSet<String>,
    pub(crate) states: Vec<State>,
    pub(crate) scopes: Vec<Scope>,
}

/// The table of those rows, in their order. Refuses where a name stands twice, and more states than the limit.
pub(crate) fn number(alloc: Global, rows: Vec<BuiltState>) -> Result<Placed, DefRefusal>
    ensures table { IfOk result
        (λ placed. placed_view placed ≡ table_among (map built_view rows.entry.items)) }
    ensures distinct { IfOk result
        (λ _. duplicate_complaints (names_of_rows rows.entry.items) ≡ []) }
    ensures few { IfOk result (λ _. number_complaints (names_of_rows rows.entry.items) ≡ []) }
    ensures refused { IfErr result (λ e. IsAmong
        (duplicate_complaints (names_of_rows rows.entry.items)
        ++ number_complaints (names_of_rows rows.entry.items))
        (refusal_view e)) }
{
    if rows.len() > MOST_STATES {
        return Err(DefRefusal::new(alloc, DefFault::TooLarge, "", "States"));
    }
    let numbered = number_all(alloc, rows)?;
    match place_all(alloc, &numbered.names, &numbered.homes) {
        Ok(scopes) => Ok(Placed {
            names: numbered.names,
            states: numbered.states,
            scopes,
        }),
        Err(_) => Err(DefRefusal::out_of_memory(alloc)),
    }
}

/// The states of those rows, in their order.
fn number_all<'a>(alloc: Global, rows: Vec<BuiltState<'a>>) -> Result<Numbered<'a>, DefRefusal>
    ensures numbered { IfOk result (λ n. Holds (map built_view rows.entry.items) n) }
    ensures refused { IfErr result
        (λ e. IsAmong (duplicate_complaints (names_of_rows rows.entry.items)) (refusal_view e)) }
{
    let Ok(mut numbered) = Numbered::with_capacity(alloc, rows.len()) else {
        return Err(DefRefusal::out_of_memory(alloc));
    };
    for row in rows {
        numbered.add(alloc, row)?;
    }
    Ok(numbered)
}

impl<'a> Numbered<'a> {
    /// No states, with room for so many.
    fn with_capacity(alloc: Global, states: usize) -> Result<Numbered<'a>, OutOfMemory>
        ensures none { IfOk result (Holds []) }
    {
        Ok(Numbered {
            names: IndexSet::with_capacity(alloc, states)?,
            states: Vec::with_capacity(alloc, states)?,
            homes: Vec::with_capacity(alloc, states)?,
        })
    }

    /// Adds a state. Refuses where there is one of its name.
    fn add(&mut self, alloc: Global, row: BuiltState<'a>) -> Result<(), DefRefusal>
        ensures added { OnOk result ((done : List Standing)
            → Holds done self.old → Holds (done ++ built_view row.entry ∷ []) self.new) }
        ensures refused { IfErr result (λ e. (done further : List Standing) → Holds done self.old
            → IsAmong (duplicate_complaints (names_of_all (done ++ built_view row.entry ∷ further)))
            (refusal_view e)) }
    {
        if self.names.contains(&row.name) {
            let refusal = DefRefusal::new(alloc, DefFault::DuplicateName, &row.name, "States");
            drop(row);
            return Err(refusal);
        }
        match self.push(row) {
            Ok(()) => Ok(()),
            Err(_) => Err(DefRefusal::out_of_memory(alloc)),
        }
    }

    /// Adds a state of a new name.
    fn push(&mut self, row: BuiltState<'a>) -> Result<(), OutOfMemory>
        ensures { OnOk result (list_any (string_eq row.entry.name) self.old.names.keys ≡ false
            → (done : List Standing) → Holds done self.old
            → Holds (done ++ built_view row.entry ∷ []) self.new) }
    {
        self.states.push(row.state)?;
        self.names.insert(row.name)?;
        self.homes.push(row.home)?;
        Ok(())
    }
}

/// Where each state stands, by the numbers of those names.
fn place_all(
    alloc: Global,
    names: &IndexSet<String>,
    homes: &[Home],
) -> Result<Vec<Scope>, OutOfMemory>
    ensures { IfOk result (λ scopes. map scope_view scopes.items
        ≡ map (λ h. placed_in (map string_bytes names.now.keys) (home_view h)) homes.now) }
{
    let mut scopes = Vec::with_capacity(alloc, homes.len())?;
    for home in homes {
        scopes.push(place(names, home))?;
    }
    Ok(scopes)
}

/// Where a state stands, by the numbers of those names.
fn place(names: &IndexSet<String>, home: &Home) -> Scope
    ensures { scope_view result ≡ placed_in (map string_bytes names.now.keys) (home_view home.now) }
{
    Scope {
        start: number_of(names, home.start),
        owner: match home.owner {
            Some((owner, branch)) => Some((number_of(names, owner), branch)),
            None => None,
        },
    }
}

/// The number of a name; 0 where it isn't there.
fn number_of(names: &IndexSet<String>, name: &str) -> usize
    ensures { result ≡ number_in (map string_bytes names.now.keys) name.now }
{
    names.get_index_of(name).unwrap_or(0)
}
