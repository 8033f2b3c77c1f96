//! Retriers and catchers to which no error comes.

ghost use Rattle.std.specs.Prelude.{◌≡◌, ◌∷◌, [], IfOk, IfSome, OnOk, false, map, string_bytes};
ghost use Rattle.asl_model.specs.Names.{ErrorName};
ghost use Rattle.asl_warnings.specs.Coming.{is_taken, DoesNotCome, NoneComes, TakesUp};

use crate::raising::Raised;
use crate::reason::Reason;
use asl_tree::OutOfMemory;
use std::alloc::Global;
use std::collections::BTreeSet;

/// What may come to the elements of a `Retry` or a `Catch`, one after the other.
#[derive(Drop)]
pub(crate) struct Coming<'r, 'm> {
    /// What is raised at the state.
    raised: &'r Raised<'m>,
    /// The names in the elements so far: each takes that error alone, but for `States.ALL`, which takes every one.
    named: BTreeSet<&'m str>,
    /// Whether `States.ALL` is among these.
    all: bool,
}

impl<'r, 'm> Coming<'r, 'm> {
    /// All that is raised comes to the first element.
    pub(crate) fn new(alloc: Global, raised: &'r Raised<'m>) -> Coming<'r, 'm>
        ensures raised { result.raised ≡ raised.entry }
        ensures none { (error : ErrorName) → is_taken result error ≡ false }
    {
        Coming {
            raised,
            named: BTreeSet::new(alloc),
            all: false,
        }
    }

    /// Goes past an element that takes the errors of these names, and says why none comes to it, if so.
    pub(crate) fn pass(&mut self, names: &'m [String]) -> Result<Option<Reason>, OutOfMemory>
        ensures none { IfOk result (λ reason. IfSome reason
            (λ _. NoneComes self.old (map string_bytes names.now))) }
        ensures takes { OnOk result (TakesUp self.old self.new (map string_bytes names.now)) }
    {
        let reason = self.reason_of(names);
        self.take(names)?;
        Ok(reason)
    }

    /// Why none of the errors of these names comes, if none does.
    fn reason_of(&self, names: &[String]) -> Option<Reason>
        ensures { IfSome result (λ _. NoneComes self.now (map string_bytes names.now)) }
    {
        let mut reason = None;
        for name in names {
            let other = self.reason_of_one(name)?;
            reason = Some(join_reasons(reason, other));
        }
        reason
    }

    /// Why the errors of that name don't come, if they don't.
    fn reason_of_one(&self, name: &str) -> Option<Reason>
        ensures { IfSome result (λ _. DoesNotCome self.now name.now) }
    {
        if self.all {
            Some(Reason::TakenInFront)
        } else if name == ALL_ERRORS {
            None
        } else if self.named.contains(name) {
            Some(Reason::TakenInFront)
        } else if self.raised.may_be(name) {
            None
        } else {
            Some(Reason::NotRaised)
        }
    }

    /// The errors of these names are taken.
    fn take(&mut self, names: &'m [String]) -> Result<(), OutOfMemory>
        ensures { OnOk result (TakesUp self.old self.new (map string_bytes names.now)) }
    {
        for name in names {
            self.take_one(name)?;
        }
        Ok(())
    }

    /// The errors of that name are taken.
    fn take_one(&mut self, name: &'m str) -> Result<(), OutOfMemory>
        ensures { OnOk result (TakesUp self.old self.new (name.now ∷ [])) }
    {
        if name == ALL_ERRORS {
            self.all = true;
        } else {
            self.named.insert(name)?;
        }
        Ok(())
    }
}

/// The name that stands for every error.
const ALL_ERRORS: &str = "States.ALL";

/// The reason of several names, from that of those so far and that of one more.
fn join_reasons(sofar: Option<Reason>, other: Reason) -> Reason {
    match sofar {
        None => other,
        Some(reason) if reason == other => reason,
        Some(_) => Reason::TakenOrNotRaised,
    }
}
