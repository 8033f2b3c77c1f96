//! Notices by what is found at a state.

ghost use Rattle.std.specs.Prelude.{◌≡◌, ◌++◌, OnOk, false};
ghost use Rattle.asl_warnings.specs.Adding.{is_marked};
ghost use Rattle.asl_warnings.specs.Notices.{is_of_unled, told_if, unled_in, KeepsUnled};

use crate::errors::Coming;
use crate::marks::Marks;
use crate::notice::Notice;
use crate::raising::Raised;
use crate::reason::Reason;
use crate::rows::Row;
use asl_diagnostics::Warning;
use asl_states::{Catcher, Retrier};
use asl_tree::OutOfMemory;
use std::alloc::Global;

/// Notes that no way leads to the state, if so.
pub(crate) fn note_unled<'m>(
    notices: &mut Vec<Notice<'m>>,
    row: &Row<'m>,
    led: &Marks,
) -> Result<(), OutOfMemory>
    ensures { OnOk result (unled_in notices.new.items
        ≡ unled_in notices.old.items
        ++ told_if (is_marked led.now row.now.number) row.now.name.now) }
{
    if !led.has(row.number) {
        notices.push(Notice {
            warning: Warning::UnreachableState,
            state: row.name,
            field: None,
            index: None,
            reason: Reason::NoWay,
        })?;
    }
    Ok(())
}

/// Notes the retriers to which no error comes.
pub(crate) fn note_retriers<'m>(
    alloc: Global,
    notices: &mut Vec<Notice<'m>>,
    row: &Row<'m>,
    raised: &Raised<'m>,
    retriers: &'m [Retrier],
) -> Result<(), OutOfMemory>
    ensures { OnOk result (KeepsUnled notices.old.items notices.new.items) }
{
    let mut coming = Coming::new(alloc, raised);
    let listed = Listed {
        warning: Warning::RetrierNeverTaken,
        state: row.name,
        field: "Retry",
    };
    for (index, retrier) in retriers.iter().enumerate() {
        let reason = coming.pass(&retrier.error_equals)?;
        listed.note(notices, index, reason)?;
    }
    Ok(())
}

/// Notes the catchers to which no error comes.
pub(crate) fn note_catchers<'m>(
    alloc: Global,
    notices: &mut Vec<Notice<'m>>,
    row: &Row<'m>,
    raised: &Raised<'m>,
    catchers: &'m [Catcher],
) -> Result<(), OutOfMemory>
    ensures { OnOk result (KeepsUnled notices.old.items notices.new.items) }
{
    let mut coming = Coming::new(alloc, raised);
    let listed = Listed {
        warning: Warning::CatcherNeverTaken,
        state: row.name,
        field: "Catch",
    };
    for (index, catcher) in catchers.iter().enumerate() {
        let reason = coming.pass(&catcher.error_equals)?;
        listed.note(notices, index, reason)?;
    }
    Ok(())
}

/// A list of a state, and the warning that tells of an element of it.
#[derive(Clone, Copy, Drop)]
pub(crate) struct Listed<'m> {
    pub(crate) warning: Warning,
    pub(crate) state: &'m str,
    pub(crate) field: &'static str,
}

impl<'m> Listed<'m> {
    /// Notes that the warning is for the element of that number, if there is a reason.
    pub(crate) fn note(
        &self,
        notices: &mut Vec<Notice<'m>>,
        index: usize,
        reason: Option<Reason>,
    ) -> Result<(), OutOfMemory>
        requires { is_of_unled self.now.warning ≡ false }
        ensures { OnOk result (KeepsUnled notices.old.items notices.new.items) }
    {
        match reason {
            Some(reason) => {
                notices.push(Notice {
                    warning: self.warning,
                    state: self.state,
                    field: Some(self.field),
                    index: Some(index),
                    reason,
                })?;
                Ok(())
            }
            None => Ok(()),
        }
    }
}
