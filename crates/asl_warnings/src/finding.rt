//! Going over a machine's states.

ghost use Rattle.std.specs.Prelude.{◌≡◌, ◌++◌, IfOk, OnOk};
ghost use Rattle.asl_warnings.specs.Led.{IsLed};
ghost use Rattle.asl_warnings.specs.LedNames.{told_at, IsExact};
ghost use Rattle.asl_warnings.specs.Notices.{unled_in, KeepsUnled};
ghost use Rattle.asl_warnings.specs.Unled.{TellsUnled};

use crate::behind::{Stop, mark_behind};
use crate::data::{Ways, mark_heads, note_choice, note_dataless};
use crate::leading::mark_led;
use crate::marks::Marks;
use crate::notice::Notice;
use crate::noting::{note_catchers, note_retriers, note_unled};
use crate::raising::raised_at;
use crate::rows::{Row, row_of};
use asl_machine_table::Machine;
use asl_records::NumberedCertificate;
use asl_tree::OutOfMemory;
use std::alloc::Global;

/// What is odd at the machine's states, in the order of their numbers; at one state first what doesn't come to it, then
/// retriers, catchers, choice rules and `Default`.
///
/// By the graph alone are told states to which no way leads, each of them, and retriers and catchers to which no error
/// comes. With a certificate are told, too, rules and a `Default` that lead on with no data, at a Choice to which data comes
/// and of which no path may name nothing; and a state to which no data comes, where the graph leads to it at once from a
/// state to which data comes, or where the machine starts with it: a chain of such states is told at its first. Of a state
/// that the certificate has no entry for nothing is told of data.
///
/// The certificate may lack what flows on from the stops. Of states to which a way leads on from one, also through the end
/// of a scope, nothing is told of data. So where all else that flows flows into the certificate's shapes, what is told of
/// data is true of all data.
///
/// Further shapes may stand in the certificate's table afterwards; each that stood there keeps its number. Refuses only
/// where an allocation was refused.
pub fn notices<'m>(
    alloc: Global,
    machine: &'m Machine,
    certificate: Option<&mut NumberedCertificate>,
    stops: &[Stop<'_>],
) -> Result<Vec<Notice<'m>>, OutOfMemory>
    ensures { IfOk result (λ notices. TellsUnled machine.now (unled_in notices.items)) }
{
    let led = mark_led(alloc, machine)?;
    let finder = Finder {
        alloc,
        machine,
        led: &led,
    };
    match certificate {
        Some(certificate) => finder.find_with(certificate, stops),
        None => finder.find(),
    }
}

/// What is gone over.
#[derive(Clone, Copy, Drop)]
struct Finder<'f, 'm> {
    alloc: Global,
    machine: &'m Machine,
    /// The states to which a way leads.
    led: &'f Marks,
}

impl<'m> Finder<'_, 'm> {
    /// What is odd by the graph.
    fn find(&self) -> Result<Vec<Notice<'m>>, OutOfMemory>
        requires { IsExact self.now.machine.now self.now.led.now }
        ensures { IfOk result
            (λ notices. TellsUnled self.now.machine.now (unled_in notices.items)) }
    {
        let mut notices = Vec::new(self.alloc);
        for number in 0..self.machine.states() {
            self.note_state(&mut notices, number)?;
        }
        Ok(notices)
    }

    /// Notes what is odd by the graph at the state of that number.
    fn note_state(&self, notices: &mut Vec<Notice<'m>>, number: usize) -> Result<(), OutOfMemory>
        ensures { OnOk result (unled_in notices.new.items
            ≡ unled_in notices.old.items ++ told_at self.now.machine.now self.now.led.now number) }
    {
        match row_of(self.machine, number) {
            Some(row) => {
                note_unled(notices, &row, self.led)?;
                self.note_errors(notices, &row)
            }
            None => Ok(()),
        }
    }

    /// What is odd by the graph and by the certificate.
    fn find_with(
        &self,
        certificate: &mut NumberedCertificate,
        stops: &[Stop<'_>],
    ) -> Result<Vec<Notice<'m>>, OutOfMemory>
        requires { IsExact self.now.machine.now self.now.led.now }
        ensures { IfOk result
            (λ notices. TellsUnled self.now.machine.now (unled_in notices.items)) }
    {
        let heads = mark_heads(self.alloc, self.machine, self.led, certificate)?;
        let behind = mark_behind(self.alloc, self.machine, certificate, stops)?;
        let ways = Ways {
            heads: &heads,
            behind: &behind,
        };
        let mut notices = Vec::new(self.alloc);
        for number in 0..self.machine.states() {
            self.note_state_with(&mut notices, number, ways, certificate)?;
        }
        Ok(notices)
    }

    /// Notes what is odd by the graph and by the certificate at the state of that number.
    fn note_state_with(
        &self,
        notices: &mut Vec<Notice<'m>>,
        number: usize,
        ways: Ways<'_>,
        certificate: &mut NumberedCertificate,
    ) -> Result<(), OutOfMemory>
        ensures { OnOk result (unled_in notices.new.items
            ≡ unled_in notices.old.items ++ told_at self.now.machine.now self.now.led.now number) }
    {
        match row_of(self.machine, number) {
            Some(row) => {
                note_unled(notices, &row, self.led)?;
                note_dataless(notices, &row, ways, certificate)?;
                self.note_errors(notices, &row)?;
                note_choice(self.alloc, notices, &row, ways, certificate)
            }
            None => Ok(()),
        }
    }

    /// Notes the retriers and catchers of the state to which no error comes.
    fn note_errors(&self, notices: &mut Vec<Notice<'m>>, row: &Row<'m>) -> Result<(), OutOfMemory>
        ensures { OnOk result (KeepsUnled notices.old.items notices.new.items) }
    {
        let settings = &row.state.settings;
        if settings.retriers.is_empty() && settings.catchers.is_empty() {
            return Ok(());
        }
        let raised = raised_at(self.alloc, self.machine, row.number, row.state)?;
        note_retriers(self.alloc, notices, row, &raised, &settings.retriers)?;
        note_catchers(self.alloc, notices, row, &raised, &settings.catchers)
    }
}
