//! Notices by what a certificate says of the data that comes to a state.

ghost use Rattle.std.specs.Prelude.{OnOk};
ghost use Rattle.asl_warnings.specs.Notices.{KeepsUnled};

use crate::choosing::{Judged, judge_at};
use crate::leading::mark_start;
use crate::marks::Marks;
use crate::notice::Notice;
use crate::noting::Listed;
use crate::reason::Reason;
use crate::rows::{Row, row_of};
use asl_diagnostics::Warning;
use asl_machine_table::Machine;
use asl_records::NumberedCertificate;
use asl_tree::OutOfMemory;
use std::alloc::Global;

/// Marks the states to which the graph leads at once from one to which data comes, and the machine's start; of states to
/// which no way leads none comes.
pub(crate) fn mark_heads(
    alloc: Global,
    machine: &Machine,
    led: &Marks,
    certificate: &NumberedCertificate,
) -> Result<Marks, OutOfMemory> {
    let mut heads = Marks::new(alloc, machine.states())?;
    mark_start(machine, &mut heads)?;
    for number in 0..machine.states() {
        if let Some(row) = row_of(machine, number) {
            if led.has(number) && has_data(certificate, row.name) == Some(true) {
                heads.mark_targets(row.state)?;
            }
        }
    }
    Ok(heads)
}

/// The number of the certified input of the state of that name, if there is one.
fn input_of(certificate: &NumberedCertificate, name: &str) -> Option<usize> {
    Some(certificate.states.get(name)?.input)
}

/// Whether data comes to the state of that name, if the certificate has an entry for it.
fn has_data(certificate: &NumberedCertificate, name: &str) -> Option<bool> {
    certificate.shapes.inhabited(input_of(certificate, name)?)
}

/// Marks on states, by the ways of data to them.
#[derive(Clone, Copy)]
pub(crate) struct Ways<'w> {
    /// Those to which the graph leads at once from one to which data comes, and the machine's start.
    pub(crate) heads: &'w Marks,
    /// Those to which more data may come than the certificate says.
    pub(crate) behind: &'w Marks,
}

/// Notes that no data comes to the state, if so, and if it is one of the first on its way, and none is behind a stop.
pub(crate) fn note_dataless<'m>(
    notices: &mut Vec<Notice<'m>>,
    row: &Row<'m>,
    ways: Ways<'_>,
    certificate: &NumberedCertificate,
) -> Result<(), OutOfMemory>
    ensures { OnOk result (KeepsUnled notices.old.items notices.new.items) }
{
    let is_told = ways.heads.has(row.number) && !ways.behind.has(row.number);
    if is_told && has_data(certificate, row.name) == Some(false) {
        notices.push(Notice {
            warning: Warning::NoDataReaches,
            state: row.name,
            field: None,
            index: None,
            reason: Reason::NoData,
        })?;
    }
    Ok(())
}

/// Notes the rules of a Choice to which data comes, and its `Default`, where they lead on with none of it, unless the Choice
/// is behind a stop.
pub(crate) fn note_choice<'m>(
    alloc: Global,
    notices: &mut Vec<Notice<'m>>,
    row: &Row<'m>,
    ways: Ways<'_>,
    certificate: &mut NumberedCertificate,
) -> Result<(), OutOfMemory>
    ensures { OnOk result (KeepsUnled notices.old.items notices.new.items) }
{
    if ways.behind.has(row.number) {
        return Ok(());
    }
    let Some(input) = input_of(certificate, row.name) else {
        return Ok(());
    };
    match judge_at(alloc, &mut certificate.shapes, row.state, input)? {
        Some(judged) => {
            note_rules(notices, row, &judged)?;
            note_default(notices, row, &judged)
        }
        None => Ok(()),
    }
}

/// Notes the rules that lead on with no data.
fn note_rules<'m>(
    notices: &mut Vec<Notice<'m>>,
    row: &Row<'m>,
    judged: &Judged,
) -> Result<(), OutOfMemory>
    ensures { OnOk result (KeepsUnled notices.old.items notices.new.items) }
{
    let listed = Listed {
        warning: Warning::RuleNeverTrue,
        state: row.name,
        field: "Choices",
    };
    for (index, is_never_true) in judged.never_true.iter().enumerate() {
        listed.note(notices, index, judged.reason_of(index, *is_never_true))?;
    }
    Ok(())
}

/// Notes that `Default`, if there is one, is led to with no data, if so.
fn note_default<'m>(
    notices: &mut Vec<Notice<'m>>,
    row: &Row<'m>,
    judged: &Judged,
) -> Result<(), OutOfMemory>
    ensures { OnOk result (KeepsUnled notices.old.items notices.new.items) }
{
    if judged.is_default_idle() {
        notices.push(Notice {
            warning: Warning::DefaultNeverTaken,
            state: row.name,
            field: Some("Default"),
            index: None,
            reason: Reason::ChosenInFront,
        })?;
    }
    Ok(())
}
