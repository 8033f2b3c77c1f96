//! Notices, and their sentences.

use crate::reason::Reason;
use asl_diagnostics::Warning;
use asl_tree::OutOfMemory;
use std::alloc::Global;

/// Something odd at a state.
#[derive(Clone, Copy, Debug, Drop)]
pub struct Notice<'m> {
    pub warning: Warning,
    /// The state's name.
    pub state: &'m str,
    /// The field that it is told at; None where it is the state itself.
    pub field: Option<&'static str>,
    /// Of a retrier, a catcher or a choice rule its number in its list, counted from 0.
    pub index: Option<usize>,
    pub reason: Reason,
}

impl Notice<'_> {
    /// What is odd, in one sentence without a period. Retriers, catchers and rules are counted from 1 in it.
    pub fn sentence(&self, alloc: Global) -> Result<String, OutOfMemory> {
        let mut text = subject(alloc, self.warning, self.index)?;
        text.push_str(self.reason.words())?;
        Ok(text)
    }
}

/// The words on what is odd, before its reason.
fn subject(alloc: Global, warning: Warning, index: Option<usize>) -> Result<String, OutOfMemory> {
    match warning {
        Warning::UnreachableState => Ok(String::from_str(alloc, "no way from the start leads to")?),
        Warning::NoDataReaches => Ok(String::from_str(alloc, "no data reaches")?),
        Warning::CatcherNeverTaken => numbered(alloc, "catcher", index, "is never taken"),
        Warning::RetrierNeverTaken => numbered(alloc, "retrier", index, "is never taken"),
        Warning::RuleNeverTrue => numbered(alloc, "rule", index, "never leads on"),
        Warning::DefaultNeverTaken => Ok(String::from_str(alloc, "Default is never taken")?),
    }
}

/// The words on an element of a list.
fn numbered(
    alloc: Global,
    element: &str,
    index: Option<usize>,
    predicate: &str,
) -> Result<String, OutOfMemory> {
    let mut text = String::from_str(alloc, element)?;
    text.push_str(" ")?;
    if let Some(index) = index {
        let digits = (index as u128 + 1).to_string(alloc)?;
        text.push_str(&digits)?;
        text.push_str(" ")?;
    }
    text.push_str(predicate)?;
    Ok(text)
}
