//! Reasons of what is odd.

/// Why it is so.
#[derive(Clone, Copy, Debug, PartialEq, Eq)]
pub enum Reason {
    /// No way leads there, by the machine's graph.
    NoWay,
    /// No tree has the shape of what comes there.
    NoData,
    /// Each error that is named is taken in front.
    TakenInFront,
    /// No error that is named is raised there.
    NotRaised,
    /// Each error that is named is taken in front or isn't raised there, and there are some of both.
    TakenOrNotRaised,
    /// The test is true for none of the data.
    NeverTrue,
    /// A rule in front is true for all of the data.
    ChosenInFront,
}

impl Reason {
    /// The reason in words, which follow those on what it is the reason of.
    pub(crate) fn words(self) -> &'static str {
        match self {
            Reason::NoWay | Reason::NoData => " this state",
            Reason::TakenInFront => ": each error that it names is taken in front of it",
            Reason::NotRaised => ": no error that it names is raised here",
            Reason::TakenOrNotRaised => {
                ": each error that it names is taken in front of it or isn't raised here"
            }
            Reason::NeverTrue => ": its test is false for all data that comes here",
            Reason::ChosenInFront => ": a rule in front of it is true for all data that comes here",
        }
    }
}
