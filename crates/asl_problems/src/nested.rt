//! Objects that stand within a state: retriers, catchers, branches and processors.

/// A field of a state in which such objects stand, with the types of states that have it, the fields that each of the objects
/// may have, and of those the ones that it must have.
pub(crate) struct Nested {
    pub(crate) field: &'static str,
    pub(crate) types: &'static [&'static str],
    /// A field beside which it isn't looked into, empty where there is none.
    pub(crate) beside: &'static str,
    /// Whether they stand in a list; else the field's value is one.
    pub(crate) is_list: bool,
    pub(crate) allowed: &'static [&'static str],
    pub(crate) required: &'static [&'static str],
}

const RETRY: Nested = Nested {
    field: "Retry",
    types: &["Task", "Parallel", "Map"],
    beside: "",
    is_list: true,
    allowed: &[
        "ErrorEquals",
        "IntervalSeconds",
        "MaxAttempts",
        "BackoffRate",
        "MaxDelaySeconds",
        "JitterStrategy",
        "Comment",
    ],
    required: &["ErrorEquals"],
};

const CATCH: Nested = Nested {
    field: "Catch",
    types: &["Task", "Parallel", "Map"],
    beside: "",
    is_list: true,
    allowed: &["ErrorEquals", "ResultPath", "Next", "Comment"],
    required: &["ErrorEquals", "Next"],
};

const BRANCHES: Nested = Nested {
    field: "Branches",
    types: &["Parallel"],
    beside: "",
    is_list: true,
    allowed: &["StartAt", "States", "Comment", "QueryLanguage"],
    required: &["StartAt", "States"],
};

const ITEM_PROCESSOR: Nested = Nested {
    field: "ItemProcessor",
    types: &["Map"],
    beside: "",
    is_list: false,
    allowed: &[
        "StartAt",
        "States",
        "Comment",
        "QueryLanguage",
        "ProcessorConfig",
    ],
    required: &["StartAt", "States"],
};

const ITERATOR: Nested = Nested {
    field: "Iterator",
    types: &["Map"],
    beside: "ItemProcessor",
    is_list: false,
    allowed: &[
        "StartAt",
        "States",
        "Comment",
        "QueryLanguage",
        "ProcessorConfig",
    ],
    required: &["StartAt", "States"],
};

/// All of them.
pub(crate) const NESTED: [Nested; 5] = [RETRY, CATCH, BRANCHES, ITEM_PROCESSOR, ITERATOR];

impl Nested {
    /// Whether states of the type have the field.
    pub(crate) fn is_in(&self, state_type: &str) -> bool {
        self.types.iter().any(|it| *it == state_type)
    }

    /// Whether such an object may have the field.
    pub(crate) fn allows(&self, field: &str) -> bool {
        self.allowed.iter().any(|allowed| *allowed == field)
    }

    /// Whether it must have the field.
    pub(crate) fn needs(&self, field: &str) -> bool {
        self.required.iter().any(|required| *required == field)
    }

    /// Whether it is a scope of its own, with states.
    pub(crate) fn is_scope(&self) -> bool {
        self.needs("States")
    }
}
