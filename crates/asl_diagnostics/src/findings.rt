//! Rules of findings.
ghost use Rattle.std.specs.Prelude.{◌≡◌};
ghost use Rattle.asl_state_edges.specs.View.{finding_fault_view};
ghost use Rattle.asl_model.specs.Printed.{finding_name};
ghost use Rattle.asl_diagnostics.specs.Rules.{not_settled_name};

use crate::shared_rules::WRONG_KIND;
use crate::{Rule, Severity};
use asl_state_edges::FindingFault;

const NOT_CERTIFIED: Rule = Rule {
    id: "NotCertified",
    severity: Severity::Error,
    short: "The certificate has no fitting entry for this state.",
    full: "Under the state's name the certificate has no entry, or one that doesn't fit the state's type: the \
        entry of a Parallel has `branches` with a shape for each branch, that of a Map has `item`, and no \
        other entry has either.",
    help: "Infer the certificate anew with `asl infer`, or add to its `states` what is missing.",
};

const NOT_A_STATE: Rule = Rule {
    id: "NotAState",
    severity: Severity::Error,
    short: "The certificate has an entry for a name that no state has.",
    full: "A name in `states` of the certificate is that of no state of the machine.",
    help: "Infer the certificate anew with `asl infer`, or correct the name or remove the entry.",
};

const TASK_UNDECLARED: Rule = Rule {
    id: "TaskUndeclared",
    severity: Severity::Error,
    short: "No shapes are declared for this Task.",
    full: "The declared shapes have no entry for this Task state in `tasks`. Each Task needs one, also in a \
        branch or in a Map's processor.",
    help: "Add an entry under the state's name to `tasks`, with `gives`, the shape of the task's result, and \
        where it matters `takes`, the shape of what it has to be given. The shape true stands for any value.",
};

const TASK_UNKNOWN: Rule = Rule {
    id: "TaskUnknown",
    severity: Severity::Error,
    short: "Shapes are declared for a name that no Task has.",
    full: "A name in `tasks` of the declared shapes is that of no Task state of the machine.",
    help: "Correct the name to that of a Task state, or remove the entry. States of other types have none.",
};

const START_INPUT: Rule = Rule {
    id: "StartInput",
    severity: Severity::Error,
    short: "The machine's input may not be what the start state is certified for.",
    full: "Some value of the declared `input` isn't of the shape that the certificate has for the input of the \
        start state. The example is such a value.",
    help: "Infer the certificate anew with `asl infer`; or declare `input` more narrowly, or widen the \
        certified input of the start state.",
};

const PATH_MAY_BE_MISSING: Rule = Rule {
    id: "PathMayBeMissing",
    severity: Severity::Error,
    short: "A path may name nothing.",
    full: "In some value of the shape that the path goes into, the path names nothing: a field on it may be \
        absent, a list may be too short, or a value on it may be of a kind into which it doesn't go. The \
        example is such a value. A run that comes there with one meets a fault.",
    help: "Make sure that what the path names is always there. If it comes from the machine's input or from a \
        task's result, declare its field in `required`. If only some ways to this state set it, set it on \
        the others, too, for example by a Pass with `Result` and `ResultPath`; or test for it in a Choice in \
        front, by `IsPresent` with true, and come here by that rule alone; in a choice rule put that test in \
        front of the others in an `And`. If a state in front drops it, keep it there, by `ResultPath` or by \
        naming it in the template. Of a list only the elements that `prefixItems` declares are always there.",
};

const RESULT_MAY_NOT_FIT: Rule = Rule {
    id: "ResultMayNotFit",
    severity: Severity::Error,
    short: "A result may not fit where its path says.",
    full: "At `ResultPath` the state's result is placed into the state's input, at a catcher's `ResultPath` the \
        error output. A name on that path needs an object to stand in, an index a list that is long enough, \
        and for some input of the state's shape there is none: what stands there, or what may stand there, \
        is of another kind or too short.",
    help: "Place the result under a new name at the top, as in `$.result`, and see that the input is always an \
        object. On a longer path each part in front of the last must be an object wherever it is there: \
        declare it so, or set it in a Pass before. `$` replaces the whole input, null keeps it and drops the \
        result.",
};

const INTRINSIC_MAY_FAIL: Rule = Rule {
    id: "IntrinsicMayFail",
    severity: Severity::Error,
    short: "A call of an intrinsic function may have no value.",
    full: "For some values of the shapes that its arguments have, a call in the template has no value: \
        `States.ArrayLength` needs one argument, which is a list; `States.Format` needs as its first \
        argument a literal text with as many holes as further arguments follow, none of which is a list or \
        an object; or an argument is a path that may name nothing.",
    help: "Count the holes and the arguments, write the text of `States.Format` in the call itself, and see \
        that each path among the arguments is always there and of the wanted kind: declare it so, or test \
        for it in a Choice in front.",
};

const NO_DEFAULT: Rule = Rule {
    id: "NoDefault",
    severity: Severity::Error,
    short: "No rule of the Choice may be true, and it has no `Default`.",
    full: "A Choice without `Default` has to have two rules that together are always true: at the top they ask \
        the same of equal paths, one for true and one for false, by `IsPresent`, `IsNull`, `IsBoolean`, \
        `IsNumeric`, `IsString`, or by `BooleanEquals` with true and false on a path that names only truth \
        values. Other rules aren't seen to be always true together, even where they are.",
    help: "Add a `Default`, if need be to a Fail state; or make the way of the last rule the `Default`, where \
        the rules leave nothing else.",
};

const PAYLOAD_NOT_TAKEN: Rule = Rule {
    id: "PayloadNotTaken",
    severity: Severity::Error,
    short: "A task may be given what it doesn't take.",
    full: "Some payload of the task, which is the state's input after `InputPath` and `Parameters`, isn't of \
        the shape that is declared as what it `takes`. The example is such a payload.",
    help: "Change `InputPath` or `Parameters` so that the payload has what the task takes, see in the states in \
        front that it is always there, or declare that the task `takes` more or that the machine's input and \
        other tasks give less.",
};

const OUTPUT_NOT_CERTIFIED: Rule = Rule {
    id: "OutputNotCertified",
    severity: Severity::Error,
    short: "An output may not be of the state's certified output.",
    full: "Some output of the state isn't of the shape that the certificate has for its output. The example is \
        such an output.",
    help: "Infer the certificate anew with `asl infer`, or widen the `output` of the state's entry.",
};

const NEXT_INPUT: Rule = Rule {
    id: "NextInput",
    severity: Severity::Error,
    short: "An output may not be what the next state is certified for.",
    full: "Some output of the state, on its way by the field that is told, isn't of the shape that the \
        certificate has for the input of the state that follows. The example is such an output.",
    help: "Infer the certificate anew with `asl infer`; or widen the certified input of the state that follows, \
        or change what this state puts out.",
};

const SCOPE_OUTPUT: Rule = Rule {
    id: "ScopeOutput",
    severity: Severity::Error,
    short: "An output may not be of the certified output of what ends here.",
    full: "Some output of a state that ends the machine, a branch or an item isn't of the shape that the \
        certificate has for that end: its `output`, or in the entry of the Parallel or of the Map an element \
        of `branches` or `item`. The example is such an output.",
    help: "Infer the certificate anew with `asl infer`; or widen the certified shape of that end, or change \
        what this state puts out.",
};

const BRANCH_INPUT: Rule = Rule {
    id: "BranchInput",
    severity: Severity::Error,
    short: "A branch or an item may begin with what its start state isn't certified for.",
    full: "Some input of a branch, or of the processing of an item, isn't of the shape that the certificate has \
        for the input of the state with which it begins. The example is such an input.",
    help: "Infer the certificate anew with `asl infer`; or widen the certified input of that start state, or \
        change what it is given, by `InputPath` or `Parameters`, for a Map also by `ItemsPath` or \
        `ItemSelector`.",
};

const CATCH_INPUT: Rule = Rule {
    id: "CatchInput",
    severity: Severity::Error,
    short: "What a catcher hands on may not be what its next state is certified for.",
    full: "What a catcher hands on is the state's input with the error output placed at its `ResultPath`. Some \
        such value isn't of the shape that the certificate has for the input of the state that follows. The \
        example is such a value.",
    help: "Infer the certificate anew with `asl infer`; or widen the certified input of the state that follows, \
        or change the catcher's `ResultPath`: without one the error output replaces the input, with null the \
        input goes on as it is.",
};

const NOT_SETTLED: Rule = Rule {
    id: "NotSettled",
    severity: Severity::Error,
    short: "The shapes of this machine don't settle.",
    full: "A certificate is inferred in rounds, until one changes no shape. Each of the rounds that may be taken, \
        4,096 in the program, still changed one. So there is no certificate, and of what flows through the \
        machine nothing is known.",
    help: "Divide the machine into several, of which one starts another by a Task, or declare what tasks give \
        more narrowly: the rounds come to an end, but a large machine in which many states are led back to \
        may take more of them.",
};

/// The rule of a finding.
pub fn rule_of_finding(fault: FindingFault) -> &'static Rule
    ensures { result.now.id.now ≡ finding_name (finding_fault_view fault) }
{
    match fault {
        FindingFault::NotCertified => &NOT_CERTIFIED,
        FindingFault::NotAState => &NOT_A_STATE,
        FindingFault::TaskUndeclared => &TASK_UNDECLARED,
        FindingFault::TaskUnknown => &TASK_UNKNOWN,
        FindingFault::StartInput => &START_INPUT,
        FindingFault::PathMayBeMissing => &PATH_MAY_BE_MISSING,
        FindingFault::WrongKind => &WRONG_KIND,
        FindingFault::ResultMayNotFit => &RESULT_MAY_NOT_FIT,
        FindingFault::IntrinsicMayFail => &INTRINSIC_MAY_FAIL,
        FindingFault::NoDefault => &NO_DEFAULT,
        FindingFault::PayloadNotTaken => &PAYLOAD_NOT_TAKEN,
        FindingFault::OutputNotCertified => &OUTPUT_NOT_CERTIFIED,
        FindingFault::NextInput => &NEXT_INPUT,
        FindingFault::ScopeOutput => &SCOPE_OUTPUT,
        FindingFault::BranchInput => &BRANCH_INPUT,
        FindingFault::CatchInput => &CATCH_INPUT,
    }
}

/// The rule of rounds that don't settle.
pub fn rule_of_unsettled() -> &'static Rule
    ensures { result.now.id.now ≡ not_settled_name }
{
    &NOT_SETTLED
}
