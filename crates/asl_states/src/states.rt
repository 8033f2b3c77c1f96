//! The types of a machine's states (States Language, "State Types").

use crate::target::Target;
use asl_choice::Test;
use asl_path::RefPath;
use asl_template::Template;
use asl_tree::Tree;
use serde_json::Number;

/// A state: what states of several types have, and what its type adds.
#[derive(Drop)]
pub struct State {
    pub settings: Settings,
    pub kind: Kind,
}

/// What states of several types have. A state whose type lacks a field has here the value of one that is absent.
#[derive(Drop)]
pub struct Settings {
    /// `InputPath`, `$` where it is absent, none where it is null.
    pub input_path: Option<RefPath>,
    /// `Parameters`, where they are given; those of a Map are its `ItemSelector`.
    pub parameters: Option<Template>,
    /// `ResultSelector`, where it is given.
    pub result_selector: Option<Template>,
    /// `ResultPath`, `$` where it is absent, none where it is null.
    pub result_path: Option<RefPath>,
    /// `OutputPath`, `$` where it is absent, none where it is null.
    pub output_path: Option<RefPath>,
    /// `Next`; none where the state ends its scope.
    pub next: Option<Target>,
    /// `Retry`.
    pub retriers: Vec<Retrier>,
    /// `Catch`.
    pub catchers: Vec<Catcher>,
    /// `TimeoutSeconds` of a Task, where it is given: no default is filled in.
    pub timeout_seconds: Option<u64>,
    /// `HeartbeatSeconds` of a Task, where it is given.
    pub heartbeat_seconds: Option<u64>,
    /// `MaxConcurrency` of a Map, 0 where it is absent, which sets no bound.
    pub max_concurrency: u64,
    /// `Comment`, where it is given.
    pub comment: Option<String>,
}

/// An element of `Retry` (States Language, "Retrying after error").
#[derive(Drop)]
pub struct Retrier {
    /// The names of the errors that it takes.
    pub error_equals: Vec<String>,
    /// `IntervalSeconds`, 1 where it is absent.
    pub interval_seconds: u64,
    /// How often it retries within one execution of the state, 3 where `MaxAttempts` is absent.
    pub max_attempts: u64,
    /// `BackoffRate`, whole or a float as it is written; the float 2.0 where it is absent.
    pub backoff_rate: Number,
    /// `MaxDelaySeconds`, where it is given.
    pub max_delay_seconds: Option<u64>,
    /// `JitterStrategy`, `NONE` where it is absent.
    pub jitter_strategy: String,
    /// `Comment`, where it is given.
    pub comment: Option<String>,
}

/// An element of `Catch` (States Language, "Fallback States").
#[derive(Drop)]
pub struct Catcher {
    /// The names of the errors that it takes.
    pub error_equals: Vec<String>,
    /// Where the error output is placed, `$` where it is absent, none where it is null.
    pub result_path: Option<RefPath>,
    /// The state that follows.
    pub next: Target,
    /// `Comment`, where it is given.
    pub comment: Option<String>,
}

/// An element of `Choices` (States Language, "Choice State"): where its test is true, the state that follows.
#[derive(Drop)]
pub struct ChoiceRule {
    pub test: Test,
    /// The state that follows.
    pub next: Target,
}

/// The eight types of states, each with the fields that it alone has.
#[derive(Drop)]
pub enum Kind {
    /// `Result`, where it is given.
    Pass {
        result: Option<Tree>,
    },
    /// `Resource`.
    Task {
        resource: String,
    },
    /// `Choices`, and `Default` where it is given.
    Choice {
        choices: Vec<ChoiceRule>,
        default: Option<Target>,
    },
    Wait {
        delay: Delay,
    },
    Succeed,
    /// `Error` and `Cause`, empty where they are absent.
    Fail {
        error: String,
        cause: String,
    },
    /// The start state of each of `Branches`.
    Parallel {
        branches: Vec<Target>,
    },
    /// `ItemsPath`, `ItemSelector` where it is given, and the start state of `ItemProcessor`.
    Map {
        items_path: RefPath,
        item_selector: Option<Template>,
        processor: Target,
    },
}

/// What a Wait waits for.
#[derive(Drop)]
pub enum Delay {
    Seconds(u64),
    SecondsPath(RefPath),
    Timestamp(String),
    TimestampPath(RefPath),
}

/// A scope: the machine, a branch of a Parallel or the processor of a Map.
#[derive(Clone, Copy, Drop)]
pub struct Scope {
    /// The number of its start state.
    pub start: usize,
    /// The number of the state that it belongs to and the number of the branch, counted from 0 (0 for a Map's
    /// processor); none for the machine's own.
    pub owner: Option<(usize, usize)>,
}
