//! The types of rules and of their tests.

use asl_path::RefPath;
use asl_tree::Tree;

/// A rule of a Choice: where its test is true, the state that follows.
#[derive(Drop)]
pub struct Rule {
    pub test: Test,
    /// The name of the state that follows.
    pub next: String,
}

/// A test of a rule. Paths are looked up in the state's effective input.
#[derive(Drop)]
pub enum Test {
    /// Whether all of the tests are true; the first that isn't decides.
    And(Vec<Test>),
    /// Whether some of the tests is true; the first that isn't false decides.
    Or(Vec<Test>),
    /// Whether the test is false.
    Not(Box<Test>),
    /// `StringEquals` to `StringGreaterThanEquals`, the same with `Numeric`, and `BooleanEquals`, each also with `Path`
    /// at its end.
    Compare {
        variable: RefPath,
        comparison: Comparison,
        operand: Operand,
    },
    /// Whether the value is a text that matches the pattern.
    StringMatches {
        variable: RefPath,
        pattern: Vec<PatternPart>,
    },
    /// `IsNull`, `IsNumeric`, `IsString` and `IsBoolean`: whether it is so that the value is of that kind.
    IsOfKind {
        variable: RefPath,
        kind: ValueKind,
        wanted: bool,
    },
    /// Whether it is so that the path names something.
    IsPresent {
        variable: RefPath,
        wanted: bool,
    },
}

/// What a comparison compares, and how. Two values that aren't both of its type compare as false.
#[derive(Clone, Copy, Drop)]
pub enum Comparison {
    /// Two texts, by their UTF-8 bytes.
    String(Relation),
    /// Two whole numbers.
    Numeric(Relation),
    /// Two truth values, which are to be the same.
    BooleanEquals,
}

/// How the first of two values has to stand to the second.
#[derive(Clone, Copy, Drop)]
pub enum Relation {
    Equals,
    LessThan,
    GreaterThan,
    LessThanEquals,
    GreaterThanEquals,
}

/// The second value of a comparison.
#[derive(Drop)]
pub enum Operand {
    /// The value that stands in the rule.
    Constant(Tree),
    /// The value that the path names (the operators that end in `Path`).
    AtPath(RefPath),
}

/// A kind of values.
#[derive(Clone, Copy, Drop)]
pub enum ValueKind {
    Null,
    Numeric,
    String,
    Boolean,
}

/// An element of a pattern.
#[derive(Clone, Copy, Drop)]
pub enum PatternPart {
    /// A byte of a character, which matches itself.
    Byte(u8),
    /// A star, which matches any text, the empty one too.
    Star,
}
