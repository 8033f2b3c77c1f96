//! Answers one after the other.
ghost use Rattle.std.specs.Prelude.{◌≡◌, ◌<◌, ◌++◌, ◌-◌, [], IfOk, OnErr, OnOk, None, drop, option_map, slice_get};
ghost use Rattle.asl_run.specs.Entries.{answer_view};
ghost use Rattle.asl_suites.specs.Scripts as model;
ghost use Rattle.asl_suites.specs.View.{listed_view, script_view, times_given};

use asl_run::Answer;
use asl_tree::OutOfMemory;
use std::alloc::Global;
use std::collections::VecDeque;

/// How often an answer is given.
#[derive(Debug, Drop)]
pub(crate) enum Times {
    /// Once, and so many further times.
    Further(u64),
    /// From here on, for ever.
    ForEver,
}

/// An answer that is given once, and so many further times.
#[derive(Debug, Drop)]
pub(crate) struct Repeated {
    pub answer: Answer,
    pub further: u64,
}

impl Repeated {
    /// A copy of the answer, for one of its further times.
    fn again(&mut self) -> Result<Answer, OutOfMemory>
        requires { 0 < self.old.further }
        ensures given { IfOk result (λ answer. answer_view answer ≡ answer_view self.old.answer) }
        ensures answer { self.new.answer ≡ self.old.answer }
        ensures further { OnOk result (self.new.further ≡ self.old.further - 1) }
        ensures kept { OnErr result (self.new ≡ self.old) }
    {
        let answer = copy_answer(&self.answer)?;
        self.further -= 1;
        Ok(answer)
    }
}

/// Answers one after the other, and the one that comes behind them for ever, where there is one.
#[derive(Debug, Drop)]
pub(crate) struct Script {
    pub repeated: VecDeque<Repeated>,
    pub for_ever: Option<Answer>,
}

impl Script {
    /// No answers.
    pub(crate) fn new(alloc: Global) -> Script
        ensures { script_view result ≡ model.silent }
    {
        Script {
            repeated: VecDeque::new(alloc),
            for_ever: None,
        }
    }

    /// Puts an answer behind the others, as often as it is given. One that comes for ever takes the place of another
    /// such. Refuses only where an allocation was refused.
    pub(crate) fn add(&mut self, answer: Answer, times: Times) -> Result<(), OutOfMemory>
        ensures added { OnOk result (script_view self.new
            ≡ model.added (script_view self.old) (answer_view answer) (times_given times)) }
    {
        match times {
            Times::Further(further) => {
                self.repeated.push_back(Repeated { answer, further })?;
            }
            Times::ForEver => self.for_ever = Some(answer),
        }
        Ok(())
    }

    /// The next answer, which is taken; one for ever stays. Refuses only where an allocation was refused; nothing is
    /// taken then.
    pub(crate) fn next(&mut self) -> Result<Option<Answer>, OutOfMemory>
        ensures given { IfOk result (λ answer.
            option_map answer_view answer ≡ model.next_of (script_view self.old)) }
        ensures rest { OnOk result (script_view self.new ≡ model.rest_of (script_view self.old)) }
        ensures kept { OnErr result (script_view self.new ≡ script_view self.old) }
    {
        match next_repeated(&mut self.repeated)? {
            Some(answer) => Ok(Some(answer)),
            None => copy_where_there(&self.for_ever),
        }
    }
}

/// The first of the answers, which is taken.
fn next_repeated(repeated: &mut VecDeque<Repeated>) -> Result<Option<Answer>, OutOfMemory>
    ensures given { IfOk result (λ answer.
        option_map answer_view answer ≡ slice_get (listed_view repeated.old.items) 0) }
    ensures rest { OnOk result
        (listed_view repeated.new.items ≡ drop 1 (listed_view repeated.old.items)) }
    ensures kept { OnErr result (listed_view repeated.new.items ≡ listed_view repeated.old.items) }
{
    match repeated.front_mut() {
        Some(front) if 0 < front.further => Ok(Some(front.again()?)),
        Some(_) => Ok(repeated.pop_front().map(|front| front.answer)),
        None => Ok(None),
    }
}

/// A copy of the answer, where there is one.
fn copy_where_there(answer: &Option<Answer>) -> Result<Option<Answer>, OutOfMemory>
    ensures { IfOk result
        (λ copied. option_map answer_view copied ≡ option_map answer_view answer.now) }
{
    match answer {
        Some(answer) => Ok(Some(copy_answer(answer)?)),
        None => Ok(None),
    }
}

/// An equal answer, which shares its value.
fn copy_answer(answer: &Answer) -> Result<Answer, OutOfMemory>
    ensures { IfOk result (λ copied. answer_view copied ≡ answer_view answer.now) }
{
    match answer {
        Answer::Gives(value) => Ok(Answer::Gives(value.clone()?)),
        Answer::Fails { error, cause } => Ok(Answer::Fails {
            error: error.clone()?,
            cause: cause.clone()?,
        }),
    }
}
