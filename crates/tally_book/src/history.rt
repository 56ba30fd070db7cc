ghost use Rattle.std.specs.Prelude.{◌≡◌, ◌++◌, ◌∷◌, [], ◌<◌, IfOk, vec_len, vec_capacity};
ghost use Rattle.tally_book.specs.declared.history.Call.TheVariants.{Asked};

use crate::boxed::Boxed;
use std::alloc::Global;
use tally_answers::{Answer, Question};
use tally_records::Memory;

/// How many records are stored.
#[derive(Clone, Copy, Debug, PartialEq, Eq)]
pub struct Counts {
    pub logins: u64,
    pub procs: u64,
}

/// An answered call.
#[derive(Drop)]
pub enum Call {
    /// A batch was stored.
    Posted {
        caller: u32,
        before: Counts,
        after: Counts,
    },
    /// A report was asked of the records stored by then. Its question is boxed, so that a post is not as large.
    Asked {
        caller: u32,
        at: Counts,
        question: Boxed<Question>,
        answer: Answer,
    },
}

impl Call {
    /// The call of a caller who asked a question and had this answer, of which it keeps a copy.
    pub(crate) fn asked(
        alloc: Global,
        caller: u32,
        at: Counts,
        question: &Question,
        answer: &Answer,
    ) -> Result<Call, Memory>
        ensures value { IfOk result (λ call. call ≡ Asked caller at question.now answer.now) }
    {
        let answer = answer.try_copy(alloc)?;
        Ok(Call::Asked {
            caller,
            at,
            question: Boxed::new(alloc, *question)?,
            answer,
        })
    }
}

/// What a post answers: the number of calls with this one, and what was stored before and after it.
#[derive(Clone, Copy, Debug, PartialEq, Eq)]
pub struct Receipt {
    pub call: u64,
    pub before: Counts,
    pub after: Counts,
}

/// What a report answers: the number of calls with this one, what was stored, and the answer.
#[derive(Drop)]
pub struct Served {
    pub call: u64,
    pub at: Counts,
    pub answer: Answer,
}

/// Adds a call to the history, and answers how many that makes.
pub(crate) fn record(calls: &mut Vec<Call>, call: Call) -> u64
    requires { vec_len calls.old < vec_capacity calls.old }
    ensures history { calls.new.items ≡ calls.old.items ++ call ∷ [] }
    ensures number { result ≡ vec_len calls.new }
{
    calls.push_reserved(call);
    calls.len() as u64
}
