//! Questions that are asked of a desk in rounds.
ghost use Rattle.std.specs.Prelude.{◌≡◌, ◌+◌, ◌*◌, ◌≤◌, ◌⊎◌, ◌∷◌, [], IfErr, IfOk, OnErr, OnOk, length};
ghost use Rattle.std.specs.List.{All};
ghost use Rattle.tally_answers.specs.Answers.{IsAskable};
ghost use Rattle.tally_book.specs.Refusals.{IsAskRefusal};
ghost use Rattle.tally_desk.specs.Rounds.{AskStops, Asks, in_rounds};
ghost use Rattle.tally_desk.specs.Passes.{IsCurrent, Keeps, deeds};

use crate::desk::{Desk, Pass};
use crate::gate::Gate;
use std::alloc::Global;
use std::sync::Wait;
use tally_book::{AskFault, CALL_LIMIT, Question};

/// Asks a question as the call of this turn. The gate comes before.
fn ask_next<R: Wait, G: Gate>(
    rt: &R,
    alloc: Global,
    desk: &Desk,
    pass: &mut Pass,
    question: &Question,
    turn: u32,
    gate: &G,
) -> Result<(), AskFault>
    requires desk { pass.old.desk ≡ desk.now.id }
    requires askable { IsAskable question.now }
    ensures asked { OnOk result (Asks pass.old pass.new (question.now ∷ [])) }
    ensures refused { OnErr result (deeds pass.new ≡ deeds pass.old) }
    ensures cause { IfErr result (IsAskRefusal pass.new.seen.callers (length pass.new.seen.calls) question.now) }
    ensures keeps { Keeps pass.old pass.new }
    ensures current { IsCurrent pass.new }
{
    gate.before(pass.number(), turn);
    desk.ask(rt, alloc, pass, question)?;
    Ok(())
}

/// Asks all questions in order, the first as the call of this turn, up to one that is refused, and
/// answers the next turn.
fn ask_all<R: Wait, G: Gate>(
    rt: &R,
    alloc: Global,
    desk: &Desk,
    pass: &mut Pass,
    questions: &[Question],
    turn: u32,
    gate: &G,
) -> Result<u32, AskFault>
    requires desk { pass.old.desk ≡ desk.now.id }
    requires askable { All IsAskable questions.now }
    requires few { turn + length questions.now ≤ CALL_LIMIT }
    ensures keeps { Keeps pass.old pass.new }
    ensures current { (pass.new ≡ pass.old) ⊎ IsCurrent pass.new }
    ensures next { IfOk result (λ n. n ≡ turn + length questions.now) }
    ensures asked { OnOk result (Asks pass.old pass.new questions.now) }
    ensures stops { IfErr result (AskStops questions.now pass.old pass.new) }
{
    let mut next = turn;
    for question in questions {
        ask_next(rt, alloc, desk, pass, question, next, gate)?;
        next += 1;
    }
    Ok(next)
}

/// Asks all questions in order, this many times, up to the first that is refused, and answers how
/// many were answered. The gate comes before each, with the number of those before. It
/// waits for the caller's turns.
#[tactic(auto, using(crate::proofs::KeepLemmas::keeps_same))]
pub fn ask_rounds<R: Wait, G: Gate>(
    rt: &R,
    alloc: Global,
    desk: &Desk,
    pass: &mut Pass,
    questions: &[Question],
    rounds: u32,
    gate: &G,
) -> Result<u64, AskFault>
    requires desk { pass.old.desk ≡ desk.now.id }
    requires askable { All IsAskable questions.now }
    requires few { length questions.now * rounds ≤ CALL_LIMIT }
    ensures keeps { Keeps pass.old pass.new }
    ensures current { (pass.new ≡ pass.old) ⊎ IsCurrent pass.new }
    ensures count { IfOk result (λ k. k ≡ length questions.now * rounds) }
    ensures asked { OnOk result (Asks pass.old pass.new (in_rounds rounds questions.now)) }
    ensures stops { IfErr result (AskStops (in_rounds rounds questions.now) pass.old pass.new) }
{
    let mut turn = 0;
    for _ in 0..rounds {
        turn = ask_all(rt, alloc, desk, pass, questions, turn, gate)?;
    }
    Ok(u64::from(turn))
}
