//! The sections of an output: their questions and answers.
ghost use Rattle.std.specs.Prelude.{◌≡◌, ◌+◌, ◌<◌, ◌≤◌, ◌∷◌, [], IfOk, OnOk, length, map};
ghost use Rattle.std.specs.List.{All};
ghost use Rattle.tally_answers.specs.Answers.{HasDays, IsAskable, NamesHostBelow, answer_of};
ghost use Rattle.tally_book.specs.Books.{asked};
ghost use Rattle.tally_cli.specs.Output.{attempts_asked, is_wanted, questions_of, stays_asked};
ghost use Rattle.tally_cli.specs.inside.Asked.{IsAskedOnce};
ghost use Rattle.tally_print.specs.Section.{NamesHostBelow as HasHostBelow, answer_in};

use std::alloc::{AllocError, Global};
use tally_book::{Answer, AskFault, Book, CALL_LIMIT, Question};
use tally_line::{Job, Report};
use tally_print::Section;
use tally_records::{Kind, LoginChoice, Memory};
use tally_sessions::HOST_LIMIT;
use tally_usage::Order;

/// Whether files of this kind are wanted, where one kind is.
fn is_wanted(wanted: Option<Kind>, kind: Kind) -> bool
    ensures { result ≡ is_wanted wanted kind }
{
    match wanted {
        Some(wanted) => wanted == kind,
        None => true,
    }
}

/// Questions for the chosen stays of each file of the wanted kind, or of every file.
fn stays_asked(
    alloc: Global,
    kinds: &[Kind],
    wanted: Option<Kind>,
    limit: Option<u32>,
    choice: &LoginChoice,
    until: Option<i32>,
) -> Result<Vec<Question>, AllocError>
    requires { length kinds.now ≤ HOST_LIMIT }
    ensures { IfOk result (λ v. v.items ≡ stays_asked wanted limit choice.now kinds.now until) }
{
    let mut questions = Vec::new(alloc);
    for host in 0..kinds.len() {
        if !is_wanted(wanted, kinds[host]) {
            continue;
        }
        let host = host as u32;
        questions.push(Question::Last {
            host,
            limit,
            choice: *choice,
            until,
        })?;
    }
    Ok(questions)
}

/// Questions for the chosen failed logins of each file.
fn attempts_asked(
    alloc: Global,
    kinds: &[Kind],
    limit: Option<u32>,
    choice: &LoginChoice,
) -> Result<Vec<Question>, AllocError>
    requires { length kinds.now ≤ HOST_LIMIT }
    ensures { IfOk result (λ v. v.items ≡ attempts_asked limit choice.now kinds.now) }
{
    let mut questions = Vec::new(alloc);
    for host in 0..kinds.len() {
        let host = host as u32;
        questions.push(Question::Attempts {
            host,
            limit,
            choice: *choice,
        })?;
    }
    Ok(questions)
}

/// Questions for the stays of each login file, then for connect time and the usage of commands.
fn all_questions(
    alloc: Global,
    kinds: &[Kind],
    offset: i32,
    until: Option<i32>,
) -> Result<Vec<Question>, AllocError>
    requires { length kinds.now ≤ HOST_LIMIT }
    ensures { IfOk result (λ v. v.items ≡ questions_of Report.All offset kinds.now until) }
{
    let choice = LoginChoice::every();
    let mut questions = stays_asked(alloc, kinds, Some(Kind::Login), None, &choice, until)?;
    questions.push(Question::Connect {
        by_day: false,
        by_user: false,
        offset,
        choice,
        until,
    })?;
    questions.push(Question::Commands {
        order: Order::Cpu,
        reverse: false,
        all: false,
    })?;
    Ok(questions)
}

/// One question.
fn only(alloc: Global, question: Question) -> Result<Vec<Question>, AllocError>
    ensures { IfOk result (λ v. v.items ≡ question ∷ []) }
{
    let mut questions = Vec::with_capacity(alloc, 1)?;
    questions.push_reserved(question);
    Ok(questions)
}

/// The questions whose answers are the sections of the job's output, over files of these kinds.
pub(crate) fn questions_of(
    alloc: Global,
    job: &Job,
    kinds: &[Kind],
) -> Result<Vec<Question>, AllocError>
    requires { length kinds.now ≤ HOST_LIMIT }
    ensures { IfOk result (λ v. v.items ≡ questions_of job.now.report job.now.offset kinds.now job.now.until) }
{
    match job.report {
        Report::Last { limit, choice, .. } => {
            stays_asked(alloc, kinds, None, limit, &choice, job.until)
        }
        Report::Attempts { limit, choice } => attempts_asked(alloc, kinds, limit, &choice),
        Report::AttemptSums { limit, choice } => {
            only(alloc, Question::AttemptSums { limit, choice })
        }
        Report::Connect {
            by_day,
            by_user,
            choice,
        } => {
            let offset = job.offset;
            let question = Question::Connect {
                by_day,
                by_user,
                offset,
                choice,
                until: job.until,
            };
            only(alloc, question)
        }
        Report::Commands {
            order,
            reverse,
            all,
        } => {
            let question = Question::Commands {
                order,
                reverse,
                all,
            };
            only(alloc, question)
        }
        Report::Users { order, reverse } => only(alloc, Question::Users { order, reverse }),
        Report::All => all_questions(alloc, kinds, job.offset, job.until),
    }
}

/// The answer to one question, of a book that can take the call.
fn answer_to(alloc: Global, book: &mut Book, question: &Question) -> Result<Answer, Memory>
    requires caller { 0 < book.old.callers }
    requires askable { IsAskable question.now }
    requires host { NamesHostBelow book.old.callers question.now }
    requires room { length book.old.calls < CALL_LIMIT }
    ensures stored { OnOk result (book.new ≡ asked book.old 0 question.now) }
    ensures value { IfOk result (λ a. a ≡ answer_of book.old.clock question.now book.old.logins book.old.procs) }
    ensures days { IfOk result HasDays }
{
    match book.ask(alloc, 0, question) {
        Ok(served) => Ok(served.answer),
        Err(AskFault::Memory) => Err(Memory),
        Err(_) => unreachable!(),
    }
}

/// The answers to the questions, of a book that can take as many calls more.
pub(crate) fn answers_to(
    alloc: Global,
    book: &mut Book,
    questions: &[Question],
) -> Result<Vec<Answer>, Memory>
    requires caller { 0 < book.old.callers }
    requires askable { All IsAskable questions.now }
    requires hosts { All (NamesHostBelow book.old.callers) questions.now }
    requires room { length book.old.calls + length questions.now ≤ CALL_LIMIT }
    ensures value { IfOk result (λ answers. answers.items
        ≡ map (λ q. answer_of book.old.clock q book.old.logins book.old.procs) questions.now) }
    ensures days { IfOk result (λ answers. All HasDays answers.items) }
{
    let mut answers = Vec::with_capacity(alloc, questions.len())?;
    for index in 0..questions.len() {
        let answer = answer_to(alloc, book, &questions[index])?;
        answers.push_reserved(answer);
    }
    Ok(answers)
}

/// The section for one question, of a book that can take the call: stays are looked up only when they are printed.
fn section_for(alloc: Global, book: &mut Book, question: &Question) -> Result<Section, Memory>
    requires caller { 0 < book.old.callers }
    requires askable { IsAskable question.now }
    requires host { NamesHostBelow book.old.callers question.now }
    requires room { length book.old.calls < CALL_LIMIT }
    ensures kept { OnOk result (IsAskedOnce book.old book.new) }
    ensures value { IfOk result (λ section. answer_in book.old.logins section
        ≡ answer_of book.old.clock question.now book.old.logins book.old.procs) }
    ensures host { IfOk result (HasHostBelow book.old.callers) }
    ensures days { IfOk result (λ section. HasDays (answer_in book.old.logins section)) }
{
    match *question {
        Question::Last {
            host,
            limit,
            choice,
            until,
        } => Ok(Section::Stays {
            host,
            limit,
            choice,
            until,
        }),
        _ => Ok(Section::Answered(answer_to(alloc, book, question)?)),
    }
}

/// The sections for the questions, of a book that can take as many calls more.
pub(crate) fn sections_for(
    alloc: Global,
    book: &mut Book,
    questions: &[Question],
) -> Result<Vec<Section>, Memory>
    requires caller { 0 < book.old.callers }
    requires askable { All IsAskable questions.now }
    requires hosts { All (NamesHostBelow book.old.callers) questions.now }
    requires room { length book.old.calls + length questions.now ≤ CALL_LIMIT }
    ensures callers { OnOk result (book.new.callers ≡ book.old.callers) }
    ensures logins { OnOk result (book.new.logins ≡ book.old.logins) }
    ensures value { IfOk result (λ sections. map (answer_in book.old.logins) sections.items
        ≡ map (λ q. answer_of book.old.clock q book.old.logins book.old.procs) questions.now) }
    ensures hosts { IfOk result (λ sections. All (HasHostBelow book.old.callers) sections.items) }
    ensures days { IfOk result (λ sections. All (λ s. HasDays (answer_in book.old.logins s)) sections.items) }
{
    let mut sections = Vec::with_capacity(alloc, questions.len())?;
    for index in 0..questions.len() {
        let section = section_for(alloc, book, &questions[index])?;
        sections.push_reserved(section);
    }
    Ok(sections)
}
