//! The ways up from all records, each record passed once.
ghost use Rattle.std.specs.Prelude.{◌≡◌, ◌++◌, ◌∷◌, [], IfOk, length, map, replicate, suc, None as none};
ghost use Rattle.std.specs.List.{range_with_len};
ghost use Rattle.record_rules.specs.Passing.{end_of, answered, passed_answer, known, passed, climbed, reach, Tells, AreSettled};

use state_model::{FIRST_USER_RECORD, ROOT};
use std::alloc::{AllocError, Global};

/// What is asked of the way up from a record.
#[derive(Clone, Copy)]
pub enum Question {
    /// Whether it reaches the root.
    Rooted,
    /// Whether a directory of the volume itself, other than the root, stands on it.
    InSystem,
}

// The answer, where the way up ends at this number.
fn end_of(question: Question, number: u64) -> Option<bool>
    ensures { result ≡ end_of question number }
{
    match question {
        Question::Rooted if number == ROOT => Some(true),
        Question::Rooted => None,
        Question::InSystem if number == ROOT => Some(false),
        Question::InSystem if number < FIRST_USER_RECORD => Some(true),
        Question::InSystem => None,
    }
}

// What is known of a record that was passed on the way up from `first`, if it was passed: nothing
// leads on from a way that comes back to itself, whose answer isn't there yet.
fn answered(answers: &[bool], first: Option<u64>) -> Option<bool>
    ensures { result ≡ answered answers.now first }
{
    match first {
        Some(first) => match answers.get(first as usize) {
            Some(answer) => Some(*answer),
            None => Some(false),
        },
        None => None,
    }
}

// What is known of a record by those that were passed. One that isn't there has no way up.
fn passed_answer(firsts: &[Option<u64>], answers: &[bool], number: u64) -> Option<bool>
    ensures { result ≡ passed_answer firsts.now answers.now number }
{
    let at = number as usize;
    if at < firsts.len() {
        answered(answers, firsts[at])
    } else {
        Some(false)
    }
}

// The answer at a record, as far as it is known.
fn known(question: Question, firsts: &[Option<u64>], answers: &[bool], number: u64) -> Option<bool>
    ensures { result ≡ known question firsts.now answers.now number }
{
    match end_of(question, number) {
        Some(answer) => Some(answer),
        None => passed_answer(firsts, answers, number),
    }
}

// The answer at the record behind those that have theirs. `firsts` tells by number from which
// record each record was first passed, and `parents` the directory of each.
fn climb(
    question: Question,
    parents: &[Option<u64>],
    firsts: &mut [Option<u64>],
    answers: &[bool],
) -> bool
    requires size { length firsts.old ≡ length parents.now }
    requires settled { AreSettled question parents.now firsts.old answers.now }
    ensures size { length firsts.new ≡ length firsts.old }
    ensures told { Tells question parents.now (suc (passed firsts.new)) (length answers.now) result }
    ensures settled { AreSettled question parents.now firsts.new (answers.now ++ result ∷ []) }
{
    let start = answers.len() as u64;
    let mut at = Some(start);
    while let Some(number) = at {
        if let Some(answer) = known(question, firsts, answers, number) {
            return answer;
        }
        firsts[number as usize] = Some(start);
        at = parents[number as usize];
    }
    false
}

// The answer at each record, with room for what tells from where each was first passed.
#[tactic(auto, using(crate::proofs::Once::none_passed))]
fn climb_into(
    alloc: Global,
    question: Question,
    parents: &[Option<u64>],
    firsts: &mut [Option<u64>],
) -> Result<Vec<bool>, AllocError>
    requires fresh { firsts.old ≡ replicate (length parents.now) none }
    ensures value { IfOk result (λ answers. answers.items ≡ map (climbed question parents.now (reach question (length parents.now))) (range_with_len 0 (length parents.now))) }
{
    let mut answers = Vec::new(alloc);
    for start in 0..parents.len() {
        let answer = climb(question, parents, firsts, answers.as_slice());
        answers.push(answer)?;
    }
    Ok(answers)
}

/// The answer at each record, by its number. `parents` has the directory of each, if there is one.
/// The error is want of memory. It takes time and memory linear in the records.
pub fn climb_all(
    alloc: Global,
    question: Question,
    parents: &[Option<u64>],
) -> Result<Vec<bool>, AllocError>
    ensures value { IfOk result (λ answers. answers.items ≡ map (climbed question parents.now (reach question (length parents.now))) (range_with_len 0 (length parents.now))) }
{
    let mut firsts = vec![in alloc; None; parents.len()]?;
    climb_into(alloc, question, parents, firsts.as_mut_slice())
}
