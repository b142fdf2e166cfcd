//! What the returns of functions give.

ghost use Rattle.std.specs.Prelude.{◌≡◌, ◌↔◌, ◌<◌, ◌+◌, ◌^◌, IfOk, IsTrue, MatchOption, None, Some, slice_get, slice_index_or};
ghost use Rattle.flat_code.specs.declared.program.Entry.{Entry};
ghost use Rattle.code_rules.specs.Answers.{AnswersAlike, AreAnswers, IsAnswer, TakesAnswer, answer_at, answer_told};
ghost use Rattle.code_rules.specs.Functions.{OfEntry};

use crate::instrs::chosen;
use crate::operands::{gives_to, handed_before};
use crate::rules::{Rule, end_of};
use flat_code::{Code, Entry, Instr, Op};
use hs_base::NoMemory;
use std::alloc::Global;

/// What an instruction gives as the answer of its call: nothing, an integer or a pointer.
fn answer_given(
    alloc: Global,
    code: &Code,
    entry: &Entry,
    point: usize,
    instr: Instr,
) -> Result<Option<Option<bool>>, NoMemory>
    ensures { IfOk result (λ told. answer_told told ≡ answer_at code.now entry.now point instr) }
{
    match instr.op {
        Op::Return => Ok(Some(None)),
        Op::Give => {
            let told = handed_before(alloc, code, entry, point)?;
            Ok(told.first().copied())
        }
        _ => Ok(None),
    }
}

/// The first answer of a function.
fn first_answer(
    alloc: Global,
    code: &Code,
    function: usize,
    entry: &Entry,
) -> Result<Option<Option<bool>>, NoMemory>
    requires here { slice_get code.now.funcs function ≡ Some entry.now }
    requires next { function + 1 < 2 ^ 64 }
    ensures { IfOk result (IsAnswer code.now function entry.now) }
{
    for point in entry.first as usize..end_of(code, function) {
        if let Some(instr) = code.instrs.get(point) {
            let answer = answer_given(alloc, code, entry, point, *instr)?;
            if answer.is_some() {
                return Ok(answer);
            }
        }
    }
    Ok(None)
}

/// The first answer of the function of a number.
fn answer_of(alloc: Global, code: &Code, function: usize) -> Result<Option<Option<bool>>, NoMemory>
    ensures { IfOk result (λ told. OfEntry code.now (λ f entry. IsAnswer code.now f entry told) function) }
{
    match code.funcs.get(function) {
        Some(entry) => first_answer(alloc, code, function, entry),
        None => Ok(None),
    }
}

/// An answer of each function.
pub(crate) fn answers(alloc: Global, code: &Code) -> Result<Vec<Option<Option<bool>>>, NoMemory>
    ensures { IfOk result (λ told. AreAnswers code.now told.items) }
{
    let mut told = Vec::new(alloc);
    for function in 0..code.funcs.len() {
        told.push(answer_of(alloc, code, function)?)?;
    }
    Ok(told)
}

/// What is told of a function's answers.
pub(crate) fn told_at(told: &[Option<Option<bool>>], function: usize) -> Option<Option<bool>>
    ensures { result ≡ slice_index_or told.now function None }
{
    match told.get(function) {
        Some(answer) => *answer,
        None => None,
    }
}

/// The returns of a function give alike.
#[derive(Drop)]
pub(crate) struct Alike<'a> {
    pub(crate) told: &'a [Option<Option<bool>>],
}

impl<'a> Rule for Alike<'a> {
    ghost holds = { λ rule code f entry point i. AnswersAlike code rule.told.now f entry point i };

    ghost suits = { λ _ _. Unit {0} };

    fn check(
        &self,
        alloc: Global,
        code: &Code,
        function: usize,
        entry: &Entry,
        point: usize,
        instr: Instr,
    ) -> Result<bool, NoMemory> {
        let answer = answer_given(alloc, code, entry, point, instr)?;
        Ok(is_told(answer, told_at(self.told, function)))
    }
}

/// Says whether an answer, if there is one, is the one that is told.
fn is_told(answer: Option<Option<bool>>, told: Option<Option<bool>>) -> bool
    ensures { IsTrue result ↔ MatchOption (answer_told answer) (Unit {0}) (λ a. answer_told told ≡ Some a) }
{
    match (answer, told) {
        (None, _) => true,
        (Some(_), None) => false,
        (Some(None), Some(None)) => true,
        (Some(Some(one)), Some(Some(other))) => one == other,
        _ => false,
    }
}

/// The results of calls have registers.
#[derive(Drop)]
pub(crate) struct Taken<'a> {
    pub(crate) told: &'a [Option<Option<bool>>],
}

impl<'a> Rule for Taken<'a> {
    ghost holds = { λ rule code f entry point i. TakesAnswer rule.told.now entry i i.op };

    ghost suits = { λ _ _. Unit {0} };

    fn check(
        &self,
        _alloc: Global,
        _code: &Code,
        _function: usize,
        entry: &Entry,
        _point: usize,
        instr: Instr,
    ) -> Result<bool, NoMemory> {
        Ok(match instr.op {
            Op::Call => match told_at(self.told, instr.b as usize) {
                Some(answer) => gives_to(entry, answer, chosen(instr)),
                None => true,
            },
            _ => true,
        })
    }
}
