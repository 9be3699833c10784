//! The grammar of number files: what a line says, and its tests after the lines before it.

ghost use Rattle.std.specs.Prelude.{◌≡◌, ◌<◌, ◌≤◌, [], ◌∷◌, length, map};
ghost use Rattle.number_types.specs.Calls.{call_rank, is_within};
ghost use Rattle.number_text.specs.NumberLines.{number_rules, line_with, number_line, called_of, numbered_of, says_any, any_or_numbered, bare_of, counted_rank, max_of, calls_of, amount_in};

use crate::number_line::{Counted, NumberLine};
use line_text::{FaultKind, Grammar, Section, exactly, is_key, long_number_at, name_at, word};
use number_types::{NumberCall, is_amount};
use std::alloc::{AllocError, Global};

/// The most lines of calls.
const MOST_CALLS: usize = 32;

const ONE_LINE: Section = Section {
    is_single: true,
    is_needed: true,
    most: None,
};

const ANY_LINES: Section = Section {
    is_single: false,
    is_needed: false,
    most: None,
};

const MAYBE_LINE: Section = Section {
    is_single: true,
    is_needed: false,
    most: None,
};

/// The sections by rank.
static SECTIONS: [Section; 10] = [
    ONE_LINE, ONE_LINE, ONE_LINE, ANY_LINES, MAYBE_LINE, ANY_LINES, MAYBE_LINE, ANY_LINES,
    MAYBE_LINE, ONE_LINE,
];

/// The grammar of number files.
#[derive(Clone, Copy)]
pub struct NumberGrammar;

impl Grammar for NumberGrammar {
    type Item = NumberLine;

    type Kept = Vec<NumberLine>;

    ghost rules = { λ _. number_rules };

    ghost kept = { λ lines. lines.items };

    fn nothing(&self, alloc: Global) -> Vec<NumberLine> {
        Vec::new(alloc)
    }

    fn keep(&self, before: &mut Vec<NumberLine>, item: NumberLine) -> Result<(), AllocError> {
        before.push(item)?;
        Ok(())
    }

    #[tactic(auto, unfolding(crate::specs::NumberLines::line_of))]
    fn item(&self, words: &[&[u8]]) -> Result<NumberLine, FaultKind> {
        if is_key(words, "number") {
            called_of(words)
        } else if is_key(words, "max") {
            numbered_of(Counted::Max, words)
        } else if is_key(words, "initial") {
            numbered_of(Counted::Initial, words)
        } else if is_key(words, "take") {
            any_or_numbered(NumberCall::TakeAny, Counted::Take, words)
        } else if is_key(words, "give") {
            any_or_numbered(NumberCall::GiveAny, Counted::Give, words)
        } else if is_key(words, "atleast") {
            numbered_of(Counted::AtLeast, words)
        } else if is_key(words, "value") {
            bare_of(NumberLine::Call(NumberCall::Value), words)
        } else if is_key(words, "end") {
            bare_of(NumberLine::End, words)
        } else {
            Err(FaultKind::UnknownWord)
        }
    }

    fn sections(&self) -> &[Section] {
        &SECTIONS
    }

    fn rank(&self, item: NumberLine) -> usize {
        match item {
            NumberLine::Called(_) => 0,
            NumberLine::Max(_) => 1,
            NumberLine::Initial(_) => 2,
            NumberLine::Call(call) => call_rank(call),
            NumberLine::TooLarge(counted) => counted_rank(counted),
            NumberLine::End => 9,
        }
    }

    fn misses(&self, before: &Vec<NumberLine>, _counts: &[usize], item: NumberLine) -> bool {
        match item {
            NumberLine::End => call_count(before) == 0,
            _ => false,
        }
    }

    fn is_in_range(&self, before: &Vec<NumberLine>, _counts: &[usize], item: NumberLine) -> bool {
        match item {
            NumberLine::Max(max) => 1 <= max,
            NumberLine::Initial(s) => s <= max_of(before),
            NumberLine::Call(call) => {
                is_within(max_of(before), call) && call_count(before) < MOST_CALLS
            }
            NumberLine::TooLarge(_) => false,
            NumberLine::Called(_) | NumberLine::End => true,
        }
    }

    fn key(&self, item: NumberLine) -> Option<(u32, u32)> {
        Some((amount_in(item), 0))
    }

    fn has_twin(&self, _before: &Vec<NumberLine>, _item: NumberLine) -> bool {
        false
    }

    fn twin_fault(&self, _item: NumberLine) -> FaultKind {
        FaultKind::TwiceOp
    }
}

fn call_rank(call: NumberCall) -> usize
    ensures exact { result ≡ call_rank call }
    ensures known { result < 9 }
{
    match call {
        NumberCall::Take(_) => 3,
        NumberCall::TakeAny => 4,
        NumberCall::Give(_) => 5,
        NumberCall::GiveAny => 6,
        NumberCall::AtLeast(_) => 7,
        NumberCall::Value => 8,
    }
}

fn counted_rank(counted: Counted) -> usize
    ensures exact { result ≡ counted_rank counted }
    ensures known { result < 9 }
{
    match counted {
        Counted::Max => 1,
        Counted::Initial => 2,
        Counted::Take => 3,
        Counted::Give => 5,
        Counted::AtLeast => 7,
    }
}

/// The greatest value, which the second line says.
fn max_of(lines: &[NumberLine]) -> u32
    ensures { result ≡ max_of lines.now }
{
    match lines.get(1) {
        Some(NumberLine::Max(max)) => *max,
        _ => 0,
    }
}

/// How many lines are those of a call.
fn call_count(lines: &[NumberLine]) -> usize
    ensures { result ≡ length (calls_of lines.now) }
{
    let mut count = 0;
    for line in lines {
        count += calls_in(*line);
    }
    count
}

/// How many calls a line has.
fn calls_in(line: NumberLine) -> usize
    ensures exact { result ≡ length (calls_of (line ∷ [])) }
    ensures few { result ≤ 1 }
{
    match line {
        NumberLine::Call(_) => 1,
        _ => 0,
    }
}

/// Whether the amount that a call lists is in range.
fn is_within(max: u32, call: NumberCall) -> bool
    ensures { result ≡ is_within max call }
{
    match call {
        NumberCall::Take(k) | NumberCall::Give(k) | NumberCall::AtLeast(k) => is_amount(max, k),
        NumberCall::TakeAny | NumberCall::GiveAny | NumberCall::Value => true,
    }
}

/// The amount that a line lists.
fn amount_in(line: NumberLine) -> u32
    ensures { result ≡ amount_in line }
{
    match line {
        NumberLine::Call(call) => call.amount(),
        _ => 0,
    }
}

#[tactic(auto, unfolding(crate::specs::NumberLines::called_of))]
fn called_of(words: &[&[u8]]) -> Result<NumberLine, FaultKind>
    ensures { result ≡ called_of (map (λ w. w.now) words.now) }
{
    exactly(words, 2)?;
    let name = name_at(words, 1)?;
    Ok(NumberLine::Called(name))
}

#[tactic(auto, unfolding(crate::specs::NumberLines::numbered_of))]
fn numbered_of(counted: Counted, words: &[&[u8]]) -> Result<NumberLine, FaultKind>
    ensures { result ≡ numbered_of counted (map (λ w. w.now) words.now) }
{
    exactly(words, 2)?;
    let number = long_number_at(words, 1)?;
    Ok(number_line(counted, number))
}

/// The line with a number, or that the number is too large.
fn number_line(counted: Counted, number: u64) -> NumberLine
    ensures { result ≡ number_line counted number }
{
    if number <= u64::from(u32::MAX) {
        line_with(counted, number as u32)
    } else {
        NumberLine::TooLarge(counted)
    }
}

fn line_with(counted: Counted, n: u32) -> NumberLine
    ensures { result ≡ line_with counted n }
{
    match counted {
        Counted::Max => NumberLine::Max(n),
        Counted::Initial => NumberLine::Initial(n),
        Counted::Take => NumberLine::Call(NumberCall::Take(n)),
        Counted::Give => NumberLine::Call(NumberCall::Give(n)),
        Counted::AtLeast => NumberLine::Call(NumberCall::AtLeast(n)),
    }
}

/// `any` after the keyword, or a number.
#[tactic(auto, unfolding(crate::specs::NumberLines::any_or_numbered))]
fn any_or_numbered(
    any: NumberCall,
    counted: Counted,
    words: &[&[u8]],
) -> Result<NumberLine, FaultKind>
    ensures { result ≡ any_or_numbered any counted (map (λ w. w.now) words.now) }
{
    if says_any(words) {
        Ok(NumberLine::Call(any))
    } else {
        numbered_of(counted, words)
    }
}

#[tactic(auto, unfolding(crate::specs::NumberLines::says_any))]
fn says_any(words: &[&[u8]]) -> bool
    ensures { result ≡ says_any (map (λ w. w.now) words.now) }
{
    words.len() == 2 && word(words, 1) == b"any".as_slice()
}

/// A keyword alone.
#[tactic(auto, unfolding(crate::specs::NumberLines::bare_of))]
fn bare_of(line: NumberLine, words: &[&[u8]]) -> Result<NumberLine, FaultKind>
    ensures { result ≡ bare_of line (map (λ w. w.now) words.now) }
{
    exactly(words, 1)?;
    Ok(line)
}
