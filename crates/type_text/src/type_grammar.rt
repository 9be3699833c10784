//! The grammar of type files: what a line says, and its tests after the lines before it.

ghost use Rattle.std.specs.Prelude.{◌≡◌, map};
ghost use Rattle.type_text.specs.Kept.{kept_lines};
ghost use Rattle.type_text.specs.TypeLines.{type_rules, line_of, type_name_of, states_of_words, initial_of_words, operation_of, step_of, reach_of_words, equi_of, conflict_of, end_of};

use crate::type_line::TypeLine;
use crate::type_lines::TypeLines;
use line_text::{FaultKind, Grammar, Section, exactly, is_key, name_at, number_at, table_kind_at};
use std::alloc::{AllocError, Global};
use type_table::{MOST_OPS, MOST_STATES, Op, TableKind};

const ONE_LINE: Section = Section {
    is_single: true,
    is_needed: true,
    most: None,
};

const ANY_LINES: Section = Section {
    is_single: false,
    is_needed: false,
    most: None,
};

const OP_LINES: Section = Section {
    is_single: false,
    is_needed: true,
    most: Some(MOST_OPS),
};

/// The sections by rank.
static SECTIONS: [Section; 10] = [
    ONE_LINE, ONE_LINE, ONE_LINE, OP_LINES, ANY_LINES, ANY_LINES, ANY_LINES, ANY_LINES, ANY_LINES,
    ONE_LINE,
];

// The ranks of the sections, which are their places among them.
const TYPE_RANK: usize = 0;

const STATES_RANK: usize = 1;

const INITIAL_RANK: usize = 2;

const OP_RANK: usize = 3;

const STEP_RANK: usize = 4;

const REACH_RANK: usize = 5;

const EQUI_RANK: usize = 6;

const UNDO_RANK: usize = 7;

const INTENTIONS_RANK: usize = 8;

const END_RANK: usize = 9;

/// The grammar of type files.
#[derive(Clone, Copy)]
pub struct TypeGrammar;

impl Grammar for TypeGrammar {
    type Item = TypeLine;

    type Kept = TypeLines;

    ghost rules = { λ _. type_rules };

    ghost kept = { kept_lines };

    fn nothing(&self, alloc: Global) -> TypeLines {
        TypeLines::new(alloc)
    }

    fn keep(&self, before: &mut TypeLines, item: TypeLine) -> Result<(), AllocError> {
        before.push(item)
    }

    #[tactic(auto, unfolding(crate::specs::TypeLines::line_of))]
    fn item(&self, words: &[&[u8]]) -> Result<TypeLine, FaultKind> {
        if is_key(words, "type") {
            type_name_of(words)
        } else if is_key(words, "states") {
            states_of_words(words)
        } else if is_key(words, "initial") {
            initial_of_words(words)
        } else if is_key(words, "op") {
            operation_of(words)
        } else if is_key(words, "step") {
            step_of(words)
        } else if is_key(words, "reach") {
            reach_of_words(words)
        } else if is_key(words, "equi") {
            equi_of(words)
        } else if is_key(words, "conflict") {
            conflict_of(words)
        } else if is_key(words, "end") {
            end_of(words)
        } else {
            Err(FaultKind::UnknownWord)
        }
    }

    fn sections(&self) -> &[Section] {
        &SECTIONS
    }

    fn rank(&self, item: TypeLine) -> usize {
        match item {
            TypeLine::TypeName(_) => TYPE_RANK,
            TypeLine::States(_) => STATES_RANK,
            TypeLine::Initial(_) => INITIAL_RANK,
            TypeLine::Operation(_) => OP_RANK,
            TypeLine::Step { .. } => STEP_RANK,
            TypeLine::Reach(_) => REACH_RANK,
            TypeLine::Equi { .. } => EQUI_RANK,
            TypeLine::Conflict { kind, .. } => match kind {
                TableKind::Undo => UNDO_RANK,
                TableKind::Intentions => INTENTIONS_RANK,
            },
            TypeLine::End => END_RANK,
        }
    }

    fn misses(&self, _before: &TypeLines, _counts: &[usize], _item: TypeLine) -> bool {
        false
    }

    fn is_in_range(&self, before: &TypeLines, counts: &[usize], item: TypeLine) -> bool {
        let states = before.states();
        let ops = counts[OP_RANK];
        match item {
            TypeLine::States(states) => 1 <= states && states <= MOST_STATES as u32,
            TypeLine::Initial(s) => s < states,
            TypeLine::Step { s, k, t } => s < states && (k as usize) < ops && t < states,
            TypeLine::Reach(s) => s < states,
            TypeLine::Equi { s, t } => s < states && t < states && s != t,
            TypeLine::Conflict { p, q, .. } => (p as usize) < ops && (q as usize) < ops,
            TypeLine::TypeName(_) | TypeLine::Operation(_) | TypeLine::End => true,
        }
    }

    fn key(&self, item: TypeLine) -> Option<(u32, u32)> {
        match item {
            TypeLine::Step { s, k, .. } => Some((s, k)),
            TypeLine::Reach(s) => Some((s, 0)),
            TypeLine::Equi { s, t } => Some((s, t)),
            TypeLine::Conflict { p, q, .. } => Some((p, q)),
            _ => None,
        }
    }

    fn has_twin(&self, before: &TypeLines, item: TypeLine) -> bool {
        match item {
            TypeLine::Operation(op) => before.has_op(op),
            _ => false,
        }
    }

    fn twin_fault(&self, _item: TypeLine) -> FaultKind {
        FaultKind::TwiceOp
    }
}

#[tactic(auto, unfolding(crate::specs::TypeLines::type_name_of))]
fn type_name_of(words: &[&[u8]]) -> Result<TypeLine, FaultKind>
    ensures { result ≡ type_name_of (map (λ w. w.now) words.now) }
{
    exactly(words, 2)?;
    let name = name_at(words, 1)?;
    Ok(TypeLine::TypeName(name))
}

#[tactic(auto, unfolding(crate::specs::TypeLines::states_of_words))]
fn states_of_words(words: &[&[u8]]) -> Result<TypeLine, FaultKind>
    ensures { result ≡ states_of_words (map (λ w. w.now) words.now) }
{
    exactly(words, 2)?;
    let states = number_at(words, 1)?;
    Ok(TypeLine::States(states))
}

#[tactic(auto, unfolding(crate::specs::TypeLines::initial_of_words))]
fn initial_of_words(words: &[&[u8]]) -> Result<TypeLine, FaultKind>
    ensures { result ≡ initial_of_words (map (λ w. w.now) words.now) }
{
    exactly(words, 2)?;
    let s = number_at(words, 1)?;
    Ok(TypeLine::Initial(s))
}

#[tactic(auto, unfolding(crate::specs::TypeLines::operation_of))]
fn operation_of(words: &[&[u8]]) -> Result<TypeLine, FaultKind>
    ensures { result ≡ operation_of (map (λ w. w.now) words.now) }
{
    exactly(words, 3)?;
    let call = name_at(words, 1)?;
    let reply = name_at(words, 2)?;
    Ok(TypeLine::Operation(Op { call, reply }))
}

#[tactic(auto, unfolding(crate::specs::TypeLines::step_of))]
fn step_of(words: &[&[u8]]) -> Result<TypeLine, FaultKind>
    ensures { result ≡ step_of (map (λ w. w.now) words.now) }
{
    exactly(words, 4)?;
    let s = number_at(words, 1)?;
    let k = number_at(words, 2)?;
    let t = number_at(words, 3)?;
    Ok(TypeLine::Step { s, k, t })
}

#[tactic(auto, unfolding(crate::specs::TypeLines::reach_of_words))]
fn reach_of_words(words: &[&[u8]]) -> Result<TypeLine, FaultKind>
    ensures { result ≡ reach_of_words (map (λ w. w.now) words.now) }
{
    exactly(words, 2)?;
    let s = number_at(words, 1)?;
    Ok(TypeLine::Reach(s))
}

#[tactic(auto, unfolding(crate::specs::TypeLines::equi_of))]
fn equi_of(words: &[&[u8]]) -> Result<TypeLine, FaultKind>
    ensures { result ≡ equi_of (map (λ w. w.now) words.now) }
{
    exactly(words, 3)?;
    let s = number_at(words, 1)?;
    let t = number_at(words, 2)?;
    Ok(TypeLine::Equi { s, t })
}

#[tactic(auto, unfolding(crate::specs::TypeLines::conflict_of))]
fn conflict_of(words: &[&[u8]]) -> Result<TypeLine, FaultKind>
    ensures { result ≡ conflict_of (map (λ w. w.now) words.now) }
{
    exactly(words, 4)?;
    let kind = table_kind_at(words, 1)?;
    let p = number_at(words, 2)?;
    let q = number_at(words, 3)?;
    Ok(TypeLine::Conflict { kind, p, q })
}

#[tactic(auto, unfolding(crate::specs::TypeLines::end_of))]
fn end_of(words: &[&[u8]]) -> Result<TypeLine, FaultKind>
    ensures { result ≡ end_of (map (λ w. w.now) words.now) }
{
    exactly(words, 1)?;
    Ok(TypeLine::End)
}
