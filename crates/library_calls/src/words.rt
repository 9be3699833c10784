//! What crosses to C of answers, faults and types.

ghost use Rattle.std.specs.Prelude.{◌≡◌};
ghost use Rattle.library_calls.specs.Words.{answer_words, fault_words, kind_by_number, kind_number, refusal_words, shape_of};

use crate::operations::number_of;
use declared_types::DeclaredType;
use line_text::TextFault;
use store::Answer;
use table_checker::{CheckRefusal, Kind};

/// What a call is answered: `kind` is 0, and `number` that of the operation that was executed; or 1, and
/// the transaction that holds what it conflicts with; or 2, and 0, where no operation is legal.
#[repr(C)]
#[derive(Clone, Copy)]
pub struct ColockAnswer {
    pub kind: u64,
    pub number: u64,
}

/// What came of an attempt: `kind` is 0 where it committed. Else the call at the place `at`, counted from 0, ended it:
/// `kind` is 1, and `number` the transaction that keeps it out; or 2, and 0, where none of its operations is legal; or
/// 3, and the code of its refusal.
#[repr(C)]
#[derive(Clone, Copy)]
pub struct ColockOutcome {
    pub kind: u64,
    pub at: u64,
    pub number: u64,
}

/// The first refused line of a text and the number of its kind of fault; or 0 and the number of the
/// checker's refusal, with what that names.
#[repr(C)]
#[derive(Clone, Copy)]
pub struct ColockFault {
    pub line: u64,
    pub kind: u64,
    pub first: u64,
    pub second: u64,
    pub third: u64,
}

/// A type: its number of states, the initial one, how many operations it lists, and the kind of recovery
/// for which it was checked.
#[repr(C)]
#[derive(Clone, Copy)]
pub struct ColockShape {
    pub states: u64,
    pub initial: u64,
    pub ops: u64,
    pub kind: u64,
}

pub(crate) fn answer_words(answer: Answer) -> ColockAnswer
    ensures { result ≡ answer_words answer }
{
    match answer {
        Answer::Reply(k) => ColockAnswer {
            kind: 0,
            number: number_of(k),
        },
        Answer::Busy(u) => ColockAnswer {
            kind: 1,
            number: u64::from(u),
        },
        Answer::None => ColockAnswer { kind: 2, number: 0 },
    }
}

pub(crate) fn fault_words(fault: TextFault) -> ColockFault
    ensures { result ≡ fault_words fault }
{
    ColockFault {
        line: fault.line as u64,
        kind: fault.kind as u64,
        first: 0,
        second: 0,
        third: 0,
    }
}

/// The words of a refusal of the checker, with what it names.
fn refusal_of(kind: u64, first: u16, second: u16, third: u16) -> ColockFault
    ensures { result ≡ record { line = 0; kind = kind; first = first; second = second; third = third } }
{
    ColockFault {
        line: 0,
        kind,
        first: u64::from(first),
        second: u64::from(second),
        third: u64::from(third),
    }
}

pub(crate) fn refusal_words(why: CheckRefusal) -> ColockFault
    ensures { result ≡ refusal_words why }
{
    match why {
        CheckRefusal::InitialOutside => refusal_of(1, 0, 0, 0),
        CheckRefusal::NotClosed { s, k } => refusal_of(2, s, u16::from(k), 0),
        CheckRefusal::NotSimulation { s, t, k } => refusal_of(3, s, t, u16::from(k)),
        CheckRefusal::NotCommuting { p, q, s } => refusal_of(4, u16::from(p), u16::from(q), s),
        CheckRefusal::NotNumeric { k, s } => refusal_of(5, u16::from(k), s, 0),
    }
}

/// 0 is update in place, 1 deferred update, 2 escrow.
pub fn kind_at(kind: u32) -> Option<Kind>
    ensures { result ≡ kind_by_number kind }
{
    match kind {
        0 => Some(Kind::Undo),
        1 => Some(Kind::Intentions),
        2 => Some(Kind::Escrow),
        _ => None,
    }
}

/// The number of a kind.
fn kind_number(kind: Kind) -> u64
    ensures { result ≡ kind_number kind }
{
    match kind {
        Kind::Undo => 0,
        Kind::Intentions => 1,
        Kind::Escrow => 2,
    }
}

/// What is said of a type at once.
pub fn shape_of(kind: Kind, declared: &DeclaredType) -> ColockShape
    ensures { result ≡ shape_of kind declared.now }
{
    ColockShape {
        states: u64::from(declared.greatest()) + 1,
        initial: u64::from(declared.initial()),
        ops: declared.rows().len() as u64,
        kind: kind_number(kind),
    }
}
