//! Seats: each is free, held or booked.

ghost use Rattle.std.specs.Prelude.{◌≡◌, ◌+◌, ◌*◌, ◌^◌, ◌<◌, ◌≤◌, [], ◌∷◌, ◌++◌, ◌↔◌, codes, map, IsTrue, IfOk, OnOk};
ghost use Rattle.std.specs.List.{flat_map, range_with_len};
ghost use Rattle.table_maker.specs.Made.{Makes, op_named};
ghost use Rattle.table_families.specs.Seats.{seats, digit_at, digit_of, is_seat, with_seat, free_of, free_op, seat_ops, seat_step, AreSeats, SeatsFit, ChangesOneSeat};

use declared_types::TypeFile;
use std::alloc::{AllocError, Global};
use table_maker::{
    FamilyRules, MakeError, make_file, named, numbered, push_replies, push_two, where_legal,
};
use type_table::{Name, Op};

/// A change of a seat leaves each other seat as it is.
pub fn changes_one_seat()
    ensures { ChangesOneSeat }
{}

/// What a seat is.
#[derive(Clone, Copy)]
enum Seat {
    /// It may be held.
    Free,
    /// It may be released or booked.
    Held,
    /// It may be cancelled.
    Booked,
}

impl Seat {
    /// Its digit in a state.
    fn digit(self) -> u16
        ensures exact { result ≡ digit_of self }
        ensures digit { result < 3 }
    {
        match self {
            Seat::Free => 0,
            Seat::Held => 1,
            Seat::Booked => 2,
        }
    }
}

/// The type file of `count` seats, with the set of all states.
///
/// There are 1 to 6 of them, numbered from 1. The state has a digit in base 3 for each, the least for
/// seat 1: 0 where it is free, 1 where it is held, 2 where it is booked. It begins at 0, where all are
/// free. For each seat i, `hold:i ok` holds it where it is free, and `hold:i taken` is legal where it
/// isn't; `release:i ok` frees it and `book:i ok` books it where it is held; `cancel:i ok` frees it
/// where it is booked. `free f` is legal where f seats are free.
///
/// # Errors
///
/// `BadParameter` where `count` isn't 1 to 1,023. Otherwise `TooLarge` where it is more than 6.
/// Otherwise `NoMemory` where memory is refused.
pub fn make_seats(alloc: Global, count: u16) -> Result<TypeFile, MakeError>
    ensures { Makes result (AreSeats count) (SeatsFit count) (seats count) }
{
    if count < 1 || 1023 < count {
        return Err(MakeError::BadParameter);
    }
    if !fit(count) {
        return Err(MakeError::TooLarge);
    }
    let ops = seats_ops(alloc, count)?;
    let rules = SeatsRules { count };
    make_file(alloc, &rules, named(b"seats"), 3_u16.pow(count as u32), ops)
}

/// Whether the operations are at most 64, and the states at most 1,024.
fn fit(count: u16) -> bool
    ensures { IsTrue result ↔ SeatsFit count }
{
    count <= 6
}

/// How many seats there are.
#[derive(Clone, Copy)]
struct SeatsRules {
    count: u16,
    ghost few: { count ≤ 6 },
    ghost fits: { 3 ^ count ≤ 1024 },
}

impl FamilyRules for SeatsRules {
    ghost family = { λ rules. seats rules.count };

    fn step(&self, s: u16, k: u8) -> Option<u16> {
        let k = k as u16;
        let of_seats = 5 * self.count;
        if k < of_seats {
            seat_step(k / 5, k % 5, s)
        } else {
            where_legal(free_of(self.count, s) == k - of_seats, s)
        }
    }
}

/// The step of an operation of a seat, by its place among the five.
fn seat_step(i: u16, place: u16, s: u16) -> Option<u16>
    requires seat { i < 6 }
    requires state { s < 1024 }
    ensures { result ≡ seat_step i place s }
{
    match place {
        0 => where_legal(is_seat(Seat::Free, s, i), with_seat(Seat::Held, s, i)),
        1 => where_legal(!is_seat(Seat::Free, s, i), s),
        2 => where_legal(is_seat(Seat::Held, s, i), with_seat(Seat::Free, s, i)),
        3 => where_legal(is_seat(Seat::Held, s, i), with_seat(Seat::Booked, s, i)),
        _ => where_legal(is_seat(Seat::Booked, s, i), with_seat(Seat::Free, s, i)),
    }
}

/// What the digit of seat i, counted from 0, counts.
fn unit(i: u16) -> u16
    requires { i < 6 }
    ensures exact { result ≡ 3 ^ i }
    ensures some { 0 < result }
    ensures small { result ≤ 243 }
{
    3_u16.pow(i as u32)
}

/// The digit of seat i.
fn digit_at(s: u16, i: u16) -> u16
    requires { i < 6 }
    ensures exact { result ≡ digit_at s i }
    ensures digit { result < 3 }
{
    s / unit(i) % 3
}

/// Whether seat i is such.
fn is_seat(seat: Seat, s: u16, i: u16) -> bool
    requires { i < 6 }
    ensures { result ≡ is_seat seat s i }
{
    digit_at(s, i) == seat.digit()
}

/// The state with seat i made such.
fn with_seat(seat: Seat, s: u16, i: u16) -> u16
    requires place { i < 6 }
    requires state { s < 1024 }
    ensures { result ≡ with_seat seat s i }
{
    s - digit_at(s, i) * unit(i) + seat.digit() * unit(i)
}

/// How many of some seats are free.
fn free_of(count: u16, s: u16) -> u16
    requires { count ≤ 6 }
    ensures { result ≡ free_of count s }
{
    let mut free = 0;
    for i in 0..count {
        free += is_seat(Seat::Free, s, i) as u16;
    }
    free
}

/// The operations of some seats.
#[tactic(auto, using(crate::proofs::SeatFacts::seats_more))]
fn seats_ops(alloc: Global, count: u16) -> Result<Vec<Op>, AllocError>
    requires { count ≤ 6 }
    ensures { IfOk result (λ ops. ops.items ≡ flat_map seat_ops (range_with_len 1 count) ++ map free_op (range_with_len 0 (count + 1))) }
{
    let mut ops = Vec::new(alloc);
    for i in 0..count {
        push_seat(alloc, &mut ops, i + 1)?;
    }
    push_replies(alloc, &mut ops, named(b"free"), count + 1)?;
    Ok(ops)
}

/// Adds the five operations of a seat.
fn push_seat(alloc: Global, ops: &mut Vec<Op>, number: u16) -> Result<(), AllocError>
    ensures { OnOk result (ops.new.items ≡ ops.old.items ++ seat_ops number) }
{
    let call = numbered(alloc, b"hold:", number)?;
    let hold = Op {
        call,
        reply: named(b"ok"),
    };
    let taken = Op {
        call,
        reply: named(b"taken"),
    };
    push_two(ops, hold, taken)?;
    push_change(ops, numbered(alloc, b"release:", number)?)?;
    push_change(ops, numbered(alloc, b"book:", number)?)?;
    push_change(ops, numbered(alloc, b"cancel:", number)?)?;
    Ok(())
}

/// Adds the operation of a call that is done or isn't legal.
fn push_change(ops: &mut Vec<Op>, call: Name) -> Result<(), AllocError>
    ensures { OnOk result (ops.new.items ≡ ops.old.items ++ op_named call (codes "ok") ∷ []) }
{
    ops.push(Op {
        call,
        reply: named(b"ok"),
    })?;
    Ok(())
}
