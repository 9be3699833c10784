//! Exports: types that are made.
//!
//! Each puts a type behind a handle that holds nothing, made for a kind of recovery: 0 is update in place,
//! 1 deferred update, 2 escrow. Each may answer `InUse`, `BadKind`, `Refused` or `NoMemory`, and the handle
//! holds what it held. `fault` is written where the text has a fault (`BadText`) or the checker refuses the
//! type (`Refused`).

ghost use Rattle.std.specs.Prelude.{◌≡◌, IsSome, None, Some};
ghost use Rattle.line_text.specs.Text.{words_of};
ghost use Rattle.table_families.specs.Account.{account, AccountFits};
ghost use Rattle.table_families.specs.Amounts.{AreAmounts};
ghost use Rattle.table_families.specs.Counter.{counter, CounterFits};
ghost use Rattle.table_families.specs.Semiqueue.{semiqueue, SemiqueueFits};
ghost use Rattle.table_families.specs.Set.{set, SetFits};
ghost use Rattle.table_families.specs.Queue.{queue, QueueFits};
ghost use Rattle.table_families.specs.Seats.{seats, AreSeats, SeatsFit};
ghost use Rattle.table_families.specs.Stock.{stock, StockFits};
ghost use Rattle.type_table.specs.declared.kind.Kind.{Kind};
ghost use Rattle.library_calls.specs.Codes.{number};
ghost use Rattle.library_calls.specs.Families.{AreSemiqueueWords, AreSetWords, HasNone, IsOfFamily};
ghost use Rattle.library_calls.specs.Types.{IsNoTypeFile, IsTabledOf};
ghost use Rattle.library_calls.specs.Words.{kind_by_number};
ghost use Rattle.colock_c.specs.NumberTypes.{HasNoNumber, IsOfNumber};
ghost use Rattle.colock_c.specs.Types.{HasNoFile, IsDeclaredFile, MakesType};

use crate::made_types::{hold_amounts, hold_made, hold_tabled, hold_text};
use crate::slot::Slot;
use library_calls::families::{
    account_file, counter_file, queue_file, seats_file, semiqueue_file, set_file, stock_file,
};
use library_calls::{Code, ColockFault, kind_at};
use std::alloc::Global;

/// The type that a text declares (docs/formats.md), of which a number is for escrow alone: `BadText` or
/// `NeedsEscrow`.
#[unsafe(no_mangle)]
pub extern "C" fn colock_type_read(
    alloc: Global,
    slot: &mut Slot,
    kind: u32,
    text: &[u8],
    fault: &mut ColockFault,
) -> u32
    ensures in_use { IsSome slot.old.handle.held → (result ≡ number Code.InUse) × (slot.new.handle.held ≡ slot.old.handle.held) × (fault.new ≡ fault.old) }
    ensures no_kind { slot.old.handle.held ≡ None → kind_by_number kind ≡ None → (result ≡ number Code.BadKind) × (slot.new.handle.held ≡ None) × (fault.new ≡ fault.old) }
    ensures made { (k : Kind) → slot.old.handle.held ≡ None → kind_by_number kind ≡ Some k
        → MakesType (IsDeclaredFile text.now k) (HasNoFile text.now k fault.old) k fault.old result fault.new slot.new.handle.held }
{
    if slot.is_open() {
        return Code::InUse.number();
    }
    let Some(kind) = kind_at(kind) else {
        return Code::BadKind.number();
    };
    hold_text(alloc, slot, kind, text, fault).number()
}

/// The type of a type file with made tables in place of its own, which states look like which and which pairs of
/// operations have to conflict: `BadText`.
#[unsafe(no_mangle)]
pub extern "C" fn colock_type_tables(
    alloc: Global,
    slot: &mut Slot,
    kind: u32,
    text: &[u8],
    fault: &mut ColockFault,
) -> u32
    ensures in_use { IsSome slot.old.handle.held → (result ≡ number Code.InUse) × (slot.new.handle.held ≡ slot.old.handle.held) × (fault.new ≡ fault.old) }
    ensures no_kind { slot.old.handle.held ≡ None → kind_by_number kind ≡ None → (result ≡ number Code.BadKind) × (slot.new.handle.held ≡ None) × (fault.new ≡ fault.old) }
    ensures made { (k : Kind) → slot.old.handle.held ≡ None → kind_by_number kind ≡ Some k
        → MakesType (IsTabledOf text.now) (IsNoTypeFile text.now) k fault.old result fault.new slot.new.handle.held }
{
    if slot.is_open() {
        return Code::InUse.number();
    }
    let Some(kind) = kind_at(kind) else {
        return Code::BadKind.number();
    };
    hold_tabled(alloc, slot, kind, text, fault).number()
}

/// An account: a balance of 0 to `cap`, with deposits and withdrawals of these amounts. `BadParameter` or
/// `TooLarge`.
#[unsafe(no_mangle)]
#[tactic(auto, using(crate::proofs::Typings::of_family))]
pub extern "C" fn colock_type_account(
    alloc: Global,
    slot: &mut Slot,
    kind: u32,
    cap: u64,
    amounts: &[u64],
    fault: &mut ColockFault,
) -> u32
    ensures in_use { IsSome slot.old.handle.held → (result ≡ number Code.InUse) × (slot.new.handle.held ≡ slot.old.handle.held) × (fault.new ≡ fault.old) }
    ensures no_kind { slot.old.handle.held ≡ None → kind_by_number kind ≡ None → (result ≡ number Code.BadKind) × (slot.new.handle.held ≡ None) × (fault.new ≡ fault.old) }
    ensures made { (k : Kind) → slot.old.handle.held ≡ None → kind_by_number kind ≡ Some k
        → MakesType (IsOfFamily (AreAmounts cap amounts.now) (AccountFits cap amounts.now) (account cap amounts.now)) (λ n words. HasNone (AreAmounts cap amounts.now) (AccountFits cap amounts.now) n × (words ≡ fault.old)) k fault.old result fault.new slot.new.handle.held }
{
    let made = account_file(alloc, cap, amounts);
    hold_made(alloc, slot, kind, made, fault)
}

/// A counter: a number from 0 to `cap`, with steps up and down by these amounts. `BadParameter` or
/// `TooLarge`.
#[unsafe(no_mangle)]
#[tactic(auto, using(crate::proofs::Typings::of_family))]
pub extern "C" fn colock_type_counter(
    alloc: Global,
    slot: &mut Slot,
    kind: u32,
    cap: u64,
    amounts: &[u64],
    fault: &mut ColockFault,
) -> u32
    ensures in_use { IsSome slot.old.handle.held → (result ≡ number Code.InUse) × (slot.new.handle.held ≡ slot.old.handle.held) × (fault.new ≡ fault.old) }
    ensures no_kind { slot.old.handle.held ≡ None → kind_by_number kind ≡ None → (result ≡ number Code.BadKind) × (slot.new.handle.held ≡ None) × (fault.new ≡ fault.old) }
    ensures made { (k : Kind) → slot.old.handle.held ≡ None → kind_by_number kind ≡ Some k
        → MakesType (IsOfFamily (AreAmounts cap amounts.now) (CounterFits amounts.now) (counter cap amounts.now)) (λ n words. HasNone (AreAmounts cap amounts.now) (CounterFits amounts.now) n × (words ≡ fault.old)) k fault.old result fault.new slot.new.handle.held }
{
    let made = counter_file(alloc, cap, amounts);
    hold_made(alloc, slot, kind, made, fault)
}

/// A stock: a number from 0 to `cap`, of which these amounts are given and taken. `BadParameter` or
/// `TooLarge`.
#[unsafe(no_mangle)]
#[tactic(auto, using(crate::proofs::Typings::of_family))]
pub extern "C" fn colock_type_stock(
    alloc: Global,
    slot: &mut Slot,
    kind: u32,
    cap: u64,
    amounts: &[u64],
    fault: &mut ColockFault,
) -> u32
    ensures in_use { IsSome slot.old.handle.held → (result ≡ number Code.InUse) × (slot.new.handle.held ≡ slot.old.handle.held) × (fault.new ≡ fault.old) }
    ensures no_kind { slot.old.handle.held ≡ None → kind_by_number kind ≡ None → (result ≡ number Code.BadKind) × (slot.new.handle.held ≡ None) × (fault.new ≡ fault.old) }
    ensures made { (k : Kind) → slot.old.handle.held ≡ None → kind_by_number kind ≡ Some k
        → MakesType (IsOfFamily (AreAmounts cap amounts.now) (StockFits amounts.now) (stock cap amounts.now)) (λ n words. HasNone (AreAmounts cap amounts.now) (StockFits amounts.now) n × (words ≡ fault.old)) k fault.old result fault.new slot.new.handle.held }
{
    let made = stock_file(alloc, cap, amounts);
    hold_made(alloc, slot, kind, made, fault)
}

/// A set: each element, which is a word of the text, is in or out. `BadParameter` or `TooLarge`.
#[unsafe(no_mangle)]
#[tactic(auto, using(crate::proofs::Typings::of_family))]
pub extern "C" fn colock_type_set(
    alloc: Global,
    slot: &mut Slot,
    kind: u32,
    elements: &[u8],
    fault: &mut ColockFault,
) -> u32
    ensures in_use { IsSome slot.old.handle.held → (result ≡ number Code.InUse) × (slot.new.handle.held ≡ slot.old.handle.held) × (fault.new ≡ fault.old) }
    ensures no_kind { slot.old.handle.held ≡ None → kind_by_number kind ≡ None → (result ≡ number Code.BadKind) × (slot.new.handle.held ≡ None) × (fault.new ≡ fault.old) }
    ensures made { (k : Kind) → slot.old.handle.held ≡ None → kind_by_number kind ≡ Some k
        → MakesType (IsOfFamily (AreSetWords elements.now) (SetFits (words_of elements.now)) (set (words_of elements.now))) (λ n words. HasNone (AreSetWords elements.now) (SetFits (words_of elements.now)) n × (words ≡ fault.old)) k fault.old result fault.new slot.new.handle.held }
{
    let made = set_file(alloc, elements);
    hold_made(alloc, slot, kind, made, fault)
}

/// A semiqueue: at most `capacity` items of the elements, which are the words of the text. `BadParameter` or
/// `TooLarge`.
#[unsafe(no_mangle)]
#[tactic(auto, using(crate::proofs::Typings::of_family))]
pub extern "C" fn colock_type_semiqueue(
    alloc: Global,
    slot: &mut Slot,
    kind: u32,
    elements: &[u8],
    capacity: u64,
    fault: &mut ColockFault,
) -> u32
    ensures in_use { IsSome slot.old.handle.held → (result ≡ number Code.InUse) × (slot.new.handle.held ≡ slot.old.handle.held) × (fault.new ≡ fault.old) }
    ensures no_kind { slot.old.handle.held ≡ None → kind_by_number kind ≡ None → (result ≡ number Code.BadKind) × (slot.new.handle.held ≡ None) × (fault.new ≡ fault.old) }
    ensures made { (k : Kind) → slot.old.handle.held ≡ None → kind_by_number kind ≡ Some k
        → MakesType (IsOfFamily (AreSemiqueueWords elements.now capacity) (SemiqueueFits (words_of elements.now) capacity) (semiqueue (words_of elements.now) capacity)) (λ n words. HasNone (AreSemiqueueWords elements.now capacity) (SemiqueueFits (words_of elements.now) capacity) n × (words ≡ fault.old)) k fault.old result fault.new slot.new.handle.held }
{
    let made = semiqueue_file(alloc, elements, capacity);
    hold_made(alloc, slot, kind, made, fault)
}

/// A queue: at most `capacity` items of the elements, which are the words of the text, first in, first out.
/// `BadParameter` or `TooLarge`.
#[unsafe(no_mangle)]
#[tactic(auto, using(crate::proofs::Typings::of_family))]
pub extern "C" fn colock_type_queue(
    alloc: Global,
    slot: &mut Slot,
    kind: u32,
    elements: &[u8],
    capacity: u64,
    fault: &mut ColockFault,
) -> u32
    ensures in_use { IsSome slot.old.handle.held → (result ≡ number Code.InUse) × (slot.new.handle.held ≡ slot.old.handle.held) × (fault.new ≡ fault.old) }
    ensures no_kind { slot.old.handle.held ≡ None → kind_by_number kind ≡ None → (result ≡ number Code.BadKind) × (slot.new.handle.held ≡ None) × (fault.new ≡ fault.old) }
    ensures made { (k : Kind) → slot.old.handle.held ≡ None → kind_by_number kind ≡ Some k
        → MakesType (IsOfFamily (AreSemiqueueWords elements.now capacity) (QueueFits (words_of elements.now) capacity) (queue (words_of elements.now) capacity)) (λ n words. HasNone (AreSemiqueueWords elements.now capacity) (QueueFits (words_of elements.now) capacity) n × (words ≡ fault.old)) k fault.old result fault.new slot.new.handle.held }
{
    let made = queue_file(alloc, elements, capacity);
    hold_made(alloc, slot, kind, made, fault)
}

/// Seats: `count` of them, each free, held or booked. `BadParameter` or `TooLarge`.
#[unsafe(no_mangle)]
#[tactic(auto, using(crate::proofs::Typings::of_family))]
pub extern "C" fn colock_type_seats(
    alloc: Global,
    slot: &mut Slot,
    kind: u32,
    count: u64,
    fault: &mut ColockFault,
) -> u32
    ensures in_use { IsSome slot.old.handle.held → (result ≡ number Code.InUse) × (slot.new.handle.held ≡ slot.old.handle.held) × (fault.new ≡ fault.old) }
    ensures no_kind { slot.old.handle.held ≡ None → kind_by_number kind ≡ None → (result ≡ number Code.BadKind) × (slot.new.handle.held ≡ None) × (fault.new ≡ fault.old) }
    ensures made { (k : Kind) → slot.old.handle.held ≡ None → kind_by_number kind ≡ Some k
        → MakesType (IsOfFamily (AreSeats count) (SeatsFit count) (seats count)) (λ n words. HasNone (AreSeats count) (SeatsFit count) n × (words ≡ fault.old)) k fault.old result fault.new slot.new.handle.held }
{
    let made = seats_file(alloc, count);
    hold_made(alloc, slot, kind, made, fault)
}

/// A number from 0 to `max`, which has no table and is for escrow alone: these amounts are taken and given.
/// `BadParameter`, `TooLarge` or `NeedsEscrow`.
#[unsafe(no_mangle)]
pub extern "C" fn colock_type_number(
    alloc: Global,
    slot: &mut Slot,
    kind: u32,
    max: u32,
    amounts: &[u32],
    fault: &mut ColockFault,
) -> u32
    ensures in_use { IsSome slot.old.handle.held → (result ≡ number Code.InUse) × (slot.new.handle.held ≡ slot.old.handle.held) × (fault.new ≡ fault.old) }
    ensures no_kind { slot.old.handle.held ≡ None → kind_by_number kind ≡ None → (result ≡ number Code.BadKind) × (slot.new.handle.held ≡ None) × (fault.new ≡ fault.old) }
    ensures made { (k : Kind) → slot.old.handle.held ≡ None → kind_by_number kind ≡ Some k
        → MakesType (IsOfNumber max amounts.now k) (HasNoNumber max amounts.now k fault.old) k fault.old result fault.new slot.new.handle.held }
{
    if slot.is_open() {
        return Code::InUse.number();
    }
    let Some(kind) = kind_at(kind) else {
        return Code::BadKind.number();
    };
    hold_amounts(alloc, slot, kind, max, amounts, fault).number()
}
