//! What families declare, at parameters as they cross.

ghost use Rattle.std.specs.Prelude.{◌≡◌, ◌⊎◌, IfErr, IfOk};
ghost use Rattle.table_families.specs.Number.{AreNumberAmounts, NumberFits};
ghost use Rattle.table_families.specs.Account.{account, AccountFits};
ghost use Rattle.table_families.specs.Amounts.{AreAmounts};
ghost use Rattle.table_families.specs.Counter.{counter, CounterFits};
ghost use Rattle.table_families.specs.Semiqueue.{semiqueue, SemiqueueFits};
ghost use Rattle.table_families.specs.Set.{set, SetFits};
ghost use Rattle.table_families.specs.Queue.{queue, QueueFits};
ghost use Rattle.table_families.specs.Seats.{seats, AreSeats, SeatsFit};
ghost use Rattle.table_families.specs.Stock.{stock, StockFits};
ghost use Rattle.line_text.specs.Text.{words_of};
ghost use Rattle.library_calls.specs.Codes.{number};
ghost use Rattle.library_calls.specs.Families.{AreSemiqueueWords, AreSetWords, HasNone, IsOfAmounts, IsOfFamily};

use crate::code::{Code, made_code};
use crate::parameters::{capacity_of, names_of, narrowed};
use declared_types::{DeclaredType, TypeFile};
use std::alloc::Global;
use table_families::{
    make_account, make_counter, make_number, make_queue, make_seats, make_semiqueue, make_set,
    make_stock,
};

/// The file of an account of 0 to a cap, with these amounts.
///
/// # Errors
///
/// `BadParameter`, `TooLarge` or `NoMemory`.
pub fn account_file(alloc: Global, cap: u64, amounts: &[u64]) -> Result<TypeFile, Code>
    ensures made { IfOk result (IsOfFamily (AreAmounts cap amounts.now) (AccountFits cap amounts.now) (account cap amounts.now)) }
    ensures refused { IfErr result (λ code. (code ≡ Code.NoMemory) ⊎ HasNone (AreAmounts cap amounts.now) (AccountFits cap amounts.now) (number code)) }
{
    let (cap, amounts) = match narrowed(alloc, cap, amounts) {
        Ok(narrow) => narrow,
        Err(code) => return Err(code),
    };
    match make_account(alloc, cap, &amounts) {
        Ok(file) => Ok(file),
        Err(error) => Err(made_code(error)),
    }
}

/// The file of a counter from 0 to a cap, with these amounts.
///
/// # Errors
///
/// As `account_file`.
pub fn counter_file(alloc: Global, cap: u64, amounts: &[u64]) -> Result<TypeFile, Code>
    ensures made { IfOk result (IsOfFamily (AreAmounts cap amounts.now) (CounterFits amounts.now) (counter cap amounts.now)) }
    ensures refused { IfErr result (λ code. (code ≡ Code.NoMemory) ⊎ HasNone (AreAmounts cap amounts.now) (CounterFits amounts.now) (number code)) }
{
    let (cap, amounts) = match narrowed(alloc, cap, amounts) {
        Ok(narrow) => narrow,
        Err(code) => return Err(code),
    };
    match make_counter(alloc, cap, &amounts) {
        Ok(file) => Ok(file),
        Err(error) => Err(made_code(error)),
    }
}

/// The file of a stock of 0 to a cap, with these amounts.
///
/// # Errors
///
/// As `account_file`.
pub fn stock_file(alloc: Global, cap: u64, amounts: &[u64]) -> Result<TypeFile, Code>
    ensures made { IfOk result (IsOfFamily (AreAmounts cap amounts.now) (StockFits amounts.now) (stock cap amounts.now)) }
    ensures refused { IfErr result (λ code. (code ≡ Code.NoMemory) ⊎ HasNone (AreAmounts cap amounts.now) (StockFits amounts.now) (number code)) }
{
    let (cap, amounts) = match narrowed(alloc, cap, amounts) {
        Ok(narrow) => narrow,
        Err(code) => return Err(code),
    };
    match make_stock(alloc, cap, &amounts) {
        Ok(file) => Ok(file),
        Err(error) => Err(made_code(error)),
    }
}

/// The file of a set, whose elements are the words of a text.
///
/// # Errors
///
/// As `account_file`.
pub fn set_file(alloc: Global, elements: &[u8]) -> Result<TypeFile, Code>
    ensures made { IfOk result (IsOfFamily (AreSetWords elements.now) (SetFits (words_of elements.now)) (set (words_of elements.now))) }
    ensures refused { IfErr result (λ code. (code ≡ Code.NoMemory) ⊎ HasNone (AreSetWords elements.now) (SetFits (words_of elements.now)) (number code)) }
{
    let names = match names_of(alloc, elements) {
        Ok(names) => names,
        Err(code) => return Err(code),
    };
    match make_set(alloc, &names) {
        Ok(file) => Ok(file),
        Err(error) => Err(made_code(error)),
    }
}

/// The file of a semiqueue of this capacity, whose elements are the words of a text.
///
/// # Errors
///
/// As `account_file`.
pub fn semiqueue_file(alloc: Global, elements: &[u8], capacity: u64) -> Result<TypeFile, Code>
    ensures made { IfOk result (IsOfFamily (AreSemiqueueWords elements.now capacity) (SemiqueueFits (words_of elements.now) capacity) (semiqueue (words_of elements.now) capacity)) }
    ensures refused { IfErr result (λ code. (code ≡ Code.NoMemory) ⊎ HasNone (AreSemiqueueWords elements.now capacity) (SemiqueueFits (words_of elements.now) capacity) (number code)) }
{
    let Some(capacity) = capacity_of(capacity) else {
        return Err(Code::BadParameter);
    };
    let names = match names_of(alloc, elements) {
        Ok(names) => names,
        Err(code) => return Err(code),
    };
    match make_semiqueue(alloc, &names, capacity) {
        Ok(file) => Ok(file),
        Err(error) => Err(made_code(error)),
    }
}

/// The file of a queue of this capacity, whose elements are the words of a text.
///
/// # Errors
///
/// As `account_file`.
pub fn queue_file(alloc: Global, elements: &[u8], capacity: u64) -> Result<TypeFile, Code>
    ensures made { IfOk result (IsOfFamily (AreSemiqueueWords elements.now capacity) (QueueFits (words_of elements.now) capacity) (queue (words_of elements.now) capacity)) }
    ensures refused { IfErr result (λ code. (code ≡ Code.NoMemory) ⊎ HasNone (AreSemiqueueWords elements.now capacity) (QueueFits (words_of elements.now) capacity) (number code)) }
{
    let Some(capacity) = capacity_of(capacity) else {
        return Err(Code::BadParameter);
    };
    let names = match names_of(alloc, elements) {
        Ok(names) => names,
        Err(code) => return Err(code),
    };
    match make_queue(alloc, &names, capacity) {
        Ok(file) => Ok(file),
        Err(error) => Err(made_code(error)),
    }
}

/// The file of so many seats.
///
/// # Errors
///
/// As `account_file`.
pub fn seats_file(alloc: Global, count: u64) -> Result<TypeFile, Code>
    ensures made { IfOk result (IsOfFamily (AreSeats count) (SeatsFit count) (seats count)) }
    ensures refused { IfErr result (λ code. (code ≡ Code.NoMemory) ⊎ HasNone (AreSeats count) (SeatsFit count) (number code)) }
{
    let Some(count) = capacity_of(count) else {
        return Err(Code::BadParameter);
    };
    match make_seats(alloc, count) {
        Ok(file) => Ok(file),
        Err(error) => Err(made_code(error)),
    }
}

/// The number of 0 to a greatest value, of which these amounts are taken and given.
///
/// # Errors
///
/// As `account_file`.
pub fn number_of(alloc: Global, max: u32, amounts: &[u32]) -> Result<DeclaredType, Code>
    ensures made { IfOk result (IsOfAmounts max amounts.now) }
    ensures refused { IfErr result (λ code. (code ≡ Code.NoMemory) ⊎ HasNone (AreNumberAmounts max amounts.now) (NumberFits amounts.now) (number code)) }
{
    match make_number(alloc, max, amounts) {
        Ok(made) => Ok(DeclaredType::number(made)),
        Err(error) => Err(made_code(error)),
    }
}
