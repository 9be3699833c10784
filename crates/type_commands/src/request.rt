//! What `make` is asked for.

ghost use Rattle.std.specs.Prelude.{◌≡◌, None, IfOk, IfErr, filter_map, is_some};
ghost use Rattle.std.specs.List.{list_all};
ghost use Rattle.type_commands.specs.Made.{MakesWanted};
ghost use Rattle.type_commands.specs.Request.{Fits, GivesSaid, IsGood, Wanted, each_of, formula_of, long_parameter_of, name_of_text, of_seats, of_set, parameter_of, table, texts, value, wanted_by, wanted_of};
ghost use Rattle.table_families.specs.Number.{MakesNumber};
ghost use Rattle.table_maker.specs.Made.{Family, Makes};
ghost use Rattle.number_types.specs.Number.{Number};

use decimals::{long_number_of, number_of};
use declared_types::{DeclaredType, TypeFile};
use number_types::NumberFile;
use std::alloc::{AllocError, Global};
use table_families::{
    make_account, make_counter, make_number, make_queue, make_seats, make_semiqueue, make_set,
    make_stock,
};
use table_maker::MakeError;
use type_table::Name;

/// A family of types and its parameters, which may be out of their ranges.
#[derive(Drop)]
pub enum Request {
    /// A balance from 0 to a cap, with deposits and withdrawals of some amounts.
    Account {
        /// The greatest balance.
        cap: u16,
        /// What is put in and taken out.
        amounts: Vec<u16>,
    },
    /// A number from 0 to a cap, with steps of some amounts.
    Counter {
        /// The greatest number.
        cap: u16,
        /// The steps up and down.
        amounts: Vec<u16>,
    },
    /// A number from 0 to a cap, of which some amounts are given and taken.
    Stock {
        /// The greatest number.
        cap: u16,
        /// What is given and taken.
        amounts: Vec<u16>,
    },
    /// A set of some elements.
    Set {
        /// What may be in it.
        elements: Vec<Name>,
    },
    /// Items of some elements, of which a dequeue gives any.
    Semiqueue {
        /// What may be held.
        elements: Vec<Name>,
        /// The most items that are held at once.
        capacity: u16,
    },
    /// Items of some elements, of which a dequeue gives the one that is longest there.
    Queue {
        /// What may be held.
        elements: Vec<Name>,
        /// The most items that are held at once.
        capacity: u16,
    },
    /// Seats that are free, held or booked.
    Seats {
        /// How many there are.
        count: u16,
    },
    /// A number from 0 to a greatest one, of which some amounts are taken and given. It has no table.
    Number {
        /// The greatest number.
        max: u32,
        /// What is taken and given.
        amounts: Vec<u32>,
    },
}

/// The request of the words of `make`: FAMILY, SIZE and the ITEMs.
///
/// SIZE is the cap of an account, a counter or a stock, the capacity of a semiqueue or a queue, how many
/// seats there are, the greatest number, and `0` for a set.
///
/// # Errors
///
/// `BadParameter` where the family is none of the eight, a word isn't a number below 65,536 or a name
/// where one is asked for, the SIZE of a set isn't `0`, or seats have an ITEM; of a number, where a word
/// isn't one up to 4,294,967,295. Otherwise `NoMemory` where memory is refused.
pub fn request_of(
    alloc: Global,
    family: &str,
    size: &str,
    items: &[&str],
) -> Result<Request, MakeError>
    ensures { GivesSaid (wanted_of family.now size.now (texts items.now)) wanted_by result }
{
    match family {
        "account" => Ok(Request::Account {
            cap: parameter_of(size)?,
            amounts: amounts_of(alloc, items)?,
        }),
        "counter" => Ok(Request::Counter {
            cap: parameter_of(size)?,
            amounts: amounts_of(alloc, items)?,
        }),
        "stock" => Ok(Request::Stock {
            cap: parameter_of(size)?,
            amounts: amounts_of(alloc, items)?,
        }),
        "set" => set_of(alloc, size, items),
        "semiqueue" => Ok(Request::Semiqueue {
            capacity: parameter_of(size)?,
            elements: elements_of(alloc, items)?,
        }),
        "queue" => Ok(Request::Queue {
            capacity: parameter_of(size)?,
            elements: elements_of(alloc, items)?,
        }),
        "seats" => seats_of(size, items),
        "number" => Ok(Request::Number {
            max: long_parameter_of(size)?,
            amounts: long_amounts_of(alloc, items)?,
        }),
        _ => Err(MakeError::BadParameter),
    }
}

/// What is asked for of a set, whose SIZE is `0`.
fn set_of(alloc: Global, size: &str, items: &[&str]) -> Result<Request, MakeError>
    ensures { GivesSaid (of_set size.now (texts items.now)) wanted_by result }
{
    if size != "0" {
        return Err(MakeError::BadParameter);
    }
    Ok(Request::Set {
        elements: elements_of(alloc, items)?,
    })
}

/// What is asked for of seats, which have no ITEM.
fn seats_of(size: &str, items: &[&str]) -> Result<Request, MakeError>
    ensures { GivesSaid (of_seats size.now (texts items.now)) wanted_by result }
{
    if !items.is_empty() {
        return Err(MakeError::BadParameter);
    }
    Ok(Request::Seats {
        count: parameter_of(size)?,
    })
}

/// The number that a word is, where it is below 65,536, which no parameter reaches.
fn parameter_of(word: &str) -> Result<u16, MakeError>
    ensures number { IfOk result (λ number. parameter_of word.now ≡ Some number) }
    ensures other { IfErr result (λ error. (error ≡ MakeError.BadParameter) × (parameter_of word.now ≡ None)) }
{
    match small_number(word) {
        Some(number) => Ok(number),
        None => Err(MakeError::BadParameter),
    }
}

fn small_number(word: &str) -> Option<u16>
    ensures { result ≡ parameter_of word.now }
{
    let number = number_of(word.as_bytes())?;
    if number < 65536 {
        Some(number as u16)
    } else {
        None
    }
}

/// The numbers that the words are. Memory is taken only where each of them is one.
fn amounts_of(alloc: Global, words: &[&str]) -> Result<Vec<u16>, MakeError>
    ensures { GivesSaid (each_of parameter_of (texts words.now)) (λ amounts. amounts.items) result }
{
    if !are_parameters(words) {
        return Err(MakeError::BadParameter);
    }
    Ok(parameters_among(alloc, words)?)
}

fn are_parameters(words: &[&str]) -> bool
    ensures { result ≡ list_all (λ word. is_some (parameter_of word.now)) words.now }
{
    words.iter().all(|word| small_number(word).is_some())
}

fn parameters_among(alloc: Global, words: &[&str]) -> Result<Vec<u16>, AllocError>
    ensures { IfOk result (λ numbers. numbers.items ≡ filter_map (λ word. parameter_of word.now) words.now) }
{
    words
        .iter()
        .filter_map(|word| small_number(word))
        .collect(alloc)
}

/// The number that a word is, of up to ten digits, where it is at most 4,294,967,295.
fn long_parameter_of(word: &str) -> Result<u32, MakeError>
    ensures number { IfOk result (λ number. long_parameter_of word.now ≡ Some number) }
    ensures other { IfErr result (λ error. (error ≡ MakeError.BadParameter) × (long_parameter_of word.now ≡ None)) }
{
    match long_number(word) {
        Some(number) => Ok(number),
        None => Err(MakeError::BadParameter),
    }
}

fn long_number(word: &str) -> Option<u32>
    ensures { result ≡ long_parameter_of word.now }
{
    let number = long_number_of(word.as_bytes())?;
    if number <= u64::from(u32::MAX) {
        Some(number as u32)
    } else {
        None
    }
}

/// The numbers of up to ten digits that the words are. Memory is taken only where each of them is one.
fn long_amounts_of(alloc: Global, words: &[&str]) -> Result<Vec<u32>, MakeError>
    ensures { GivesSaid (each_of long_parameter_of (texts words.now)) (λ amounts. amounts.items) result }
{
    if !are_long_parameters(words) {
        return Err(MakeError::BadParameter);
    }
    Ok(long_parameters_among(alloc, words)?)
}

fn are_long_parameters(words: &[&str]) -> bool
    ensures { result ≡ list_all (λ word. is_some (long_parameter_of word.now)) words.now }
{
    words.iter().all(|word| long_number(word).is_some())
}

fn long_parameters_among(alloc: Global, words: &[&str]) -> Result<Vec<u32>, AllocError>
    ensures { IfOk result (λ numbers. numbers.items ≡ filter_map (λ word. long_parameter_of word.now) words.now) }
{
    words
        .iter()
        .filter_map(|word| long_number(word))
        .collect(alloc)
}

/// The names that the words are. Memory is taken only where each of them is one.
fn elements_of(alloc: Global, words: &[&str]) -> Result<Vec<Name>, MakeError>
    ensures { GivesSaid (each_of name_of_text (texts words.now)) (λ elements. elements.items) result }
{
    if !are_names(words) {
        return Err(MakeError::BadParameter);
    }
    Ok(names_among(alloc, words)?)
}

fn are_names(words: &[&str]) -> bool
    ensures { result ≡ list_all (λ word. is_some (name_of_text word.now)) words.now }
{
    words.iter().all(|word| Name::new(word).is_some())
}

fn names_among(alloc: Global, words: &[&str]) -> Result<Vec<Name>, AllocError>
    ensures { IfOk result (λ names. names.items ≡ filter_map (λ word. name_of_text word.now) words.now) }
{
    words
        .iter()
        .filter_map(|word| Name::new(word))
        .collect(alloc)
}

/// The type file that is asked for, with the set of all states, or the number.
///
/// # Errors
///
/// The first that holds of `BadParameter` where a parameter is out of its range, `TooLarge` where the
/// family has more than 64 operations or 1,024 states, and `NoMemory`.
pub fn make(alloc: Global, request: &Request) -> Result<DeclaredType, MakeError>
    ensures { MakesWanted (wanted_by request.now) result }
{
    match request {
        Request::Account { cap, amounts } => by_table(make_account(alloc, *cap, amounts)),
        Request::Counter { cap, amounts } => by_table(make_counter(alloc, *cap, amounts)),
        Request::Stock { cap, amounts } => by_table(make_stock(alloc, *cap, amounts)),
        Request::Set { elements } => by_table(make_set(alloc, elements)),
        Request::Semiqueue { elements, capacity } => {
            by_table(make_semiqueue(alloc, elements, *capacity))
        }
        Request::Queue { elements, capacity } => by_table(make_queue(alloc, elements, *capacity)),
        Request::Seats { count } => by_table(make_seats(alloc, *count)),
        Request::Number { max, amounts } => by_number(make_number(alloc, *max, amounts)),
    }
}

/// What is made of a family with a table.
fn by_table(made: Result<TypeFile, MakeError>) -> Result<DeclaredType, MakeError>
    ensures { (wanted : Wanted) (f : Family) → formula_of wanted ≡ table f → Makes made (IsGood wanted) (Fits wanted) f → MakesWanted wanted result }
{
    match made {
        Ok(file) => Ok(DeclaredType::table(file)),
        Err(error) => Err(error),
    }
}

/// What is made of a number.
fn by_number(made: Result<NumberFile, MakeError>) -> Result<DeclaredType, MakeError>
    ensures { (wanted : Wanted) (v : Number) → formula_of wanted ≡ value v → MakesNumber made (IsGood wanted) (Fits wanted) v → MakesWanted wanted result }
{
    match made {
        Ok(number) => Ok(DeclaredType::number(number)),
        Err(error) => Err(error),
    }
}
