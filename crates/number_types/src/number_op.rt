//! The operations of a number, and their names.

ghost use Rattle.std.specs.Prelude.{◌≡◌, ◌+◌, ◌≤◌, ◌++◌, true, length, IfSome};
ghost use Rattle.std.specs.Fmt.{decimal};
ghost use Rattle.std.specs.List.{list_all};
ghost use Rattle.type_table.specs.Name.{is_name, is_name_byte};
ghost use Rattle.number_types.specs.Operations.{op_with, op_names};

use crate::number_call::NumberCall;
use itoa::Buffer;
use type_table::{Name, Op};

/// What an operation of a number does or finds, and the amount of its call, or the value.
#[derive(Clone, Copy)]
pub enum NumberOp {
    /// It takes the amount.
    Take(u32),
    /// There is less than would be taken.
    Short(u32),
    /// It gives the amount.
    Give(u32),
    /// There is no room for what would be given.
    Full(u32),
    /// There is as much as the amount.
    AtLeast(u32),
    /// There is less.
    Below(u32),
    /// The number is this.
    Value(u32),
}

impl NumberOp {
    ghost use Rattle.number_types.specs.Named.{call_for};

    /// Its call and its reply.
    #[tactic(auto, unfolding(type_table::specs::Name::is_name))]
    pub fn names(self) -> Op
        ensures { result ≡ op_names self }
    {
        match self {
            NumberOp::Take(n) => numbered(b"take:", n, b"ok"),
            NumberOp::Short(n) => numbered(b"take:", n, b"short"),
            NumberOp::Give(n) => numbered(b"give:", n, b"ok"),
            NumberOp::Full(n) => numbered(b"give:", n, b"full"),
            NumberOp::AtLeast(n) => numbered(b"atleast:", n, b"yes"),
            NumberOp::Below(n) => numbered(b"atleast:", n, b"no"),
            NumberOp::Value(n) => Op {
                call: named(b"value"),
                reply: numbered_name(b"", n),
            },
        }
    }

    /// The call that asks for it.
    pub(crate) fn call(self) -> NumberCall
        ensures { result ≡ call_for self }
    {
        match self {
            NumberOp::Take(n) | NumberOp::Short(n) => NumberCall::Take(n),
            NumberOp::Give(n) | NumberOp::Full(n) => NumberCall::Give(n),
            NumberOp::AtLeast(n) | NumberOp::Below(n) => NumberCall::AtLeast(n),
            NumberOp::Value(_) => NumberCall::Value,
        }
    }
}

/// An operation of a call that is named by a word and an amount.
fn numbered(word: &[u8], amount: u32, reply: &[u8]) -> Op
    requires word { list_all is_name_byte word.now ≡ true }
    requires short { length word.now ≤ 8 }
    requires reply { is_name reply.now ≡ true }
    ensures { result ≡ op_with (word.now ++ decimal amount) reply.now }
{
    Op {
        call: numbered_name(word, amount),
        reply: named(reply),
    }
}

/// The name of the bytes of a word and a number.
pub fn numbered_name(word: &[u8], number: u32) -> Name
    requires word { list_all is_name_byte word.now ≡ true }
    requires short { length word.now ≤ 8 }
    ensures { result ≡ word.now ++ decimal number }
{
    let mut digits = Buffer::new();
    joined(word, digits.format(number).as_bytes())
}

/// The name of two words, one after the other.
fn joined(word: &[u8], what: &[u8]) -> Name
    requires name { is_name (word.now ++ what.now) ≡ true }
    requires short { length word.now + length what.now ≤ 32 }
    ensures { result ≡ word.now ++ what.now }
{
    let mut bytes = [0; 32];
    let end = word.len() + what.len();
    bytes[..word.len()].copy_from_slice(word);
    bytes[word.len()..end].copy_from_slice(what);
    named(&bytes[..end])
}

/// The name of these bytes.
pub fn named(bytes: &[u8]) -> Name
    requires { is_name bytes.now ≡ true }
    ensures { result ≡ bytes.now }
{
    match Name::from_bytes(bytes) {
        Some(name) => name,
        None => unreachable!(),
    }
}
