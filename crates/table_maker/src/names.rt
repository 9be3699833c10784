//! Names of calls and replies: a word and what it is about.

ghost use Rattle.std.specs.Prelude.{◌≡◌, ◌+◌, ◌<◌, ◌≤◌, ◌++◌, true, length, IfOk};
ghost use Rattle.std.specs.Fmt.{decimal};
ghost use Rattle.std.specs.List.{list_all};
ghost use Rattle.type_table.specs.Name.{is_name_byte};

use std::alloc::{AllocError, Global};
use type_table::Name;

/// The name of these bytes.
pub fn named(bytes: &[u8]) -> Name
    requires bytes { list_all is_name_byte bytes.now ≡ true }
    requires some { 0 < length bytes.now }
    requires short { length bytes.now ≤ 32 }
    ensures { result ≡ bytes.now }
{
    match Name::from_bytes(bytes) {
        Some(name) => name,
        None => unreachable!(),
    }
}

/// The name of the bytes of a word and what it is about.
pub fn named_of(word: &[u8], what: &[u8]) -> Name
    requires word { list_all is_name_byte word.now ≡ true }
    requires what { list_all is_name_byte what.now ≡ true }
    requires some { 0 < length what.now }
    requires short { length word.now + length what.now ≤ 32 }
    ensures { result ≡ word.now ++ what.now }
{
    let mut bytes = [0; 32];
    let end = word.len() + what.len();
    bytes[..word.len()].copy_from_slice(word);
    bytes[word.len()..end].copy_from_slice(what);
    named(&bytes[..end])
}

/// The name of the bytes of a word and a number.
pub fn numbered(alloc: Global, word: &[u8], number: u16) -> Result<Name, AllocError>
    requires word { list_all is_name_byte word.now ≡ true }
    requires short { length word.now ≤ 27 }
    ensures { IfOk result (λ name. name ≡ word.now ++ decimal number) }
{
    let digits = format!(in alloc; "{number}")?;
    Ok(named_of(word, digits.as_bytes()))
}

/// The name of a word and a name after it.
pub fn prefixed(word: &[u8], name: Name) -> Name
    requires word { list_all is_name_byte word.now ≡ true }
    requires short { length word.now + length name ≤ 32 }
    ensures { result ≡ word.now ++ name }
{
    named_of(word, name.as_bytes())
}
