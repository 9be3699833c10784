ghost use Rattle.std.specs.Prelude.{◌≡◌, ◌≤◌, Some, None, true, if◌then◌else◌, length};
ghost use Rattle.std.specs.Hash as fed;
ghost use Rattle.std.specs.List.{list_all};
ghost use Rattle.std.specs.Str.{bytes_eq};
ghost use Rattle.std.specs.Cmp.{partial_equiv_from_equiv};
ghost use Rattle.std.specs.Cmp.Lexicographic.{nat_list_eq_equiv};
ghost use Rattle.std.specs.Cmp.Rules.{hashing};
ghost use Rattle.std.proofs.Common.{rules};
ghost use Rattle.type_table.specs.Limits.{longest_name};
ghost use Rattle.type_table.specs.Name.{is_name, is_name_byte};

use crate::limits::LONGEST_NAME;
use std::hash::{Hash, Hasher};
use std::marker::Model;

/// A name in a text: 1 to 32 bytes of `a` to `z`, `0` to `9`, `_`, `:` and `-`.
///
/// Contracts see a name as the list of its bytes.
#[derive(Clone, Copy)]
pub struct Name {
    bytes: [u8; LONGEST_NAME],
    len: u8,
}

impl Model for Name {
    ghost use Rattle.std.specs.Prelude.{◌≡◌, ℕ, ◌-◌, List, ◌++◌, length, take, drop, replicate, true};
    ghost use Rattle.type_table.specs.Limits.{longest_name};
    ghost use Rattle.type_table.specs.Name.{is_name};
    ghost use Rattle.type_table.specs.Padded.{IsPadded, padded_again, length-padded};

    ghost Value = { List ℕ };

    ghost view = { λ a. take a.len a.bytes };

    ghost invariant = { λ a. IsPadded longest_name 0 a.bytes a.len × (is_name (take a.len a.bytes) ≡ true) };

    ghost inverse = { λ w. record { bytes = w ++ replicate (longest_name - length w) 0; len = length w } };

    ghost inverse_ok = { λ a h i. record {
      bytes = padded_again a.bytes a.len h.0 i;
      len = length-padded a.bytes a.len h.0 i;
    } };
}

impl Name {
    /// The most bytes that a name has.
    pub const MOST: usize = LONGEST_NAME;

    /// The name of a text, where the text is one.
    pub fn new(text: &str) -> Option<Name>
        ensures { result ≡ (if is_name text.now then Some text.now else None) }
    {
        Name::from_bytes(text.as_bytes())
    }

    /// The name of these bytes, where they are one.
    pub fn from_bytes(bytes: &[u8]) -> Option<Name>
        ensures { result ≡ (if is_name bytes.now then Some bytes.now else None) }
    {
        if !is_name(bytes) {
            return None;
        }
        let mut buffer = [0; LONGEST_NAME];
        buffer[..bytes.len()].copy_from_slice(bytes);
        let len = bytes.len() as u8;
        Some(Name { bytes: buffer, len })
    }

    /// The bytes of the name, and what is known of each name.
    pub fn as_bytes(&self) -> &[u8]
        ensures exact { result.now ≡ self.now }
        ensures name { is_name self.now ≡ true }
    {
        &self.bytes[..self.len as usize]
    }
}

/// Names are equal where their bytes are.
impl PartialEq for Name {
    ghost eq = { bytes_eq };

    ghost laws = { partial_equiv_from_equiv nat_list_eq_equiv };

    fn eq(&self, other: &Name) -> bool {
        self.as_bytes() == other.as_bytes()
    }
}

impl Eq for Name {
    ghost laws = { nat_list_eq_equiv };
}

impl Hash for Name {
    ghost hash_input = { fed.slice fed.u8 };

    ghost respects_eq = { Prim.search (hashing, rules) };

    fn hash<H: Hasher>(&self, state: &mut H) {
        self.as_bytes().hash(state);
    }
}

#[tactic(auto, unfolding(crate::specs::Name::is_name))]
fn is_name(bytes: &[u8]) -> bool
    ensures exact { result ≡ is_name bytes.now }
    ensures short { result ≡ true → length bytes.now ≤ longest_name }
{
    1 <= bytes.len() && bytes.len() <= Name::MOST && are_name_bytes(bytes)
}

fn are_name_bytes(bytes: &[u8]) -> bool
    ensures { result ≡ list_all is_name_byte bytes.now }
{
    bytes.iter().all(|b| is_name_byte(*b))
}

fn is_name_byte(b: u8) -> bool
    ensures { result ≡ is_name_byte b }
{
    matches!(b, b'a'..=b'z' | b'0'..=b'9' | b'_' | b':' | b'-')
}
