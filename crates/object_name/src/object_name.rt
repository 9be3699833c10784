ghost use Rattle.std.specs.Prelude.{◌≡◌, ◌≤◌, Some, None, true, if◌then◌else◌, length};
ghost use Rattle.std.specs.Hash as fed;
ghost use Rattle.std.specs.List.{list_all};
ghost use Rattle.std.specs.Str.{bytes_eq};
ghost use Rattle.std.specs.Cmp.{partial_equiv_from_equiv};
ghost use Rattle.std.specs.Cmp.Lexicographic.{nat_list_eq_equiv};
ghost use Rattle.std.specs.Cmp.Rules.{hashing};
ghost use Rattle.std.proofs.Common.{rules};
ghost use Rattle.object_name.specs.ObjectName.{is_object_name, is_object_name_byte, longest_object_name};

use std::hash::{Hash, Hasher};
use std::marker::Model;

/// The most bytes of an object's name.
pub const LONGEST_OBJECT_NAME: usize = 64;

/// The name of an object: 1 to 64 bytes of `a` to `z`, `A` to `Z`, `0` to `9`, `_`, `:`, `-`, `.` and `/`.
///
/// Contracts see a name as the list of its bytes.
#[derive(Clone, Copy)]
pub struct ObjectName {
    bytes: [u8; LONGEST_OBJECT_NAME],
    len: u8,
}

impl Model for ObjectName {
    ghost use Rattle.std.specs.Prelude.{◌≡◌, ℕ, ◌-◌, List, ◌++◌, length, take, drop, replicate, true};
    ghost use Rattle.type_table.specs.Padded.{IsPadded, padded_again, length-padded};
    ghost use Rattle.object_name.specs.ObjectName.{is_object_name, longest_object_name};

    ghost Value = { List ℕ };

    ghost view = { λ a. take a.len a.bytes };

    ghost invariant = { λ a. IsPadded longest_object_name 0 a.bytes a.len × (is_object_name (take a.len a.bytes) ≡ true) };

    ghost inverse = { λ w. record { bytes = w ++ replicate (longest_object_name - length w) 0; len = length w } };

    ghost inverse_ok = { λ a h i. record {
      bytes = padded_again a.bytes a.len h.0 i;
      len = length-padded a.bytes a.len h.0 i;
    } };
}

impl ObjectName {
    /// The name of these bytes, where they are one.
    pub fn from_bytes(bytes: &[u8]) -> Option<ObjectName>
        ensures { result ≡ (if is_object_name bytes.now then Some bytes.now else None) }
    {
        if !is_object_name(bytes) {
            return None;
        }
        let mut buffer = [0; LONGEST_OBJECT_NAME];
        buffer[..bytes.len()].copy_from_slice(bytes);
        let len = bytes.len() as u8;
        Some(ObjectName { bytes: buffer, len })
    }

    /// The bytes of the name, and what is known of each name.
    pub fn as_bytes(&self) -> &[u8]
        ensures exact { result.now ≡ self.now }
        ensures name { is_object_name self.now ≡ true }
    {
        &self.bytes[..self.len as usize]
    }
}

/// Names are equal where their bytes are.
impl PartialEq for ObjectName {
    ghost eq = { bytes_eq };

    ghost laws = { partial_equiv_from_equiv nat_list_eq_equiv };

    fn eq(&self, other: &ObjectName) -> bool {
        self.as_bytes() == other.as_bytes()
    }
}

impl Eq for ObjectName {
    ghost laws = { nat_list_eq_equiv };
}

impl Hash for ObjectName {
    ghost hash_input = { fed.slice fed.u8 };

    ghost respects_eq = { Prim.search (hashing, rules) };

    fn hash<H: Hasher>(&self, state: &mut H) {
        self.as_bytes().hash(state);
    }
}

#[tactic(auto, unfolding(crate::specs::ObjectName::is_object_name))]
fn is_object_name(bytes: &[u8]) -> bool
    ensures exact { result ≡ is_object_name bytes.now }
    ensures short { result ≡ true → length bytes.now ≤ longest_object_name }
{
    1 <= bytes.len() && bytes.len() <= LONGEST_OBJECT_NAME && are_name_bytes(bytes)
}

fn are_name_bytes(bytes: &[u8]) -> bool
    ensures { result ≡ list_all is_object_name_byte bytes.now }
{
    bytes.iter().all(|b| is_object_name_byte(*b))
}

fn is_object_name_byte(b: u8) -> bool
    ensures { result ≡ is_object_name_byte b }
{
    matches!(b, b'a'..=b'z' | b'A'..=b'Z' | b'0'..=b'9' | b'_' | b':' | b'-' | b'.' | b'/')
}
