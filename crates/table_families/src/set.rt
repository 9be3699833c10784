//! Sets: each element is in or out, and may be put in, taken out and asked for.

ghost use Rattle.std.specs.Prelude.{◌≡◌, ◌^◌, ◌<◌, ◌≤◌, ◌++◌, ◌↔◌, length, IsTrue, IfOk, OnOk};
ghost use Rattle.std.specs.Int.{bit_at};
ghost use Rattle.std.specs.List.{flat_map};
ghost use Rattle.table_families.specs.Elements.{AreElements};
ghost use Rattle.table_maker.specs.Made.{Makes};
ghost use Rattle.table_families.specs.Set.{set, element_ops, element_step, with_element, without_element, SetFits};

use crate::elements::are_elements;
use declared_types::TypeFile;
use std::alloc::{AllocError, Global};
use table_maker::{FamilyRules, MakeError, make_file, named, prefixed, push_two, where_legal};
use type_table::{Name, Op};

/// The type file of a set of some of the elements, with the set of all states.
///
/// The elements are distinct names of at most 25 bytes, at least one and at most 10. The state has
/// bit i for element i, and it begins at 0, the empty set. For each element e, `insert:e ok` puts it
/// in and `delete:e ok` takes it out, whether it was in or not; `member:e true` is legal where it is
/// in, and `member:e false` where it is out.
///
/// # Errors
///
/// The first that holds of `BadParameter`, `TooLarge` and `NoMemory`.
pub fn make_set(alloc: Global, elements: &[Name]) -> Result<TypeFile, MakeError>
    ensures { Makes result (AreElements 25 elements.now) (SetFits elements.now) (set elements.now) }
{
    if !are_elements(25, elements) {
        return Err(MakeError::BadParameter);
    }
    if !fits(elements) {
        return Err(MakeError::TooLarge);
    }
    let ops = set_ops(alloc, elements)?;
    let rules = SetRules { elements };
    make_file(alloc, &rules, named(b"set"), 1 << elements.len(), ops)
}

/// Whether the operations are at most 64, and the states at most 1,024.
fn fits(elements: &[Name]) -> bool
    ensures { IsTrue result ↔ SetFits elements.now }
{
    elements.len() <= 10
}

/// The parameters of a set.
#[derive(Clone, Copy)]
struct SetRules<'a> {
    elements: &'a [Name],
    ghost fits: { length elements.now ≤ 16 },
}

impl FamilyRules for SetRules<'_> {
    ghost family = { λ rules. set rules.elements.now };

    fn step(&self, s: u16, k: u8) -> Option<u16> {
        element_step(k / 4, k % 4, s)
    }
}

/// The step of an operation of an element, by its place among the four.
fn element_step(i: u8, place: u8, s: u16) -> Option<u16>
    requires { i < 16 }
    ensures { result ≡ element_step i place s }
{
    match place {
        0 => Some(with_element(i, s)),
        1 => Some(without_element(i, s)),
        2 => where_legal(bit_of(i, s) == 1, s),
        _ => where_legal(bit_of(i, s) == 0, s),
    }
}

/// The bit of an element in a state.
fn bit_of(i: u8, s: u16) -> u16
    requires { i < 16 }
    ensures { result ≡ bit_at s i }
{
    (s >> i) & 1
}

/// The state with an element in it.
fn with_element(i: u8, s: u16) -> u16
    requires { i < 16 }
    ensures { result ≡ with_element i s }
{
    s | (1 << i)
}

/// The state with an element out of it.
fn without_element(i: u8, s: u16) -> u16
    requires { i < 16 }
    ensures { result ≡ without_element i s }
{
    s & !(1 << i)
}

/// The operations of a set.
fn set_ops(alloc: Global, elements: &[Name]) -> Result<Vec<Op>, AllocError>
    requires { AreElements 25 elements.now }
    ensures { IfOk result (λ ops. ops.items ≡ flat_map element_ops elements.now) }
{
    let mut ops = Vec::new(alloc);
    for element in elements {
        push_element(&mut ops, *element)?;
    }
    Ok(ops)
}

/// Adds the four operations of an element.
fn push_element(ops: &mut Vec<Op>, element: Name) -> Result<(), AllocError>
    requires { length element ≤ 25 }
    ensures { OnOk result (ops.new.items ≡ ops.old.items ++ element_ops element) }
{
    let ok = named(b"ok");
    let insert = Op {
        call: prefixed(b"insert:", element),
        reply: ok,
    };
    let delete = Op {
        call: prefixed(b"delete:", element),
        reply: ok,
    };
    push_two(ops, insert, delete)?;
    let member = prefixed(b"member:", element);
    let inside = Op {
        call: member,
        reply: named(b"true"),
    };
    let outside = Op {
        call: member,
        reply: named(b"false"),
    };
    push_two(ops, inside, outside)?;
    Ok(())
}
