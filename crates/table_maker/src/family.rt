//! Tables of families.

ghost use Rattle.std.specs.Prelude.{◌≡◌, ℕ, ◌*◌, ◌<◌, [], ◌∷◌, ◌++◌, length, map, OnOk, IfOk, IfErr};
ghost use Rattle.std.specs.Fmt.{decimal};
ghost use Rattle.std.specs.List.{range_with_len};
ghost use Rattle.table_maker.specs.Made.{Family, HasTable, table_entries, IsTableOfFamily, IsFileOfFamily, op_named, where_legal};
ghost use Rattle.table_maker.specs.declared.make_error.MakeError.TheVariants.{NoMemory};

use crate::made_file::make_tables;
use crate::make_error::MakeError;
use crate::names::numbered;
use declared_types::TypeFile;
use std::alloc::{AllocError, Global};
use type_table::{Name, Op, StateSet, TypeTable};

/// The steps of a family at its parameters.
pub trait FamilyRules {
    /// The family as contracts see it.
    ghost family: { Self → Family };

    /// The next state of state s under operation k, where k is legal in s.
    fn step(&self, s: u16, k: u8) -> Option<u16>
        requires state { s < (family self.now).states }
        requires operation { k < length (family self.now).ops }
        ensures { result ≡ (family self.now).step s k };
}

/// The file of a family, with the set of all states.
///
/// # Errors
///
/// `NoMemory` alone.
pub fn make_file<F: FamilyRules>(
    alloc: Global,
    rules: &F,
    name: Name,
    states: u16,
    ops: Vec<Op>,
) -> Result<TypeFile, MakeError>
    requires name { name ≡ (F.family rules.now).name }
    requires states { states ≡ (F.family rules.now).states }
    requires ops { ops.items ≡ (F.family rules.now).ops }
    requires family { HasTable (F.family rules.now) }
    ensures file { IfOk result (IsFileOfFamily (F.family rules.now)) }
    ensures memory { IfErr result (λ error. error ≡ NoMemory) }
{
    let table = table_of(alloc, rules, name, states, ops)?;
    make_tables(alloc, &table, StateSet::all(states))
}

/// The table of a family.
fn table_of<F: FamilyRules>(
    alloc: Global,
    rules: &F,
    name: Name,
    states: u16,
    ops: Vec<Op>,
) -> Result<TypeTable, AllocError>
    requires name { name ≡ (F.family rules.now).name }
    requires states { states ≡ (F.family rules.now).states }
    requires ops { ops.items ≡ (F.family rules.now).ops }
    requires family { HasTable (F.family rules.now) }
    ensures { IfOk result (IsTableOfFamily (F.family rules.now)) }
{
    let steps = steps_of(alloc, rules, states, ops.len())?;
    match TypeTable::new(name, states, 0, ops, steps) {
        Ok(table) => Ok(table),
        Err(_) => unreachable!(),
    }
}

/// The entries of a table: that of state s and operation k is at `s * ops + k`.
fn steps_of<F: FamilyRules>(
    alloc: Global,
    rules: &F,
    states: u16,
    ops: usize,
) -> Result<Vec<Option<u16>>, AllocError>
    requires states { states ≡ (F.family rules.now).states }
    requires ops { ops ≡ length (F.family rules.now).ops }
    requires family { HasTable (F.family rules.now) }
    ensures { IfOk result (λ steps. steps.items ≡ table_entries (F.family rules.now) (states * ops)) }
{
    let mut steps = Vec::new(alloc);
    for place in 0..states as usize * ops {
        steps.push(rules.step((place / ops) as u16, (place % ops) as u8))?;
    }
    Ok(steps)
}

/// A next state where an operation is legal.
pub fn where_legal(is_legal: bool, t: u16) -> Option<u16>
    ensures { result ≡ where_legal is_legal t }
{
    if is_legal { Some(t) } else { None }
}

/// Adds two operations.
pub fn push_two(ops: &mut Vec<Op>, first: Op, second: Op) -> Result<(), AllocError>
    ensures { OnOk result (ops.new.items ≡ ops.old.items ++ first ∷ second ∷ []) }
{
    ops.push(first)?;
    ops.push(second)?;
    Ok(())
}

/// Adds an operation of a call for each reply from 0 to one less than `count`.
pub fn push_replies(
    alloc: Global,
    ops: &mut Vec<Op>,
    call: Name,
    count: u16,
) -> Result<(), AllocError>
    ensures { OnOk result (ops.new.items ≡ ops.old.items ++ map (λ n. op_named call (decimal n)) (range_with_len 0 count)) }
{
    for n in 0..count {
        let reply = numbered(alloc, b"", n)?;
        ops.push(Op { call, reply })?;
    }
    Ok(())
}
