//! The file that the lines of an accepted text describe.

ghost use Rattle.std.specs.Prelude.{◌≡◌, ℕ, ◌+◌, ◌*◌, ◌<◌, ◌≤◌, ◌↔◌, true, false, Some, None, length, IfOk, OnOk, Contains, [], ◌∷◌, ◌++◌, slice_get, slice_index_or, slice_set, replicate, ◌⊎◌};
ghost use Rattle.std.specs.List.{list_all, list_any};
ghost use Rattle.type_table.specs.Op.{has_twin, is_same_op};
ghost use Rattle.type_table.specs.declared.op.Op.{Op as OpValue};
ghost use Rattle.type_table.specs.Counts.{is_inside};
ghost use Rattle.type_table.specs.ConflictTable.{conflicts};
ghost use Rattle.type_text.specs.TypeLines.{AreTypeLines, states_of, ops_of};
ghost use Rattle.type_text.specs.Rows.{line_of_row, lines_of_rows};
ghost use Rattle.type_text.specs.Kept.{kept_lines};
ghost use Rattle.type_text.specs.TypeFile.{IsFileOf, IsTableOf, IsReached};
ghost use Rattle.type_text.specs.Reach.{is_reach};
ghost use Rattle.type_table.specs.StateSet.{has};
ghost use Rattle.equi_cert.specs.Relation.{relates};

use crate::row::{Row, line_of_row};
use crate::type_line::TypeLine;
use crate::type_lines::TypeLines;
use declared_types::TypeFile;
use equi_cert::Relation;
use indexmap::IndexSet;
use std::alloc::{AllocError, Global};
use type_table::{ConflictTable, Name, Op, StateSet, TableKind, TypeTable};

/// The file that the lines describe.
pub fn file_of(alloc: Global, lines: &TypeLines) -> Result<TypeFile, AllocError>
    requires { AreTypeLines (kept_lines lines.now) }
    ensures { IfOk result (IsFileOf (kept_lines lines.now)) }
{
    let table = table_of(alloc, lines)?;
    let ops = table.op_count();
    let states = table.states();
    let reach = reach_of(&lines.rows, states);
    let relation = relation_of(alloc, &lines.rows, states)?;
    let undo = conflicts_of(TableKind::Undo, ops, &lines.rows);
    let intentions = conflicts_of(TableKind::Intentions, ops, &lines.rows);
    Ok(TypeFile {
        table,
        reach,
        relation,
        undo,
        intentions,
    })
}

fn table_of(alloc: Global, lines: &TypeLines) -> Result<TypeTable, AllocError>
    requires { AreTypeLines (kept_lines lines.now) }
    ensures { IfOk result (IsTableOf (kept_lines lines.now)) }
{
    let head = lines.head.as_slice();
    let ops = ops_of(alloc, head)?;
    let states = states_of(head);
    let steps = steps_of(alloc, &lines.rows, states, ops.len())?;
    match TypeTable::new(name_of(head), states, initial_of(head), ops, steps) {
        Ok(table) => Ok(table),
        Err(_) => unreachable!(),
    }
}

fn name_of(lines: &[TypeLine]) -> Name
    requires { AreTypeLines lines.now }
    ensures { slice_get lines.now 0 ≡ Some (TypeLine.TypeName result) }
{
    match lines.first() {
        Some(TypeLine::TypeName(name)) => *name,
        _ => unreachable!(),
    }
}

fn states_of(lines: &[TypeLine]) -> u16
    requires { AreTypeLines lines.now }
    ensures exact { slice_get lines.now 1 ≡ Some (TypeLine.States result) }
    ensures some { 0 < result }
    ensures fit { result ≤ 1024 }
{
    match lines.get(1) {
        Some(TypeLine::States(states)) => *states as u16,
        _ => unreachable!(),
    }
}

fn initial_of(lines: &[TypeLine]) -> u16
    requires { AreTypeLines lines.now }
    ensures exact { slice_get lines.now 2 ≡ Some (TypeLine.Initial result) }
    ensures inside { result < states_of lines.now }
{
    match lines.get(2) {
        Some(TypeLine::Initial(s)) => *s as u16,
        _ => unreachable!(),
    }
}

/// The operations, numbered in the order of their lines.
fn ops_of(alloc: Global, lines: &[TypeLine]) -> Result<Vec<Op>, AllocError>
    requires { AreTypeLines lines.now }
    ensures exact { IfOk result (λ ops. ops.items ≡ ops_of lines.now) }
    ensures no_twin { IfOk result (λ ops. has_twin ops.items ≡ false) }
{
    let mut ops = IndexSet::new(alloc);
    for line in lines {
        number_op(&mut ops, *line)?;
    }
    listed(alloc, &ops)
}

/// Gives the operation of an `op` line the next number.
fn number_op(ops: &mut IndexSet<Op>, line: TypeLine) -> Result<(), AllocError>
    requires { (op : OpValue) → line ≡ TypeLine.Operation op → list_any (is_same_op op) ops.old.keys ≡ false }
    ensures { OnOk result (ops.new.keys ≡ ops.old.keys ++ ops_of (line ∷ [])) }
{
    if let TypeLine::Operation(op) = line {
        ops.insert(op)?;
    }
    Ok(())
}

fn listed(alloc: Global, ops: &IndexSet<Op>) -> Result<Vec<Op>, AllocError>
    ensures { IfOk result (λ list. list.items ≡ ops.now.keys) }
{
    ops.iter().copied().collect(alloc)
}

/// The entries of a table: that of state s and operation k is at `s * ops + k`.
fn steps_of(
    alloc: Global,
    rows: &[Row],
    states: u16,
    ops: usize,
) -> Result<Vec<Option<u16>>, AllocError>
    requires inside { (s k t : ℕ) → Contains (lines_of_rows rows.now) (TypeLine.Step s k t) → (s < states) × (k < ops) × (t < states) }
    requires once { (s k t u : ℕ) → Contains (lines_of_rows rows.now) (TypeLine.Step s k t) → Contains (lines_of_rows rows.now) (TypeLine.Step s k u) → t ≡ u }
    requires fit { states ≤ 1024 }
    requires ops_fit { ops ≤ 64 }
    ensures whole { IfOk result (λ steps. length steps.items ≡ states * ops) }
    ensures exact { IfOk result (λ steps. (s k t : ℕ) → k < ops → (slice_index_or steps.items (s * ops + k) None ≡ Some t) ↔ Contains (lines_of_rows rows.now) (TypeLine.Step s k t)) }
{
    let mut steps = vec![in alloc; None; states as usize * ops]?;
    put_steps(&mut steps, ops, rows);
    Ok(steps)
}

/// Writes the entries of the `step` lines where there are none.
fn put_steps(steps: &mut [Option<u16>], ops: usize, rows: &[Row])
    requires inside { (s k t : ℕ) → Contains (lines_of_rows rows.now) (TypeLine.Step s k t) → (s < 1024) × (k < ops) × (t < 1024) × (s * ops + k < length steps.old) }
    requires once { (s k t u : ℕ) → Contains (lines_of_rows rows.now) (TypeLine.Step s k t) → Contains (lines_of_rows rows.now) (TypeLine.Step s k u) → t ≡ u }
    requires fit { ops ≤ 64 }
    requires empty { (i : ℕ) → slice_index_or steps.old i None ≡ None }
    ensures { (s k t : ℕ) → k < ops → (slice_index_or steps.new (s * ops + k) None ≡ Some t) ↔ Contains (lines_of_rows rows.now) (TypeLine.Step s k t) }
{
    for row in rows {
        put_step(steps, ops, line_of_row(*row));
    }
}

/// Writes the entry of a `step` line.
fn put_step(steps: &mut [Option<u16>], ops: usize, line: TypeLine)
    requires { (s k t : ℕ) → line ≡ TypeLine.Step s k t → (s < 1024) × (t < 1024) × (ops ≤ 64) × (s * ops + k < length steps.old) }
    ensures step { (s k t : ℕ) → line ≡ TypeLine.Step s k t → steps.new ≡ slice_set steps.old (s * ops + k) (Some t) }
    ensures other { ((s k t : ℕ) → line ≡ TypeLine.Step s k t → ⊥) → steps.new ≡ steps.old }
{
    if let TypeLine::Step { s, k, t } = line {
        steps[s as usize * ops + k as usize] = Some(t as u16);
    }
}

/// The set of the `reach` lines, or of all states where there is no such line.
fn reach_of(rows: &[Row], states: u16) -> StateSet
    requires inside { (s : ℕ) → Contains (lines_of_rows rows.now) (TypeLine.Reach s) → s < states }
    requires some { 0 < states }
    requires fit { states ≤ 1024 }
    ensures fits { length result ≡ states }
    ensures exact { (s : ℕ) → (has result s ≡ true) ↔ IsReached (lines_of_rows rows.now) states s }
    ensures some { list_any (λ member. member) result ≡ true }
{
    if !has_reach(rows) {
        return StateSet::all(states);
    }
    let mut set = StateSet::empty(states);
    for row in rows {
        add_reach(&mut set, line_of_row(*row));
    }
    set
}

/// Whether a `reach` line is among the lines.
fn has_reach(rows: &[Row]) -> bool
    ensures { result ≡ list_any (λ row. is_reach (line_of_row row)) rows.now }
{
    rows.iter().any(|row| is_reach(line_of_row(*row)))
}

fn is_reach(line: TypeLine) -> bool
    ensures { result ≡ is_reach line }
{
    match line {
        TypeLine::Reach(_) => true,
        _ => false,
    }
}

/// Adds the state of a `reach` line.
fn add_reach(set: &mut StateSet, line: TypeLine)
    requires { (s : ℕ) → line ≡ TypeLine.Reach s → (s < length set.old) × (s < 1024) }
    ensures fits { length set.new ≡ length set.old }
    ensures members { (s : ℕ) → (has set.new s ≡ true) ↔ ((has set.old s ≡ true) ⊎ (line ≡ TypeLine.Reach s)) }
{
    if let TypeLine::Reach(s) = line {
        set.add(s as u16);
    }
}

/// The relation of the `equi` lines and of each state with itself.
fn relation_of(alloc: Global, rows: &[Row], states: u16) -> Result<Relation, AllocError>
    requires inside { (s t : ℕ) → Contains (lines_of_rows rows.now) (TypeLine.Equi s t) → (s < states) × (t < states) }
    requires some { 0 < states }
    requires fit { states ≤ 1024 }
    ensures fits { IfOk result (λ relation. length relation ≡ states) }
    ensures exact { IfOk result (λ relation. (s t : ℕ) → s < states → t < states → (relates relation s t ≡ true) ↔ ((s ≡ t) ⊎ Contains (lines_of_rows rows.now) (TypeLine.Equi s t))) }
{
    let mut relation = Relation::new(alloc, states)?;
    for row in rows {
        add_equi(&mut relation, line_of_row(*row));
    }
    Ok(relation)
}

/// Adds the pair of an `equi` line.
fn add_equi(relation: &mut Relation, line: TypeLine)
    requires { (s t : ℕ) → line ≡ TypeLine.Equi s t → (s < length relation.old) × (t < length relation.old) × (s < 1024) × (t < 1024) }
    ensures fits { length relation.new ≡ length relation.old }
    ensures pairs { (s t : ℕ) → (relates relation.new s t ≡ true) ↔ ((relates relation.old s t ≡ true) ⊎ (line ≡ TypeLine.Equi s t)) }
{
    if let TypeLine::Equi { s, t } = line {
        relation.add(s as u16, t as u16);
    }
}

/// The conflict table of a kind.
fn conflicts_of(kind: TableKind, ops: u8, rows: &[Row]) -> ConflictTable
    requires inside { (p q : ℕ) → Contains (lines_of_rows rows.now) (TypeLine.Conflict kind p q) → (p < ops) × (q < ops) }
    requires fit { ops ≤ 64 }
    ensures fits { length result ≡ ops }
    ensures exact { (p q : ℕ) → (conflicts result p q ≡ true) ↔ Contains (lines_of_rows rows.now) (TypeLine.Conflict kind p q) }
{
    let mut table = ConflictTable::new(ops);
    for row in rows {
        add_conflict(&mut table, kind, line_of_row(*row));
    }
    table
}

/// Adds the pair of a `conflict` line of this kind.
fn add_conflict(table: &mut ConflictTable, kind: TableKind, line: TypeLine)
    requires fits { length table.old ≤ 64 }
    requires inside { (p q : ℕ) → line ≡ TypeLine.Conflict kind p q → (p < length table.old) × (q < length table.old) }
    ensures fits { length table.new ≡ length table.old }
    ensures pairs { (p q : ℕ) → (conflicts table.new p q ≡ true) ↔ ((conflicts table.old p q ≡ true) ⊎ (line ≡ TypeLine.Conflict kind p q)) }
{
    if let TypeLine::Conflict { kind: of, p, q } = line
        && of == kind
    {
        table.set(p as u8, q as u8);
    }
}
