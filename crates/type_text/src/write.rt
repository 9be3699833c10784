//! The canonical text of a type file.

ghost use Rattle.std.specs.Prelude.{◌≡◌, ◌<◌, ◌++◌, ◌∷◌, [], map, length, None, OnOk, All, true};
ghost use Rattle.std.specs.List.{flat_map};
ghost use Rattle.std.specs.Option.{option_to_list};
ghost use Rattle.line_text.specs.Spelling.{spaced, text_of};
ghost use Rattle.type_table.specs.Name.{is_name};
ghost use Rattle.type_table.specs.Table.{IsTable};
ghost use Rattle.outputs.specs.Out.{Puts};
ghost use Rattle.type_text.specs.declared.type_line.TypeLine.TheVariants.{Conflict};
ghost use Rattle.type_text.specs.Canonical.{words_of, rows, columns, line_at, lines_of_row, lines_of_entries, canonical_text, line_where, IsNamed, IsTypeFile, IsReadBack};
ghost use Rattle.declared_types.specs.TypeFile.{is_whole};

use crate::entries::Entries;
use crate::laws::canonical_is_read;
use crate::type_line::TypeLine;
use declared_types::{TypeFile, is_whole};
use itoa::Buffer;
use outputs::{Out, OutFault, items_in_turn, put_line, texts_in_turn};
use type_table::{Op, StateSet, TableKind, TypeTable};

/// The sections of entries in the order of a text.
const SECTIONS: [Entries; 5] = [
    Entries::Steps,
    Entries::Members,
    Entries::Pairs,
    Entries::Conflicts(TableKind::Undo),
    Entries::Conflicts(TableKind::Intentions),
];

/// Writes the canonical text of a file: a line for each entry with one space between words, the
/// sections in their order, the entries of each ascending, and no `reach` line where the set is that
/// of all states. What is read from the text is the same file. It takes no memory itself.
///
/// # Errors
///
/// The fault that stopped the output, which then took a beginning of the text.
pub fn write_type<W: Out>(file: &TypeFile, out: &mut W) -> Result<(), OutFault>
    requires { W.fault out.old ≡ None }
    ensures writes { Puts (W.taken out.old) (W.taken out.new) (W.fault out.new) (canonical_text file.now) result }
    ensures read_back { OnOk result (IsReadBack file.now) }
{
    canonical_is_read();
    texts_in_turn();
    known(file);
    write_head(out, &file.table)?;
    write_ops(out, file.table.ops())?;
    write_sections(out, file)?;
    write_line(out, TypeLine::End)
}

/// What is known of the parts of each file.
fn known(file: &TypeFile)
    ensures { IsTypeFile file.now }
{
    file.table.states();
    file.relation.states();
    file.undo.ops();
    file.intentions.ops();
}

/// Writes the first three lines.
fn write_head<W: Out>(out: &mut W, table: &TypeTable) -> Result<(), OutFault>
    requires { W.fault out.old ≡ None }
    ensures writes { Puts (W.taken out.old) (W.taken out.new) (W.fault out.new)
        (text_of words_of (TypeLine.TypeName table.now.name ∷ TypeLine.States table.now.states ∷ TypeLine.Initial table.now.initial ∷ [])) result }
    ensures named { OnOk result (is_name table.now.name ≡ true) }
{
    texts_in_turn();
    write_line(out, TypeLine::TypeName(table.name()))?;
    write_line(out, TypeLine::States(table.states() as u32))?;
    write_line(out, TypeLine::Initial(table.initial() as u32))
}

/// Writes the `op` lines.
fn write_ops<W: Out>(out: &mut W, ops: &[Op]) -> Result<(), OutFault>
    requires { W.fault out.old ≡ None }
    ensures writes { Puts (W.taken out.old) (W.taken out.new) (W.fault out.new) (text_of words_of (map TypeLine.Operation ops.now)) result }
    ensures named { OnOk result (All (λ op. IsNamed (TypeLine.Operation op)) ops.now) }
{
    texts_in_turn();
    items_in_turn::<Op>();
    for op in ops {
        write_line(out, TypeLine::Operation(*op))?;
    }
    Ok(())
}

/// Writes all sections of entries.
fn write_sections<W: Out>(out: &mut W, file: &TypeFile) -> Result<(), OutFault>
    requires { W.fault out.old ≡ None }
    ensures { Puts (W.taken out.old) (W.taken out.new) (W.fault out.new) (text_of words_of (flat_map (lines_of_entries file.now) SECTIONS)) result }
{
    texts_in_turn();
    items_in_turn::<Entries>();
    for entries in &SECTIONS {
        write_entries(out, file, *entries)?;
    }
    Ok(())
}

/// Writes a section of entries.
fn write_entries<W: Out>(out: &mut W, file: &TypeFile, entries: Entries) -> Result<(), OutFault>
    requires { W.fault out.old ≡ None }
    ensures { Puts (W.taken out.old) (W.taken out.new) (W.fault out.new) (text_of words_of (lines_of_entries file.now entries)) result }
{
    texts_in_turn();
    items_in_turn::<u16>();
    for row in 0..rows(file, entries) {
        write_row(out, file, entries, row)?;
    }
    Ok(())
}

/// Writes the entries of a row.
fn write_row<W: Out>(
    out: &mut W,
    file: &TypeFile,
    entries: Entries,
    row: u16,
) -> Result<(), OutFault>
    requires no_fault { W.fault out.old ≡ None }
    requires table { IsTable file.now.table }
    requires row { row < rows file.now entries }
    ensures { Puts (W.taken out.old) (W.taken out.new) (W.fault out.new) (text_of words_of (lines_of_row file.now entries row)) result }
{
    texts_in_turn();
    items_in_turn::<u16>();
    for column in 0..columns(file, entries) {
        write_cell(out, line_at(file, entries, row, column))?;
    }
    Ok(())
}

/// Writes the line of a cell, where the cell is an entry.
fn write_cell<W: Out>(out: &mut W, line: Option<TypeLine>) -> Result<(), OutFault>
    requires { W.fault out.old ≡ None }
    ensures { Puts (W.taken out.old) (W.taken out.new) (W.fault out.new) (text_of words_of (option_to_list line)) result }
{
    match line {
        Some(line) => write_line(out, line),
        None => Ok(()),
    }
}

/// The number of rows of a section's grid, and what is known of each table.
fn rows(file: &TypeFile, entries: Entries) -> u16
    ensures exact { result ≡ rows file.now entries }
    ensures table { IsTable file.now.table }
{
    let states = file.table.states();
    match entries {
        Entries::Steps | Entries::Pairs => states,
        Entries::Members if is_whole(&file.reach, states) => 0,
        Entries::Members => states,
        Entries::Conflicts(_) => file.table.op_count() as u16,
    }
}

/// The number of its columns.
fn columns(file: &TypeFile, entries: Entries) -> u16
    ensures { result ≡ columns file.now entries }
{
    match entries {
        Entries::Steps | Entries::Conflicts(_) => file.table.op_count() as u16,
        Entries::Members => 1,
        Entries::Pairs => file.table.states(),
    }
}

/// The line of a cell, where the cell is an entry.
fn line_at(file: &TypeFile, entries: Entries, row: u16, column: u16) -> Option<TypeLine>
    requires table { IsTable file.now.table }
    requires row { row < rows file.now entries }
    requires column { column < columns file.now entries }
    ensures { result ≡ line_at file.now entries row column }
{
    let (first, second) = (row as u32, column as u32);
    match entries {
        Entries::Steps => {
            let t = file.table.next(row, column as u8)?;
            Some(TypeLine::Step {
                s: first,
                k: second,
                t: t as u32,
            })
        }
        Entries::Members => line_where(file.reach.has(row), TypeLine::Reach(first)),
        Entries::Pairs => line_where(
            file.relation.has(row, column) && row != column,
            TypeLine::Equi {
                s: first,
                t: second,
            },
        ),
        Entries::Conflicts(kind) => line_where(
            file.conflicts(kind).conflicts(row as u8, column as u8),
            TypeLine::Conflict {
                kind,
                p: first,
                q: second,
            },
        ),
    }
}

/// The line of a cell that may be an entry.
fn line_where(is_entry: bool, line: TypeLine) -> Option<TypeLine>
    ensures { result ≡ line_where is_entry line }
{
    if is_entry { Some(line) } else { None }
}

/// Writes a line.
fn write_line<W: Out>(out: &mut W, line: TypeLine) -> Result<(), OutFault>
    requires { W.fault out.old ≡ None }
    ensures writes { Puts (W.taken out.old) (W.taken out.new) (W.fault out.new) (spaced (words_of line) ++ 10 ∷ []) result }
    ensures named { OnOk result (IsNamed line) }
{
    match line {
        TypeLine::TypeName(name) => put_line(out, b"type", &[name.as_bytes()]),
        TypeLine::States(states) => out.put_numbers(b"states", &[states]),
        TypeLine::Initial(s) => out.put_numbers(b"initial", &[s]),
        TypeLine::Operation(op) => {
            put_line(out, b"op", &[op.call.as_bytes(), op.reply.as_bytes()])
        }
        TypeLine::Step { s, k, t } => out.put_numbers(b"step", &[s, k, t]),
        TypeLine::Reach(s) => out.put_numbers(b"reach", &[s]),
        TypeLine::Equi { s, t } => out.put_numbers(b"equi", &[s, t]),
        TypeLine::Conflict { kind, p, q } => write_conflict(out, kind, p, q),
        TypeLine::End => put_line(out, b"end", &[]),
    }
}

/// Writes the line of a conflicting pair.
fn write_conflict<W: Out>(out: &mut W, kind: TableKind, p: u32, q: u32) -> Result<(), OutFault>
    requires { W.fault out.old ≡ None }
    ensures { Puts (W.taken out.old) (W.taken out.new) (W.fault out.new) (spaced (words_of (Conflict kind p q)) ++ 10 ∷ []) result }
{
    let (mut first, mut second) = (Buffer::new(), Buffer::new());
    put_line(
        out,
        b"conflict",
        &[
            kind.word().as_bytes(),
            first.format(p).as_bytes(),
            second.format(q).as_bytes(),
        ],
    )
}
