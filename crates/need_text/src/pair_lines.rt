//! The lines on one pair.

ghost use Rattle.std.specs.Prelude.{◌≡◌, ◌<◌, ◌∷◌, [], None, length, if◌then◌else◌};
ghost use Rattle.std.specs.List.{flat_map, range_with_len};
ghost use Rattle.outputs.specs.Numbers.{numbers_line};
ghost use Rattle.outputs.specs.Out.{Puts};
ghost use Rattle.declared_types.specs.TypeFile.{is_whole};
ghost use Rattle.pair_needs.specs.Mends.{has_line, is_dropped, is_missing};
ghost use Rattle.need_text.specs.Text.{op_line, operation_lines, begin_line, commit_line, object_text, leading_text, both_text, telling_text, history_text, fails_line, state_line, tell_line, witness_lines, witness_text, conflict_line, missing_line, dropped_line, set_text, equi_line, relation_text, missing_text, mend_text, pair_line, pair_text};
ghost use Rattle.pair_needs.specs.Witnesses.{first_commit, second_commit, failing_order};

use crate::write::{write_letter, write_ops, write_ops_line};
use declared_types::{TypeFile, is_whole};
use outputs::{Out, OutFault, items_in_turn, put, put_all, texts_in_turn};
use pair_needs::{Explained, Need, Witness};
use type_table::{StateSet, TableKind, TypeTable};

/// Writes the lines on a pair. It takes no memory.
///
/// # Errors
///
/// The fault that stopped the output, which then took a beginning of the text.
pub fn write_pair<W: Out>(
    kind: TableKind,
    file: &TypeFile,
    led: &StateSet,
    pair: &Explained,
    out: &mut W,
) -> Result<(), OutFault>
    requires no_fault { W.fault out.old ≡ None }
    requires fits { length led.now ≡ file.now.table.states }
    ensures { Puts (W.taken out.old) (W.taken out.new) (W.fault out.new) (pair_text kind file.now led.now pair.now) result }
{
    texts_in_turn();
    write_pair_line(&file.table, pair, out)?;
    write_if_failing(kind, &file.table, pair, out)?;
    write_mends(kind, file, led, pair, out)
}

/// Writes how the pair fails, where some run shows it.
fn write_if_failing<W: Out>(
    kind: TableKind,
    table: &TypeTable,
    pair: &Explained,
    out: &mut W,
) -> Result<(), OutFault>
    requires { W.fault out.old ≡ None }
    ensures { Puts (W.taken out.old) (W.taken out.new) (W.fault out.new) (witness_text kind table.now pair.now.requested pair.now.held pair.now.witness) result }
{
    match &pair.witness {
        None => Ok(()),
        Some(witness) => write_witness(kind, table, pair, witness, out),
    }
}

/// Writes the `pair` line.
fn write_pair_line<W: Out>(table: &TypeTable, pair: &Explained, out: &mut W) -> Result<(), OutFault>
    requires { W.fault out.old ≡ None }
    ensures { Puts (W.taken out.old) (W.taken out.new) (W.fault out.new) (pair_line table.now pair.now) result }
{
    texts_in_turn();
    put(out, b"pair")?;
    write_ops(table, &[pair.requested, pair.held], out)?;
    write_letter(pair, out)?;
    put(out, b"\n")
}

/// Writes the state, the lists, the history and the order.
fn write_witness<W: Out>(
    kind: TableKind,
    table: &TypeTable,
    pair: &Explained,
    witness: &Witness,
    out: &mut W,
) -> Result<(), OutFault>
    requires { W.fault out.old ≡ None }
    ensures { Puts (W.taken out.old) (W.taken out.new) (W.fault out.new) (witness_lines kind table.now pair.now.requested pair.now.held witness.now) result }
{
    texts_in_turn();
    write_state(witness.state, out)?;
    write_ops_line(b"lead", table, &witness.lead, out)?;
    write_tell(table, &witness.tell, out)?;
    write_history(kind, pair, witness, out)?;
    write_fails(witness.held_first, out)
}

fn write_state<W: Out>(s: u16, out: &mut W) -> Result<(), OutFault>
    requires { W.fault out.old ≡ None }
    ensures { Puts (W.taken out.old) (W.taken out.new) (W.fault out.new) (state_line s) result }
{
    out.put_numbers(b"state", &[u32::from(s)])
}

fn write_fails<W: Out>(held_first: bool, out: &mut W) -> Result<(), OutFault>
    requires { W.fault out.old ≡ None }
    ensures { Puts (W.taken out.old) (W.taken out.new) (W.fault out.new) (fails_line held_first) result }
{
    out.put_numbers(b"fails", &failing_order(held_first))
}

/// Writes the list that tells the ends apart, where there is one.
fn write_tell<W: Out>(table: &TypeTable, tell: &[u8], out: &mut W) -> Result<(), OutFault>
    requires { W.fault out.old ≡ None }
    ensures { Puts (W.taken out.old) (W.taken out.new) (W.fault out.new) (tell_line table.now tell.now) result }
{
    if tell.is_empty() {
        return Ok(());
    }
    write_ops_line(b"tell", table, tell, out)
}

/// The order of the commits that is illegal.
fn failing_order(held_first: bool) -> [u32; 4]
    ensures { result ≡ failing_order held_first }
{
    if held_first {
        [0, 2, 1, 3]
    } else {
        [0, 1, 2, 3]
    }
}

/// Writes the history that breaks.
fn write_history<W: Out>(
    kind: TableKind,
    pair: &Explained,
    witness: &Witness,
    out: &mut W,
) -> Result<(), OutFault>
    requires { W.fault out.old ≡ None }
    ensures { Puts (W.taken out.old) (W.taken out.new) (W.fault out.new) (history_text kind witness.now.held_first witness.now.lead.items pair.now.requested pair.now.held witness.now.tell.items) result }
{
    texts_in_turn();
    write_object(kind, out)?;
    write_leading(&witness.lead, out)?;
    write_both(pair, out)?;
    write_first(kind, witness.held_first, out)?;
    write_second(kind, witness.held_first, out)?;
    write_telling(&witness.tell, out)
}

/// Writes the first commit of the two transactions of the pair.
fn write_first<W: Out>(kind: TableKind, held_first: bool, out: &mut W) -> Result<(), OutFault>
    requires { W.fault out.old ≡ None }
    ensures { Puts (W.taken out.old) (W.taken out.new) (W.fault out.new) (commit_line (first_commit kind held_first)) result }
{
    write_commit(first_commit(kind, held_first), out)
}

/// And the second.
fn write_second<W: Out>(kind: TableKind, held_first: bool, out: &mut W) -> Result<(), OutFault>
    requires { W.fault out.old ≡ None }
    ensures { Puts (W.taken out.old) (W.taken out.new) (W.fault out.new) (commit_line (second_commit kind held_first)) result }
{
    write_commit(second_commit(kind, held_first), out)
}

fn write_object<W: Out>(kind: TableKind, out: &mut W) -> Result<(), OutFault>
    requires { W.fault out.old ≡ None }
    ensures { Puts (W.taken out.old) (W.taken out.new) (W.fault out.new) (object_text kind) result }
{
    put_all(out, &[b"  object ", kind.word().as_bytes(), b" 0\n"])
}

/// Writes transaction 0, which leads to the state.
fn write_leading<W: Out>(lead: &[u8], out: &mut W) -> Result<(), OutFault>
    requires { W.fault out.old ≡ None }
    ensures { Puts (W.taken out.old) (W.taken out.new) (W.fault out.new) (leading_text lead.now) result }
{
    texts_in_turn();
    write_begin(0, out)?;
    write_op_lines(0, lead, out)?;
    write_commit(0, out)
}

/// Writes the two transactions of the pair.
fn write_both<W: Out>(pair: &Explained, out: &mut W) -> Result<(), OutFault>
    requires { W.fault out.old ≡ None }
    ensures { Puts (W.taken out.old) (W.taken out.new) (W.fault out.new) (both_text pair.now.requested pair.now.held) result }
{
    texts_in_turn();
    write_begin(1, out)?;
    write_begin(2, out)?;
    write_op_line(1, pair.held, out)?;
    write_op_line(2, pair.requested, out)
}

/// Writes transaction 3, which tells the ends apart, and the end.
fn write_telling<W: Out>(tell: &[u8], out: &mut W) -> Result<(), OutFault>
    requires { W.fault out.old ≡ None }
    ensures { Puts (W.taken out.old) (W.taken out.new) (W.fault out.new) (telling_text tell.now) result }
{
    texts_in_turn();
    write_begin(3, out)?;
    write_op_lines(3, tell, out)?;
    write_commit(3, out)?;
    put(out, b"  end\n")
}

/// Which of the two transactions of the pair commits first.
fn first_commit(kind: TableKind, held_first: bool) -> u32
    ensures { result ≡ first_commit kind held_first }
{
    match (kind, held_first) {
        (TableKind::Undo, _) => 2,
        (TableKind::Intentions, true) => 1,
        (TableKind::Intentions, false) => 2,
    }
}

/// And which second.
fn second_commit(kind: TableKind, held_first: bool) -> u32
    ensures { result ≡ second_commit kind held_first }
{
    match (kind, held_first) {
        (TableKind::Undo, _) => 1,
        (TableKind::Intentions, true) => 2,
        (TableKind::Intentions, false) => 1,
    }
}

fn write_begin<W: Out>(t: u32, out: &mut W) -> Result<(), OutFault>
    requires { W.fault out.old ≡ None }
    ensures { Puts (W.taken out.old) (W.taken out.new) (W.fault out.new) (begin_line t) result }
{
    out.put_numbers(b"  begin", &[0, t])
}

fn write_commit<W: Out>(t: u32, out: &mut W) -> Result<(), OutFault>
    requires { W.fault out.old ≡ None }
    ensures { Puts (W.taken out.old) (W.taken out.new) (W.fault out.new) (commit_line t) result }
{
    out.put_numbers(b"  commit", &[0, t])
}

fn write_op_line<W: Out>(t: u32, k: u8, out: &mut W) -> Result<(), OutFault>
    requires { W.fault out.old ≡ None }
    ensures { Puts (W.taken out.old) (W.taken out.new) (W.fault out.new) (op_line t k) result }
{
    out.put_numbers(b"  op", &[0, t, 0, u32::from(k)])
}

fn write_op_lines<W: Out>(t: u32, ops: &[u8], out: &mut W) -> Result<(), OutFault>
    requires { W.fault out.old ≡ None }
    ensures { Puts (W.taken out.old) (W.taken out.new) (W.fault out.new) (operation_lines t ops.now) result }
{
    texts_in_turn();
    items_in_turn::<u8>();
    for k in ops {
        write_op_line(t, *k, out)?;
    }
    Ok(())
}

/// Writes what mends the file.
fn write_mends<W: Out>(
    kind: TableKind,
    file: &TypeFile,
    led: &StateSet,
    pair: &Explained,
    out: &mut W,
) -> Result<(), OutFault>
    requires no_fault { W.fault out.old ≡ None }
    requires fits { length led.now ≡ file.now.table.states }
    ensures { Puts (W.taken out.old) (W.taken out.new) (W.fault out.new) (mend_text kind file.now led.now pair.now) result }
{
    texts_in_turn();
    write_missing(kind, pair, out)?;
    write_if_too_large(file, led, pair, out)?;
    write_relation(&pair.lacking, out)
}

/// Writes what is to be changed of the set, where anything is.
fn write_if_too_large<W: Out>(
    file: &TypeFile,
    led: &StateSet,
    pair: &Explained,
    out: &mut W,
) -> Result<(), OutFault>
    requires no_fault { W.fault out.old ≡ None }
    requires fits { length led.now ≡ file.now.table.states }
    ensures { Puts (W.taken out.old) (W.taken out.new) (W.fault out.new) (if pair.now.too_large then set_text file.now led.now else []) result }
{
    if !pair.too_large {
        return Ok(());
    }
    write_set(file, led, out)
}

/// Writes the pair, where it is outside the conflict table and some run shows that it fails.
fn write_missing<W: Out>(kind: TableKind, pair: &Explained, out: &mut W) -> Result<(), OutFault>
    requires { W.fault out.old ≡ None }
    ensures { Puts (W.taken out.old) (W.taken out.new) (W.fault out.new) (missing_text kind pair.now.listed pair.now.need pair.now.requested pair.now.held) result }
{
    match (pair.listed, pair.need) {
        (false, Need::Run) => write_conflict(kind, pair.requested, pair.held, out),
        _ => Ok(()),
    }
}

/// Writes a pair that is to be added to the conflict table.
fn write_conflict<W: Out>(kind: TableKind, p: u8, q: u8, out: &mut W) -> Result<(), OutFault>
    requires { W.fault out.old ≡ None }
    ensures { Puts (W.taken out.old) (W.taken out.new) (W.fault out.new) (conflict_line kind p q) result }
{
    match kind {
        TableKind::Undo => { out.put_numbers(b"mend conflict undo", &[u32::from(p), u32::from(q)]) }
        TableKind::Intentions => {
            out.put_numbers(b"mend conflict intentions", &[u32::from(p), u32::from(q)])
        }
    }
}

/// Writes the `reach` lines that are missing, and those that are to be dropped.
fn write_set<W: Out>(file: &TypeFile, led: &StateSet, out: &mut W) -> Result<(), OutFault>
    requires no_fault { W.fault out.old ≡ None }
    requires fits { length led.now ≡ file.now.table.states }
    ensures { Puts (W.taken out.old) (W.taken out.new) (W.fault out.new) (set_text file.now led.now) result }
{
    texts_in_turn();
    let whole = is_whole(&file.reach, file.table.states());
    write_missing_lines(file, whole, led, out)?;
    write_dropped_lines(file, whole, led, out)
}

fn write_missing_lines<W: Out>(
    file: &TypeFile,
    whole: bool,
    led: &StateSet,
    out: &mut W,
) -> Result<(), OutFault>
    requires no_fault { W.fault out.old ≡ None }
    requires fits { length led.now ≡ file.now.table.states }
    requires whole { whole ≡ is_whole file.now.reach }
    ensures { Puts (W.taken out.old) (W.taken out.new) (W.fault out.new) (flat_map (missing_line file.now led.now) (range_with_len 0 file.now.table.states)) result }
{
    texts_in_turn();
    items_in_turn::<u16>();
    for s in 0..file.table.states() {
        put_if(is_missing(file, whole, led, s), b"mend reach", s, out)?;
    }
    Ok(())
}

fn write_dropped_lines<W: Out>(
    file: &TypeFile,
    whole: bool,
    led: &StateSet,
    out: &mut W,
) -> Result<(), OutFault>
    requires no_fault { W.fault out.old ≡ None }
    requires fits { length led.now ≡ file.now.table.states }
    requires whole { whole ≡ is_whole file.now.reach }
    ensures { Puts (W.taken out.old) (W.taken out.new) (W.fault out.new) (flat_map (dropped_line file.now led.now) (range_with_len 0 file.now.table.states)) result }
{
    texts_in_turn();
    items_in_turn::<u16>();
    for s in 0..file.table.states() {
        put_if(is_dropped(file, whole, led, s), b"mend drop reach", s, out)?;
    }
    Ok(())
}

/// Writes a line of a keyword and a state, if it is to be.
fn put_if<W: Out>(is_one: bool, keyword: &[u8], s: u16, out: &mut W) -> Result<(), OutFault>
    requires no_fault { W.fault out.old ≡ None }
    requires short { length keyword.now < 50 }
    ensures { Puts (W.taken out.old) (W.taken out.new) (W.fault out.new) (if is_one then numbers_line keyword.now (s ∷ []) else []) result }
{
    if !is_one {
        return Ok(());
    }
    out.put_numbers(keyword, &[u32::from(s)])
}

/// Whether a `reach` line of a state is missing.
fn is_missing(file: &TypeFile, whole: bool, led: &StateSet, s: u16) -> bool
    requires state { s < file.now.table.states }
    requires fits { length led.now ≡ file.now.table.states }
    requires whole { whole ≡ is_whole file.now.reach }
    ensures { result ≡ is_missing file.now led.now s }
{
    led.has(s) && !has_line(file, whole, s)
}

/// Whether it is to be dropped.
fn is_dropped(file: &TypeFile, whole: bool, led: &StateSet, s: u16) -> bool
    requires state { s < file.now.table.states }
    requires fits { length led.now ≡ file.now.table.states }
    requires whole { whole ≡ is_whole file.now.reach }
    ensures { result ≡ is_dropped file.now led.now s }
{
    has_line(file, whole, s) && !led.has(s)
}

/// Whether the file's text has a `reach` line of a state.
fn has_line(file: &TypeFile, whole: bool, s: u16) -> bool
    requires state { s < file.now.table.states }
    requires whole { whole ≡ is_whole file.now.reach }
    ensures { result ≡ has_line file.now s }
{
    !whole && file.reach.has(s)
}

/// Writes the pairs that the relation lacks.
fn write_relation<W: Out>(pairs: &[(u16, u16)], out: &mut W) -> Result<(), OutFault>
    requires { W.fault out.old ≡ None }
    ensures { Puts (W.taken out.old) (W.taken out.new) (W.fault out.new) (relation_text pairs.now) result }
{
    texts_in_turn();
    items_in_turn::<(u16, u16)>();
    for pair in pairs {
        write_equi(*pair, out)?;
    }
    Ok(())
}

fn write_equi<W: Out>(pair: (u16, u16), out: &mut W) -> Result<(), OutFault>
    requires { W.fault out.old ≡ None }
    ensures { Puts (W.taken out.old) (W.taken out.new) (W.fault out.new) (equi_line pair) result }
{
    out.put_numbers(b"mend equi", &[u32::from(pair.0), u32::from(pair.1)])
}
