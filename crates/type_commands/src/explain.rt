//! `explain`: why two operations of a type have to exclude each other.

ghost use Rattle.std.specs.Prelude.{◌≡◌, ◌≤◌, ◌<◌, ◌∷◌, All, None, Some, IfOk, IfSome, OnOk, if◌then◌else◌, length, nat_lt};
ghost use Rattle.std.specs.Str.{bytes_eq};
ghost use Rattle.command_files.specs.Answers.{Comes};
ghost use Rattle.command_files.specs.Refusals.{no_line};
ghost use Rattle.command_files.specs.declared.status.Verdict.TheVariants as verdicts;
ghost use Rattle.escrow_laws.specs.Faults.{IsFirstNumericFault};
ghost use Rattle.pair_needs.specs.Explainers.{IsExplainer};
ghost use Rattle.need_text.specs.Text.{word_of};
ghost use Rattle.declared_types.specs.Declarations.{IsDeclaredFor, file_of, rows_of, table_of};
ghost use Rattle.table_checker.specs.Laws.{CoversType};
ghost use Rattle.table_checker.specs.Refusal.{IsFirstOfNumeric, IsFirstReason};
ghost use Rattle.declared_types.specs.declared.declared_type.Declaration.{Declaration as DeclarationValue};
ghost use Rattle.type_table.specs.Limits.{most_ops};
ghost use Rattle.type_table.specs.declared.kind.Kind.TheVariants as kinds;
ghost use Rattle.type_commands.specs.Explain.{AddsText, AreOps, CannotBeExplained, Explains, ExplainsBy, ExplainsFault, ExplainsFile, ExplainsFor, ExplainsNumber, ExplainsPairs, IsYesLine, SaysThen, asked_as, asked_rows, is_asked, pair_as, row_named, rows_asked, worded, words_as};
ghost use Rattle.type_commands.specs.Verdict.{IsToldEscrow, NeedsEscrow};

use crate::asked_type::{check_declared, copied, read_for};
use crate::check::yes_line;
use crate::rows::write_row_lines;
use command_files::{Fault, Source, Verdict, no_line, put_answer};
use decimals::number_of;
use declared_types::{DeclaredType, TypeFile};
use need_text::{write_pair, write_rows, write_why_not};
use outputs::{Out, OutFault, Sink, put};
use pair_needs::{Explainer, why_not};
use std::alloc::{AllocError, Global};
use std::thread::Threads;
use table_checker::{CheckRefusal, CheckedType};
use type_table::{Kind, Op, TableKind, TypeTable};

/// A requested operation and a held one, by their places among those that the type lists.
#[derive(Clone, Copy)]
pub struct Asked {
    pub p: u8,
    pub q: u8,
}

/// No text: memory was refused.
#[derive(Clone, Copy, Debug)]
pub struct NoText;

impl From<AllocError> for NoText {
    fn from(_: AllocError) -> NoText {
        NoText
    }
}

impl From<OutFault> for NoText {
    fn from(_: OutFault) -> NoText {
        NoText
    }
}

/// `explain KIND FILE [P Q]`: the line of `check`, and why each pair of operations has to be in the
/// file's conflict table for the kind; with two words, P requested and Q held, the lines on this pair.
/// A word is an operation's number, or CALL/REPLY. For escrow, the bounds of the operations, where a call takes
/// any amount by that amount N. A number is asked about for escrow alone.
///
/// # Errors
///
/// The file can't be read or its text has a fault, it declares a number and the kind isn't escrow, a word
/// names no operation, memory was refused, or the output failed.
pub fn explain_file<'a, R: AllocGlobal + Threads + Sync, S: Source, W: Out>(
    rt: &R,
    kind: Kind,
    path: &'a str,
    words: Option<(&str, &str)>,
    source: &mut S,
    out: &mut W,
) -> Result<Verdict, Fault<'a>>
    requires { W.fault out.old ≡ None }
    ensures comes { let held = S.holds source.old path.now in
        Comes (ExplainsFile held kind (words_as words.entry)) (IfSome held (CannotBeExplained kind (words_as words.entry))) result (W.taken out.old) (W.taken out.new) }
    ensures told { IfSome (S.holds source.old path.now) (λ text. NeedsEscrow kind text → IsToldEscrow path.now result) }
{
    let declared = read_for(rt.alloc(), kind, path, source)?;
    match asked_of(&declared, words) {
        None => Err(Fault::BadParameter),
        Some(asked) => explain_read(rt, kind, &declared, asked, out),
    }
}

/// The pair that two words ask for, or all where there are none; None where they name no operations.
fn asked_of(declared: &DeclaredType, words: Option<(&str, &str)>) -> Option<Option<Asked>>
    ensures exact { asked_rows (rows_of declared.now) (words_as words.entry) ≡ asked_as result }
    ensures inside { IfSome result (λ asked. IfSome asked (AreOps (table_of declared.now))) }
{
    match words {
        None => Some(None),
        Some((p, q)) => {
            let p = row_of(declared, p)?;
            let q = row_of(declared, q)?;
            Some(Some(Asked { p, q }))
        }
    }
}

/// The row that a word names.
fn row_of(declared: &DeclaredType, word: &str) -> Option<u8>
    ensures exact { result ≡ row_named (rows_of declared.now) word.now }
    ensures inside { IfSome result (λ k. k < length (table_of declared.now).ops) }
{
    let rows = declared.rows();
    match number_of(word.as_bytes()) {
        Some(n) => below(n, rows.len()),
        None => worded(rows, word.as_bytes()),
    }
}

/// A number, where it is below a count of rows.
fn below(n: u32, count: usize) -> Option<u8>
    requires { count ≤ most_ops }
    ensures exact { result ≡ if nat_lt n count then Some n else None }
    ensures inside { IfSome result (λ k. k < count) }
{
    if (n as usize) < count {
        Some(n as u8)
    } else {
        None
    }
}

/// The row of a word CALL/REPLY.
fn worded(rows: &[Op], word: &[u8]) -> Option<u8>
    requires { length rows.now ≤ most_ops }
    ensures exact { result ≡ worded rows.now word.now }
    ensures inside { IfSome result (λ k. k < length rows.now) }
{
    let place = place_of_word(rows, word)?;
    Some(place as u8)
}

/// Its place.
fn place_of_word(rows: &[Op], word: &[u8]) -> Option<usize>
    ensures exact { result ≡ worded rows.now word.now }
    ensures inside { IfSome result (λ place. place < length rows.now) }
{
    rows.iter().position(|op| is_word(op, word))
}

/// Whether a word is an operation's: its call, a slash, its reply.
fn is_word(op: &Op, word: &[u8]) -> bool
    ensures { result ≡ bytes_eq (word_of op.now) word.now }
{
    match word.strip_prefix(op.call.as_bytes()) {
        None => false,
        Some(rest) => is_reply(op, rest),
    }
}

/// Whether the rest of a word is a slash and an operation's reply.
fn is_reply(op: &Op, rest: &[u8]) -> bool
    ensures { result ≡ bytes_eq (47 ∷ op.now.reply) rest.now }
{
    match rest.strip_prefix(b"/".as_slice()) {
        None => false,
        Some(reply) => op.reply.as_bytes() == reply,
    }
}

/// The answer to what was read.
fn explain_read<'a, R: AllocGlobal + Threads + Sync, W: Out>(
    rt: &R,
    kind: Kind,
    declared: &DeclaredType,
    asked: Option<Asked>,
    out: &mut W,
) -> Result<Verdict, Fault<'a>>
    requires no_fault { W.fault out.old ≡ None }
    requires fits { IsDeclaredFor kind declared.now }
    requires asked { IfSome asked (AreOps (table_of declared.now)) }
    ensures { Comes (Explains kind declared.now (pair_as asked)) ⊥ result (W.taken out.old) (W.taken out.new) }
{
    let declaration = copied(rt.alloc(), declared)?;
    match check_declared(rt, kind, declaration) {
        Ok(checked) => explain_yes(rt.alloc(), declared, &checked, asked, out),
        Err((file, refusal)) => explain_no(rt.alloc(), kind, &file, refusal, asked, out),
    }
}

/// The answer where the checker says yes.
fn explain_yes<'a, W: Out>(
    alloc: Global,
    declared: &DeclaredType,
    checked: &CheckedType,
    asked: Option<Asked>,
    out: &mut W,
) -> Result<Verdict, Fault<'a>>
    requires no_fault { W.fault out.old ≡ None }
    requires asked { IfSome asked (AreOps checked.now.file.table) }
    requires same { checked.now.file ≡ file_of declared.now }
    requires covers { CoversType checked.now.kind checked.now.file }
    ensures { Comes (Explains checked.now.kind declared.now (pair_as asked)) ⊥ result (W.taken out.old) (W.taken out.new) }
{
    match yes_text(alloc, declared, checked, asked) {
        Ok(text) => put_answer(Verdict::Yes, &text, out),
        Err(NoText) => Err(Fault::NoMemory),
    }
}

/// The answer where it says no.
fn explain_no<'a, W: Out>(
    alloc: Global,
    kind: Kind,
    file: &TypeFile,
    refusal: CheckRefusal,
    asked: Option<Asked>,
    out: &mut W,
) -> Result<Verdict, Fault<'a>>
    requires no_fault { W.fault out.old ≡ None }
    requires asked { IfSome asked (AreOps file.now.table) }
    requires first { IsFirstReason kind file.now refusal }
    ensures { (declaration : DeclarationValue) → file_of declaration ≡ file.now → Comes (Explains kind declaration (pair_as asked)) ⊥ result (W.taken out.old) (W.taken out.new) }
{
    match no_text(alloc, kind, file, refusal, asked) {
        Ok(text) => put_answer(Verdict::No, &text, out),
        Err(NoText) => Err(Fault::NoMemory),
    }
}

/// The text of a yes.
fn yes_text(
    alloc: Global,
    declared: &DeclaredType,
    checked: &CheckedType,
    asked: Option<Asked>,
) -> Result<Vec<u8>, NoText>
    requires asked { IfSome asked (AreOps checked.now.file.table) }
    requires same { checked.now.file ≡ file_of declared.now }
    ensures { IfOk result (λ text. SaysThen (IsYesLine checked.now) (ExplainsBy checked.now.kind declared.now (pair_as asked) verdicts.Yes) text.items) }
{
    let mut text = Sink::new(Vec::new(alloc));
    put_yes(alloc, declared, checked, asked, &mut text)?;
    Ok(text.into_inner())
}

/// Writes the line of a yes, and what comes after it.
fn put_yes<W: Out>(
    alloc: Global,
    declared: &DeclaredType,
    checked: &CheckedType,
    asked: Option<Asked>,
    out: &mut W,
) -> Result<(), NoText>
    requires no_fault { W.fault out.old ≡ None }
    requires asked { IfSome asked (AreOps checked.now.file.table) }
    requires same { checked.now.file ≡ file_of declared.now }
    ensures { OnOk result (AddsText (W.taken out.old) (W.taken out.new)
        (SaysThen (IsYesLine checked.now) (ExplainsBy checked.now.kind declared.now (pair_as asked) verdicts.Yes))) }
{
    put(out, yes_line(checked.is_strong()).as_bytes())?;
    put_after_yes(alloc, declared, checked, asked, out)
}

/// Writes what comes after the line of a yes.
fn put_after_yes<W: Out>(
    alloc: Global,
    declared: &DeclaredType,
    checked: &CheckedType,
    asked: Option<Asked>,
    out: &mut W,
) -> Result<(), NoText>
    requires no_fault { W.fault out.old ≡ None }
    requires asked { IfSome asked (AreOps checked.now.file.table) }
    requires same { checked.now.file ≡ file_of declared.now }
    ensures { OnOk result (AddsText (W.taken out.old) (W.taken out.new) (ExplainsBy checked.now.kind declared.now (pair_as asked) verdicts.Yes)) }
{
    match checked.kind().table_kind() {
        Some(kind) => put_pairs(alloc, kind, checked.file(), asked, out),
        None => put_bounds(alloc, declared, checked, asked, out),
    }
}

/// The text of a no.
fn no_text(
    alloc: Global,
    kind: Kind,
    file: &TypeFile,
    refusal: CheckRefusal,
    asked: Option<Asked>,
) -> Result<Vec<u8>, NoText>
    requires asked { IfSome asked (AreOps file.now.table) }
    requires first { IsFirstReason kind file.now refusal }
    ensures { IfOk result (λ text. SaysThen (λ line. line ≡ no_line refusal) (ExplainsFor kind file.now (pair_as asked) (ExplainsFault file.now.table)) text.items) }
{
    let mut text = Sink::new(Vec::new(alloc));
    put_no(alloc, kind, file, refusal, asked, &mut text)?;
    Ok(text.into_inner())
}

/// Writes the line of a no, and what comes after it.
fn put_no<W: Out>(
    alloc: Global,
    kind: Kind,
    file: &TypeFile,
    refusal: CheckRefusal,
    asked: Option<Asked>,
    out: &mut W,
) -> Result<(), NoText>
    requires no_fault { W.fault out.old ≡ None }
    requires asked { IfSome asked (AreOps file.now.table) }
    requires first { IsFirstReason kind file.now refusal }
    ensures { OnOk result (AddsText (W.taken out.old) (W.taken out.new)
        (SaysThen (λ line. line ≡ no_line refusal) (ExplainsFor kind file.now (pair_as asked) (ExplainsFault file.now.table)))) }
{
    let line = no_line(alloc, refusal)?;
    put(out, line.as_bytes())?;
    put_after_no(alloc, kind, file, refusal, asked, out)
}

/// Writes what comes after the line of a no.
fn put_after_no<W: Out>(
    alloc: Global,
    kind: Kind,
    file: &TypeFile,
    refusal: CheckRefusal,
    asked: Option<Asked>,
    out: &mut W,
) -> Result<(), NoText>
    requires no_fault { W.fault out.old ≡ None }
    requires asked { IfSome asked (AreOps file.now.table) }
    requires first { IsFirstReason kind file.now refusal }
    ensures { OnOk result (AddsText (W.taken out.old) (W.taken out.new) (ExplainsFor kind file.now (pair_as asked) (ExplainsFault file.now.table))) }
{
    match kind.table_kind() {
        Some(kind) => put_pairs(alloc, kind, file, asked, out),
        None => put_why_not(&file.table, refusal, out),
    }
}

/// Writes the lines on all pairs, or on the one that is asked for.
fn put_pairs<W: Out>(
    alloc: Global,
    kind: TableKind,
    file: &TypeFile,
    asked: Option<Asked>,
    out: &mut W,
) -> Result<(), NoText>
    requires no_fault { W.fault out.old ≡ None }
    requires asked { IfSome asked (AreOps file.now.table) }
    ensures { OnOk result (AddsText (W.taken out.old) (W.taken out.new) (ExplainsPairs kind file.now (pair_as asked))) }
{
    let explainer = Explainer::new(alloc, file)?;
    match asked {
        None => put_rows(alloc, kind, file, &explainer, out),
        Some(asked) => put_pair(alloc, kind, file, &explainer, asked, out),
    }
}

/// Writes the lines on all pairs.
fn put_rows<W: Out>(
    alloc: Global,
    kind: TableKind,
    file: &TypeFile,
    explainer: &Explainer,
    out: &mut W,
) -> Result<(), NoText>
    requires no_fault { W.fault out.old ≡ None }
    requires known { IsExplainer file.now explainer.now }
    ensures { OnOk result (AddsText (W.taken out.old) (W.taken out.new) (ExplainsPairs kind file.now None)) }
{
    let led = explainer.led();
    let rows = explainer.rows(alloc, kind, file)?;
    write_rows(kind, file, &led, &rows, out)?;
    Ok(())
}

/// Writes the lines on a pair.
fn put_pair<W: Out>(
    alloc: Global,
    kind: TableKind,
    file: &TypeFile,
    explainer: &Explainer,
    asked: Asked,
    out: &mut W,
) -> Result<(), NoText>
    requires no_fault { W.fault out.old ≡ None }
    requires known { IsExplainer file.now explainer.now }
    requires asked { AreOps file.now.table asked }
    ensures { OnOk result (AddsText (W.taken out.old) (W.taken out.new) (ExplainsPairs kind file.now (Some (asked.p, asked.q)))) }
{
    let led = explainer.led();
    let pair = explainer.pair(alloc, kind, file, asked.p, asked.q)?;
    write_pair(kind, file, &led, &pair, out)?;
    Ok(())
}

/// Writes the lines of the rows that are asked for.
fn put_bounds<W: Out>(
    alloc: Global,
    declared: &DeclaredType,
    checked: &CheckedType,
    asked: Option<Asked>,
    out: &mut W,
) -> Result<(), NoText>
    requires no_fault { W.fault out.old ≡ None }
    requires numeric { checked.now.kind ≡ kinds.Escrow }
    requires same { checked.now.file ≡ file_of declared.now }
    ensures { OnOk result (AddsText (W.taken out.old) (W.taken out.new) (ExplainsNumber declared.now (pair_as asked) verdicts.Yes)) }
{
    let rows = rows_asked(alloc, declared, asked)?;
    write_row_lines(declared, checked, &rows, out)?;
    Ok(())
}

/// The rows that are asked for.
fn rows_asked(
    alloc: Global,
    declared: &DeclaredType,
    asked: Option<Asked>,
) -> Result<Vec<u8>, AllocError>
    ensures exact { IfOk result (λ rows. rows.items ≡ rows_asked declared.now (pair_as asked)) }
    ensures inside { IfOk result (λ rows. All (λ k. k < length (rows_of declared.now)) rows.items) }
{
    let count = declared.rows().len() as u8;
    let mut rows = Vec::new(alloc);
    for k in 0..count {
        if is_asked(asked, k) {
            rows.push(k)?;
        }
    }
    Ok(rows)
}

/// Whether a row is asked for.
fn is_asked(asked: Option<Asked>, k: u8) -> bool
    ensures { result ≡ is_asked (pair_as asked) k }
{
    match asked {
        None => true,
        Some(asked) => k == asked.p || k == asked.q,
    }
}

/// Writes why a type isn't numeric.
fn put_why_not<W: Out>(table: &TypeTable, refusal: CheckRefusal, out: &mut W) -> Result<(), NoText>
    requires no_fault { W.fault out.old ≡ None }
    requires first { IsFirstOfNumeric table.now refusal }
    ensures { OnOk result (AddsText (W.taken out.old) (W.taken out.new) (ExplainsFault table.now)) }
{
    match refusal {
        CheckRefusal::NotNumeric { k, s } => put_fault(table, k, s, out),
        // another reason is none of a number
        _ => Ok(()),
    }
}

/// Writes what shows that an operation isn't one of a number, at a state.
fn put_fault<W: Out>(table: &TypeTable, k: u8, s: u16, out: &mut W) -> Result<(), NoText>
    requires no_fault { W.fault out.old ≡ None }
    requires first { IsFirstNumericFault table.now k s }
    ensures { OnOk result (AddsText (W.taken out.old) (W.taken out.new) (ExplainsFault table.now)) }
{
    let why = why_not(table, k, s);
    write_why_not(table, k, s, why, out)?;
    Ok(())
}
