//! The marks of open transactions, kept beside the log.

ghost use Rattle.std.specs.Prelude.{◌≡◌, ◌<◌, true, false, ◌==◌, IfSome, vec_len, vec_capacity};
ghost use Rattle.std.specs.List.{list_any};
ghost use Rattle.escrow_manager.specs.Marks.{MarksAscend, mark_index, IsMarkAt, mark_in, with_mark, without_mark};

use escrow_laws::{Mark, OpenMark};

/// The place of t's mark, or where it would be. It is looked for at the end first, where the latest
/// transactions are.
pub fn place_of(marks: &Vec<OpenMark>, t: u32) -> usize
    requires { MarksAscend marks.now.items }
    ensures { result ≡ mark_index t marks.now.items }
{
    match last_place(marks, t) {
        Some(at) => at,
        None => marks.partition_point(|open| open.by < t),
    }
}

/// The same, where no mark is of a later transaction.
fn last_place(marks: &Vec<OpenMark>, t: u32) -> Option<usize>
    requires { MarksAscend marks.now.items }
    ensures { IfSome result (λ at. at ≡ mark_index t marks.now.items) }
{
    let last = marks.last()?;
    if last.by < t {
        Some(marks.len())
    } else if last.by == t {
        Some(marks.len() - 1)
    } else {
        None
    }
}

/// Whether t's mark is at this place.
fn is_at(marks: &Vec<OpenMark>, at: usize, t: u32) -> bool
    ensures there { result ≡ true → IsMarkAt t at marks.now.items }
    ensures elsewhere { result ≡ false → IsMarkAt t at marks.now.items → ⊥ }
{
    if at < marks.len() {
        marks[at].by == t
    } else {
        false
    }
}

/// The mark of t, whose place this is: that of no operations where it has none, on numbers from 0 to
/// `top`.
pub fn mark_at(marks: &Vec<OpenMark>, at: usize, t: u32, top: u32) -> Mark
    requires ordered { MarksAscend marks.now.items }
    requires place { at ≡ mark_index t marks.now.items }
    ensures { result ≡ mark_in top t marks.now.items }
{
    if is_at(marks, at, t) {
        marks[at].mark
    } else {
        Mark::unmarked(top)
    }
}

/// The same, where the place isn't asked for.
pub fn mark_in(marks: &Vec<OpenMark>, t: u32, top: u32) -> Mark
    requires ordered { MarksAscend marks.now.items }
    ensures { result ≡ mark_in top t marks.now.items }
{
    let at = place_of(marks, t);
    mark_at(marks, at, t, top)
}

/// Puts a mark in the place of its transaction's. Where that has none, there is room.
pub fn put_mark(marks: &mut Vec<OpenMark>, at: usize, own: OpenMark)
    requires ordered { MarksAscend marks.old.items }
    requires place { at ≡ mark_index own.by marks.old.items }
    requires room { list_any (λ o. o.by == own.by) marks.old.items ≡ false → vec_len marks.old < vec_capacity marks.old }
    ensures { marks.new.items ≡ with_mark own marks.old.items }
{
    if is_at(marks, at, own.by) {
        marks[at] = own;
    } else if at == marks.len() {
        marks.push_reserved(own);
    } else {
        let _ = marks.insert(at, own);
    }
}

/// Takes out the mark of t, whose place this is, if it has one.
pub fn drop_mark(marks: &mut Vec<OpenMark>, at: usize, t: u32)
    requires ordered { MarksAscend marks.old.items }
    requires place { at ≡ mark_index t marks.old.items }
    ensures { marks.new.items ≡ without_mark t marks.old.items }
{
    if is_at(marks, at, t) {
        marks.remove(at);
    }
}
