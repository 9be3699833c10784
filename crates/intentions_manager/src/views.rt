//! The state that each open transaction sees, kept beside the log.

ghost use Rattle.std.specs.Prelude.{◌≡◌, ◌<◌, true, false, All, length, map, IfSome, vec_len, vec_capacity};
ghost use Rattle.intentions_manager.specs.Views.{ViewsAscend, IsViewAt, IsPlace, bare, seen_by, with_view, without_view};
ghost use Rattle.intentions_manager.specs.Walk.{stepped, entered, walked, view_moved, FitsTable};

use object_trait::LogEntry;
use type_table::{Operation, TypeTable, steps_within};

/// What a transaction that is open at the object sees.
#[derive(Clone, Copy)]
pub struct View {
    /// The transaction.
    pub by: u32,
    /// A state that is equieffective to that after its operations.
    pub state: u16,
    /// How many entries of the log are its own, at least 1.
    pub count: u32,
}

/// The place of a transaction's view, or where it would be.
#[derive(Clone, Copy)]
pub struct Place {
    pub at: usize,
    /// Whether its view is there.
    pub is_taken: bool,
}

/// The place of t's view. It is looked for at the end first, where the latest transactions are.
#[inline(always)]
pub fn place_of(views: &Vec<View>, t: u32) -> Place
    requires { ViewsAscend views.now.items }
    ensures { IsPlace t views.now.items result }
{
    match last_place(views, t) {
        Some(place) => place,
        None => searched_place(views, t),
    }
}

/// The same, where no view is of a later transaction.
#[inline(always)]
fn last_place(views: &Vec<View>, t: u32) -> Option<Place>
    requires { ViewsAscend views.now.items }
    ensures { IfSome result (IsPlace t views.now.items) }
{
    let last = views.last()?;
    if last.by < t {
        Some(Place {
            at: views.len(),
            is_taken: false,
        })
    } else if last.by == t {
        Some(Place {
            at: views.len() - 1,
            is_taken: true,
        })
    } else {
        None
    }
}

/// The same by halves.
fn searched_place(views: &Vec<View>, t: u32) -> Place
    requires { ViewsAscend views.now.items }
    ensures { IsPlace t views.now.items result }
{
    let at = views.partition_point(|view| view.by < t);
    Place {
        at,
        is_taken: is_at(views, at, t),
    }
}

/// Whether t's view is at this position.
fn is_at(views: &Vec<View>, at: usize, t: u32) -> bool
    ensures there { result ≡ true → IsViewAt t at views.now.items }
    ensures elsewhere { result ≡ false → IsViewAt t at views.now.items → ⊥ }
{
    if at < views.len() {
        views[at].by == t
    } else {
        false
    }
}

/// What t sees, whose place this is: its view, or where it has none base after no entries.
#[inline(always)]
pub fn seen_at(views: &Vec<View>, place: Place, t: u32, base: u16) -> View
    requires ordered { ViewsAscend views.now.items }
    requires place { IsPlace t views.now.items place }
    ensures { result ≡ seen_by t base views.now.items }
{
    if place.is_taken {
        views[place.at]
    } else {
        View {
            by: t,
            state: base,
            count: 0,
        }
    }
}

/// The same, where the place isn't asked for.
#[inline(always)]
pub fn seen_by(views: &Vec<View>, t: u32, base: u16) -> View
    requires { ViewsAscend views.now.items }
    ensures { result ≡ seen_by t base views.now.items }
{
    let place = place_of(views, t);
    seen_at(views, place, t, base)
}

/// Puts a view in the place of its transaction's. Where that has none, there is room.
#[inline(always)]
pub fn put_view(views: &mut Vec<View>, place: Place, view: View)
    requires ordered { ViewsAscend views.old.items }
    requires place { IsPlace view.by views.old.items place }
    requires room { (seen_by view.by 0 views.old.items).count ≡ 0 → vec_len views.old < vec_capacity views.old }
    ensures { views.new.items ≡ with_view view views.old.items }
{
    if place.is_taken {
        views[place.at] = view;
    } else if place.at == views.len() {
        views.push_reserved(view);
    } else {
        let _ = views.insert(place.at, view);
    }
}

/// Takes out t's view, whose place this is, if it has one.
#[inline(always)]
pub fn drop_view(views: &mut Vec<View>, place: Place, t: u32)
    requires ordered { ViewsAscend views.old.items }
    requires place { IsPlace t views.old.items place }
    ensures { views.new.items ≡ without_view t views.old.items }
{
    if place.is_taken {
        views.remove(place.at);
    }
}

/// The state after operation k, which is s where k isn't legal in s.
pub fn stepped(table: &TypeTable, s: u16, k: Operation) -> u16
    requires state { s < table.now.states }
    requires operation { k < length table.now.ops }
    ensures exact { result ≡ stepped table.now s k }
    ensures inside { result < table.now.states }
{
    match table.next(s, table.column(k)) {
        Some(next) => next,
        None => s,
    }
}

/// The state after an entry, if that is an open one of t.
fn entered(table: &TypeTable, t: u32, s: u16, entry: &LogEntry) -> u16
    requires state { s < table.now.states }
    requires operation { entry.now.op < length table.now.ops }
    ensures exact { result ≡ entered table.now t s entry.now }
    ensures inside { result < table.now.states }
{
    if entry.is_open_of(t) {
        stepped(table, s, entry.op)
    } else {
        s
    }
}

/// The state after t's open entries.
pub fn walked(table: &TypeTable, t: u32, s: u16, log: &[LogEntry]) -> u16
    requires state { s < table.now.states }
    requires operations { All (λ e. e.op < length table.now.ops) log.now }
    ensures exact { result ≡ walked table.now t s log.now }
    ensures inside { result < table.now.states }
{
    let mut state = s;
    for entry in log {
        state = entered(table, t, state, entry);
    }
    state
}

/// Steps each view by an operation.
#[inline(always)]
pub fn step_all(views: &mut [View], table: &TypeTable, k: Operation)
    requires states { All (FitsTable table.now) views.old }
    requires operation { k < length table.now.ops }
    ensures exact { views.new ≡ map (view_moved table.now k) views.old }
    ensures states { All (FitsTable table.now) views.new }
{
    steps_within();
    let steps = table.steps();
    let ops = usize::from(table.op_count());
    let column = table.column(k);
    for i in 0..views.len() {
        let position = usize::from(views[i].state) * ops + usize::from(column);
        views[i].state = steps[position].unwrap_or(views[i].state);
    }
}
