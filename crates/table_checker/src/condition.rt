//! What is tested of a pair of operations at a state.

ghost use Rattle.std.specs.Prelude.{◌≡◌, ◌<◌, ℕ, length, Option, IfSome};
ghost use Rattle.equi_cert.specs.Relation.{relates};
ghost use Rattle.table_checker.specs.Condition.{ends_relate, end_of_two, passes, passes_forward, passes_backward, passes_both_ways, AreInside};

use declared_types::TypeFile;
use equi_cert::Relation;
use type_table::TypeTable;

/// What is asked of a pair of a requested operation p and a held one q, at a state.
#[derive(Clone, Copy, Debug, PartialEq, Eq)]
pub enum Condition {
    /// Where both are legal, both orders are, and the two ends are related both ways.
    Forward,
    /// Where q and then p is legal, p and then q is, and the end of the first order is related to
    /// that of the second.
    Backward,
    /// The same, and the two ends are related both ways.
    BackwardBothWays,
}

/// Whether a pair passes at a state.
pub fn passes(condition: Condition, file: &TypeFile, p: u8, q: u8, s: u16) -> bool
    requires { AreInside file.now.table p q s }
    ensures { result ≡ passes condition file.now.table (relates file.now.relation) p q s }
{
    match condition {
        Condition::Forward => passes_forward(file, p, q, s),
        Condition::Backward => passes_backward(file, p, q, s),
        Condition::BackwardBothWays => passes_both_ways(file, p, q, s),
    }
}

#[tactic(auto, unfolding(crate::specs::Condition::passes_forward))]
fn passes_forward(file: &TypeFile, p: u8, q: u8, s: u16) -> bool
    requires { AreInside file.now.table p q s }
    ensures { result ≡ passes_forward file.now.table (relates file.now.relation) p q s }
{
    let table = &file.table;
    if table.next(s, p).is_none() || table.next(s, q).is_none() {
        return true;
    }
    let requested_first = end_of(table, s, p, q);
    let held_first = end_of(table, s, q, p);
    ends_relate(&file.relation, requested_first, held_first)
        && ends_relate(&file.relation, held_first, requested_first)
}

#[tactic(auto, unfolding(crate::specs::Condition::passes_backward))]
fn passes_backward(file: &TypeFile, p: u8, q: u8, s: u16) -> bool
    requires { AreInside file.now.table p q s }
    ensures { result ≡ passes_backward file.now.table (relates file.now.relation) p q s }
{
    let held_first = end_of(&file.table, s, q, p);
    if held_first.is_none() {
        return true;
    }
    let requested_first = end_of(&file.table, s, p, q);
    ends_relate(&file.relation, held_first, requested_first)
}

#[tactic(auto, unfolding(crate::specs::Condition::passes_both_ways))]
fn passes_both_ways(file: &TypeFile, p: u8, q: u8, s: u16) -> bool
    requires { AreInside file.now.table p q s }
    ensures { result ≡ passes_both_ways file.now.table (relates file.now.relation) p q s }
{
    let held_first = end_of(&file.table, s, q, p);
    if held_first.is_none() {
        return true;
    }
    let requested_first = end_of(&file.table, s, p, q);
    ends_relate(&file.relation, held_first, requested_first)
        && ends_relate(&file.relation, requested_first, held_first)
}

/// The end of one operation and then another.
fn end_of(table: &TypeTable, s: u16, first: u8, second: u8) -> Option<u16>
    requires { AreInside table.now first second s }
    ensures exact { result ≡ end_of_two table.now s first second }
    ensures inside { IfSome result (λ t. t < table.now.states) }
{
    let middle = table.next(s, first)?;
    table.next(middle, second)
}

/// Whether both ends are there and the first is related to the second.
fn ends_relate(relation: &Relation, first: Option<u16>, second: Option<u16>) -> bool
    requires first { IfSome first (λ s. s < length relation.now) }
    requires second { IfSome second (λ s. s < length relation.now) }
    ensures { result ≡ ends_relate (relates relation.now) first second }
{
    match (first, second) {
        (Some(first), Some(second)) => relation.has(first, second),
        _ => false,
    }
}
