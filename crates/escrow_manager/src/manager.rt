ghost use Rattle.type_table.specs.declared.kind.Kind.TheVariants.{Escrow};
ghost use Rattle.std.specs.Prelude.{IsOk, IfOk, IfErr, ℕ, ◌≡◌, ◌<◌, ◌↔◌, ◌≤◌, ◌+◌, ◌-◌, true, List, [], Some, slice_get};
ghost use Rattle.escrow_laws.specs.Marks.{mark_after, mark_of, is_legal_from, FitsIn};
ghost use Rattle.escrow_laws.specs.declared.mark.OpenMark.{OpenMark as MarkOfOne};
ghost use Rattle.object_trait.specs.Meaning.{own_of, view_of};
ghost use Rattle.object_trait.specs.Steps.{IsFresh, stopper, MayApply, applied, IsCommit};
ghost use Rattle.escrow_manager.specs.Numeric.{bounds_in, greatest};
ghost use Rattle.escrow_manager.specs.Kept.{IsKeptInEscrow};
ghost use Rattle.escrow_manager.specs.Marks.{IsSmall};

use crate::entries::{count_of, keep_first, mark_of, named_keeper, take_out};
use crate::marks::{drop_mark, mark_at, mark_in, place_of, put_mark};
use crate::numeric::{bounded, greatest, initial};
use crate::totals::Totals;
use declared_types::{Declaration, DeclaredType};
use escrow_laws::{
    Bounded, Mark, OpenMark, extremes_tell_firm, firm_is_legal, firm_keeps_nobody, marks_are_exact,
    marks_fit, marks_tell,
};
use object_trait::{
    Admission, LogEntry, Recovery, Renew, WrongKind, admitted_by, checked_is_covered,
    fresh_is_sound, keeps_first, keeps_none, keeps_others, opens_are_counted, sound_after_apply,
    sound_after_commit, sound_after_strike,
};
use std::alloc::{AllocError, Global};
use std::marker::Model;
use std::sync::Arc;
use table_checker::CheckedType;
use type_table::{Kind, Operation};

/// An object in escrow. Its state is the number that is committed, and each open transaction sees this
/// number after its own operations alone. An operation is admitted exactly where all that the open
/// transactions did, and it, stays legal whatever they do next.
///
/// Beside the log it keeps a mark for each transaction that is open here, in the order of their
/// numbers, and the totals of all marks. `legal` and `apply` look at the transaction's mark, found at
/// the end or by halves; so do `blocker` and `admission`, and at the totals, where by these nobody keeps
/// anybody. Else they go through the marks, and through the log up to the first entry of whom they name. `commit` and
/// `abort` go through the log, and through the marks where the totals don't follow from those before;
/// `strike` goes through both. Where no transaction is open, `apply_and_commit` moves the number alone.
#[derive(Drop)]
pub struct EscrowManager {
    checked: Arc<CheckedType>,
    base: u32,
    log: Vec<LogEntry>,
    marks: Vec<OpenMark>,
    totals: Totals,
}

impl Model for EscrowManager {
    ghost use Rattle.object_trait.specs.Meaning.{Meaning};
    ghost use Rattle.escrow_manager.specs.Kept.{IsKeptInEscrow};

    ghost Value = { Meaning };

    ghost view = { λ a. record { checked = a.checked.value; base = a.base; log = a.log.items } };

    ghost invariant = { λ a. IsKeptInEscrow (record { checked = a.checked.value; base = a.base; log = a.log.items }) a.marks.items a.totals };
}

impl EscrowManager {
    /// A new object of this type, which takes no memory.
    ///
    /// # Errors
    ///
    /// The type was accepted for another kind of recovery. It is handed back.
    pub fn new(
        alloc: Global,
        checked: Arc<CheckedType>,
    ) -> Result<EscrowManager, (Arc<CheckedType>, WrongKind)>
        ensures kind { IsOk result ↔ (checked.value.kind ≡ Escrow) }
        ensures fresh { IfOk result (λ m. IsFresh m × (m.checked ≡ checked.value)) }
        ensures back { IfErr result (λ e. e.0 ≡ checked) }
    {
        match checked.kind() {
            Kind::Escrow => Ok(EscrowManager::fresh(alloc, checked)),
            Kind::Undo | Kind::Intentions => Err((checked, WrongKind)),
        }
    }

    /// The object of a type that was checked for escrow, at the initial number.
    fn fresh(alloc: Global, checked: Arc<CheckedType>) -> EscrowManager
        requires { checked.value.kind ≡ Escrow }
        ensures fresh { IsFresh result }
        ensures checked { result.checked ≡ checked.value }
    {
        checked_is_covered();
        fresh_is_sound();
        // (read for its clause that the type is numeric, too)
        let base = initial(&checked);
        let totals = Totals::none(greatest(&checked));
        EscrowManager {
            checked,
            base,
            log: Vec::new(alloc),
            marks: Vec::new(alloc),
            totals,
        }
    }

    /// The totals of the marks of all that are open.
    pub(crate) fn totals(&self) -> Totals
        ensures { (marks : List MarkOfOne) × IsKeptInEscrow self.now marks result }
    {
        self.totals
    }

    /// The mark of what t did.
    pub(crate) fn mark_of(&self, t: u32) -> Mark
        ensures { result ≡ mark_of (greatest self.now.checked) (bounds_in self.now.checked) (own_of self.now.log t) }
    {
        mark_in(&self.marks, t, greatest(&self.checked))
    }

    /// The number that t sees.
    pub(crate) fn seen(&self, t: u32) -> u32
        ensures exact { view_of self.now t ≡ Some result }
        ensures inside { result < self.now.checked.file.table.states }
    {
        marks_are_exact();
        marks_fit();
        firm_is_legal();
        number_after(self.base, self.mark_of(t))
    }

    /// Who keeps t, whose mark this is, from an operation with these bounds, which is legal for it.
    fn keeper_of(&self, t: u32, op: Bounded, old: Mark) -> Option<u32>
        requires mark { old ≡ mark_of (greatest self.now.checked) (bounds_in self.now.checked) (own_of self.now.log t) }
        requires small { IsSmall (greatest self.now.checked) old op }
        requires legal { is_legal_from (mark_after old op) self.now.base ≡ true }
        ensures { (k : ℕ) → slice_get (bounds_in self.now.checked) k ≡ Some op → result ≡ stopper self.now t k }
    {
        marks_are_exact();
        marks_fit();
        marks_tell();
        extremes_tell_firm();
        firm_is_legal();
        firm_keeps_nobody();
        if self.log.is_empty() {
            return None;
        }
        let mark = old.marked(op);
        let totals = self.totals.with(old, mark);
        if totals.are_firm(self.base) {
            return None;
        }
        let top = greatest(&self.checked);
        named_keeper(
            &self.log,
            &self.marks,
            OpenMark { by: t, mark },
            self.base,
            totals,
            top,
        )
    }

    /// Executes operation k for t, which commits, where no transaction is open: base is the number after it.
    fn commit_alone(&mut self, t: u32, k: Operation)
        requires may { MayApply self.old t k }
        requires idle { self.old.log ≡ [] }
        ensures { IsCommit (applied self.old t k) t self.new }
    {
        let op = bounded(&self.checked, k);
        // (taken first: with what is given, the number may be more than 32 bits hold)
        self.base = self.base - op.takes + op.gives;
    }
}

/// The number after operations with this mark, which are legal from base.
fn number_after(base: u32, mark: Mark) -> u32
    requires { FitsIn 4294967295 base mark }
    ensures { result ≡ base + mark.above - mark.fall }
{
    let number = u64::from(base) + mark.above - mark.fall;
    number as u32
}

/// Whether an operation is legal at a number.
fn is_legal_at(op: Bounded, number: u32) -> bool
    ensures { (result ≡ true) ↔ ((op.low ≤ number) × (number ≤ op.high)) }
{
    op.low <= number && number <= op.high
}

impl Recovery for EscrowManager {
    ghost meaning = { λ m. m };

    fn declared(&self) -> &DeclaredType {
        self.checked.declared()
    }

    fn view(&self, t: u32) -> u32 {
        self.seen(t)
    }

    fn state(&self) -> u32 {
        self.base
    }

    fn committed(&self) -> u32 {
        self.base
    }

    fn legal(&self, t: u32, k: Operation) -> bool {
        let op = bounded(&self.checked, k);
        let number = self.seen(t);
        is_legal_at(op, number)
    }

    fn blocker(&self, t: u32, k: Operation) -> Option<u32> {
        marks_are_exact();
        marks_fit();
        firm_is_legal();
        let op = bounded(&self.checked, k);
        self.keeper_of(t, op, self.mark_of(t))
    }

    fn admission(&self, t: u32, k: Operation) -> Admission {
        marks_are_exact();
        marks_fit();
        firm_is_legal();
        let op = bounded(&self.checked, k);
        let old = self.mark_of(t);
        let number = number_after(self.base, old);
        if !is_legal_at(op, number) {
            return Admission::Illegal;
        }
        admitted_by(self.keeper_of(t, op, old))
    }

    fn amount_kept(&self, t: u32, place: u8, u: u32) -> Option<u32> {
        match self.declared().declaration() {
            Declaration::Table(file) => {
                // (read for its clause on what is known of a table, which has no amounts)
                let _states = file.table.states();
                None
            }
            Declaration::Number(number) => self.number_kept(number, t, place, u),
        }
    }

    fn apply(&mut self, t: u32, k: Operation) -> Result<(), AllocError> {
        sound_after_apply();
        marks_are_exact();
        marks_fit();
        extremes_tell_firm();
        firm_is_legal();
        self.log.reserve(1)?;
        self.marks.reserve(1)?;
        let top = greatest(&self.checked);
        let at = place_of(&self.marks, t);
        let old = mark_at(&self.marks, at, t, top);
        let mark = old.marked(bounded(&self.checked, k));
        put_mark(&mut self.marks, at, OpenMark { by: t, mark });
        self.log.push_reserved(LogEntry {
            by: t,
            op: k,
            done: false,
        });
        self.totals = self.totals.after(old, mark, &self.marks, top);
        Ok(())
    }

    fn commit(&mut self, t: u32) {
        marks_are_exact();
        marks_fit();
        extremes_tell_firm();
        firm_is_legal();
        sound_after_commit();
        let top = greatest(&self.checked);
        let at = place_of(&self.marks, t);
        let old = mark_at(&self.marks, at, t, top);
        self.base = number_after(self.base, old);
        take_out(&mut self.log, t);
        drop_mark(&mut self.marks, at, t);
        self.totals = self.totals.without(old, &self.marks, top);
    }

    #[inline(always)]
    fn apply_and_commit(&mut self, t: u32, k: Operation) -> Result<(), AllocError> {
        if self.log.is_empty() {
            self.commit_alone(t, k);
            return Ok(());
        }
        self.apply(t, k)?;
        self.commit(t);
        Ok(())
    }

    fn abort(&mut self, t: u32) {
        marks_fit();
        extremes_tell_firm();
        firm_is_legal();
        keeps_none::<LogEntry>();
        keeps_first::<LogEntry>();
        keeps_others::<LogEntry>();
        sound_after_strike();
        let top = greatest(&self.checked);
        let at = place_of(&self.marks, t);
        let old = mark_at(&self.marks, at, t, top);
        take_out(&mut self.log, t);
        drop_mark(&mut self.marks, at, t);
        self.totals = self.totals.without(old, &self.marks, top);
    }

    fn strike(&mut self, t: u32, m: u32) {
        marks_fit();
        extremes_tell_firm();
        firm_is_legal();
        keeps_first::<LogEntry>();
        keeps_others::<LogEntry>();
        sound_after_strike();
        let left = count_of(&self.log, t) - m as usize;
        if left == 0 {
            return self.abort(t);
        }
        keep_first(&mut self.log, t, left);
        let mark = mark_of(&self.log, t, &self.checked, self.base);
        let at = place_of(&self.marks, t);
        put_mark(&mut self.marks, at, OpenMark { by: t, mark });
        self.totals = Totals::of(&self.marks, greatest(&self.checked));
    }

    fn open_count(&self) -> u32 {
        opens_are_counted();
        self.marks.len() as u32
    }

    fn entry(&self, i: usize) -> Option<LogEntry> {
        self.log.get(i).copied()
    }

    fn is_fresh(&self) -> bool {
        self.log.is_empty() && self.base == initial(&self.checked)
    }
}

impl Renew for EscrowManager {
    fn checked(&self) -> &CheckedType {
        &self.checked
    }

    fn renewed(&self, alloc: Global, checked: Arc<CheckedType>) -> EscrowManager {
        // (read for what is known of this object, that its type is for escrow)
        let _base = self.base;
        EscrowManager::fresh(alloc, checked)
    }
}
