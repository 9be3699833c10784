ghost use Rattle.std.specs.Prelude.{◌≡◌, ◌↔◌, ◌+◌, ◌<◌, ℕ, [], List, length, map, take, slice_get, IfErr, IfOk, IsTrue, OnErr};
ghost use Rattle.type_table.specs.Table.{Table};
ghost use Rattle.serial_order.specs.History.{IsOperation, IsOperationPlace};
ghost use Rattle.object_trait.specs.declared.event.EventKind.TheVariants as kind;
ghost use Rattle.declared_types.specs.Declarations.{table_of};
ghost use Rattle.history_judge.specs.Judges.{Judges, Takes, handed};
ghost use Rattle.history_judge.specs.Judged.{IsHanded, IsJudged, StopsJudge, fault_at};

use crate::committed::Committed;
use crate::event_fault::EventFault;
use crate::executed::Executed;
use crate::laws::moved_rows_agree;
use crate::operations::Operations;
use crate::outcome::AuditFault;
use crate::slots::Slots;
use declared_types::DeclaredType;
use object_trait::{Event, EventKind};
use serial_order::summary_after;
use std::alloc::Global;
use std::marker::Model;
use type_table::Operation;

/// What comes of an event: it is taken, or why it isn't.
type Verdict = Result<(), EventFault>;

/// Judges events one after another, and keeps of those before what that takes: for each transaction that
/// began its operations that survive, and nothing where it ended.
#[derive(Drop)]
pub struct Judge {
    rows: Slots,
}

impl Model for Judge {
    ghost use Rattle.std.specs.Prelude.{List, Option};
    ghost use Rattle.history_judge.specs.declared.executed.Executed.{Executed};

    ghost Value = { List (Option (List Executed)) };

    ghost view = { λ a. a.rows };
}

impl Judge {
    /// Before the first event. It takes no memory.
    pub fn new(alloc: Global) -> Judge
        ensures { result ≡ [] }
    {
        Judge {
            rows: Slots::new(alloc),
        }
    }

    /// Judges one more event. What a commit commits is let go: `commit` hands it out. Where the event is bad or
    /// memory was refused, nothing changes.
    #[inline(always)]
    pub fn judge(&mut self, types: &[&DeclaredType], event: EventKind) -> Result<(), EventFault>
        ensures judged { Takes (map (λ t. table_of t.now) types.now) self.old event result self.new }
        ensures kept { OnErr result (self.new ≡ self.old) }
    {
        match event {
            EventKind::Begin { t } => self.begin(t),
            EventKind::Op { t, x, k } => self.op(types, t, x, k),
            EventKind::Busy { c, t, x, .. } => self.unanswered(types, t, x, c),
            EventKind::None { t, x, c } => self.unanswered(types, t, x, c),
            EventKind::Commit { t } => match self.commit(t) {
                Ok(_) => Ok(()),
                Err(fault) => Err(fault),
            },
            EventKind::Abort { t } => self.abort(t),
            EventKind::Rollback { t, n } => self.rollback(t, n),
        }
    }

    /// Judges a commit of t, and hands out the operations of t that survive, in order. Where it is bad, nothing
    /// changes.
    #[inline(always)]
    pub fn commit(&mut self, t: u32) -> Result<Operations, EventFault>
        ensures judged { (tables : List Table) → Judges tables self.old (kind.Commit t) (handed result) self.new }
        ensures kept { OnErr result (self.new ≡ self.old) }
    {
        moved_rows_agree();
        if !self.rows.is_open(t) {
            return Err(EventFault::Bad);
        }
        Ok(self.rows.end(t))
    }

    /// Judges the event at this place, after those before it, and hands out the transaction that it commits.
    #[inline(always)]
    pub fn take(
        &mut self,
        types: &[&DeclaredType],
        events: &[Event],
        at: usize,
    ) -> Result<Option<Committed>, AuditFault>
        requires inside { at < length events.now }
        requires so_far { IsJudged (map (λ t. table_of t.now) types.now) (take at events.now) self.old }
        ensures taken { IfOk result (λ done. IsJudged (map (λ t. table_of t.now) types.now) (take (at + 1) events.now) self.new × IsHanded (map (λ t. table_of t.now) types.now) events.now at done) }
        ensures refused { IfErr result (StopsJudge (map (λ t. table_of t.now) types.now) events.now) }
    {
        summary_after();
        let event = events[at];
        match event.kind {
            EventKind::Commit { t } => match self.commit(t) {
                Ok(operations) => Ok(Some(Committed {
                    number: t,
                    operations,
                })),
                Err(fault) => Err(fault_at(fault, at)),
            },
            kind => match self.judge(types, kind) {
                Ok(()) => Ok(None),
                Err(fault) => Err(fault_at(fault, at)),
            },
        }
    }

    /// Takes back operations that a commit handed out, so that another transaction has their room.
    pub fn take_back(&mut self, operations: Operations)
        ensures { self.new ≡ self.old }
    {
        self.rows.take_back(operations);
    }

    // A transaction's number is the number of those before it.
    #[inline(always)]
    fn begin(&mut self, t: u32) -> Verdict
        ensures judged { (tables : List Table) → Takes tables self.old (kind.Begin t) result self.new }
        ensures kept { OnErr result (self.new ≡ self.old) }
    {
        moved_rows_agree();
        if t as usize != self.rows.begun() {
            return Err(EventFault::Bad);
        }
        match self.rows.begin(t) {
            Ok(()) => Ok(()),
            Err(_) => Err(EventFault::NoMemory),
        }
    }

    // An operation of an open transaction.
    #[inline(always)]
    fn op(&mut self, types: &[&DeclaredType], t: u32, x: u32, k: Operation) -> Verdict
        ensures judged { Takes (map (λ t. table_of t.now) types.now) self.old (kind.Op k t x) result self.new }
        ensures kept { OnErr result (self.new ≡ self.old) }
    {
        moved_rows_agree();
        if !is_operation(types, x, k) {
            return Err(EventFault::Bad);
        }
        if !self.rows.is_open(t) {
            return Err(EventFault::Bad);
        }
        match self.rows.add(t, Executed { x, k }) {
            Ok(()) => Ok(()),
            Err(_) => Err(EventFault::NoMemory),
        }
    }

    // An answer to an open transaction that isn't an operation, which changes nothing. It names its call by a place.
    fn unanswered(&self, types: &[&DeclaredType], t: u32, x: u32, place: u8) -> Verdict
        ensures busy { (u : ℕ) → Takes (map (λ t. table_of t.now) types.now) self.now (kind.Busy place t x u) result self.now }
        ensures none { Takes (map (λ t. table_of t.now) types.now) self.now (kind.None t x place) result self.now }
    {
        moved_rows_agree();
        if !is_place(types, x, place) {
            return Err(EventFault::Bad);
        }
        if !self.rows.is_open(t) {
            return Err(EventFault::Bad);
        }
        Ok(())
    }

    // The end of an open transaction, whose operations are struck.
    #[inline(always)]
    fn abort(&mut self, t: u32) -> Verdict
        ensures judged { (tables : List Table) → Takes tables self.old (kind.Abort t) result self.new }
        ensures kept { OnErr result (self.new ≡ self.old) }
    {
        moved_rows_agree();
        if !self.rows.is_open(t) {
            return Err(EventFault::Bad);
        }
        self.rows.close(t);
        Ok(())
    }

    // A strike of the last n operations of an open transaction.
    fn rollback(&mut self, t: u32, n: u32) -> Verdict
        ensures judged { (tables : List Table) → Takes tables self.old (kind.Rollback t n) result self.new }
        ensures kept { OnErr result (self.new ≡ self.old) }
    {
        moved_rows_agree();
        if !self.rows.is_open(t) {
            return Err(EventFault::Bad);
        }
        let n = n as usize;
        let count = self.rows.count(t);
        if n == 0 || n > count {
            return Err(EventFault::Bad);
        }
        self.rows.keep(t, count - n);
        Ok(())
    }
}

/// Why the audit has no yes, where the event at this place isn't taken.
fn fault_at(fault: EventFault, at: usize) -> AuditFault
    ensures { result ≡ fault_at fault at }
{
    match fault {
        EventFault::Bad => AuditFault::BadEvent { at },
        EventFault::NoMemory => AuditFault::NoMemory,
    }
}

/// Whether the object is there and the operation is one of its type.
fn is_operation(types: &[&DeclaredType], x: u32, k: Operation) -> bool
    ensures { IsTrue result ↔ IsOperation (slice_get (map (λ t. table_of t.now) types.now) x) k }
{
    match types.get(x as usize) {
        Some(declared) => declared.has_op(k),
        None => false,
    }
}

/// Whether the object is there and some operation of its type has this place.
fn is_place(types: &[&DeclaredType], x: u32, place: u8) -> bool
    ensures { IsTrue result ↔ IsOperationPlace (slice_get (map (λ t. table_of t.now) types.now) x) place }
{
    match types.get(x as usize) {
        Some(declared) => declared.has_place(place),
        None => false,
    }
}
