ghost use Rattle.std.specs.Prelude.{◌≡◌, ◌↔◌, [], IsOk, IfOk, IfErr};
ghost use Rattle.type_table.specs.declared.kind.Kind.TheVariants.{Intentions};
ghost use Rattle.object_trait.specs.Steps.{IsFresh, MayApply, applied, IsCommit};

use crate::entries::first_conflict;
use crate::packing::{carry, cut, cut_behind};
use crate::views::{View, drop_view, place_of, put_view, seen_at, seen_by, stepped, walked};
use declared_types::DeclaredType;
use object_trait::{
    LogEntry, Recovery, Renew, WrongKind, checked_is_covered, fresh_is_sound, keeps_first,
    keeps_none, keeps_others, opens_are_counted, opens_commute, sound_after_apply,
    sound_after_commit, sound_after_strike, with_bit,
};
use std::alloc::{AllocError, Global};
use std::marker::Model;
use std::sync::Arc;
use table_checker::CheckedType;
use type_table::{
    Kind, Operation, TableKind, ends_inside, ends_within, equi_extends, runs_along, steps_within,
};

/// An object with deferred update. Its state is that of the committed transactions, and each open
/// transaction sees this state after its own operations alone.
///
/// Beside the log it keeps one state for each transaction that is open here, in the order of their
/// numbers. `legal` and `apply` look at the last of these, and search the others by halves. `view` goes through the log, and so do
/// `commit`, `abort` and `strike`; a commit steps each of the other states by each of the transaction's
/// entries. Where no transaction is open, `apply_and_commit` steps the base alone.
#[derive(Drop)]
pub struct IntentionsManager {
    checked: Arc<CheckedType>,
    base: u16,
    log: Vec<LogEntry>,
    // Has the bit of the operation of each entry, so that a look at the log for a conflict can be spared.
    word: u64,
    views: Vec<View>,
}

impl Model for IntentionsManager {
    ghost use Rattle.object_trait.specs.Meaning.{Meaning};
    ghost use Rattle.intentions_manager.specs.Kept.{LogHasBits, IsKeptDeferred};

    ghost Value = { Meaning };

    ghost view = { λ a. record { checked = a.checked.value; base = a.base; log = a.log.items } };

    ghost invariant = { λ a. IsKeptDeferred (record { checked = a.checked.value; base = a.base; log = a.log.items }) a.views.items × LogHasBits a.word a.log.items };
}

impl IntentionsManager {
    /// A new object of this type, which takes no memory.
    ///
    /// # Errors
    ///
    /// The type was accepted for another kind of recovery. It is handed back.
    pub fn new(
        alloc: Global,
        checked: Arc<CheckedType>,
    ) -> Result<IntentionsManager, (Arc<CheckedType>, WrongKind)>
        ensures kind { IsOk result ↔ (checked.value.kind ≡ Intentions) }
        ensures fresh { IfOk result (λ m. IsFresh m × (m.checked ≡ checked.value)) }
        ensures back { IfErr result (λ e. e.0 ≡ checked) }
    {
        match checked.kind() {
            Kind::Intentions => Ok(IntentionsManager::fresh(alloc, checked)),
            Kind::Undo | Kind::Escrow => Err((checked, WrongKind)),
        }
    }

    /// The object of a type that was checked for deferred update, at the initial state.
    fn fresh(alloc: Global, checked: Arc<CheckedType>) -> IntentionsManager
        requires { checked.value.kind ≡ Intentions }
        ensures fresh { IsFresh result }
        ensures checked { result.checked ≡ checked.value }
    {
        checked_is_covered();
        fresh_is_sound();
        let base = checked.file().table.initial();
        IntentionsManager {
            checked,
            base,
            log: Vec::new(alloc),
            word: 0,
            views: Vec::new(alloc),
        }
    }

    /// Executes operation k for t, which commits, where no transaction is open: base is the state after it.
    fn commit_alone(&mut self, t: u32, k: Operation)
        requires may { MayApply self.old t k }
        requires idle { self.old.log ≡ [] }
        ensures { IsCommit (applied self.old t k) t self.new }
    {
        self.base = stepped(self.checked.table(), self.base, k);
    }
}

impl Recovery for IntentionsManager {
    ghost meaning = { λ m. m };

    fn state(&self) -> u32 {
        u32::from(self.base)
    }

    fn committed(&self) -> u32 {
        u32::from(self.base)
    }

    fn view(&self, t: u32) -> u32 {
        // (after another's commit the kept view may be another state, which is only equieffective)
        u32::from(walked(self.checked.table(), t, self.base, &self.log))
    }

    #[inline(always)]
    fn legal(&self, t: u32, k: Operation) -> bool {
        let view = seen_by(&self.views, t, self.base);
        let table = self.checked.table();
        table.next(view.state, table.column(k)).is_some()
    }

    fn declared(&self) -> &DeclaredType {
        self.checked.declared()
    }

    fn blocker(&self, t: u32, k: Operation) -> Option<u32> {
        first_conflict(
            &self.log,
            self.word,
            self.checked.conflicts(TableKind::Intentions),
            t,
            k,
        )
    }

    fn amount_kept(&self, _t: u32, _place: u8, _u: u32) -> Option<u32> {
        // (read for what is known of this object, that its type has a table, and so no amounts)
        let _base = self.base;
        None
    }

    #[inline(always)]
    fn apply(&mut self, t: u32, k: Operation) -> Result<(), AllocError> {
        runs_along();
        equi_extends();
        steps_within();
        sound_after_apply();
        self.log.reserve(1)?;
        self.views.reserve(1)?;
        let place = place_of(&self.views, t);
        let seen = seen_at(&self.views, place, t, self.base);
        let state = stepped(self.checked.table(), seen.state, k);
        let view = View {
            by: t,
            state,
            count: seen.count + 1,
        };
        put_view(&mut self.views, place, view);
        self.log.push_reserved(LogEntry {
            by: t,
            op: k,
            done: false,
        });
        self.word = with_bit(self.word, k);
        Ok(())
    }

    #[inline(always)]
    fn commit(&mut self, t: u32) {
        runs_along();
        equi_extends();
        ends_inside();
        ends_within();
        opens_commute();
        keeps_none::<LogEntry>();
        keeps_first::<LogEntry>();
        keeps_others::<LogEntry>();
        sound_after_commit();
        let place = place_of(&self.views, t);
        let view = seen_at(&self.views, place, t, self.base);
        self.base = view.state;
        drop_view(&mut self.views, place, t);
        self.word = carry(&mut self.log, t, &mut self.views, self.checked.table());
    }

    #[inline(always)]
    fn apply_and_commit(&mut self, t: u32, k: Operation) -> Result<(), AllocError> {
        if self.log.is_empty() {
            self.commit_alone(t, k);
            return Ok(());
        }
        self.apply(t, k)?;
        self.commit(t);
        Ok(())
    }

    fn abort(&mut self, t: u32) {
        keeps_first::<LogEntry>();
        keeps_others::<LogEntry>();
        sound_after_strike();
        self.word = cut(&mut self.log, t);
        let place = place_of(&self.views, t);
        drop_view(&mut self.views, place, t);
    }

    fn strike(&mut self, t: u32, m: u32) {
        ends_inside();
        ends_within();
        keeps_first::<LogEntry>();
        keeps_others::<LogEntry>();
        sound_after_strike();
        let place = place_of(&self.views, t);
        let view = seen_at(&self.views, place, t, self.base);
        let count = view.count - m;
        self.word = cut_behind(&mut self.log, t, count);
        if count == 0 {
            drop_view(&mut self.views, place, t);
            return;
        }
        let state = walked(self.checked.table(), t, self.base, &self.log);
        put_view(
            &mut self.views,
            place,
            View {
                by: t,
                state,
                count,
            },
        );
    }

    fn open_count(&self) -> u32 {
        opens_are_counted();
        self.views.len() as u32
    }

    fn entry(&self, i: usize) -> Option<LogEntry> {
        self.log.get(i).copied()
    }

    fn is_fresh(&self) -> bool {
        self.log.is_empty() && u32::from(self.base) == self.checked.initial()
    }
}

impl Renew for IntentionsManager {
    fn checked(&self) -> &CheckedType {
        &self.checked
    }

    fn renewed(&self, alloc: Global, checked: Arc<CheckedType>) -> IntentionsManager {
        // (read for what is known of this object, that its type is for deferred update)
        let _base = self.base;
        IntentionsManager::fresh(alloc, checked)
    }
}
