//! Laws of exchanges of neighbours and of meanings: each is a function that does nothing, whose
//! contract is the law. It calls the laws on which it depends.

ghost use Rattle.object_trait.specs.Laws.{PartsSort, KeepsFirst, KeepsNone, KeepsParts, KeepsOthers, StruckPart, SortsLook, SortsEqui, CheckedIsCovered, StruckLogIsLegal, OpensCommute, FreshIsSound, SoundAfterApply, SoundAfterCommit, SoundAfterStrike, UntouchedStays, UntouchedShowsTheSame, OpensAreCounted, SoundHasCommitted, CommittedIsLeft, AllDoneIsCommitted};

use crate::log_entry::LogEntry;
use escrow_laws::{
    firm_after_apply, firm_after_commit, firm_after_strike, fresh_is_firm, nothing_keeps,
};
use table_checker::{strong_yes_covers, yes_covers};
use type_table::{ends_inside, equi_extends, legal_ends, lists_forward, looks_extends, runs_along};

/// In a list of two parts, of which the elements of one may each move after those of the other that
/// come after it, the first part can be moved to the end, neighbour by neighbour.
pub fn parts_sort<E>()
    ensures { PartsSort E }
{}

/// What is left after a strike: the first n of mine, and all others, in their order.
pub fn keeps_first<E>()
    ensures { KeepsFirst E }
{}

/// Where a strike leaves none of mine, all others are left, in their order.
pub fn keeps_none<E>()
    ensures { KeepsNone E }
{}

/// A strike of a list put together: of its rest stay as many of mine as its front left of the first n.
pub fn keeps_parts<E>()
    ensures { KeepsParts E }
{}

/// A strike leaves all of another's, of which none is mine, in their order.
pub fn keeps_others<E>()
    ensures { KeepsOthers E }
{}

/// Where each of mine may move after each later one that isn't mine, those that a strike takes out
/// can be moved to the end.
pub fn struck_part<E>()
    ensures { StruckPart E }
{}

/// Where neighbours that are exchanged right commute backward, what a legal list sorts into is legal,
/// and the list's end looks like the other's.
pub fn sorts_look<E>()
    ensures { SortsLook E }
{
    looks_extends();
}

/// The same in the two-way form: the ends are equieffective.
pub fn sorts_equi<E>()
    ensures { SortsEqui E }
{
    equi_extends();
}

/// A yes of the checker gives a covered object, and a strong yes one that is covered strongly.
pub fn checked_is_covered()
    ensures { CheckedIsCovered }
{
    yes_covers();
    strong_yes_covers();
}

/// Strike and abort: the log of update in place without the last m open entries of a transaction is
/// legal from base, since these entries can be moved to its end.
pub fn struck_log_is_legal()
    ensures { StruckLogIsLegal }
{
    parts_sort::<LogEntry>();
    struck_part::<LogEntry>();
    sorts_look::<LogEntry>();
}

/// Deferred update: the open operations of two transactions, run in either order from base, are legal
/// and end equieffective.
pub fn opens_commute()
    ensures { OpensCommute }
{
    lists_forward();
}

/// A new object's meaning is sound.
pub fn fresh_is_sound()
    ensures { FreshIsSound }
{
    fresh_is_firm();
}

/// A meaning stays sound by a further operation that the caller may execute.
pub fn sound_after_apply()
    ensures { SoundAfterApply }
{
    runs_along();
    firm_after_apply();
    firm_after_strike();
    nothing_keeps();
}

/// A meaning stays sound by a commit.
pub fn sound_after_commit()
    ensures { SoundAfterCommit }
{
    firm_after_commit();
    runs_along();
    ends_inside();
    lists_forward();
}

/// A meaning stays sound by a strike and by an abort.
pub fn sound_after_strike()
    ensures { SoundAfterStrike }
{
    firm_after_strike();
    keeps_first::<LogEntry>();
    parts_sort::<LogEntry>();
    struck_part::<LogEntry>();
    sorts_look::<LogEntry>();
    runs_along();
    ends_inside();
}

/// A commit, a strike and an abort of a transaction without open entries may leave a meaning as it is.
pub fn untouched_stays()
    ensures { UntouchedStays }
{}

/// Whatever a commit, a strike or an abort of a transaction without open entries leaves, it has the
/// same state, shows each transaction the same, and has the same open entries.
pub fn untouched_shows_the_same()
    ensures { UntouchedShowsTheSame }
{
    runs_along();
}

/// A list that names each transaction with an open entry once, and no other, is as long as that of the
/// open transactions, and no longer than the log.
pub fn opens_are_counted()
    ensures { OpensAreCounted }
{}

/// A sound object has a committed state. Under update in place the open entries move behind the done ones,
/// by exchanges of neighbours that commute backward (Weihl 1989), and are left out.
pub fn sound_has_committed()
    ensures { SoundHasCommitted }
{
    ends_inside();
    legal_ends();
    parts_sort::<LogEntry>();
    sorts_look::<LogEntry>();
}

/// An operation, a rollback and an abort leave it.
pub fn committed_is_left()
    ensures { CommittedIsLeft }
{
    runs_along();
}

/// Where all entries are done, it is the state.
pub fn all_done_is_committed()
    ensures { AllDoneIsCommitted }
{}
