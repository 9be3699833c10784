//! Laws of progress: each is a function that does nothing, whose contract is the law.

ghost use Rattle.progress.specs.Laws.{AloneIsAloneThere, AloneIsNotBusy, AloneThereIsAnswered, AloneThereIsNotBusy, BusyTellsWho, WaitingEnds};

/// Who is told by `Busy` is another open transaction, which has an operation at the object.
pub fn busy_tells_who()
    ensures { BusyTellsWho }
{}

/// Where no other open transaction has an operation at an object, no call there is `Busy`.
pub fn alone_there_is_not_busy()
    ensures { AloneThereIsNotBusy }
{}

/// There a call is answered by its first operation that is legal, and `None` where none is.
pub fn alone_there_is_answered()
    ensures { AloneThereIsAnswered }
{}

/// A transaction is alone at each object where no other is open.
pub fn alone_is_alone_there()
    ensures { AloneIsAloneThere }
{}

/// Then no call at all is `Busy`.
pub fn alone_is_not_busy()
    ensures { AloneIsNotBusy }
{
    alone_there_is_not_busy();
    alone_is_alone_there();
}

/// It is alone at an object once all others that were open have ended, where who began later has no operation
/// there.
pub fn waiting_ends()
    ensures { WaitingEnds }
{}
