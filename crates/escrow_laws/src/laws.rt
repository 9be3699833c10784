//! Laws of numbers in escrow: each is a function that does nothing, whose contract is the law. It
//! calls the laws on which it depends.

ghost use Rattle.escrow_laws.specs.Laws.{NumericIsFaultless, BoundsAreNumeric, NumbersHaveTables, BoundsAreTold, FallIsLowest, RiseIsHighest, FreshIsFirm, FirmAfterApply, FirmAfterCommit, FirmAfterStrike, FirmIsLegal, FirmIsSafe, SafeIsFirm, NothingKeeps, FirmKeepsNobody, AdmittedWhereSafe, BaseIsSerial, MarksAreExact, MarksFit, SumsFit, MarksTell, MarksTellFirm, ExtremesTellFirm};

use type_table::runs_along;

/// Where an operation is at fault, a type isn't numeric.
pub fn numeric_is_faultless()
    ensures { NumericIsFaultless }
{}

/// Operations with bounds are numeric.
pub fn bounds_are_numeric()
    ensures { BoundsAreNumeric }
{}

/// Numbers from 0 to any greatest one have a table.
pub fn numbers_have_tables()
    ensures { NumbersHaveTables }
{}

/// The bounds of a type of which each operation is legal somewhere, and doesn't both give and take, are
/// those that its steps tell.
pub fn bounds_are_told()
    ensures { BoundsAreTold }
{}

/// How far a list of operations falls is how low its fronts end.
pub fn fall_is_lowest()
    ensures { FallIsLowest }
{}

/// How far it rises is how high they end.
pub fn rise_is_highest()
    ensures { RiseIsHighest }
{}

/// Where nothing was done it is firm.
pub fn fresh_is_firm()
    ensures { FreshIsFirm }
{}

/// It stays firm by one more operation from which nobody keeps the transaction.
pub fn firm_after_apply()
    ensures { FirmAfterApply }
{}

/// It stays firm by a commit.
pub fn firm_after_commit()
    ensures { FirmAfterCommit }
{}

/// It stays firm by a strike.
pub fn firm_after_strike()
    ensures { FirmAfterStrike }
{}

/// What each transaction sees is legal.
pub fn firm_is_legal()
    ensures { FirmIsLegal }
{}

/// Whatever happens before a transaction commits, what it did is legal then.
pub fn firm_is_safe()
    ensures { FirmIsSafe }
{
    runs_along();
}

/// Where that is so, it is firm.
pub fn safe_is_firm()
    ensures { SafeIsFirm }
{
    runs_along();
}

/// Who did nothing keeps nobody from anything.
pub fn nothing_keeps()
    ensures { NothingKeeps }
{}

/// Where it is firm with what a transaction did last, nobody keeps it from that.
pub fn firm_keeps_nobody()
    ensures { FirmKeepsNobody }
{}

/// An operation is admitted exactly where it is safe with it: nothing harmless is refused.
pub fn admitted_where_safe()
    ensures { AdmittedWhereSafe }
{
    firm_is_safe();
    safe_is_firm();
}

/// Whatever happens to a number, of which each operation is admitted: it stays firm, and what is
/// committed is the serial state itself.
pub fn base_is_serial()
    ensures { BaseIsSerial }
{
    runs_along();
}

/// What is kept of a transaction's operations says how far they fall and rise, where they end, and
/// from where they are legal.
pub fn marks_are_exact()
    ensures { MarksAreExact }
{}

/// Its numbers stay small, however many operations there are.
pub fn marks_fit()
    ensures { MarksFit }
{}

/// Together the open transactions take no more than there is, and give no more than there is room for.
pub fn sums_fit()
    ensures { SumsFit }
{}

/// Marks and two sums say who keeps a transaction from what it did last.
pub fn marks_tell()
    ensures { MarksTell }
{}

/// And whether it is firm.
pub fn marks_tell_firm()
    ensures { MarksTellFirm }
{}

/// And so do two sums and two extremes.
pub fn extremes_tell_firm()
    ensures { ExtremesTellFirm }
{
    marks_tell_firm();
    sums_fit();
}
