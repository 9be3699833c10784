//! What exports answer.

ghost use Rattle.std.specs.Prelude.{◌≡◌, Some};
ghost use Rattle.library_calls.specs.Codes.{code_of, extend_code, made_code, new_code, number, peek_code, renew_code, stray_code};

use serial_order::Refusal;
use store::{ExtendRefusal, NewRefusal, PeekRefusal, RenewRefusal, Stray};
use table_maker::MakeError;

/// What an export answers, by its number. All but `Done` leave what there was, but for what an export
/// says itself.
#[derive(Clone, Copy)]
pub enum Code {
    /// It was done.
    Done = 0,
    /// The transaction isn't open.
    NotOpen = 1,
    /// There is no object at this place.
    NoObject = 2,
    /// No operation of the object's type has this call.
    NoCall = 3,
    /// As many transactions are open as may be.
    TooManyOpen = 4,
    /// The history has no room for the event, and for the end of each open transaction.
    HistoryFull = 5,
    /// Memory was refused.
    NoMemory = 6,
    /// A rollback of no operation, or of more than the transaction has.
    BadRollback = 7,
    /// The handle holds nothing, or something else than is meant.
    NotHeld = 8,
    /// The handle holds something.
    InUse = 9,
    /// The text has a fault.
    BadText = 10,
    /// The checker refuses the type.
    Refused = 11,
    /// No kind of recovery has this number.
    BadKind = 12,
    /// There is no object yet.
    NoObjects = 13,
    /// There are more objects than a store may have.
    TooManyObjects = 14,
    /// An object isn't as it was made.
    NotFresh = 15,
    /// The number is too low or too high for the most events of a history.
    BadMax = 16,
    /// A transaction is open.
    StillOpen = 17,
    /// No command makes the event after those so far.
    NotMade = 18,
    /// The events from this place on were forgotten, or some of them.
    Forgotten = 19,
    /// A parameter of a family is out of its range or in a wrong order.
    BadParameter = 20,
    /// The family has too many operations or states at these parameters.
    TooLarge = 21,
    /// The type has no state of this number.
    NoState = 22,
    /// The type has no operation of this number.
    NoOperation = 23,
    /// The operation isn't legal in the state.
    NotLegal = 24,
    /// The room is too small.
    NoRoom = 25,
    /// The type is a number, which is for escrow alone.
    NeedsEscrow = 26,
    /// An operation of the call may change something.
    Changes = 27,
}

impl Code {
    /// The number by which it crosses.
    pub fn number(self) -> u32
        ensures { result ≡ number self }
    {
        self as u32
    }
}

/// The code of a refusal.
pub(crate) fn code_of(refusal: Refusal) -> Code
    ensures { result ≡ code_of (Some refusal) }
{
    match refusal {
        Refusal::NotOpen => Code::NotOpen,
        Refusal::NoObject => Code::NoObject,
        Refusal::NoCall => Code::NoCall,
        Refusal::TooManyOpen => Code::TooManyOpen,
        Refusal::HistoryFull => Code::HistoryFull,
        Refusal::NoMemory => Code::NoMemory,
        Refusal::BadRollback => Code::BadRollback,
    }
}

/// The code of a refusal of a store's objects.
pub(crate) fn new_code(refusal: NewRefusal) -> Code
    ensures { result ≡ new_code refusal }
{
    match refusal {
        NewRefusal::NoObjects => Code::NoObjects,
        NewRefusal::TooManyObjects => Code::TooManyObjects,
        NewRefusal::NotFresh => Code::NotFresh,
        NewRefusal::BadMax => Code::BadMax,
        NewRefusal::NoMemory => Code::NoMemory,
    }
}

/// The code of a refusal to begin anew.
pub(crate) fn renew_code(refusal: RenewRefusal) -> Code
    ensures { result ≡ renew_code refusal }
{
    match refusal {
        RenewRefusal::StillOpen => Code::StillOpen,
        RenewRefusal::NoMemory => Code::NoMemory,
    }
}

/// The code of a refusal to begin anew with more objects.
pub(crate) fn extend_code(refusal: ExtendRefusal) -> Code
    ensures { result ≡ extend_code refusal }
{
    match refusal {
        ExtendRefusal::StillOpen => Code::StillOpen,
        ExtendRefusal::TooManyObjects => Code::TooManyObjects,
        ExtendRefusal::NotFresh => Code::NotFresh,
        ExtendRefusal::NoMemory => Code::NoMemory,
    }
}

/// The code of a refusal to read.
pub(crate) fn peek_code(refusal: PeekRefusal) -> Code
    ensures { result ≡ peek_code refusal }
{
    match refusal {
        PeekRefusal::NoObject => Code::NoObject,
        PeekRefusal::NoCall => Code::NoCall,
        PeekRefusal::Changes => Code::Changes,
    }
}

/// The code of an event that isn't followed.
pub(crate) fn stray_code(stray: Stray) -> Code
    ensures { result ≡ stray_code stray }
{
    match stray {
        Stray::NotMade => Code::NotMade,
        Stray::NoMemory => Code::NoMemory,
    }
}

/// The code of a type that isn't made.
pub(crate) fn made_code(error: MakeError) -> Code
    ensures { result ≡ made_code error }
{
    match error {
        MakeError::BadParameter => Code::BadParameter,
        MakeError::TooLarge => Code::TooLarge,
        MakeError::NoMemory => Code::NoMemory,
    }
}
