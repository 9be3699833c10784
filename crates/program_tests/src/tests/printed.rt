//! How faults, refusals and kinds are printed.

use super::lines::FAULTS;
use equi_cert::CertFault;
use std::test::Fail;
use table_checker::CheckRefusal;
use table_maker::MakeError;
use test_support::printed::are_printed;
use type_table::{Kind, TableError, TableKind};

static TABLE_ERRORS: [(TableError, &str); 4] = [
    (TableError::BadCount, "BadCount"),
    (TableError::BadInitial, "BadInitial"),
    (TableError::BadStep, "BadStep"),
    (TableError::TwiceOp, "TwiceOp"),
];

static CERT_FAULTS: [(CertFault, &str); 1] = [(
    CertFault { s: 4, t: 3, k: 2 },
    "NotSimulation 4 3 2",
)];

static REFUSALS: [(CheckRefusal, &str); 5] = [
    (CheckRefusal::InitialOutside, "InitialOutside"),
    (
        CheckRefusal::NotClosed { s: 1023, k: 7 },
        "NotClosed 1023 7",
    ),
    (
        CheckRefusal::NotSimulation { s: 4, t: 3, k: 2 },
        "NotSimulation 4 3 2",
    ),
    (
        CheckRefusal::NotCommuting {
            p: 0,
            q: 63,
            s: 1023,
        },
        "NotCommuting 0 63 1023",
    ),
    (CheckRefusal::NotNumeric { k: 63, s: 0 }, "NotNumeric 63 0"),
];

static MAKE_ERRORS: [(MakeError, &str); 3] = [
    (MakeError::BadParameter, "BadParameter"),
    (MakeError::TooLarge, "TooLarge"),
    (MakeError::NoMemory, "no memory"),
];

static KINDS: [(Kind, &str); 3] = [
    (Kind::Undo, "undo"),
    (Kind::Intentions, "intentions"),
    (Kind::Escrow, "escrow"),
];

static TABLE_KINDS: [(TableKind, &str); 2] = [
    (TableKind::Undo, "undo"),
    (TableKind::Intentions, "intentions"),
];

#[test]
fn values_are_printed(rt: HostRuntime) -> Result<(), Fail> {
    are_printed(rt.alloc(), &FAULTS)?;
    are_printed(rt.alloc(), &TABLE_ERRORS)?;
    are_printed(rt.alloc(), &CERT_FAULTS)?;
    are_printed(rt.alloc(), &REFUSALS)?;
    are_printed(rt.alloc(), &MAKE_ERRORS)?;
    are_printed(rt.alloc(), &KINDS)?;
    are_printed(rt.alloc(), &TABLE_KINDS)
}
