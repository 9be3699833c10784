//! Faults of lines: their texts and their numbers.

use line_text::{FaultKind, TextFault};

/// Faults, and their texts.
pub static FAULTS: [(TextFault, &str); 11] = [
    (
        TextFault {
            line: 12,
            kind: FaultKind::NotAscii,
        },
        "line 12: NotAscii",
    ),
    (
        TextFault {
            line: 12,
            kind: FaultKind::LineTooLong,
        },
        "line 12: LineTooLong",
    ),
    (
        TextFault {
            line: 12,
            kind: FaultKind::Unterminated,
        },
        "line 12: Unterminated",
    ),
    (
        TextFault {
            line: 12,
            kind: FaultKind::UnknownWord,
        },
        "line 12: UnknownWord",
    ),
    (
        TextFault {
            line: 12,
            kind: FaultKind::BadNumber,
        },
        "line 12: BadNumber",
    ),
    (
        TextFault {
            line: 12,
            kind: FaultKind::OutOfRange,
        },
        "line 12: OutOfRange",
    ),
    (
        TextFault {
            line: 12,
            kind: FaultKind::OutOfOrder,
        },
        "line 12: OutOfOrder",
    ),
    (
        TextFault {
            line: 12,
            kind: FaultKind::Missing,
        },
        "line 12: Missing",
    ),
    (
        TextFault {
            line: 12,
            kind: FaultKind::AfterEnd,
        },
        "line 12: AfterEnd",
    ),
    (
        TextFault {
            line: 12,
            kind: FaultKind::TwiceOp,
        },
        "line 12: TwiceOp",
    ),
    (
        TextFault {
            line: 12,
            kind: FaultKind::NoMemory,
        },
        "line 12: NoMemory",
    ),
];

/// The kinds of faults have the numbers from 1, in the order above.
#[test]
fn faults_have_numbers(rt: HostRuntime) {
    let mut number = 0u8;
    for (fault, _) in &FAULTS {
        number = number.wrapping_add(1);
        assert!(rt; fault.kind as u8 == number);
    }
}
