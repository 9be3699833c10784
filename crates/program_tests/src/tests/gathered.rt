//! The output that gathers pieces: how large those are that it hands on.

ghost use Rattle.std.specs.Prelude.{None};

use outputs::{Failed, Gathered, Out, OutFault, put};

/// An output that notes how many and how large the pieces are that it is offered, and takes them whole.
#[derive(Drop)]
pub struct Sizes {
    /// The least of the pieces before the last one.
    least: usize,
    last: usize,
    pub pieces: usize,
    pub bytes: usize,
}

impl Out for Sizes {
    ghost taken = { λ _. None };

    ghost fault = { λ _. None };

    fn take(&mut self, piece: &[u8]) -> Result<usize, Failed> {
        self.least = self.least.min(self.last);
        self.last = piece.len();
        self.pieces = self.pieces.wrapping_add(1);
        self.bytes = self.bytes.wrapping_add(piece.len());
        Ok(piece.len())
    }

    fn fault(&self) -> Option<OutFault> {
        None
    }
}

/// Before any piece.
pub const NONE_YET: Sizes = Sizes {
    least: usize::MAX,
    last: usize::MAX,
    pieces: 0,
    bytes: 0,
};

/// A line of 11 bytes.
const LINE: &[u8] = b"op 0 0 0 0\n";

/// Of 220,000 bytes that are put line by line, each piece but the last has at least 65,536.
#[test]
fn lines_are_handed_on_in_large_pieces(rt: HostRuntime) {
    let mut out = Gathered::new(rt.alloc(), NONE_YET)
        .ok()
        .expect(&rt, "no memory");
    for _ in 0..20_000 {
        assert!(rt; put(&mut out, LINE) == Ok(()));
    }
    assert!(rt; out.flush() == Ok(()));
    let sizes = out.into_inner();
    assert!(rt; (65_536 <= sizes.least) & (sizes.least < usize::MAX) & (sizes.bytes == 220_000));
}
