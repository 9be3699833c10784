ghost use Rattle.std.specs.Prelude.{◌≡◌, ◌≤◌, ◌<◌, ◌+◌, ◌*◌, List, ℕ, Option, None, length, IfOk};
ghost use Rattle.std.specs.Io.KnownBytes.{WriteAppends};
ghost use Rattle.outputs.specs.Numbers.{numbers_line};
ghost use Rattle.outputs.specs.Out.{Puts, fault_after};
ghost use Rattle.outputs.specs.declared.out.OutFault.{OutFault};

use crate::number_line::{LONGEST, spell_line};
use thiserror::Error;

/// What stopped an output.
#[derive(Clone, Copy, PartialEq, Eq, Debug, Error)]
pub enum OutFault {
    /// The writer answered an error.
    #[error("the output failed")]
    Device,
    /// The writer took none of the bytes of a piece that had some.
    #[error("the output took no bytes")]
    WroteNothing,
}

/// An output took no byte of a piece, by an error. Its fault is `Device`.
#[derive(Clone, Copy, PartialEq, Eq, Debug, Error)]
#[error("the output failed")]
pub struct Failed;

/// An output, which takes bytes until a fault stops it.
pub trait Out {
    // The bytes taken so far, after those that the writer held before, where the writer says them.
    ghost taken: { Self → Option (List ℕ) };

    // What stopped it.
    ghost fault: { Self → Option OutFault };

    /// Takes the first n bytes of the piece at `Ok(n)`, and none at an error. An error sets the
    /// fault `Device`, and `Ok(0)` for a piece that isn't empty sets `WroteNothing`.
    fn take(&mut self, piece: &[u8]) -> Result<usize, Failed>
        requires { fault self.old ≡ None }
        ensures count { IfOk result (λ n. n ≤ length piece.now) }
        ensures bytes { WriteAppends (taken self.old) (taken self.new) result piece.now }
        ensures fault { fault self.new ≡ fault_after result piece.now };

    /// What stopped the output, and `None` while it takes bytes.
    fn fault(&self) -> Option<OutFault>
        ensures { result ≡ fault self.now };

    /// Writes a whole piece, as `put` does.
    fn put_piece(&mut self, piece: &[u8]) -> Result<(), OutFault>
        requires { fault self.old ≡ None }
        ensures { Puts (taken self.old) (taken self.new) (fault self.new) piece.now result }
    {
        let mut rest = piece;
        while !rest.is_empty() {
            match self.take(rest) {
                Ok(0) => return Err(OutFault::WroteNothing),
                Ok(count) => rest = &rest[count..],
                Err(Failed) => return Err(OutFault::Device),
            }
        }
        Ok(())
    }

    /// Writes a line of a keyword and numbers, with one space between two, as one piece. An output that
    /// keeps its bytes may spell it where they are.
    fn put_numbers(&mut self, keyword: &[u8], numbers: &[u32]) -> Result<(), OutFault>
        requires takes { fault self.old ≡ None }
        requires short { length keyword.now + 11 * length numbers.now < 64 }
        ensures { Puts (taken self.old) (taken self.new) (fault self.new) (numbers_line keyword.now numbers.now) result }
    {
        let mut line = [0; LONGEST];
        let end = spell_line(&mut line, 0, keyword, numbers);
        self.put_piece(&line[..end])
    }
}
