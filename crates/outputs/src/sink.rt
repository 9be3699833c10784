ghost use Rattle.std.specs.Prelude.{◌≡◌, None};
ghost use Rattle.outputs.specs.Out.{sink_writer, sink_fault};

use crate::out::{Failed, Out, OutFault};
use std::io::Write;

/// An output over any writer. That a writer answers a count above the length of a piece is ruled
/// out by the contract of `Write`, so it isn't tested here.
#[derive(Debug, Drop)]
pub struct Sink<W> {
    writer: W,
    fault: Option<OutFault>,
}

impl<W> Sink<W> {
    /// An output over this writer, with no fault.
    pub fn new(writer: W) -> Self
        ensures writer { sink_writer result ≡ writer }
        ensures no_fault { sink_fault result ≡ None }
    {
        Sink {
            writer,
            fault: None,
        }
    }

    /// The writer, as the pieces so far left it.
    pub fn into_inner(self) -> W
        ensures { result ≡ sink_writer self }
    {
        let Sink { writer, fault: _ } = self;
        writer
    }
}

impl<W: Write> Out for Sink<W> {
    ghost taken = { λ s. W.contents (sink_writer s) };

    ghost fault = { sink_fault };

    fn take(&mut self, piece: &[u8]) -> Result<usize, Failed> {
        match self.writer.write(piece) {
            Ok(count) => {
                if count == 0 && !piece.is_empty() {
                    self.fault = Some(OutFault::WroteNothing);
                }
                Ok(count)
            }
            Err(_) => {
                self.fault = Some(OutFault::Device);
                Err(Failed)
            }
        }
    }

    fn fault(&self) -> Option<OutFault> {
        self.fault
    }
}
