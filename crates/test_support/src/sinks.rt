//! Outputs that take few bytes at a time, and stop.

ghost use Rattle.std.specs.Prelude.{◌≡◌, None};
ghost use Rattle.outputs.specs.Out.{sink_fault};

use outputs::Sink;
use std::alloc::Global;
use std::io;
use std::io::{ErrorKind, Write};

/// What a full writer answers.
#[derive(Clone, Copy)]
pub enum AtEnd {
    Fails,
    TakesNothing,
}

/// A writer that takes `width` bytes at a time, and `room` more bytes in all.
#[derive(Drop)]
pub struct Narrow {
    pub held: Vec<u8>,
    width: usize,
    room: usize,
    at_end: AtEnd,
}

impl Write for Narrow {
    fn write(&mut self, buf: &[u8]) -> io::Result<usize> {
        let count = buf.len().min(self.width).min(self.room);
        if count == 0 {
            return match self.at_end {
                AtEnd::Fails => Err(io::Error::from(ErrorKind::Other)),
                AtEnd::TakesNothing => Ok(0),
            };
        }
        self.held.extend_from_slice(&buf[..count])?;
        self.room -= count;
        Ok(count)
    }

    fn flush(&mut self) -> io::Result<()> {
        Ok(())
    }
}

/// An output over new memory that takes `width` bytes at a time, and `room` bytes in all.
pub fn narrow_sink(alloc: Global, width: usize, room: usize, at_end: AtEnd) -> Sink<Narrow>
    ensures { sink_fault result ≡ None }
{
    Sink::new(Narrow {
        held: Vec::new(alloc),
        width,
        room,
        at_end,
    })
}
