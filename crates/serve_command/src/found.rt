//! What was found in the file of a store is said.

ghost use Rattle.std.specs.Prelude.{◌≡◌, None};
ghost use Rattle.outputs.specs.Out.{Puts};
ghost use Rattle.serve_command.specs.Found.{found_text};
ghost use Rattle.serving.specs.Told.{AppendsPart};

use itoa::Buffer;
use outputs::{Out, OutFault, put_all};
use std::rt::Clock;
use std::time::Instant;

/// What was found in the file of a store: how many events, how many transactions were open and are aborted, and how many
/// milliseconds it took.
#[derive(Clone, Copy)]
pub(crate) struct Found {
    pub events: usize,
    pub aborted: usize,
    pub time: u64,
}

/// Says it in a line. Where the output fails, nothing else comes of that.
pub(crate) fn say_found<E: Out>(path: &str, found: Found, err: &mut E)
    requires { E.fault err.old ≡ None }
    ensures { AppendsPart (E.taken err.old) (E.taken err.new) (found_text path.now found.events found.aborted found.time) }
{
    let _ = put_found(path, found, err);
}

/// Writes the line.
fn put_found<E: Out>(path: &str, found: Found, err: &mut E) -> Result<(), OutFault>
    requires { E.fault err.old ≡ None }
    ensures { Puts (E.taken err.old) (E.taken err.new) (E.fault err.new) (found_text path.now found.events found.aborted found.time) result }
{
    let mut events = Buffer::new();
    let mut aborted = Buffer::new();
    let mut time = Buffer::new();
    put_all(
        err,
        &[
            b"colock: ",
            path.as_bytes(),
            b": ",
            events.format(found.events).as_bytes(),
            b" events, ",
            aborted.format(found.aborted).as_bytes(),
            b" aborted, ",
            time.format(found.time).as_bytes(),
            b" ms\n",
        ],
    )
}

/// How many milliseconds have passed since then, and none where the clock fails.
pub(crate) fn milliseconds_since<C: Clock>(clock: &C, since: Option<Instant>) -> u64 {
    match since {
        Some(since) => match since.elapsed(clock) {
            Ok(passed) => u64::try_from(passed.as_millis()).unwrap_or(u64::MAX),
            Err(_) => 0,
        },
        None => 0,
    }
}
