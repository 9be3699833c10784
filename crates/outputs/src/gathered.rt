//! An output that gathers small pieces into large ones.

ghost use Rattle.std.specs.Prelude.{◌≡◌, ◌≢◌, ◌<◌, ◌≤◌, ◌+◌, ◌*◌, ℕ, List, [], length, take, None, IfOk, OnOk, vec_len, vec_capacity};
ghost use Rattle.std.specs.Result.{result_err};
ghost use Rattle.std.specs.Io.KnownBytes.{Appends, Keeps};
ghost use Rattle.outputs.specs.Numbers.{numbers_line};

use crate::number_line::{LONGEST, spell_line};
use crate::out::{Failed, Out, OutFault};
use std::alloc::{AllocError, Global};

/// A piece has at least this many bytes, but for the last.
const LEAST: usize = 65_536;

/// This many bytes may wait, so that after the least piece there is room for a line.
const MOST: usize = 131_072;

/// An output over another, which is handed pieces of at least 65,536 bytes, and a last one by `flush`.
/// What is gathered counts as taken, and after a fault the output under it took a beginning of it.
#[derive(Drop)]
pub struct Gathered<W> {
    inner: W,
    bytes: Vec<u8>,
    /// How many of the bytes the output under it took.
    passed: usize,
    ghost inside: { passed ≤ vec_len bytes },
    ghost room: { 131072 ≤ vec_capacity bytes },
}

impl<W: Drop> Gathered<W> {
    ghost use Rattle.outputs.specs.Gathered.{under, waiting};

    /// A gathering output over this one, with all memory that it ever takes.
    ///
    /// # Errors
    ///
    /// Memory was refused, and the output under it is dropped.
    pub fn new(alloc: Global, inner: W) -> Result<Gathered<W>, AllocError>
        ensures under { IfOk result (λ g. under g ≡ inner) }
        ensures empty { IfOk result (λ g. waiting g ≡ []) }
    {
        let bytes = Vec::with_capacity(alloc, MOST)?;
        Ok(Gathered {
            inner,
            bytes,
            passed: 0,
        })
    }

    /// The output under it. What wasn't flushed is lost.
    pub fn into_inner(self) -> W
        ensures { result ≡ under self }
    {
        let Gathered {
            inner,
            bytes: _,
            passed: _,
        } = self;
        inner
    }
}

impl<W: Out> Gathered<W> {
    ghost use Rattle.outputs.specs.Gathered.{under, waiting, taken_by};

    /// Hands on what is waiting.
    ///
    /// # Errors
    ///
    /// The fault of the output under it, which took a beginning of what was waiting.
    pub fn flush(&mut self) -> Result<(), OutFault>
        requires { W.fault (under self.old) ≡ None }
        ensures empty { OnOk result (waiting self.new ≡ []) }
        ensures bytes { Keeps (taken_by W.taken self.old) (taken_by W.taken self.new) }
        ensures fault { W.fault (under self.new) ≡ result_err result }
        ensures room { OnOk result (vec_len self.new.bytes ≡ 0) }
    {
        let (count, result) = hand_on(&mut self.inner, &self.bytes[self.passed..]);
        match result {
            Ok(()) => {
                self.passed = 0;
                self.bytes.clear();
                Ok(())
            }
            Err(fault) => {
                self.passed += count;
                Err(fault)
            }
        }
    }

    /// Hands on what is waiting, where that is a piece.
    #[inline(always)]
    fn make_room(&mut self) -> Result<(), OutFault>
        requires { W.fault (under self.old) ≡ None }
        ensures bytes { Keeps (taken_by W.taken self.old) (taken_by W.taken self.new) }
        ensures fault { W.fault (under self.new) ≡ result_err result }
        ensures room { OnOk result (vec_len self.new.bytes < 65536) }
    {
        if self.bytes.len() < LEAST {
            return Ok(());
        }
        self.flush()
    }

    /// Puts a beginning of a piece after what is waiting, and returns how many bytes that is.
    fn gather(&mut self, piece: &[u8]) -> usize
        requires room { vec_len self.old.bytes < 65536 }
        requires some { 0 < length piece.now }
        ensures count { (0 < result) × (result ≤ length piece.now) }
        ensures bytes { Appends (taken_by W.taken self.old) (taken_by W.taken self.new) (take result piece.now) }
        ensures stays { under self.new ≡ under self.old }
    {
        let room = MOST - self.bytes.len();
        let count = if piece.len() < room {
            piece.len()
        } else {
            room
        };
        // there is room for these
        let _ = self.bytes.extend_from_slice(&piece[..count]);
        count
    }

    /// Spells a line of a keyword and numbers after what is waiting.
    #[inline(always)]
    fn gather_line(&mut self, keyword: &[u8], numbers: &[u32])
        requires room { vec_len self.old.bytes < 65536 }
        requires short { length keyword.now + 11 * length numbers.now < 64 }
        ensures bytes { Appends (taken_by W.taken self.old) (taken_by W.taken self.new) (numbers_line keyword.now numbers.now) }
        ensures stays { under self.new ≡ under self.old }
    {
        let start = self.bytes.len();
        // there is room for these
        let _ = self.bytes.extend_from_slice(&[0; LONGEST]);
        let end = spell_line(self.bytes.as_mut_slice(), start, keyword, numbers);
        self.bytes.truncate(end);
    }
}

impl<W: Out> Out for Gathered<W> {
    ghost use Rattle.outputs.specs.Gathered.{under, taken_by};

    ghost taken = { taken_by W.taken };

    ghost fault = { λ g. W.fault (under g) };

    fn take(&mut self, piece: &[u8]) -> Result<usize, Failed> {
        if piece.is_empty() {
            return Ok(0);
        }
        match self.make_room() {
            Ok(()) => Ok(self.gather(piece)),
            Err(OutFault::Device) => Err(Failed),
            Err(OutFault::WroteNothing) => Ok(0),
        }
    }

    fn fault(&self) -> Option<OutFault> {
        self.inner.fault()
    }

    #[inline(always)]
    fn put_numbers(&mut self, keyword: &[u8], numbers: &[u32]) -> Result<(), OutFault> {
        self.make_room()?;
        self.gather_line(keyword, numbers);
        Ok(())
    }
}

/// Writes a whole piece, as `put` of `outputs`, and returns how many of its bytes were taken.
fn hand_on<W: Out>(out: &mut W, piece: &[u8]) -> (usize, Result<(), OutFault>)
    requires { W.fault out.old ≡ None }
    ensures count { result.0 ≤ length piece.now }
    ensures all { OnOk result.1 (result.0 ≡ length piece.now) }
    ensures bytes { Appends (W.taken out.old) (W.taken out.new) (take result.0 piece.now) }
    ensures fault { W.fault out.new ≡ result_err result.1 }
{
    let mut done = 0;
    while done < piece.len() {
        match out.take(&piece[done..]) {
            Ok(0) => return (done, Err(OutFault::WroteNothing)),
            Ok(count) => done += count,
            Err(Failed) => return (done, Err(OutFault::Device)),
        }
    }
    (done, Ok(()))
}
