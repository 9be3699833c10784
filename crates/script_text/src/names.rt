//! The names that the calls of a script share.

ghost use Rattle.std.specs.Prelude.{◌≡◌, ◌≤◌, ◌++◌, ◌∷◌, [], ℕ, List, drop, length, true, slice_get, IfSome, MatchResult, Some};
ghost use Rattle.std.specs.List.{All};
ghost use Rattle.type_table.specs.Name.{is_name};
ghost use Rattle.script_text.specs.Fronts.{BeginsWithLine, FindsName};
ghost use Rattle.script_text.specs.Kept.{BeginsWithName, KeepsCommand};

use crate::fronts::{Front, words_of};
use crate::kept_command::KeptCommand;
use serial_order::Command;
use std::alloc::{AllocError, Global};
use std::marker::Model;
use type_table::Name;

/// How many sums the bytes of a name, or the words of a text, may have.
const SUMS: usize = 256;

/// The most bytes of a name that a front holds beside the LF.
const MOST_IN_FRONT: usize = 15;

/// Names, each at its position. One that comes again soon is found, and kept once.
///
/// Contracts see the names in order.
#[derive(Drop)]
pub(crate) struct Names {
    names: Vec<Name>,
    // The position of the last name of each sum. The name there is compared, so nothing relies on it.
    positions: [u32; SUMS],
    // The last name that a text with this sum of its words began with.
    fronts: [Front; SUMS],
}

impl Model for Names {
    ghost use Rattle.std.specs.Prelude.{ℕ, List};
    ghost use Rattle.std.specs.List.{All};
    ghost use Rattle.script_text.specs.Fronts.{FindsName};

    ghost Value = { List (List ℕ) };

    ghost view = { λ n. n.names.items };

    ghost invariant = { λ n. All (FindsName n.names.items) n.fronts };
}

impl Names {
    /// No name.
    pub fn new(alloc: Global) -> Names
        ensures { result ≡ [] }
    {
        Names {
            names: Vec::new(alloc),
            positions: [0; SUMS],
            // no name is there, so that each short name is noted
            fronts: [Front::nowhere(u32::MAX); SUMS],
        }
    }

    /// The names in order.
    pub fn as_slice(&self) -> &[Name]
        ensures { result.now ≡ self.now }
    {
        self.names.as_slice()
    }

    /// The position of these bytes, where they are found to be a name.
    pub fn place_of(&self, bytes: &[u8]) -> Option<u32>
        ensures there { IfSome result (λ position. slice_get self.now position ≡ Some bytes.now) }
        ensures name { IfSome result (λ position. is_name bytes.now ≡ true) }
    {
        let position = self.positions[usize::from(sum_of(bytes))];
        let name = self.names.get(position as usize)?.as_bytes();
        if name == bytes { Some(position) } else { None }
    }

    /// The position of the name with which a text begins, where it is found by the text's front, and what comes after
    /// the LF behind it.
    #[inline(always)]
    pub fn before_lf<'a>(&self, text: &'a [u8]) -> Option<(u32, &'a [u8])>
        ensures { IfSome result (λ found. BeginsWithName self.now text.now found.0 found.1.now) }
    {
        let words = words_of(text)?;
        let front = front_at(&self.fronts, words.sum());
        if front.is_in(words) {
            return Some((front.position, &text[front.end as usize..]));
        }
        let end = self.end_in(text, front.position)?;
        Some((front.position, &text[end..]))
    }

    /// Where a text goes on behind the name at a position and a LF, where it begins with these.
    #[inline(never)]
    fn end_in(&self, text: &[u8], position: u32) -> Option<usize>
        ensures within { IfSome result (λ end. end ≤ length text.now) }
        ensures begins { IfSome result (λ end. BeginsWithName self.now text.now position (drop end text.now)) }
    {
        let name = self.names.get(position as usize)?.as_bytes();
        let end = name.len();
        if end < text.len() && text[end] == b'\n' && &text[..end] == name {
            Some(end + 1)
        } else {
            None
        }
    }

    /// Finds these bytes, with which a text begins, by its front from now on, where they are found to be a name.
    pub fn note(&mut self, text: &[u8], bytes: &[u8])
        requires { BeginsWithLine text.now bytes.now }
        ensures { self.new ≡ self.old }
    {
        let Some(words) = words_of(text) else {
            return;
        };
        let Some(position) = self.place_of(bytes) else {
            return;
        };
        let front = if bytes.len() <= MOST_IN_FRONT {
            Front::of(words, position, bytes.len() as u32 + 1)
        } else {
            Front::nowhere(position)
        };
        self.fronts[usize::from(words.sum())] = front;
    }

    /// What is kept of a command. A name that isn't found is put after the others.
    ///
    /// # Errors
    ///
    /// There was no memory for the name, and the names are what they were.
    #[inline]
    pub fn kept_of(&mut self, command: Command) -> Result<KeptCommand, AllocError>
        ensures { MatchResult result (λ kept. KeepsCommand self.old self.new command kept) (λ _. self.new ≡ self.old) }
    {
        match command {
            Command::Begin => Ok(KeptCommand::Begin),
            Command::Call { t, x, call } => {
                let name = match self.place_of(call.as_bytes()) {
                    Some(position) => position,
                    None => self.add(call)?,
                };
                Ok(KeptCommand::Call { t, x, name })
            }
            Command::Commit { t } => Ok(KeptCommand::Commit { t }),
            Command::Abort { t } => Ok(KeptCommand::Abort { t }),
            Command::Rollback { t, n } => Ok(KeptCommand::Rollback { t, n }),
        }
    }

    /// Puts a name after the others, and gives its position.
    fn add(&mut self, name: Name) -> Result<u32, AllocError>
        ensures { MatchResult result
            (λ position. (position ≡ length self.old) × (self.new ≡ self.old ++ name ∷ []))
            (λ _. self.new ≡ self.old) }
    {
        // more names have no number, and no memory has room for them
        let Ok(position) = u32::try_from(self.names.len()) else {
            return Err(AllocError);
        };
        self.names.push(name)?;
        self.positions[usize::from(sum_of(name.as_bytes()))] = position;
        Ok(position)
    }

    /// Gives back the room that no name takes.
    pub fn shrink_to_fit(&mut self)
        ensures { self.new ≡ self.old }
    {
        self.names.shrink_to_fit();
    }
}

/// The front at this place. Whichever names all fronts find, it finds.
#[inline(always)]
fn front_at(fronts: &[Front; SUMS], place: u8) -> &Front
    ensures { (names : List (List ℕ)) → All (FindsName names) fronts.now → FindsName names result.now }
{
    &fronts[usize::from(place)]
}

/// A sum of a name's bytes in which their order counts.
#[inline]
fn sum_of(bytes: &[u8]) -> u8 {
    let mut sum = 0u8;
    for byte in bytes {
        sum = sum.rotate_left(3) ^ *byte;
    }
    sum
}
