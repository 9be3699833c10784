//! The command lines of a script.

ghost use Rattle.std.specs.Prelude.{◌≡◌, map};
ghost use Rattle.script_text.specs.Commands.{commands, command_of, begin_command_of, call_command_of, commit_command_of, abort_command_of, rollback_command_of};

use crate::command_list::CommandList;
use crate::plain::keep_plain;
use line_text::{FaultKind, exactly, is_key, name_at, number_at};
use serial_order::Command;
use std::alloc::{AllocError, Global};
use store_text::Entries;

/// The commands of a script. Their transactions and objects may have any number, since the store
/// refuses those that aren't there.
#[derive(Clone, Copy)]
pub struct Commands;

impl Entries for Commands {
    type Entry = Command;

    type Kept = CommandList;

    ghost body = { λ _. commands };

    ghost said = { λ commands. commands };

    fn has_max(&self) -> bool {
        true
    }

    #[tactic(auto, unfolding(crate::specs::Commands::command_of))]
    fn entry(&self, words: &[&[u8]]) -> Result<Command, FaultKind> {
        if is_key(words, "begin") {
            begin_of(words)
        } else if is_key(words, "call") {
            call_of(words)
        } else if is_key(words, "commit") {
            commit_of(words)
        } else if is_key(words, "abort") {
            abort_of(words)
        } else if is_key(words, "rollback") {
            rollback_of(words)
        } else {
            Err(FaultKind::UnknownWord)
        }
    }

    fn nothing(&self, alloc: Global) -> CommandList {
        CommandList::new(alloc)
    }

    fn keep(
        &self,
        commands: &mut CommandList,
        _objects: u32,
        entry: Command,
    ) -> Result<(), AllocError> {
        commands.push(entry)
    }

    #[inline(always)]
    fn keep_plain<'a>(
        &self,
        commands: &mut CommandList,
        _objects: u32,
        text: &'a [u8],
    ) -> Option<&'a [u8]> {
        keep_plain(commands, text)
    }

    fn are_few(&self, commands: &CommandList) {
        commands.len();
    }

    fn is_in_range(&self, _objects: u32, _entry: Command) -> bool {
        true
    }

    fn wants_another(&self, _entry: Command) -> bool {
        false
    }
}

#[tactic(auto, unfolding(crate::specs::Commands::begin_command_of))]
fn begin_of(words: &[&[u8]]) -> Result<Command, FaultKind>
    ensures { result ≡ begin_command_of (map (λ w. w.now) words.now) }
{
    exactly(words, 1)?;
    Ok(Command::Begin)
}

#[tactic(auto, unfolding(crate::specs::Commands::call_command_of))]
fn call_of(words: &[&[u8]]) -> Result<Command, FaultKind>
    ensures { result ≡ call_command_of (map (λ w. w.now) words.now) }
{
    exactly(words, 4)?;
    let call = name_at(words, 3)?;
    let t = number_at(words, 1)?;
    let x = number_at(words, 2)?;
    Ok(Command::Call { t, x, call })
}

#[tactic(auto, unfolding(crate::specs::Commands::commit_command_of))]
fn commit_of(words: &[&[u8]]) -> Result<Command, FaultKind>
    ensures { result ≡ commit_command_of (map (λ w. w.now) words.now) }
{
    exactly(words, 2)?;
    let t = number_at(words, 1)?;
    Ok(Command::Commit { t })
}

#[tactic(auto, unfolding(crate::specs::Commands::abort_command_of))]
fn abort_of(words: &[&[u8]]) -> Result<Command, FaultKind>
    ensures { result ≡ abort_command_of (map (λ w. w.now) words.now) }
{
    exactly(words, 2)?;
    let t = number_at(words, 1)?;
    Ok(Command::Abort { t })
}

#[tactic(auto, unfolding(crate::specs::Commands::rollback_command_of))]
fn rollback_of(words: &[&[u8]]) -> Result<Command, FaultKind>
    ensures { result ≡ rollback_command_of (map (λ w. w.now) words.now) }
{
    exactly(words, 3)?;
    let t = number_at(words, 1)?;
    let n = number_at(words, 2)?;
    Ok(Command::Rollback { t, n })
}
