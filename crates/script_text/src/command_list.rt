ghost use Rattle.std.specs.Prelude.{◌≡◌, ◌==◌, ◌++◌, ◌∷◌, ◌<◌, ◌^◌, [], length, map, true, MatchOption, MatchResult};
ghost use Rattle.std.specs.List.{AllByRecursion};
ghost use Rattle.type_table.specs.Name.{is_name};
ghost use Rattle.script_text.specs.Fronts.{BeginsWithLine};
ghost use Rattle.script_text.specs.Kept.{command_said, HasName, PutsCall};
ghost use Rattle.serial_order.specs.declared.command.Command.TheVariants.{Call};

use crate::kept_command::{KeptCommand, KeptCommands};
use crate::names::Names;
use serial_order::Command;
use std::alloc::{AllocError, Global};
use std::marker::Model;
use std::mem::size_of;
use type_table::Name;

/// Commands in order, in little room: calls by the same name share it.
///
/// Contracts see the list of the commands.
#[derive(Drop)]
pub struct CommandList {
    kept: Vec<KeptCommand>,
    names: Names,
}

impl Model for CommandList {
    ghost use Rattle.std.specs.Prelude.{List, map, length};
    ghost use Rattle.std.specs.List.{AllByRecursion};
    ghost use Rattle.serial_order.specs.declared.command.Command.{Command as CommandValue};
    ghost use Rattle.script_text.specs.Kept.{command_said, HasName, PutsCall};

    ghost Value = { List CommandValue };

    ghost view = { λ c. map (command_said c.names) c.kept.items };

    ghost invariant = { λ c. AllByRecursion (HasName (length c.names)) c.kept.items };
}

impl CommandList {
    /// No command.
    pub fn new(alloc: Global) -> CommandList
        ensures { result ≡ [] }
    {
        CommandList {
            kept: Vec::new(alloc),
            names: Names::new(alloc),
        }
    }

    /// How many commands there are.
    pub fn len(&self) -> usize
        ensures count { result ≡ length self.now }
        ensures few { length self.now < 2 ^ 63 }
    {
        self.kept.len()
    }

    /// Whether there is no command.
    pub fn is_empty(&self) -> bool
        ensures { result ≡ (length self.now == 0) }
    {
        self.len() == 0
    }

    /// The commands as they are kept.
    pub fn kept(&self) -> KeptCommands<'_>
        ensures said { map (command_said result.names.now) result.commands.now ≡ self.now }
        ensures named { AllByRecursion (HasName (length result.names.now)) result.commands.now }
    {
        KeptCommands {
            commands: self.kept.as_slice(),
            names: self.names.as_slice(),
        }
    }

    /// Puts a command after the others.
    ///
    /// # Errors
    ///
    /// There was no memory for it, and the commands are what they were.
    pub fn push(&mut self, command: Command) -> Result<(), AllocError>
        ensures { MatchResult result (λ _. self.new ≡ self.old ++ command ∷ []) (λ _. self.new ≡ self.old) }
    {
        let kept = self.names.kept_of(command)?;
        let Ok(()) = self.kept.push(kept) else {
            return Err(AllocError);
        };
        Ok(())
    }

    /// Puts a command that names no call after the others, where there is room for it without more memory.
    #[inline(always)]
    pub(crate) fn put_nameless(&mut self, kept: KeptCommand) -> Option<()>
        requires { HasName 0 kept }
        ensures { MatchOption result (self.new ≡ self.old) (λ _. self.new ≡ self.old ++ command_said [] kept ∷ []) }
    {
        if self.kept.len() == self.kept.capacity() {
            return None;
        }
        self.kept.push_reserved(kept);
        Some(())
    }

    /// The same of any command.
    fn put(&mut self, command: Command) -> Option<()>
        ensures { MatchOption result (self.new ≡ self.old) (λ _. self.new ≡ self.old ++ command ∷ []) }
    {
        if self.kept.len() == self.kept.capacity() {
            return None;
        }
        let Ok(kept) = self.names.kept_of(command) else {
            return None;
        };
        self.kept.push_reserved(kept);
        Some(())
    }

    /// The same of a call by the name with which a text begins, where that is found at once, and what comes after the
    /// LF behind it.
    #[inline(always)]
    pub(crate) fn put_known_call<'a>(&mut self, t: u32, x: u32, text: &'a [u8]) -> Option<&'a [u8]>
        ensures { MatchOption result (self.new ≡ self.old) (λ behind. PutsCall t x text.now behind.now self.old self.new) }
    {
        let (name, behind) = self.names.before_lf(text)?;
        if self.kept.len() == self.kept.capacity() {
            return None;
        }
        self.kept.push_reserved(KeptCommand::Call { t, x, name });
        Some(behind)
    }

    /// Finds these bytes at once where a text begins with them as this one does.
    pub(crate) fn note(&mut self, text: &[u8], bytes: &[u8])
        requires { BeginsWithLine text.now bytes.now }
        ensures { self.new ≡ self.old }
    {
        self.names.note(text, bytes);
    }

    /// The same of a call by these bytes, where they are a name.
    pub(crate) fn put_call(&mut self, t: u32, x: u32, bytes: &[u8]) -> Option<()>
        ensures { MatchOption result
            (self.new ≡ self.old)
            (λ _. (is_name bytes.now ≡ true) × (self.new ≡ self.old ++ Call t x bytes.now ∷ [])) }
    {
        if let Some(name) = self.names.place_of(bytes) {
            if self.kept.len() == self.kept.capacity() {
                return None;
            }
            self.kept.push_reserved(KeptCommand::Call { t, x, name });
            return Some(());
        }
        let call = Name::from_bytes(bytes)?;
        self.put(Command::Call { t, x, call })
    }

    /// Gives back the room that no command takes.
    pub fn shrink_to_fit(&mut self)
        ensures { self.new ≡ self.old }
    {
        self.kept.shrink_to_fit();
        self.names.shrink_to_fit();
    }
}

// Bytes for each line: at most 64 of the value, and at most 160 while it is read, where each command has
// a name of its own. Both lists double as they grow, so three times as much as they take may be there at
// once; at its end each is cut to its length.
const _: () = prove!(size_of::<KeptCommand>() == 16);

const _: () = prove!(size_of::<KeptCommand>() + size_of::<Name>() <= 64);

const _: () = prove!(3 * size_of::<KeptCommand>() + 3 * size_of::<Name>() <= 160);
