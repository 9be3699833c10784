//! Events that are gathered as lines.

ghost use Rattle.std.specs.Prelude.{◌≡◌, ◌↔◌, ◌++◌, ◌∷◌, [], IsTrue, OnErr, OnOk};
ghost use Rattle.event_text.specs.EventText.{AreShort, event_lines};

use crate::write::push_event;
use object_trait::EventKind;
use std::alloc::{AllocError, Global};
use std::marker::Model;

/// Events, as the lines that say them. Contracts see the events.
#[derive(Drop)]
pub struct EventGroup {
    lines: Vec<u8>,
}

impl Model for EventGroup {
    ghost use Rattle.std.specs.Prelude.{◌≡◌, List};
    ghost use Rattle.object_trait.specs.declared.event.EventKind.{EventKind};
    ghost use Rattle.event_text.specs.EventText.{AreShort, event_lines, events_said};

    ghost Value = { List EventKind };

    ghost view = { λ g. events_said g.lines.items };

    ghost invariant = { λ g. (g.lines.items ≡ event_lines (events_said g.lines.items)) × AreShort (events_said g.lines.items) };
}

impl EventGroup {
    /// No event.
    pub fn new(alloc: Global) -> EventGroup
        ensures { result ≡ [] }
    {
        EventGroup {
            lines: Vec::new(alloc),
        }
    }

    /// Puts an event behind the others.
    ///
    /// # Errors
    ///
    /// Memory was refused: the events are as they were.
    pub fn push(&mut self, event: EventKind) -> Result<(), AllocError>
        ensures pushed { OnOk result (self.new ≡ self.old ++ event ∷ []) }
        ensures refused { OnErr result (self.new ≡ self.old) }
    {
        push_event(&mut self.lines, event)
    }

    /// Lets all events go, and keeps the room for others.
    pub fn clear(&mut self)
        ensures { self.new ≡ [] }
    {
        self.lines.clear();
    }

    /// Whether there is no event.
    pub fn is_empty(&self) -> bool
        ensures { IsTrue result ↔ (self.now ≡ []) }
    {
        self.as_bytes().is_empty()
    }

    /// The lines of the events.
    pub fn as_bytes(&self) -> &[u8]
        ensures lines { result.now ≡ event_lines self.now }
        ensures short { AreShort self.now }
    {
        &self.lines
    }
}
