//! Objects of different kinds under one type.

ghost use Rattle.std.specs.Prelude.{◌≡◌};

use crate::admission::Admission;
use crate::log_entry::LogEntry;
use crate::recovery::Recovery;
use declared_types::DeclaredType;
use std::alloc::AllocError;
use type_table::Operation;

/// An object of any kind of recovery, boxed by the caller. Its meaning is that of the object in the
/// box.
#[derive(Drop)]
pub struct AnyObject {
    pub object: Box<dyn Recovery>,
}

impl AnyObject {
    /// The object in this box.
    pub fn new(object: Box<dyn Recovery>) -> AnyObject
        ensures { result.object ≡ object }
    {
        AnyObject { object }
    }

    /// The box.
    pub fn into_inner(self) -> Box<dyn Recovery>
        ensures { result ≡ self.object }
    {
        let AnyObject { object } = self;
        object
    }
}

impl Recovery for AnyObject {
    ghost meaning = { λ b. (Recovery-box b.object).meaning b.object.value };

    fn declared(&self) -> &DeclaredType {
        self.object.declared()
    }

    fn state(&self) -> u32 {
        self.object.state()
    }

    fn committed(&self) -> u32 {
        self.object.committed()
    }

    fn view(&self, t: u32) -> u32 {
        self.object.view(t)
    }

    fn legal(&self, t: u32, k: Operation) -> bool {
        self.object.legal(t, k)
    }

    fn blocker(&self, t: u32, k: Operation) -> Option<u32> {
        self.object.blocker(t, k)
    }

    fn admission(&self, t: u32, k: Operation) -> Admission {
        self.object.admission(t, k)
    }

    fn amount_kept(&self, t: u32, place: u8, u: u32) -> Option<u32> {
        self.object.amount_kept(t, place, u)
    }

    fn apply(&mut self, t: u32, k: Operation) -> Result<(), AllocError> {
        self.object.apply(t, k)
    }

    fn commit(&mut self, t: u32) {
        self.object.commit(t)
    }

    fn apply_and_commit(&mut self, t: u32, k: Operation) -> Result<(), AllocError> {
        self.object.apply_and_commit(t, k)
    }

    fn abort(&mut self, t: u32) {
        self.object.abort(t)
    }

    fn strike(&mut self, t: u32, m: u32) {
        self.object.strike(t, m)
    }

    fn open_count(&self) -> u32 {
        self.object.open_count()
    }

    fn entry(&self, i: usize) -> Option<LogEntry> {
        self.object.entry(i)
    }

    fn is_fresh(&self) -> bool {
        self.object.is_fresh()
    }
}
