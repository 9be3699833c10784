//! Which objects of a store have names.

ghost use Rattle.std.specs.Prelude.{◌≡◌, ◌∷◌, ◌++◌, [], List, length, IfOk, OnOk};
ghost use Rattle.store_text.specs.declared.line.ObjectLine.{ObjectLine as Line};
ghost use Rattle.durable_store.specs.Names.{IndexesNames, indexed};

use indexmap::IndexMap;
use object_name::ObjectName;
use std::alloc::{AllocError, Global};
use store_text::ObjectLine;

/// The number of each object that has a name, by its name.
#[derive(Drop)]
pub struct ObjectNames {
    numbers: IndexMap<ObjectName, usize>,
}

impl ObjectNames {
    /// The names of these objects.
    pub(crate) fn of(alloc: Global, objects: &[ObjectLine]) -> Result<ObjectNames, AllocError>
        ensures { IfOk result (IndexesNames objects.now) }
    {
        let mut names = ObjectNames {
            numbers: IndexMap::new(alloc),
        };
        for (x, object) in objects.iter().enumerate() {
            names.put(x, object)?;
        }
        Ok(names)
    }

    /// The names of these objects, and of more behind them.
    pub(crate) fn of_more(
        alloc: Global,
        objects: Vec<ObjectLine>,
        more: &[ObjectLine],
    ) -> Result<ObjectNames, AllocError>
        ensures { IfOk result (IndexesNames (objects.items ++ more.now)) }
    {
        let mut objects = objects;
        objects.extend_from_slice(more)?;
        ObjectNames::of(alloc, &objects)
    }

    /// The number of the object that has this name.
    pub fn find(&self, name: &ObjectName) -> Option<usize>
        ensures { result ≡ indexed self.now name.now }
    {
        self.numbers.get(name).copied()
    }

    /// Adds the name of the object behind as many others, where it has one that none of them has.
    fn put(&mut self, before: usize, object: &ObjectLine) -> Result<(), AllocError>
        ensures { OnOk result ((others : List Line) → length others ≡ before → IndexesNames others self.old → IndexesNames (others ++ object.now ∷ []) self.new) }
    {
        if let Some(name) = object.name {
            if !self.numbers.contains_key(&name) {
                self.numbers.insert(name, before)?;
            }
        }
        Ok(())
    }
}
