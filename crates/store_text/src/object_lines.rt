//! The objects of the lines so far, and an index of their names.

ghost use Rattle.std.specs.Prelude.{◌≡◌, ◌<◌, ◌≤◌, ◌∷◌, [], ◌++◌, true, false, length, vec_len, IfSome, OnOk, OnErr};
ghost use Rattle.std.specs.Vec.{vec_capacity};
ghost use Rattle.std.specs.List.{list_all, list_any};
ghost use Rattle.std.specs.Option.{option_to_list};
ghost use Rattle.std.specs.Str.{bytes_eq};
ghost use Rattle.store_text.specs.Named.{names_of};
ghost use Rattle.object_name.specs.ObjectName.{is_object_name};
ghost use Rattle.store_text.specs.Size.{most_size};

use crate::line::ObjectLine;
use indexmap::IndexSet;
use object_name::ObjectName;
use std::alloc::{AllocError, Global};

/// The objects that lines say, in order, and their names.
#[derive(Drop)]
pub struct ObjectLines {
    pub lines: Vec<ObjectLine>,
    names: IndexSet<ObjectName>,
    ghost few: { length lines.items ≤ most_size },
    ghost indexed: { names.keys ≡ names_of lines.items },
    ghost are_names: { list_all is_object_name names.keys ≡ true },
}

impl ObjectLines {
    ghost use Rattle.std.specs.List.{list_any};
    ghost use Rattle.store_text.specs.Named.{AreNamed};
    ghost use Rattle.object_name.specs.ObjectName.{is_same_name};

    /// No object.
    pub fn new(alloc: Global) -> ObjectLines
        ensures { result.lines.items ≡ [] }
    {
        ObjectLines {
            lines: Vec::new(alloc),
            names: IndexSet::new(alloc),
        }
    }

    /// Whether an object has this name; none has the name of one without.
    pub fn have_name(&self, name: Option<ObjectName>) -> bool
        ensures { result ≡ list_any (λ (o : ObjectLine). is_same_name name o.name) self.now.lines.items }
    {
        match name {
            Some(name) => self.names.contains(&name),
            None => false,
        }
    }

    /// Puts an object behind the others, whose name none of them has.
    pub fn push(&mut self, object: ObjectLine) -> Result<(), AllocError>
        requires few { length self.old.lines.items < most_size }
        requires other_name { list_any (λ (o : ObjectLine). is_same_name object.name o.name) self.old.lines.items ≡ false }
        ensures { OnOk result (self.new.lines.items ≡ self.old.lines.items ++ object ∷ []) }
    {
        self.lines.reserve(1)?;
        put_name(&mut self.names, object.name)?;
        put_line(&mut self.lines, object);
        Ok(())
    }

    /// The objects.
    pub fn into_lines(self) -> Vec<ObjectLine>
        ensures same { result.items ≡ self.lines.items }
        ensures named { AreNamed result.items }
    {
        let _count = self.names.len();
        let ObjectLines { lines, names: _ } = self;
        lines
    }
}

/// Puts the name of an object behind those of the objects before it, where it has one.
fn put_name(names: &mut IndexSet<ObjectName>, name: Option<ObjectName>) -> Result<(), AllocError>
    requires other { IfSome name (λ w. list_any (bytes_eq w) names.old.keys ≡ false) }
    requires names { list_all is_object_name names.old.keys ≡ true }
    ensures put { OnOk result (names.new.keys ≡ names.old.keys ++ option_to_list name) }
    ensures are_names { list_all is_object_name names.new.keys ≡ true }
    ensures unchanged { OnErr result (names.new.keys ≡ names.old.keys) }
{
    if let Some(name) = name {
        let _bytes = name.as_bytes();
        names.insert(name)?;
    }
    Ok(())
}

/// Puts an object behind the others, for which there is room.
fn put_line(lines: &mut Vec<ObjectLine>, object: ObjectLine)
    requires { vec_len lines.old < vec_capacity lines.old }
    ensures { lines.new.items ≡ lines.old.items ++ object ∷ [] }
{
    let ObjectLine { kind, file, name } = object;
    match lines.push(ObjectLine { kind, file, name }) {
        Ok(()) => {}
        Err(_) => unreachable!(),
    }
}
