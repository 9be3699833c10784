//! Worked examples of the definitions: each function does nothing, and its contract is the example.
#![tactic(auto)]

ghost use Rattle.std.specs.Prelude.{[], ◌∷◌};
ghost use Rattle.object_types.specs.Types.{HasDeclaration, IsFaultAt, IsUnplacedAt};
ghost use Rattle.type_table.specs.declared.kind.Kind.TheVariants.{Undo, Escrow};
ghost use Rattle.object_types.specs.Examples.{with_a_number, two_types, line_in_place, of_kind};

use crate::object_fault::ObjectFault;

/// One object's place is that of the second of two types, another's is after them.
pub fn an_object_names_a_place()
    ensures place { HasDeclaration two_types (line_in_place 1) }
    ensures no_place { HasDeclaration two_types (line_in_place 2) → ⊥ }
{}

/// The second object and the third name no type. The fault is that of the second.
pub fn the_first_object_has_the_fault()
    ensures first { IsUnplacedAt two_types (line_in_place 1 ∷ line_in_place 2 ∷ line_in_place 3 ∷ []) 1 2 }
    ensures later { IsUnplacedAt two_types (line_in_place 1 ∷ line_in_place 2 ∷ line_in_place 3 ∷ []) 2 3 → ⊥ }
    ensures elsewhere { IsFaultAt two_types 1 (line_in_place 2) (ObjectFault.NoType 0 2) → ⊥ }
    ensures there { IsFaultAt two_types 1 (line_in_place 1) (ObjectFault.NoType 1 1) → ⊥ }
{}

/// A number needs escrow where an object of another kind names it, and a table never does.
pub fn a_number_needs_escrow()
    ensures number { IsFaultAt with_a_number 0 (of_kind Undo 1) (ObjectFault.NeedsEscrow 0) }
    ensures escrow { IsFaultAt with_a_number 0 (of_kind Escrow 1) (ObjectFault.NeedsEscrow 0) → ⊥ }
    ensures table { IsFaultAt with_a_number 0 (of_kind Undo 0) (ObjectFault.NeedsEscrow 0) → ⊥ }
{}
