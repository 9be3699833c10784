//! Laws of types as they are declared: each is a function that does nothing, whose contract is the law.

ghost use Rattle.declared_types.specs.TypeFile.{PartsTellTheFile};

/// Two files with the same parts are one.
#[tactic(auto, using(crate::proofs::SameParts::parts_tell))]
pub fn parts_tell_the_file()
    ensures { PartsTellTheFile }
{}
