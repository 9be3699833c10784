//! A static library over the store, for other languages: exports, whose answers are codes (`Code` of `library_calls`).
//!
//! Their owner keeps handles of zeros, behind each of which is a type, the objects of a store, or a
//! store. Of each pointer an export assumes that it isn't null, is aligned, and is the call's alone.
#![tactic(auto)]

pub mod epochs;
mod handle;
mod held_types;
pub mod histories;
mod loose_box;
mod made_types;
pub mod new_stores;
pub mod reads;
pub mod shapes;
mod slot;
pub mod stores;
pub mod types;

ghost use Rattle.std.specs.Prelude.{◌≡◌};

/// The number of this list of exports, which each change of one raises.
const VERSION: u32 = 3;

/// Gives the number of this list of exports.
#[unsafe(no_mangle)]
pub extern "C" fn colock_version() -> u32
    ensures { result ≡ 3 }
{
    VERSION
}
