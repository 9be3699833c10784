//! The words after the program's name.

ghost use Rattle.std.specs.Prelude.{◌≡◌, map, IfOk, IfErr};
ghost use Rattle.commands.specs.Words.{IsOfNoWords};

use command_files::Fault;
use std::alloc::{AllocError, Global};
use std::env;
use std::io::ErrorKind;
use std::rt::Env;

/// The words after the program's name.
///
/// # Errors
///
/// A word that isn't UTF-8, or memory was refused.
pub fn given_words<R: Env + AllocGlobal>(rt: &R) -> Result<Vec<String>, Fault<'static>>
    ensures { IfErr result IsOfNoWords }
{
    match env::args(rt) {
        Ok(all) => Ok(all.skip(1).collect(rt.alloc())?),
        Err(error) => Err(no_words(rt.alloc(), error.kind())),
    }
}

/// Why the system gives no words.
fn no_words(alloc: Global, kind: ErrorKind) -> Fault<'static>
    ensures { IsOfNoWords result }
{
    if kind == ErrorKind::OutOfMemory {
        return Fault::NoMemory;
    }
    match String::from_str(alloc, "error: an argument is not valid UTF-8\n") {
        Ok(text) => Fault::Usage { text },
        Err(_) => Fault::NoMemory,
    }
}

/// The words behind references.
pub(crate) fn borrowed(alloc: Global, words: &[String]) -> Result<Vec<&str>, AllocError>
    ensures { IfOk result (λ borrowed. map (λ w. w.now) borrowed.items ≡ map (λ w. w.bytes.items) words.now) }
{
    let mut borrowed = Vec::with_capacity(alloc, words.len())?;
    for word in words {
        borrowed.push_reserved(word.as_str());
    }
    Ok(borrowed)
}
