ghost use Rattle.std.specs.Prelude.{◌≡◌, IfOk};
ghost use Rattle.store_files.specs.Lines.{refused_object_line};

use command_files::no_line;
use std::alloc::{AllocError, Global};
use table_checker::CheckRefusal;

/// The line of an object whose type isn't accepted: `# object X no ..`.
pub fn object_line(alloc: Global, x: usize, refusal: CheckRefusal) -> Result<String, AllocError>
    ensures { IfOk result (λ line. line.bytes.items ≡ refused_object_line x refusal) }
{
    let why = no_line(alloc, refusal)?;
    format!(in alloc; "# object {x} {why}")
}
