ghost use Rattle.std.specs.Prelude.{◌≡◌, None, OnOk};
ghost use Rattle.outputs.specs.Out.{Puts};
ghost use Rattle.declared_text.specs.Canonical.{canonical_text, IsReadBack};

use declared_types::{Declaration, DeclaredType};
use number_text::write_number;
use outputs::{Out, OutFault};
use type_text::write_type;

/// Writes the canonical text of what declares a type. What is read from the text is the same type. It takes
/// no memory itself.
///
/// # Errors
///
/// The fault that stopped the output, which then took a beginning of the text.
pub fn write_declared<W: Out>(declared: &DeclaredType, out: &mut W) -> Result<(), OutFault>
    requires { W.fault out.old ≡ None }
    ensures writes { Puts (W.taken out.old) (W.taken out.new) (W.fault out.new) (canonical_text declared.now) result }
    ensures read_back { OnOk result (IsReadBack declared.now) }
{
    match declared.declaration() {
        Declaration::Table(file) => write_type(file, out),
        Declaration::Number(number) => write_number(number, out),
    }
}
