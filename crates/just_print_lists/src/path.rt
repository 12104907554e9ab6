//! Paths as texts.
ghost use Rattle.std.specs.Prelude.{◌≡◌, ◌++◌, IfOk, string_bytes};
ghost use Rattle.just_print.specs.Usages.{path_text, led};

use just_path_text::Text;
use std::alloc::{AllocError, Global};

/// Adds names of a path, each behind `::`.
fn push_led(out: &mut String, names: &[Text]) -> Result<(), AllocError>
    ensures { IfOk result (λ _. string_bytes out.new ≡ string_bytes out.old ++ led names.now) }
{
    'names: for name in names {
        out.push_str("::")?;
        out.push_str(name.as_str())?;
    }
    Ok(())
}

/// A path as a text.
pub fn path_text(alloc: Global, names: &[Text]) -> Result<String, AllocError>
    ensures { IfOk result (λ t. string_bytes t ≡ path_text names.now) }
{
    let mut out = String::new(alloc);
    match names {
        [] => Ok(out),
        [first, others @ ..] => {
            out.push_str(first.as_str())?;
            push_led(&mut out, others)?;
            Ok(out)
        }
    }
}
