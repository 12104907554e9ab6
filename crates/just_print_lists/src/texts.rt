//! Small steps of printing.
ghost use Rattle.std.specs.Prelude.{◌≡◌, ◌++◌, IfOk, string_bytes};
ghost use Rattle.just_print.specs.Printed.{led, only_if, separated};
ghost use Rattle.just_print_lists.specs.Blanks.{blanks};

use just_path_text::Text;
use std::alloc::AllocError;

/// Adds a text where it is wanted.
pub fn push_if(out: &mut String, wanted: bool, text: &str) -> Result<(), AllocError>
    ensures { IfOk result
        (λ _. string_bytes out.new ≡ string_bytes out.old ++ only_if wanted text.now) }
{
    if wanted { out.push_str(text) } else { Ok(()) }
}

/// Adds blanks.
#[tactic(auto, using(crate::proofs::BlankLaws::one_blank))]
pub fn push_blanks(out: &mut String, count: usize) -> Result<(), AllocError>
    ensures { IfOk result (λ _. string_bytes out.new ≡ string_bytes out.old ++ blanks count) }
{
    let mut left = count;
    'blanks: while left > 0 {
        out.push_str(" ")?;
        left -= 1;
    }
    Ok(())
}

/// Adds texts, each behind the sign.
fn push_led(out: &mut String, sign: &str, texts: &[Text]) -> Result<(), AllocError>
    ensures { IfOk result
        (λ _. string_bytes out.new ≡ string_bytes out.old ++ led sign.now texts.now) }
{
    'texts: for text in texts {
        out.push_str(sign)?;
        out.push_str(text.as_str())?;
    }
    Ok(())
}

/// Adds texts with the sign between them.
pub(crate) fn push_separated(out: &mut String, sign: &str, texts: &[Text]) -> Result<(), AllocError>
    ensures { IfOk result
        (λ _. string_bytes out.new ≡ string_bytes out.old ++ separated sign.now texts.now) }
{
    match texts {
        [] => Ok(()),
        [first, others @ ..] => {
            out.push_str(first.as_str())?;
            push_led(out, sign, others)
        }
    }
}
