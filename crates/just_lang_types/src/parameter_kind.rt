//! How many values the kinds of parameters take.
ghost use Rattle.std.specs.Prelude.{◌≡◌};
ghost use Rattle.just_lang_types.specs.ParameterKinds.{is_variadic};

use just_lang_syntax::ParameterKind;

/// Whether a parameter of that kind takes several values.
pub fn is_variadic(kind: ParameterKind) -> bool
    ensures { result ≡ is_variadic kind }
{
    match kind {
        ParameterKind::Singular => false,
        ParameterKind::Plus | ParameterKind::Star => true,
    }
}
