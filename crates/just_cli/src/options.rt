//! Which names may be missing.

ghost use Rattle.std.specs.Prelude.{◌≡◌};
ghost use Rattle.just_cli.specs.Options.{is_lacking, is_missing};

use super::Error;

/// Whether a justfile lacks a recipe or a module that is asked for.
pub(crate) fn is_lacking(error: &Error) -> bool
    ensures { result ≡ is_lacking error.now }
{
    matches!(
        error,
        Error::UnknownRecipe { .. } | Error::UnknownSubmodule { .. }
    )
}

/// Whether a recipe or a module that is asked for is missing: the justfile lacks it, or the file of an optional module isn't there.
pub(crate) fn is_missing(error: &Error) -> bool
    ensures { result ≡ is_missing error.now }
{
    matches!(
        error,
        Error::UnknownRecipe { .. } | Error::UnknownSubmodule { .. } | Error::ModuleAbsent { .. }
    )
}
