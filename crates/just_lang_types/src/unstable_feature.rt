//! What may only be used where unstable features are.
ghost use Rattle.std.specs.Prelude.{Some};

use std::fmt;

/// What may only be used where unstable features are.
#[derive(Clone, Copy)]
pub enum UnstableFeature {
    /// Recipes with `[cache(..)]`.
    CachedRecipes,
    /// `set lists`.
    ListsSetting,
}

impl fmt::Display for UnstableFeature {
    ghost use Rattle.just_lang_types.specs.Features.{feature_text};

    ghost output = { λ u. Some (feature_text u) };

    /// That it is unstable, as part of a sentence.
    fn fmt<W: fmt::Write>(&self, f: &mut fmt::Formatter<W>) -> fmt::Result {
        match self {
            UnstableFeature::CachedRecipes => f.write_str("cached recipes are currently unstable"),
            UnstableFeature::ListsSetting => {
                f.write_str("the `lists` setting is currently unstable")
            }
        }
    }
}
