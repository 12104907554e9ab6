//! What a word says to a recipe that has options.

ghost use Rattle.std.specs.Prelude.{◌≡◌};
ghost use Rattle.just_eval_words.specs.Sorts.{sort, sort_of};

use just_config_words::cut::{cut, strip};

/// A word, as a recipe that has options reads it.
pub(crate) enum Form<'w> {
    /// A word that is no switch; `-` alone is none.
    Positional,
    /// `--`
    Dashes,
    /// `--NAME` or `--NAME=VALUE`
    Long(&'w str, Option<&'w str>),
    /// The letters of `-abc`
    Letters(&'w str),
}

/// What a word says.
#[tactic(auto, using(crate::proofs::Forms::no_dash, crate::proofs::Forms::dash_alone, crate::proofs::Forms::one_dash, crate::proofs::Forms::two_dashes, crate::proofs::Forms::long_alone, crate::proofs::Forms::long_assigned))]
pub(crate) fn read_form(word: &str) -> Form<'_>
    ensures { sort_of result ≡ sort word.now }
{
    let Some(text) = strip(word, '-') else {
        return Form::Positional;
    };
    if text == "" {
        return Form::Positional;
    }
    let Some(name) = strip(text, '-') else {
        return Form::Letters(text);
    };
    if name == "" {
        return Form::Dashes;
    }
    match cut(name, '=') {
        Some((name, value)) => Form::Long(name, Some(value)),
        None => Form::Long(name, None),
    }
}
