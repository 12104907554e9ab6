//! Texts that are cut at the last one of a character.
ghost use Rattle.std.specs.Prelude.{◌≡◌, ◌<◌, ◌++◌, ◌∷◌, [], true, false, MatchOption};
ghost use Rattle.just_config_words.specs.Cuts.{holds};
ghost use Rattle.just_config.specs.Cuts.{up_to_last, behind_last};

/// What stands before the last one of the character, and behind it.
pub(crate) fn cut_last(text: &str, sign: char) -> Option<(&str, &str)>
    requires { sign < 128 }
    ensures { MatchOption result (holds sign text.now ≡ false) (λ x. (holds sign text.now ≡ true) × (up_to_last sign text.now ≡ x.0.now ++ sign ∷ []) × (behind_last sign text.now ≡ x.1.now)) }
{
    text.rsplit_once(sign)
}
