//! Texts without the character that they begin with.
ghost use Rattle.std.specs.Prelude.{◌≡◌, ◌<◌, None, Some, MatchOption};
ghost use Rattle.just_lang_read.specs.Prefixes.{behind_sign};

/// What stands behind the character of ASCII, where a text begins with it.
pub fn strip(text: &str, sign: char) -> Option<&str>
    requires { sign < 128 }
    ensures { MatchOption result (behind_sign sign text.now ≡ None) (λ x. behind_sign sign text.now ≡ Some x.now) }
{
    text.strip_prefix(sign)
}
