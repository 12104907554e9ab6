//! How a listing shows the other names of recipes.
ghost use Rattle.std.specs.Prelude.{◌≡◌};
ghost use Rattle.just_print_entries.specs.Styles.{is_hidden, is_left, is_inline, is_separate};

use super::options::AliasStyle;

/// Whether no other name is shown.
pub(crate) fn is_hidden(style: AliasStyle) -> bool
    ensures { result ≡ is_hidden style }
{
    matches!(style, AliasStyle::Hidden)
}

/// Whether other names stand in front of the doc.
pub(crate) fn is_left(style: AliasStyle) -> bool
    ensures { result ≡ is_left style }
{
    matches!(style, AliasStyle::Left)
}

/// Whether other names stand behind their recipe's signature.
pub(crate) fn is_inline(style: AliasStyle) -> bool
    ensures { result ≡ is_inline style }
{
    matches!(style, AliasStyle::Left | AliasStyle::Right)
}

/// Whether other names are entries of their own.
pub(crate) fn is_separate(style: AliasStyle) -> bool
    ensures { result ≡ is_separate style }
{
    matches!(style, AliasStyle::Separate)
}
