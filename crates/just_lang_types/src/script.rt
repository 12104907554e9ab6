//! Whether the body of a recipe is one script.
ghost use Rattle.std.specs.Prelude.{◌≡◌, codes};
ghost use Rattle.just_lang_types.specs.Attributes.{is_called, begins_shebang, is_shebang, has_script, is_script};

use just_lang_syntax::{AstRecipe, Attribute, Fragment, Line};

/// Whether the text begins with `#!`.
fn begins_shebang(text: &str) -> bool
    ensures { result ≡ begins_shebang text.now }
{
    match text.as_bytes() {
        [first, second, ..] => *first == b'#' && *second == b'!',
        _ => false,
    }
}

/// Whether the first line of a body begins with `#!`.
pub fn is_shebang(body: &[Line]) -> bool
    ensures { result ≡ is_shebang body.now }
{
    match body {
        [] => false,
        [line, ..] => match line.fragments.as_slice() {
            [Fragment::Text(text), ..] => begins_shebang(text.as_str()),
            _ => false,
        },
    }
}

/// Whether one of the attributes is `script`.
fn has_script(attributes: &[Attribute]) -> bool
    ensures { result ≡ has_script attributes.now }
{
    'attributes: for attribute in attributes {
        if attribute.name.text.as_str() == "script" {
            return true;
        }
    }
    false
}

/// Whether the body of a recipe is one script.
pub fn is_script(recipe: &AstRecipe) -> bool
    ensures { result ≡ is_script recipe.now }
{
    is_shebang(recipe.body.as_slice()) || has_script(recipe.attributes.as_slice())
}
