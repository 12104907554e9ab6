//! Settings and attributes that the language leaves out.
ghost use Rattle.std.specs.Prelude.{◌≡◌, option_copied};
ghost use Rattle.just_lang_syntax.specs.File.{first_left_out, left_out_of, left_out_among};

use super::form::{is_left_out_attribute, is_left_out_setting};
use super::{AstItem, Attribute, Name};

/// The first name of a left-out setting or attribute.
pub fn first_left_out(items: &[AstItem]) -> Option<&Name>
    ensures { option_copied result ≡ first_left_out items.now }
{
    'items: for item in items {
        if let Some(name) = left_out_of(item) {
            return Some(name);
        }
    }
    None
}

/// The first such name of an item.
fn left_out_of(item: &AstItem) -> Option<&Name>
    ensures { option_copied result ≡ left_out_of item.now }
{
    match item {
        AstItem::Setting { name, .. } => {
            if is_left_out_setting(name.text.as_str()) {
                Some(name)
            } else {
                None
            }
        }
        AstItem::Module { attributes, .. } => left_out_among(attributes.as_slice()),
        AstItem::Recipe(recipe) => left_out_among(recipe.get().attributes.as_slice()),
        _ => None,
    }
}

/// The first such name of attributes.
fn left_out_among(attributes: &[Attribute]) -> Option<&Name>
    ensures { option_copied result ≡ left_out_among attributes.now }
{
    'attributes: for attribute in attributes {
        if is_left_out_attribute(attribute.name.text.as_str()) {
            return Some(&attribute.name);
        }
    }
    None
}
