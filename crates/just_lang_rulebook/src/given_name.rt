//! The names that items give to recipes and variables.
use just_lang_spots::{Named, Naming, name_spot};
use just_lang_syntax::AstItem;

/// The name of a recipe, or of a variable.
#[derive(Drop)]
pub struct GivenName;

impl Naming<AstItem> for GivenName {
    ghost use Rattle.just_lang_rulebook.specs.DuplicateSpots.{given_name};

    ghost name_of = { λ _ file x. given_name file x };

    fn name_of<'a>(&self, file: usize, thing: &'a AstItem) -> Option<Named<'a>> {
        match thing {
            AstItem::Recipe(recipe) => {
                let name = &recipe.get().name;
                Some(Named {
                    name: name.text.as_str(),
                    spot: name_spot(file, name),
                })
            }
            AstItem::Assignment { name, .. } => Some(Named {
                name: name.text.as_str(),
                spot: name_spot(file, name),
            }),
            _ => None,
        }
    }
}
