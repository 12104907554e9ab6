//! The rule that a module has one alias of a name.
use just_lang_spots::{Entry, ModuleRule, Named, Naming, Spot, first_repeated_in, name_spot};
use just_lang_syntax::AstItem;
use just_path_text::NoMemory;
use std::alloc::Global;

/// The rule that the aliases of a module have different names. Its place is the name that comes again.
#[derive(Drop)]
pub struct DuplicateAlias;

impl Naming<AstItem> for DuplicateAlias {
    ghost use Rattle.just_lang_rulebook.specs.DuplicateSpots.{alias_name};

    ghost name_of = { λ _ file x. alias_name file x };

    fn name_of<'a>(&self, file: usize, thing: &'a AstItem) -> Option<Named<'a>> {
        match thing {
            AstItem::Alias { name, .. } => Some(Named {
                name: name.text.as_str(),
                spot: name_spot(file, name),
            }),
            _ => None,
        }
    }
}

impl ModuleRule for DuplicateAlias {
    ghost use Rattle.just_lang_rulebook.specs.DuplicateSpots.{duplicate_aliases};

    ghost spots = { λ _ items. duplicate_aliases items };

    fn first(&self, alloc: Global, items: &[Entry<'_>]) -> Result<Option<Spot>, NoMemory> {
        first_repeated_in(alloc, self, items)
    }
}
