//! The rules on the names of settings.
use just_lang_spots::{
    Entry, ModuleRule, Named, Naming, Rule, Spot, first_repeated_in, name_spot, spot_where,
};
use just_lang_syntax::{AstItem, is_setting};
use just_path_text::NoMemory;
use std::alloc::Global;

/// The rule that there is each setting. Its place is the setting's name.
#[derive(Clone, Copy, Drop)]
pub struct UnknownSetting;

impl Rule<AstItem> for UnknownSetting {
    ghost use Rattle.just_lang_rules.specs.SettingSpots.{unknown_setting_of};

    ghost spots = { λ _ file x. unknown_setting_of file x };

    fn first(
        &self,
        _alloc: Global,
        file: usize,
        thing: &AstItem,
    ) -> Result<Option<Spot>, NoMemory> {
        match thing {
            AstItem::Setting { name, .. } => Ok(spot_where(
                !is_setting(name.text.as_str()),
                name_spot(file, name),
            )),
            _ => Ok(None),
        }
    }
}

/// The rule that each setting comes once in a module. Its place is the name that comes again.
#[derive(Clone, Copy, Drop)]
pub struct DuplicateSetting;

impl Naming<AstItem> for DuplicateSetting {
    ghost use Rattle.just_lang_rules.specs.SettingSpots.{setting_name};

    ghost name_of = { λ _ file x. setting_name file x };

    fn name_of<'a>(&self, file: usize, thing: &'a AstItem) -> Option<Named<'a>> {
        match thing {
            AstItem::Setting { name, .. } => Some(Named {
                name: name.text.as_str(),
                spot: name_spot(file, name),
            }),
            _ => None,
        }
    }
}

impl ModuleRule for DuplicateSetting {
    ghost use Rattle.just_lang_rules.specs.SettingSpots.{duplicate_setting_spots};

    ghost spots = { λ _ items. duplicate_setting_spots items };

    fn first(&self, alloc: Global, items: &[Entry<'_>]) -> Result<Option<Spot>, NoMemory> {
        first_repeated_in(alloc, self, items)
    }
}
