//! The rules on the names of attributes, and on those that don't go with the body.
ghost use Rattle.std.specs.Prelude.{◌≡◌};
ghost use Rattle.just_lang_syntax.specs.Forms.{is_one_of};
ghost use Rattle.just_lang_rules.specs.Tables.{module_attributes, attributes_of};

use just_lang_spots::{Rule, Spot, first_among, name_spot, spot_where};
use just_lang_syntax::{AstItem, Attribute, is_attribute};
use just_lang_types::{is_script, is_shebang};
use just_path_text::NoMemory;
use std::alloc::Global;

/// Whether modules have an attribute of that name.
fn is_module_attribute(name: &str) -> bool
    ensures { result ≡ is_one_of module_attributes name.now }
{
    matches!(name, "doc" | "group" | "private")
}

/// Whether modules, or else recipes, have an attribute of that name.
fn has_attribute(of_module: bool, name: &str) -> bool
    ensures { result ≡ is_one_of (attributes_of of_module) name.now }
{
    if of_module {
        is_module_attribute(name)
    } else {
        is_attribute(name)
    }
}

/// The rule that modules, or else recipes, have each attribute.
#[derive(Clone, Copy, Drop)]
struct Unknown {
    of_module: bool,
}

impl Rule<Attribute> for Unknown {
    ghost use Rattle.std.specs.Prelude.{not};
    ghost use Rattle.just_lang_syntax.specs.Forms.{is_one_of};
    ghost use Rattle.just_lang_rules.specs.Tables.{attributes_of};
    ghost use Rattle.just_lang_spots.specs.Places.{name_spot};
    ghost use Rattle.just_lang_spots.specs.Spots.{spot_where};

    ghost spots = { λ r file a. spot_where (not (is_one_of (attributes_of r.of_module) a.name.text)) (name_spot file a.name) };

    fn first(
        &self,
        _alloc: Global,
        file: usize,
        thing: &Attribute,
    ) -> Result<Option<Spot>, NoMemory> {
        let is_unknown = !has_attribute(self.of_module, thing.name.text.as_str());
        Ok(spot_where(is_unknown, name_spot(file, &thing.name)))
    }
}

/// The rule that each attribute is one that there is. Its place is the attribute's name.
#[derive(Clone, Copy, Drop)]
pub struct UnknownAttribute;

impl Rule<AstItem> for UnknownAttribute {
    ghost use Rattle.just_lang_rules.specs.AttributeSpots.{unknown_attribute_of};

    ghost spots = { λ _ file x. unknown_attribute_of file x };

    fn first(&self, alloc: Global, file: usize, thing: &AstItem) -> Result<Option<Spot>, NoMemory> {
        match thing {
            AstItem::Module { attributes, .. } => {
                let rule = Unknown { of_module: true };
                first_among(alloc, &rule, file, attributes.as_slice())
            }
            AstItem::Recipe(recipe) => {
                let rule = Unknown { of_module: false };
                first_among(alloc, &rule, file, recipe.get().attributes.as_slice())
            }
            _ => Ok(None),
        }
    }
}

/// The rule that an attribute goes with the body that has this form.
#[derive(Clone, Copy, Drop)]
struct Conflict {
    has_shebang: bool,
    is_script: bool,
}

impl Rule<Attribute> for Conflict {
    ghost use Rattle.just_lang_rules.specs.AttributeSpots.{conflicts};
    ghost use Rattle.just_lang_spots.specs.Places.{name_spot};
    ghost use Rattle.just_lang_spots.specs.Spots.{spot_where};

    ghost spots = { λ c file a. spot_where (conflicts c.has_shebang c.is_script a) (name_spot file a.name) };

    fn first(
        &self,
        _alloc: Global,
        file: usize,
        thing: &Attribute,
    ) -> Result<Option<Spot>, NoMemory> {
        let name = thing.name.text.as_str();
        let conflicts = (name == "script" && self.has_shebang)
            || (name == "cache" && !self.is_script);
        Ok(spot_where(conflicts, name_spot(file, &thing.name)))
    }
}

/// The rule that the attributes of a recipe go with its body: `script` with one that has no shebang, `cache` with a script. Its
/// place is the attribute's name.
#[derive(Clone, Copy, Drop)]
pub struct AttributeConflict;

impl Rule<AstItem> for AttributeConflict {
    ghost use Rattle.just_lang_rules.specs.AttributeSpots.{conflict_of};

    ghost spots = { λ _ file x. conflict_of file x };

    fn first(&self, alloc: Global, file: usize, thing: &AstItem) -> Result<Option<Spot>, NoMemory> {
        match thing {
            AstItem::Recipe(recipe) => {
                let recipe = recipe.get();
                let rule = Conflict {
                    has_shebang: is_shebang(recipe.body.as_slice()),
                    is_script: is_script(recipe),
                };
                first_among(alloc, &rule, file, recipe.attributes.as_slice())
            }
            _ => Ok(None),
        }
    }
}
