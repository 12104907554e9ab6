//! What names and paths of names come to.
ghost use Rattle.std.specs.Prelude.{◌≡◌, None, is_some, slice_get, unwrap_or};
ghost use Rattle.std.specs.Option.{option_and_then, option_copied, option_map};
ghost use Rattle.just_lang_spots.specs.Entries.{entry, entries, place_in};
ghost use Rattle.just_lang_spots.specs.Items.{recipe_in};
ghost use Rattle.just_lang_names.specs.Lookup.{absent_or, child, is_absent, module_at, recipe_named};
ghost use Rattle.just_lang_names.specs.Names.{AreNames, layout_of, wins_of};
ghost use Rattle.just_lang_names.specs.Targets.{target, found_recipe, recipe_by, IsOf, IsFoundIn, IsFound, IsPlaced, end_for, target_for, unknown};

use super::names::{ModuleNames, Names};
use just_lang_spots::Entry;
use just_lang_syntax::{AstItem, AstRecipe, Name};
use just_path_text::Text;

/// What a path of names comes to.
#[derive(Clone, Copy)]
pub enum Target<'a> {
    /// A recipe that stands in the module of that number, with its place among these and the number of its file.
    Recipe {
        number: usize,
        place: usize,
        file: usize,
        recipe: &'a AstRecipe,
    },
    /// The module of that number.
    Module(usize),
    /// A module that isn't there, or what is in it.
    Absent,
    /// Nothing: the first name that isn't known.
    Unknown(&'a Name),
}

/// Which names the last one of a path may be.
#[derive(Clone, Copy)]
pub enum PathKind {
    /// A recipe's.
    Dependency,
    /// A recipe's or a module's.
    Alias,
}

/// A recipe that stands in a module.
#[derive(Clone, Copy)]
pub struct FoundRecipe<'a> {
    /// Its place among those that stand in the module.
    pub place: usize,
    /// The number of its file.
    pub file: usize,
    pub recipe: &'a AstRecipe,
}

/// The number of the module of that path.
pub fn module_at(names: &Names<'_>, path: &[Text]) -> Option<usize>
    requires { AreNames names.now }
    ensures { result ≡ module_at (layout_of names.now).modules path.now }
{
    names.paths.number(path)
}

/// The number of the path of the module of that number.
fn own_number(names: &Names<'_>, number: usize) -> Option<usize>
    ensures { result ≡ unwrap_or (slice_get names.now.numbers.items number) None }
{
    match names.numbers.get(number) {
        None => None,
        Some(own) => *own,
    }
}

/// The number of the module of that name in the module of that number.
pub fn child<'a>(names: &Names<'a>, number: usize, name: &'a str) -> Option<usize>
    requires { AreNames names.now }
    ensures { result ≡ child (layout_of names.now) number name.now }
{
    match own_number(names, number) {
        None => None,
        Some(own) => names.children.number(own, name),
    }
}

/// The names of the module of that number.
fn names_at<'a, 'b>(names: &'b Names<'a>, number: usize) -> Option<&'b ModuleNames<'a>>
    ensures { option_copied result ≡ slice_get names.now.modules.items number }
{
    names.modules.as_slice().get(number)
}

/// Whether a module has one of that name that may be missing and is.
fn absent_in(of_module: &ModuleNames<'_>, name: &str) -> bool
    ensures { result ≡ is_some (place_in of_module.now.absent_places name.now) }
{
    of_module.absent_places.place(name).is_some()
}

/// Whether the module of that number has one of that name that may be missing and is.
pub fn is_absent(names: &Names<'_>, number: usize, name: &str) -> bool
    requires { AreNames names.now }
    ensures { result ≡ is_absent (layout_of names.now) number name.now }
{
    match names_at(names, number) {
        None => false,
        Some(of_module) => absent_in(of_module, name),
    }
}

/// The recipe that an item is, which stands at that place of its module's table.
fn recipe_of<'a>(place: usize, one: &Entry<'a>) -> Option<FoundRecipe<'a>>
    ensures recipe { option_map found_recipe result ≡ recipe_in (entry one.now) }
    ensures place { IsOf place (entry one.now) result }
{
    match one.item {
        AstItem::Recipe(recipe) => Some(FoundRecipe {
            place,
            file: one.file,
            recipe: recipe.get(),
        }),
        _ => None,
    }
}

/// The item at a place of a module's table of recipes.
#[tactic(auto, using(crate::proofs::LookupLaws::entries_get))]
fn entry_in<'a>(of_module: &ModuleNames<'a>, place: usize) -> Option<Entry<'a>>
    ensures { option_map entry result ≡ slice_get (entries of_module.now.recipes.items) place }
{
    of_module.recipes.get(place).copied()
}

/// The recipe at a place of a module's table.
fn recipe_at<'a>(of_module: &ModuleNames<'a>, place: usize) -> Option<FoundRecipe<'a>>
    ensures recipe { option_map found_recipe result ≡ option_and_then recipe_in (slice_get (entries of_module.now.recipes.items) place) }
    ensures place { IsFoundIn of_module.now result }
{
    match entry_in(of_module, place) {
        None => None,
        Some(one) => recipe_of(place, &one),
    }
}

/// The recipe of that name in a module's table.
fn recipe_in<'a>(of_module: &ModuleNames<'a>, name: &str) -> Option<FoundRecipe<'a>>
    ensures recipe { option_map found_recipe result ≡ option_and_then recipe_in (recipe_by of_module.now name.now) }
    ensures place { IsFoundIn of_module.now result }
{
    match of_module.recipe_places.place(name) {
        None => None,
        Some(place) => recipe_at(of_module, place),
    }
}

/// The recipe of that name that stands in the module of that number.
pub fn recipe_named<'a>(names: &Names<'a>, number: usize, name: &str) -> Option<FoundRecipe<'a>>
    requires { AreNames names.now }
    ensures recipe { option_map found_recipe result ≡ recipe_named (wins_of names.now) (layout_of names.now) number name.now }
    ensures place { IsFound names.now number result }
{
    match names_at(names, number) {
        None => None,
        Some(of_module) => recipe_in(of_module, name),
    }
}

/// What a name is that is no module's that is there.
fn absent_or_unknown<'a>(names: &Names<'_>, number: usize, name: &'a Name) -> Target<'a>
    requires { AreNames names.now }
    ensures target { target result ≡ absent_or (unknown name.now) (is_absent (layout_of names.now) number name.now.text) }
    ensures place { IsPlaced names.now result }
{
    if is_absent(names, number, name.text.as_str()) {
        Target::Absent
    } else {
        Target::Unknown(name)
    }
}

/// What the last name of a path comes to.
fn end<'a>(names: &Names<'a>, kind: PathKind, number: usize, name: &'a Name) -> Target<'a>
    requires { AreNames names.now }
    ensures target { target result ≡ end_for kind (wins_of names.now) (layout_of names.now) number name.now }
    ensures place { IsPlaced names.now result }
{
    let text = name.text.as_str();
    if let Some(found) = recipe_named(names, number, text) {
        return Target::Recipe {
            number,
            place: found.place,
            file: found.file,
            recipe: found.recipe,
        };
    }
    match kind {
        PathKind::Dependency => Target::Unknown(name),
        PathKind::Alias => match child(names, number, text) {
            Some(inner) => Target::Module(inner),
            None => absent_or_unknown(names, number, name),
        },
    }
}

/// What names come to in the module of that number: all but the last name modules within one another.
#[tactic(auto, using(crate::proofs::TargetLaws::target_step, crate::proofs::TargetLaws::target_end))]
pub fn target_of<'a>(
    names: &Names<'a>,
    kind: PathKind,
    outer: usize,
    path: &'a [Name],
) -> Target<'a>
    requires { AreNames names.now }
    ensures target { target result ≡ target_for kind (wins_of names.now) (layout_of names.now) outer path.now }
    // Where it is a recipe, its place is that of the module's table.
    ensures place { IsPlaced names.now result }
{
    let mut number = outer;
    'names: for (at, name) in path.iter().enumerate() {
        if at + 1 == path.len() {
            return end(names, kind, number, name);
        }
        match child(names, number, name.text.as_str()) {
            Some(inner) => number = inner,
            None => return absent_or_unknown(names, number, name),
        }
    }
    Target::Module(number)
}
