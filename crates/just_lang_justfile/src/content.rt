//! What a module says.
ghost use Rattle.std.specs.Prelude.{◌≡◌, IfOk};
ghost use Rattle.just_lang_types.specs.declared.project.Justfile.{out-Justfile};
ghost use Rattle.just_lang_layout.specs.Items.{items_of_module};
ghost use Rattle.just_lang_spots.specs.Entries.{entries};
ghost use Rattle.just_lang_spots.specs.Winners.{wins_in};
ghost use Rattle.just_lang_types.specs.Modules.{modules_of};
ghost use Rattle.just_lang_shapes.specs.Scopes.{assignments_of, unexports_of};
ghost use Rattle.just_lang_shapes.specs.Settings.{settings_of};
ghost use Rattle.just_lang_justfile.specs.Aliases.{recipe_aliases_of, module_aliases_of, disabled_aliases_of};
ghost use Rattle.just_lang_justfile.specs.Comments.{AreCommentsOf};
ghost use Rattle.just_lang_justfile.specs.Declarations.{declaration_of, doc_in, groups_in};
ghost use Rattle.just_lang_justfile.specs.Modules.{source_of, IsModuleOf};
ghost use Rattle.just_lang_justfile.specs.Recipes.{recipes_of, disabled_recipes_of};
ghost use Rattle.just_lang_justfile.specs.Standing.{standing_recipes, standing_variables, absent_names};

use super::aliases::{AliasKind, aliases_to, disabled_aliases_of};
use super::declaration::{declaration_of, doc_in, groups_in};
use super::items::absent_names;
use super::linker::Linker;
use super::project::Project;
use super::recipes::{Parent, disabled_recipes_of, recipes_of};
use just_lang_layout::{File, Module, items_of_module};
use just_lang_shapes::{Comments, assignments_of, settings_of, unexports_of};
use just_lang_spots::{Entry, standing_recipes, standing_variables};
use just_lang_types::project::Justfile;
use just_lang_types::{Alias, Assignment, Disabled, Modulepath, Recipe, Settings, Texts};
use just_path::Utf8PathBuf;
use just_path_text::{NoMemory, Seq, Text, TryClone};
use std::alloc::Global;

/// The path of a module's file.
fn source_of(alloc: Global, files: &[File], some_module: &Module) -> Result<Utf8PathBuf, NoMemory>
    ensures { IfOk result (λ p. p ≡ source_of files.now some_module.now) }
{
    match files.get(some_module.file) {
        Some(file) => file.path.try_clone(),
        None => Ok(Utf8PathBuf::new(alloc)),
    }
}

/// What stands in a module.
#[derive(Drop)]
struct Standing {
    assignments: Seq<Assignment>,
    recipes: Seq<Recipe>,
    disabled_recipes: Seq<Disabled>,
}

/// The variables that stand among the items of a module.
fn standing_assignments<T: Texts>(
    alloc: Global,
    texts: &T,
    winners: &[Seq<usize>],
    items: &[Entry<'_>],
) -> Result<Seq<Assignment>, NoMemory>
    ensures { IfOk result (λ all. all
        ≡ assignments_of (T.text_of texts.now) (standing_variables (wins_in winners.now) (entries items.now))) }
{
    let variables = standing_variables(alloc, winners, items)?;
    assignments_of(alloc, texts, variables.as_slice())
}

/// What stands among the items of a module.
fn standing_of<'a, T: Texts, L: Linker<'a>>(
    alloc: Global,
    project: &Project<'_, 'a, T, L>,
    comments: &[Comments<'a>],
    parent: Parent<'_>,
    items: &[Entry<'a>],
) -> Result<Standing, NoMemory>
    requires comments { AreCommentsOf project.now.layout.now.files comments.now }
    requires links { L.known project.now.links.now }
    ensures assignments { IfOk result (λ s. s.assignments ≡ assignments_of (T.text_of project.now.texts.now) (standing_variables (wins_in project.now.winners.now) (entries items.now))) }
    ensures recipes { IfOk result (λ s. s.recipes ≡ recipes_of (L.links project.now.links.now) parent.entry.number (T.text_of project.now.texts.now) project.now.layout.now.files parent.entry.path.now (standing_recipes (wins_in project.now.winners.now) (entries items.now))) }
    ensures disabled_recipes { IfOk result (λ s. s.disabled_recipes ≡ disabled_recipes_of (L.links project.now.links.now) parent.entry.number (standing_recipes (wins_in project.now.winners.now) (entries items.now))) }
{
    let assignments = standing_assignments(alloc, project.texts, project.winners, items)?;
    let standing = standing_recipes(alloc, project.winners, items)?;
    let recipes = recipes_of(alloc, project, comments, parent, standing.as_slice())?;
    let disabled_recipes = disabled_recipes_of(
        alloc,
        project.links,
        parent.number,
        standing.as_slice(),
    )?;
    Ok(Standing {
        assignments,
        recipes,
        disabled_recipes,
    })
}

/// The aliases of a module.
#[derive(Drop)]
struct Aliases {
    recipes: Seq<Alias>,
    modules: Seq<Alias>,
    disabled: Seq<Disabled>,
}

/// The aliases among the items of the module of that number.
fn aliases_of<'a, L: Linker<'a>>(
    alloc: Global,
    links: &L,
    number: usize,
    items: &[Entry<'a>],
) -> Result<Aliases, NoMemory>
    requires { L.known links.now }
    ensures recipes { IfOk result (λ a. a.recipes ≡ recipe_aliases_of (L.links links.now) number (entries items.now)) }
    ensures modules { IfOk result (λ a. a.modules ≡ module_aliases_of (L.links links.now) number (entries items.now)) }
    ensures disabled { IfOk result (λ a. a.disabled ≡ disabled_aliases_of (L.links links.now) number (entries items.now)) }
{
    let recipes = aliases_to(alloc, links, number, AliasKind::Recipe, items)?;
    let modules = aliases_to(alloc, links, number, AliasKind::Module, items)?;
    let disabled = disabled_aliases_of(alloc, links, number, items)?;
    Ok(Aliases {
        recipes,
        modules,
        disabled,
    })
}

/// What a module's `mod` says of it.
#[derive(Drop)]
struct Declared {
    groups: Seq<Text>,
    doc: Option<Text>,
}

/// What the `mod` of a module says of it.
#[tactic(auto, using(crate::proofs::Tables::doc_is))]
fn declared_of<'a, T: Texts, L>(
    alloc: Global,
    project: &Project<'_, 'a, T, L>,
    comments: &[Comments<'a>],
    some_module: &Module,
) -> Result<Declared, NoMemory>
    requires { AreCommentsOf project.now.layout.now.files comments.now }
    ensures groups { IfOk result (λ d. d.groups ≡ groups_in (T.text_of project.now.texts.now) (declaration_of project.now.layout.now.files some_module.now)) }
    ensures doc { IfOk result (λ d. d.doc ≡ doc_in (T.text_of project.now.texts.now) project.now.layout.now.files (declaration_of project.now.layout.now.files some_module.now)) }
{
    let declaration = declaration_of(project.layout.files.as_slice(), some_module);
    let groups = groups_in(alloc, project.texts, declaration)?;
    let doc = doc_in(alloc, project.texts, comments, declaration)?;
    Ok(Declared { groups, doc })
}

/// Where a module stands, and the modules that it lacks.
#[derive(Drop)]
struct Location {
    module_path: Modulepath,
    source: Utf8PathBuf,
    absent_modules: Seq<Text>,
}

/// Where a module stands, and the modules that it lacks.
fn location_of(alloc: Global, files: &[File], some_module: &Module) -> Result<Location, NoMemory>
    ensures module_path { IfOk result (λ l. l.module_path ≡ some_module.now.path) }
    ensures source { IfOk result (λ l. l.source ≡ source_of files.now some_module.now) }
    ensures absent_modules { IfOk result (λ l. l.absent_modules ≡ absent_names files.now some_module.now) }
{
    let module_path = some_module.path.try_clone()?;
    let source = source_of(alloc, files, some_module)?;
    let absent_modules = absent_names(alloc, files, some_module)?;
    Ok(Location {
        module_path,
        source,
        absent_modules,
    })
}

/// What a module sets for all that stands in it.
#[derive(Drop)]
struct ModuleSettings {
    settings: Settings,
    unexports: Seq<Text>,
}

/// What the items of a module set for all that stands in it.
fn module_settings<T: Texts>(
    alloc: Global,
    texts: &T,
    items: &[Entry<'_>],
) -> Result<ModuleSettings, NoMemory>
    ensures settings { IfOk result (λ s. s.settings ≡ settings_of (T.text_of texts.now) (entries items.now)) }
    ensures unexports { IfOk result (λ s. s.unexports ≡ unexports_of (entries items.now)) }
{
    let unexports = unexports_of(alloc, items)?;
    let settings = settings_of(alloc, texts, items)?;
    Ok(ModuleSettings {
        settings,
        unexports,
    })
}

/// The justfile of these parts, with these modules within it.
fn justfile_with(
    location: Location,
    own: ModuleSettings,
    standing: Standing,
    aliases: Aliases,
    declared: Declared,
    modules: Seq<Justfile>,
) -> Justfile
    ensures module_path { (out-Justfile result).module_path ≡ location.module_path }
    ensures source { (out-Justfile result).source ≡ location.source }
    ensures settings { (out-Justfile result).settings ≡ own.settings }
    ensures assignments { (out-Justfile result).assignments ≡ standing.assignments }
    ensures unexports { (out-Justfile result).unexports ≡ own.unexports }
    ensures recipes { (out-Justfile result).recipes ≡ standing.recipes }
    ensures recipe_aliases { (out-Justfile result).recipe_aliases ≡ aliases.recipes }
    ensures modules { (out-Justfile result).modules ≡ modules }
    ensures module_aliases { (out-Justfile result).module_aliases ≡ aliases.modules }
    ensures absent_modules { (out-Justfile result).absent_modules ≡ location.absent_modules }
    ensures disabled_recipes { (out-Justfile result).disabled_recipes ≡ standing.disabled_recipes }
    ensures disabled_aliases { (out-Justfile result).disabled_aliases ≡ aliases.disabled }
    ensures groups { (out-Justfile result).groups ≡ declared.groups }
    ensures doc { (out-Justfile result).doc ≡ declared.doc }
{
    Justfile {
        module_path: location.module_path,
        source: location.source,
        settings: own.settings,
        assignments: standing.assignments,
        unexports: own.unexports,
        recipes: standing.recipes,
        recipe_aliases: aliases.recipes,
        modules,
        module_aliases: aliases.modules,
        absent_modules: location.absent_modules,
        disabled_recipes: standing.disabled_recipes,
        disabled_aliases: aliases.disabled,
        groups: declared.groups,
        doc: declared.doc,
    }
}

/// The justfile of the module of that number, with these modules within it.
pub(crate) fn module_of<'a, T: Texts, L: Linker<'a>>(
    alloc: Global,
    project: &Project<'_, 'a, T, L>,
    comments: &[Comments<'a>],
    number: usize,
    some_module: &Module,
    modules: Seq<Justfile>,
) -> Result<Justfile, NoMemory>
    requires comments { AreCommentsOf project.now.layout.now.files comments.now }
    requires links { L.known project.now.links.now }
    ensures said { IfOk result (IsModuleOf (T.text_of project.now.texts.now) (L.links project.now.links.now) (wins_in project.now.winners.now) project.now.layout.now.files number some_module.now) }
    ensures modules { IfOk result (λ j. modules_of j ≡ modules) }
{
    let files = project.layout.files.as_slice();
    let found = items_of_module(alloc, files, some_module)?;
    let items = found.as_slice();
    let parent = Parent {
        number,
        path: &some_module.path,
    };
    let standing = standing_of(alloc, project, comments, parent, items)?;
    let aliases = aliases_of(alloc, project.links, number, items)?;
    let declared = declared_of(alloc, project, comments, some_module)?;
    let location = location_of(alloc, files, some_module)?;
    let own = module_settings(alloc, project.texts, items)?;
    Ok(justfile_with(location, own, standing, aliases, declared, modules))
}
