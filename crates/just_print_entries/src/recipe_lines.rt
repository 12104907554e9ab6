//! The recipes of a listing, and the width of what stands before docs.
ghost use Rattle.std.specs.Prelude.{◌≡◌, ◌++◌, [], map, if◌then◌else◌, IfOk, OnOk, string_bytes};
ghost use Rattle.std.specs.List.{flat_map, fold};
ghost use Rattle.std.specs.Option.{unwrap_or};
ghost use Rattle.just_print.specs.Usages.{path_text};
ghost use Rattle.just_print_entries.specs.Entries.{width, entry_lines};
ghost use Rattle.just_print_entries.specs.Styles.{is_left};
ghost use Rattle.just_print_entries.specs.Recipes.{shown, other_aliases, alias_doc, signature, module_line, wider, widest, recipe_widths, alias_width, module_width, widths, separate_lines, recipe_lines, alias_lines, module_lines};

use super::entry::{Margin, has_lines, push_doc_above, push_entry, push_signature, width};
use super::options::AliasStyle;
use super::style::{is_hidden, is_inline, is_separate};
use just_path_text::{NoMemory, Text};
use just_print_lists::{ListedAlias, ListedModule, ListedRecipe, path_text, public_by_name};
use std::alloc::{AllocError, Global};

/// The other names of a recipe that are shown.
fn shown<'j>(alloc: Global, style: AliasStyle, names: &'j [Text]) -> Result<Vec<&'j Text>, NoMemory>
    ensures { IfOk result (λ v. map (λ n. n.now) v.items ≡ shown style names.now) }
{
    if is_hidden(style) {
        return Ok(Vec::new(alloc));
    }
    public_by_name(alloc, names)
}

/// The other names of recipes of other modules that are shown.
pub(crate) fn other_aliases<'j>(
    alloc: Global,
    style: AliasStyle,
    outer: &'j ListedModule,
) -> Result<Vec<&'j ListedAlias>, NoMemory>
    ensures { IfOk result (λ v. map (λ a. a.now) v.items ≡ other_aliases style outer.now) }
{
    if is_hidden(style) {
        return Ok(Vec::new(alloc));
    }
    public_by_name(alloc, outer.aliases.as_slice())
}

/// Two texts, one behind the other.
fn two_texts(alloc: Global, first: &str, second: &str) -> Result<String, AllocError>
    ensures { IfOk result (λ t. string_bytes t ≡ signature first.now second.now) }
{
    let mut text = String::from_str(alloc, first)?;
    text.push_str(second)?;
    Ok(text)
}

/// The doc of another name of that recipe.
fn alias_doc(alloc: Global, target: &str) -> Result<String, AllocError>
    ensures { IfOk result (λ t. string_bytes t ≡ alias_doc target.now) }
{
    let mut text = String::from_str(alloc, "alias for `")?;
    text.push_str(target)?;
    text.push_str("`")?;
    Ok(text)
}

/// A doc, empty where there is none.
fn doc_text(doc: &Option<Text>) -> &str
    ensures { result.now ≡ unwrap_or doc.now [] }
{
    match doc {
        Some(text) => text.as_str(),
        None => "",
    }
}

/// The wider of two, unless it is wider than 50.
fn wider(so_far: usize, columns: usize) -> usize
    ensures { result ≡ wider so_far columns }
{
    if so_far < columns && !(columns > 50) {
        columns
    } else {
        so_far
    }
}

/// The width with a name of a recipe.
fn with_name(
    alloc: Global,
    so_far: usize,
    name: &str,
    parameters: &str,
) -> Result<usize, AllocError>
    ensures { IfOk result (λ n. n ≡ wider so_far (width (signature name.now parameters.now))) }
{
    let text = two_texts(alloc, name, parameters)?;
    Ok(wider(so_far, width(text.as_str())))
}

/// The width with other names of a recipe.
fn with_names(
    alloc: Global,
    so_far: usize,
    names: &[&Text],
    parameters: &str,
) -> Result<usize, AllocError>
    ensures { IfOk result
        (λ n. n
        ≡ fold wider so_far
        (map (λ name. width (signature name parameters.now)) (map (λ name. name.now) names.now))) }
{
    let mut widest = so_far;
    'names: for name in names {
        widest = with_name(alloc, widest, name.as_str(), parameters)?;
    }
    Ok(widest)
}

/// The width with a recipe under its names.
#[tactic(auto, using(crate::proofs::Widths::recipe_one))]
fn with_recipe(
    alloc: Global,
    style: AliasStyle,
    so_far: usize,
    recipe: &ListedRecipe,
) -> Result<usize, NoMemory>
    ensures { IfOk result (λ n. n ≡ fold wider so_far (recipe_widths style recipe.now)) }
{
    let parameters = recipe.parameters.as_str();
    let own = with_name(alloc, so_far, recipe.name.as_str(), parameters)?;
    let names = shown(alloc, style, recipe.aliases.as_slice())?;
    let all = with_names(alloc, own, names.as_slice(), parameters)?;
    Ok(all)
}

/// The width with recipes.
#[tactic(auto, using(crate::proofs::Widths::recipe_more))]
fn with_recipes(
    alloc: Global,
    style: AliasStyle,
    so_far: usize,
    recipes: &[&ListedRecipe],
) -> Result<usize, NoMemory>
    ensures { IfOk result
        (λ n. n
        ≡ fold wider so_far (flat_map (recipe_widths style) (map (λ r. r.now) recipes.now))) }
{
    let mut widest = so_far;
    'recipes: for recipe in recipes {
        widest = with_recipe(alloc, style, widest, recipe)?;
    }
    Ok(widest)
}

/// The width with other names of recipes of other modules.
fn with_aliases(alloc: Global, so_far: usize, aliases: &[&ListedAlias]) -> Result<usize, AllocError>
    ensures { IfOk result
        (λ n. n ≡ fold wider so_far (map alias_width (map (λ a. a.now) aliases.now))) }
{
    let mut widest = so_far;
    'aliases: for alias in aliases {
        widest = with_name(
            alloc,
            widest,
            alias.name.as_str(),
            alias.parameters.as_str(),
        )?;
    }
    Ok(widest)
}

/// The width with modules.
fn with_modules(
    alloc: Global,
    so_far: usize,
    modules: &[&ListedModule],
) -> Result<usize, AllocError>
    ensures { IfOk result
        (λ n. n ≡ fold wider so_far (map module_width (map (λ m. m.now) modules.now))) }
{
    let mut widest = so_far;
    'modules: for inner in modules {
        widest = with_name(alloc, widest, inner.name.as_str(), " ...")?;
    }
    Ok(widest)
}

/// The width with modules where they are told by their names.
fn unless_listed(
    alloc: Global,
    list_submodules: bool,
    so_far: usize,
    modules: &[&ListedModule],
) -> Result<usize, AllocError>
    ensures { IfOk result
        (λ n. n
        ≡ fold wider so_far
        (if list_submodules then [] else map module_width (map (λ m. m.now) modules.now))) }
{
    if list_submodules {
        return Ok(so_far);
    }
    with_modules(alloc, so_far, modules)
}

/// How wide what stands before docs is: the greatest of the widths of at most 50.
#[tactic(auto, using(crate::proofs::Widths::three_widths))]
pub(crate) fn widest_of(
    alloc: Global,
    style: AliasStyle,
    list_submodules: bool,
    recipes: &[&ListedRecipe],
    aliases: &[&ListedAlias],
    modules: &[&ListedModule],
) -> Result<usize, NoMemory>
    ensures { IfOk result
        (λ n. n
        ≡ widest (widths style list_submodules (map (λ r. r.now) recipes.now)
        (map (λ a. a.now) aliases.now) (map (λ m. m.now) modules.now))) }
{
    let by_recipes = with_recipes(alloc, style, 0, recipes)?;
    let by_aliases = with_aliases(alloc, by_recipes, aliases)?;
    let by_modules = unless_listed(alloc, list_submodules, by_aliases, modules)?;
    Ok(by_modules)
}

/// Adds an entry with the doc of another name of that recipe.
fn push_other(
    alloc: Global,
    out: &mut String,
    margin: Margin<'_>,
    signature: &str,
    target: &str,
) -> Result<(), AllocError>
    ensures { IfOk result
        (λ _. string_bytes out.new
        ≡ string_bytes out.old
        ++ entry_lines margin.entry.indent.now margin.entry.columns (is_left margin.entry.style)
        signature.now (alias_doc target.now) []) }
{
    let doc = alias_doc(alloc, target)?;
    push_entry(out, margin, signature, doc.as_str(), &[])
}

/// Adds another name of a recipe as an entry of its own.
#[tactic(auto, unfolding(crate::specs::Recipes::separate_lines))]
fn push_separate(
    alloc: Global,
    out: &mut String,
    margin: Margin<'_>,
    recipe: &ListedRecipe,
    name: &str,
) -> Result<(), AllocError>
    ensures { IfOk result
        (λ _. string_bytes out.new
        ≡ string_bytes out.old
        ++ separate_lines margin.entry.indent.now margin.entry.columns margin.entry.style recipe.now
        name.now) }
{
    let text = two_texts(alloc, name, recipe.parameters.as_str())?;
    push_other(alloc, out, margin, text.as_str(), recipe.name.as_str())
}

/// Adds other names of a recipe as entries of their own.
fn push_separates(
    alloc: Global,
    out: &mut String,
    margin: Margin<'_>,
    recipe: &ListedRecipe,
    names: &[&Text],
) -> Result<(), AllocError>
    ensures { IfOk result
        (λ _. string_bytes out.new
        ≡ string_bytes out.old ++ flat_map
        (separate_lines margin.entry.indent.now margin.entry.columns margin.entry.style recipe.now)
        (map (λ n. n.now) names.now)) }
{
    'names: for name in names {
        push_separate(alloc, out, margin, recipe, name.as_str())?;
    }
    Ok(())
}

/// Names where they are wanted.
fn only_names<'n, 'j>(wanted: bool, names: &'n [&'j Text]) -> &'n [&'j Text]
    ensures { map (λ n. n.now) result.now ≡ if wanted then map (λ n. n.now) names.now else [] }
{
    if wanted { names } else { &[] }
}

/// Adds a recipe with its doc and its other names.
fn push_own(
    alloc: Global,
    out: &mut String,
    margin: Margin<'_>,
    recipe: &ListedRecipe,
    names: &[&Text],
) -> Result<(), AllocError>
    ensures { IfOk result
        (λ _. string_bytes out.new
        ≡ string_bytes out.old
        ++ entry_lines margin.entry.indent.now margin.entry.columns (is_left margin.entry.style)
        (signature recipe.now.name recipe.now.parameters) (unwrap_or recipe.now.doc [])
        (map (λ n. n.now) names.now)) }
{
    let text = two_texts(alloc, recipe.name.as_str(), recipe.parameters.as_str())?;
    push_entry(out, margin, text.as_str(), doc_text(&recipe.doc), names)
}

/// Adds the lines of a recipe.
fn push_recipe(
    alloc: Global,
    out: &mut String,
    margin: Margin<'_>,
    recipe: &ListedRecipe,
) -> Result<(), NoMemory>
    ensures { OnOk result
        (string_bytes out.new
        ≡ string_bytes out.old
        ++ recipe_lines margin.entry.indent.now margin.entry.columns margin.entry.style
        recipe.now) }
{
    let names = shown(alloc, margin.style, recipe.aliases.as_slice())?;
    let inline = only_names(is_inline(margin.style), names.as_slice());
    push_own(alloc, out, margin, recipe, inline)?;
    let separate = only_names(is_separate(margin.style), names.as_slice());
    push_separates(alloc, out, margin, recipe, separate)?;
    Ok(())
}

/// Adds the lines of recipes.
pub(crate) fn push_recipes(
    alloc: Global,
    out: &mut String,
    margin: Margin<'_>,
    recipes: &[&ListedRecipe],
) -> Result<(), NoMemory>
    ensures { OnOk result
        (string_bytes out.new
        ≡ string_bytes out.old
        ++ flat_map (recipe_lines margin.entry.indent.now margin.entry.columns margin.entry.style)
        (map (λ r. r.now) recipes.now)) }
{
    'recipes: for recipe in recipes {
        push_recipe(alloc, out, margin, recipe)?;
    }
    Ok(())
}

/// Adds an entry with the doc of another name of the recipe of that path.
fn push_other_at(
    alloc: Global,
    out: &mut String,
    margin: Margin<'_>,
    signature: &str,
    target: &[Text],
) -> Result<(), AllocError>
    ensures { IfOk result
        (λ _. string_bytes out.new
        ≡ string_bytes out.old
        ++ entry_lines margin.entry.indent.now margin.entry.columns (is_left margin.entry.style)
        signature.now (alias_doc (path_text target.now)) []) }
{
    let path = path_text(alloc, target)?;
    push_other(alloc, out, margin, signature, path.as_str())
}

/// Adds another name of a recipe of another module.
#[tactic(auto, unfolding(crate::specs::Recipes::alias_lines))]
fn push_alias(
    alloc: Global,
    out: &mut String,
    margin: Margin<'_>,
    alias: &ListedAlias,
) -> Result<(), AllocError>
    ensures { IfOk result
        (λ _. string_bytes out.new
        ≡ string_bytes out.old
        ++ alias_lines margin.entry.indent.now margin.entry.columns margin.entry.style alias.now) }
{
    let text = two_texts(alloc, alias.name.as_str(), alias.parameters.as_str())?;
    push_other_at(
        alloc,
        out,
        margin,
        text.as_str(),
        alias.target.components.as_slice(),
    )
}

/// Adds other names of recipes of other modules.
pub(crate) fn push_aliases(
    alloc: Global,
    out: &mut String,
    margin: Margin<'_>,
    aliases: &[&ListedAlias],
) -> Result<(), AllocError>
    ensures { IfOk result
        (λ _. string_bytes out.new
        ≡ string_bytes out.old
        ++ flat_map (alias_lines margin.entry.indent.now margin.entry.columns margin.entry.style)
        (map (λ a. a.now) aliases.now)) }
{
    'aliases: for alias in aliases {
        push_alias(alloc, out, margin, alias)?;
    }
    Ok(())
}

/// Adds the lines of a module that is told by its name.
fn push_module(
    alloc: Global,
    out: &mut String,
    margin: Margin<'_>,
    inner: &ListedModule,
) -> Result<(), AllocError>
    ensures { IfOk result
        (λ _. string_bytes out.new
        ≡ string_bytes out.old
        ++ module_lines margin.entry.indent.now margin.entry.columns margin.entry.style inner.now) }
{
    let line = two_texts(alloc, inner.name.as_str(), " ...")?;
    let doc = doc_text(&inner.doc);
    if has_lines(doc) {
        push_doc_above(out, margin.indent, doc)?;
        return push_signature(out, margin, line.as_str(), "", &[]);
    }
    push_signature(out, margin, line.as_str(), doc, &[])
}

/// Adds the lines of modules that are told by their names.
pub(crate) fn push_modules(
    alloc: Global,
    out: &mut String,
    margin: Margin<'_>,
    modules: &[&ListedModule],
) -> Result<(), AllocError>
    ensures { IfOk result
        (λ _. string_bytes out.new
        ≡ string_bytes out.old
        ++ flat_map (module_lines margin.entry.indent.now margin.entry.columns margin.entry.style)
        (map (λ m. m.now) modules.now)) }
{
    'modules: for inner in modules {
        push_module(alloc, out, margin, inner)?;
    }
    Ok(())
}
