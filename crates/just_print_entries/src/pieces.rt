//! The parts of a module's listing.
ghost use Rattle.std.specs.Prelude.{◌≡◌, ◌++◌, ◌∷◌, [], ◌&&◌, not, map, false, codes, IfOk, OnOk, string_bytes};
ghost use Rattle.just_print.specs.Printed.{only_if, newline};
ghost use Rattle.just_print_lists.specs.Listed.{groups_of, named_groups_of};
ghost use Rattle.just_print_lists.specs.Groups.{is_nil, grouped};
ghost use Rattle.just_print_entries.specs.Recipes.{other_aliases, widest, widths};
ghost use Rattle.just_print_lists.specs.Summaries.{public_recipes, public_modules};
ghost use Rattle.just_print_entries.specs.Listings.{recipe_groups, group_line, inner_line, inner_pieces, module_pieces, group_pieces, named_pieces, ungrouped_pieces, listed_groups, has_ungrouped, group_list, pieces};
ghost use Rattle.just_print_entries.specs.Listings.Piece.{lines, inner};
ghost use Rattle.just_print_entries.specs.Written.{piece_of};

use super::entry::Margin;
use super::options::ListOptions;
use super::part::Part;
use super::recipe_lines::{other_aliases, push_aliases, push_modules, push_recipes, widest_of};
use just_path_text::{NoMemory, Text};
use just_print_lists::{
    ListedAlias, ListedModule, ListedRecipe, all_of, in_group, in_order, is_nil, public_in_order,
    push_if, ungrouped,
};
use std::alloc::{AllocError, Global};

/// How the parts of a module are made.
#[derive(Clone, Copy, Drop)]
struct Frame<'f> {
    /// What stands before each line.
    indent: &'f str,
    /// How wide what stands before docs is.
    columns: usize,
    /// Whether the module has named groups.
    has_named: bool,
}

/// The line of a group, behind a blank line where another group is before it.
fn group_line(
    alloc: Global,
    indent: &str,
    is_later: bool,
    group: &str,
) -> Result<String, AllocError>
    ensures { IfOk result (λ t. string_bytes t ≡ group_line indent.now is_later group.now) }
{
    let mut out = String::new(alloc);
    push_if(&mut out, is_later, "\n")?;
    out.push_str(indent)?;
    out.push_str("[")?;
    out.push_str(group)?;
    out.push_str("]\n")?;
    Ok(out)
}

/// The line before a module that is listed with what stands in it.
fn inner_line(
    alloc: Global,
    frame: Frame<'_>,
    is_later: bool,
    name: &str,
) -> Result<Text, AllocError>
    ensures { IfOk result
        (λ t. t
        ≡ only_if (is_later && not frame.entry.has_named) newline
        ++ (frame.entry.indent.now ++ (name.now ++ (codes ":" ++ newline)))) }
{
    let mut out = String::new(alloc);
    push_if(&mut out, is_later && !frame.has_named, "\n")?;
    out.push_str(frame.indent)?;
    out.push_str(name)?;
    out.push_str(":\n")?;
    Ok(Text::from(out))
}

/// Two texts, one behind the other.
fn two_texts(alloc: Global, first: &str, second: &str) -> Result<Text, AllocError>
    ensures { IfOk result (λ t. t ≡ first.now ++ second.now) }
{
    let mut text = String::from_str(alloc, first)?;
    text.push_str(second)?;
    Ok(Text::from(text))
}

/// Adds a module that is listed with what stands in it, and its line.
#[tactic(auto, using(crate::proofs::Pushed::one_part))]
fn push_inner<'j>(
    alloc: Global,
    options: &ListOptions<'_>,
    frame: Frame<'_>,
    parts: &mut Vec<Part<'j>>,
    is_later: bool,
    outer: &'j ListedModule,
) -> Result<(), NoMemory>
    ensures { OnOk result
        (map piece_of parts.new.items
        ≡ map piece_of parts.old.items
        ++ lines (inner_line options.now frame.entry.indent.now frame.entry.columns
        frame.entry.has_named is_later outer.now)
        ∷ inner (frame.entry.indent.now ++ options.now.prefix.now) outer.now ∷ []) }
{
    let line = inner_line(alloc, frame, is_later, outer.name.as_str())?;
    let indent = two_texts(alloc, frame.indent, options.prefix)?;
    parts.push(Part::Lines(line))?;
    parts.push(Part::Inner(indent, outer))?;
    Ok(())
}

/// Adds modules that are listed with what stands in them.
fn push_inners<'j>(
    alloc: Global,
    options: &ListOptions<'_>,
    frame: Frame<'_>,
    parts: &mut Vec<Part<'j>>,
    modules: &[&'j ListedModule],
) -> Result<(), NoMemory>
    ensures { OnOk result
        (map piece_of parts.new.items
        ≡ map piece_of parts.old.items
        ++ inner_pieces options.now frame.entry.indent.now frame.entry.columns frame.entry.has_named
        false (map (λ m. m.now) modules.now)) }
{
    let mut is_later = false;
    'modules: for outer in modules {
        push_inner(alloc, options, frame, parts, is_later, *outer)?;
        is_later = true;
    }
    Ok(())
}

/// What the lines of a module go by.
fn margin_of<'f>(options: &ListOptions<'_>, frame: Frame<'f>) -> Margin<'f>
    ensures indent { result.indent.now ≡ frame.entry.indent.now }
    ensures columns { result.columns ≡ frame.entry.columns }
    ensures style { result.style ≡ options.now.alias_style }
{
    Margin {
        indent: frame.indent,
        columns: frame.columns,
        style: options.alias_style,
    }
}

/// Adds the modules that end a group.
#[tactic(auto, using(crate::proofs::Pushed::one_part))]
fn push_module_parts<'j>(
    alloc: Global,
    options: &ListOptions<'_>,
    frame: Frame<'_>,
    parts: &mut Vec<Part<'j>>,
    modules: &[&'j ListedModule],
) -> Result<(), NoMemory>
    ensures { OnOk result
        (map piece_of parts.new.items
        ≡ map piece_of parts.old.items
        ++ module_pieces options.now frame.entry.indent.now frame.entry.columns
        frame.entry.has_named (map (λ m. m.now) modules.now)) }
{
    if options.list_submodules {
        return push_inners(alloc, options, frame, parts, modules);
    }
    let mut out = String::new(alloc);
    push_modules(alloc, &mut out, margin_of(options, frame), modules)?;
    parts.push(Part::Lines(Text::from(out)))?;
    Ok(())
}

/// Adds a group: its line, its recipes, other names and modules.
#[tactic(auto, using(crate::proofs::Pushed::one_part))]
fn push_group<'j>(
    alloc: Global,
    options: &ListOptions<'_>,
    frame: Frame<'_>,
    parts: &mut Vec<Part<'j>>,
    front: String,
    recipes: &[&ListedRecipe],
    aliases: &[&ListedAlias],
    modules: &[&'j ListedModule],
) -> Result<(), NoMemory>
    ensures { OnOk result
        (map piece_of parts.new.items
        ≡ map piece_of parts.old.items
        ++ group_pieces options.now frame.entry.indent.now frame.entry.columns frame.entry.has_named
        (string_bytes front) (map (λ r. r.now) recipes.now) (map (λ a. a.now) aliases.now)
        (map (λ m. m.now) modules.now)) }
{
    let margin = margin_of(options, frame);
    let mut out = front;
    push_recipes(alloc, &mut out, margin, recipes)?;
    push_aliases(alloc, &mut out, margin, aliases)?;
    parts.push(Part::Lines(Text::from(out)))?;
    push_module_parts(alloc, options, frame, parts, modules)
}

/// Adds a named group.
fn push_named<'j>(
    alloc: Global,
    options: &ListOptions<'_>,
    frame: Frame<'_>,
    parts: &mut Vec<Part<'j>>,
    is_later: bool,
    group: &str,
    recipes: &[&'j ListedRecipe],
    modules: &[&'j ListedModule],
) -> Result<(), NoMemory>
    ensures { OnOk result
        (map piece_of parts.new.items
        ≡ map piece_of parts.old.items
        ++ group_pieces options.now frame.entry.indent.now frame.entry.columns frame.entry.has_named
        (group_line frame.entry.indent.now is_later group.now)
        (grouped recipe_groups group.now (map (λ r. r.now) recipes.now)) []
        (grouped groups_of group.now (map (λ m. m.now) modules.now))) }
{
    let front = group_line(alloc, frame.indent, is_later, group)?;
    let own = in_group(alloc, group, recipes)?;
    let inner = in_group(alloc, group, modules)?;
    push_group(
        alloc,
        options,
        frame,
        parts,
        front,
        own.as_slice(),
        &[],
        inner.as_slice(),
    )
}

/// Adds named groups; another group may be before the first.
fn push_all_named<'j>(
    alloc: Global,
    options: &ListOptions<'_>,
    frame: Frame<'_>,
    parts: &mut Vec<Part<'j>>,
    is_later: bool,
    groups: &[&Text],
    recipes: &[&'j ListedRecipe],
    modules: &[&'j ListedModule],
) -> Result<(), NoMemory>
    ensures { OnOk result
        (map piece_of parts.new.items
        ≡ map piece_of parts.old.items
        ++ named_pieces options.now frame.entry.indent.now frame.entry.columns frame.entry.has_named
        (map (λ r. r.now) recipes.now) (map (λ m. m.now) modules.now) is_later
        (map (λ g. g.now) groups.now)) }
{
    let mut behind = is_later;
    'groups: for group in groups {
        push_named(
            alloc,
            options,
            frame,
            parts,
            behind,
            group.as_str(),
            recipes,
            modules,
        )?;
        behind = true;
    }
    Ok(())
}

/// What of a module is listed, in order.
struct Arranged<'j> {
    recipes: Vec<&'j ListedRecipe>,
    aliases: Vec<&'j ListedAlias>,
    modules: Vec<&'j ListedModule>,
}

impl Drop for Arranged<'_> {
    fn drop(self) {
        let Arranged {
            recipes: _,
            aliases: _,
            modules: _,
        } = self;
    }
}

/// What of a module is listed, in order.
fn arrange<'j>(
    alloc: Global,
    options: &ListOptions<'_>,
    outer: &'j ListedModule,
) -> Result<Arranged<'j>, NoMemory>
    ensures recipes { IfOk result
        (λ a. map (λ r. r.now) a.recipes.items ≡ public_recipes options.now.unsorted outer.now) }
    ensures aliases { IfOk result
        (λ a. map (λ n. n.now) a.aliases.items ≡ other_aliases options.now.alias_style outer.now) }
    ensures modules { IfOk result
        (λ a. map (λ m. m.now) a.modules.items ≡ public_modules options.now.unsorted outer.now) }
{
    let recipes = public_in_order(alloc, options.unsorted, outer.recipes.as_slice())?;
    let aliases = other_aliases(alloc, options.alias_style, outer)?;
    let modules = public_in_order(alloc, options.unsorted, outer.modules.as_slice())?;
    Ok(Arranged {
        recipes,
        aliases,
        modules,
    })
}

/// Whether there is something in no group that is listed.
fn has_ungrouped(
    given: &[Text],
    recipes: &[&ListedRecipe],
    aliases: &[&ListedAlias],
    modules: &[&ListedModule],
) -> bool
    ensures { result
        ≡ (is_nil given.now
        && not (is_nil recipes.now && (is_nil aliases.now && is_nil modules.now))) }
{
    is_nil(given) && !(is_nil(recipes) && (is_nil(aliases) && is_nil(modules)))
}

/// Adds what is in no group, where it is listed.
#[tactic(auto, using(crate::proofs::Pushed::seen_nil))]
fn push_ungrouped<'j>(
    alloc: Global,
    options: &ListOptions<'_>,
    frame: Frame<'_>,
    parts: &mut Vec<Part<'j>>,
    given: &[Text],
    all: &Arranged<'j>,
) -> Result<bool, NoMemory>
    ensures there { IfOk result
        (λ b. b
        ≡ has_ungrouped given.now (map (λ r. r.now) all.now.recipes.items)
        (map (λ a. a.now) all.now.aliases.items) (map (λ m. m.now) all.now.modules.items)) }
    ensures added { IfOk result (λ b. map piece_of parts.new.items
        ≡ map piece_of parts.old.items
        ++ ungrouped_pieces options.now frame.entry.indent.now frame.entry.columns
        frame.entry.has_named b (map (λ r. r.now) all.now.recipes.items)
        (map (λ a. a.now) all.now.aliases.items) (map (λ m. m.now) all.now.modules.items)) }
{
    let recipes = ungrouped(alloc, all.recipes.as_slice())?;
    let modules = ungrouped(alloc, all.modules.as_slice())?;
    let aliases = all.aliases.as_slice();
    let is_there = has_ungrouped(given, recipes.as_slice(), aliases, modules.as_slice());
    if !is_there {
        return Ok(false);
    }
    push_group(
        alloc,
        options,
        frame,
        parts,
        String::new(alloc),
        recipes.as_slice(),
        aliases,
        modules.as_slice(),
    )?;
    Ok(true)
}

/// Adds the named groups that are listed: those that are given, where some are, else all.
fn push_listed<'j>(
    alloc: Global,
    options: &ListOptions<'_>,
    frame: Frame<'_>,
    parts: &mut Vec<Part<'j>>,
    is_later: bool,
    given: &[Text],
    outer: &'j ListedModule,
    all: &Arranged<'j>,
) -> Result<(), NoMemory>
    ensures { OnOk result
        (map piece_of parts.new.items
        ≡ map piece_of parts.old.items
        ++ named_pieces options.now frame.entry.indent.now frame.entry.columns frame.entry.has_named
        (map (λ r. r.now) all.now.recipes.items) (map (λ m. m.now) all.now.modules.items) is_later
        (listed_groups options.now.unsorted given.now outer.now)) }
{
    let recipes = all.recipes.as_slice();
    let modules = all.modules.as_slice();
    match given {
        [] => {
            let named = in_order(alloc, options.unsorted, outer.named_groups.as_slice())?;
            let groups = named.as_slice();
            push_all_named(
                alloc, options, frame, parts, is_later, groups, recipes, modules,
            )
        }
        [_first, ..] => {
            let named = all_of(alloc, given)?;
            let groups = named.as_slice();
            push_all_named(
                alloc, options, frame, parts, is_later, groups, recipes, modules,
            )
        }
    }
}

/// Adds the parts of what of a module is listed.
fn push_arranged<'j>(
    alloc: Global,
    options: &ListOptions<'_>,
    frame: Frame<'_>,
    parts: &mut Vec<Part<'j>>,
    given: &[Text],
    outer: &'j ListedModule,
    all: &Arranged<'j>,
) -> Result<(), NoMemory>
    ensures { OnOk result
        (map piece_of parts.new.items
        ≡ map piece_of parts.old.items
        ++ group_list options.now frame.entry.indent.now frame.entry.columns frame.entry.has_named
        (has_ungrouped given.now (map (λ r. r.now) all.now.recipes.items)
        (map (λ a. a.now) all.now.aliases.items) (map (λ m. m.now) all.now.modules.items))
        (listed_groups options.now.unsorted given.now outer.now)
        (map (λ r. r.now) all.now.recipes.items) (map (λ a. a.now) all.now.aliases.items)
        (map (λ m. m.now) all.now.modules.items)) }
{
    let is_later = push_ungrouped(alloc, options, frame, parts, given, all)?;
    push_listed(alloc, options, frame, parts, is_later, given, outer, all)
}

/// How wide what stands before docs is.
fn columns_of(
    alloc: Global,
    options: &ListOptions<'_>,
    all: &Arranged<'_>,
) -> Result<usize, NoMemory>
    ensures { IfOk result
        (λ n. n
        ≡ widest (widths options.now.alias_style options.now.list_submodules
        (map (λ r. r.now) all.now.recipes.items) (map (λ a. a.now) all.now.aliases.items)
        (map (λ m. m.now) all.now.modules.items))) }
{
    let recipes = all.recipes.as_slice();
    let aliases = all.aliases.as_slice();
    let modules = all.modules.as_slice();
    let style = options.alias_style;
    widest_of(
        alloc,
        style,
        options.list_submodules,
        recipes,
        aliases,
        modules,
    )
}

/// Whether a module has named groups.
fn has_named(outer: &ListedModule) -> bool
    ensures { result ≡ not (is_nil (named_groups_of outer.now)) }
{
    !is_nil(outer.named_groups.as_slice())
}

/// The parts of a module; of its groups those that are given, where some are.
#[tactic(auto, using(crate::proofs::Gathered::pieces_are))]
pub(crate) fn pieces<'j>(
    alloc: Global,
    options: &ListOptions<'_>,
    given: &[Text],
    indent: &str,
    outer: &'j ListedModule,
) -> Result<Vec<Part<'j>>, NoMemory>
    ensures { IfOk result
        (λ v. map piece_of v.items ≡ pieces options.now given.now indent.now outer.now) }
{
    let all = arrange(alloc, options, outer)?;
    let columns = columns_of(alloc, options, &all)?;
    let frame = Frame {
        indent,
        columns,
        has_named: has_named(outer),
    };
    let mut parts = Vec::new(alloc);
    push_arranged(alloc, options, frame, &mut parts, given, outer, &all)?;
    Ok(parts)
}
