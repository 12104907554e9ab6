//! What listings show of a project: a tree of modules.
ghost use Rattle.std.specs.Prelude.{◌≡◌, ◌≤◌, [], ◌∷◌, length, map, reverse, IfOk, OnOk};
ghost use Rattle.just_lang_spots.specs.Winners.{wins_in};
ghost use Rattle.just_lang_types.specs.Modules.{modules_of, AreModules};
ghost use Rattle.just_print_tree.specs.Branches.{HasModulesOf, IsTreeOf};
ghost use Rattle.just_print_tree.specs.Kept.{branches, tolds, IsGrown, AreGrown};
ghost use Rattle.just_print_tree.specs.Told.{told_each};

use super::body::{Place, Source, module_of};
use super::branch::{Built, take_within};
use super::told::told_each;
use just_lang_layout::{Layout, Module};
use just_lang_types::project::Justfile;
use just_lang_types::{Texts, all_modules};
use just_path_text::{NoMemory, Seq};
use just_print_lists::ListedModule;
use std::alloc::Global;

/// Makes one more module, of those made so far which are within it.
fn grow<'a, T: Texts>(
    alloc: Global,
    source: &Source<'_, '_, '_, 'a, T>,
    outer: &mut Vec<Built<'a>>,
    place: Place<'_, 'a>,
) -> Result<(), NoMemory>
    requires { length (modules_of place.justfile.now) ≤ length outer.old.items }
    ensures { OnOk result (IsGrown (T.text_of source.now.texts.now) source.now.files.now
        (map tolds source.now.recipes.now) (tolds place.entry.recipes.now) place.entry.laid.now
        place.entry.justfile.now (reverse (branches outer.old.items))
        (reverse (branches outer.new.items))) }
{
    let count = place.justfile.modules.len();
    let within = take_within(alloc, source.files, outer, count)?;
    let listed = module_of(alloc, source, place, within)?;
    outer.push(Built {
        laid: place.laid,
        justfile: place.justfile,
        listed,
    })?;
    Ok(())
}

/// Makes the modules of a project, the last one first.
fn grown<'a, T: Texts>(
    alloc: Global,
    source: &Source<'_, '_, '_, 'a, T>,
    winners: &[Seq<usize>],
    modules: &'a [Module],
    justfiles: &[&'a Justfile],
    root: &Justfile,
) -> Result<Vec<Built<'a>>, NoMemory>
    requires order { AreModules (root.now ∷ []) (map (λ j. j.now) justfiles.now) }
    requires count { length justfiles.now ≡ length modules.now }
    requires recipes { map tolds source.now.recipes.now ≡ told_each (wins_in winners.now)
        source.now.files.now modules.now (map (λ j. j.now) justfiles.now) }
    ensures { IfOk result (λ v. AreGrown (T.text_of source.now.texts.now) (wins_in winners.now)
        source.now.files.now (map tolds source.now.recipes.now) modules.now
        (map (λ j. j.now) justfiles.now) (reverse (branches v.items))) }
{
    let mut outer = Vec::new(alloc);
    let mut left = modules.len();
    'modules: while left > 0 {
        left -= 1;
        let place = Place {
            laid: &modules[left],
            justfile: justfiles[left],
            recipes: source.recipes[left].as_slice(),
        };
        grow(alloc, source, &mut outer, place)?;
    }
    Ok(outer)
}

/// What listings show of the project that has this layout and this justfile. For each file `winners` has those that import
/// it, straight or through others.
pub fn listed_of<'a, T: Texts>(
    alloc: Global,
    texts: &T,
    winners: &[Seq<usize>],
    layout: &'a Layout,
    justfile: &'a Justfile,
) -> Result<ListedModule, NoMemory>
    requires { HasModulesOf layout.now.modules justfile.now }
    ensures { IfOk result (IsTreeOf (T.text_of texts.now) (wins_in winners.now) layout.now
        justfile.now) }
{
    let found = all_modules(alloc, justfile)?;
    let justfiles = found.as_slice();
    let files = layout.files.as_slice();
    let modules = layout.modules.as_slice();
    let recipes = told_each(alloc, winners, files, modules, justfiles)?;
    let source = Source {
        texts,
        files,
        recipes: recipes.as_slice(),
    };
    let mut outer = grown(alloc, &source, winners, modules, justfiles, justfile)?;
    match outer.pop() {
        None => unreachable!(),
        Some(root) => {
            let Built { listed, .. } = root;
            Ok(listed)
        }
    }
}
