//! The justfile of a layout: a tree of modules.
ghost use Rattle.std.specs.Prelude.{◌≡◌, ◌++◌, [], ◌∷◌, true, reverse, All, IfOk};
ghost use Rattle.just_lang_spots.specs.Winners.{wins_in};
ghost use Rattle.just_lang_types.specs.Modules.{path_of};
ghost use Rattle.just_lang_justfile.specs.Comments.{AreCommentsOf};
ghost use Rattle.just_lang_justfile.specs.Trees.{is_within, is_first_within, behind_those_within, outermost, paths_of, IsJustfileOf};

use super::comments::comments_of_files;
use super::content::module_of;
use super::linker::Linker;
use super::project::Project;
use super::steps::push_one;
use just_lang_types::Texts;
use just_lang_types::project::Justfile;
use just_path_text::{NoMemory, Seq, Text};
use std::alloc::Global;

/// Whether a path has one name more than another, behind it.
#[tactic(auto, using(crate::proofs::Paths::within_is, crate::proofs::Paths::within_none))]
fn is_within(path: &[Text], inner: &[Text]) -> bool
    ensures { result ≡ is_within path.now inner.now }
{
    match inner.split_last() {
        None => false,
        Some((_, front)) => path == front,
    }
}

/// Whether the last of some modules stands directly within a path.
#[tactic(auto, using(crate::proofs::Nested::first_none, crate::proofs::Nested::first_some))]
fn is_last_within(modules: &[Justfile], path: &[Text]) -> bool
    ensures { result ≡ is_first_within path.now (paths_of (reverse modules.now)) }
{
    match modules.split_last() {
        None => false,
        Some((last, _)) => is_within(path, last.module_path.components.as_slice()),
    }
}

/// Takes the modules that stand directly within a path from the end, the last one first.
#[tactic(auto, using(crate::proofs::Nested::behind_none))]
fn take_within(
    alloc: Global,
    modules: &mut Vec<Justfile>,
    path: &[Text],
) -> Result<Vec<Justfile>, NoMemory>
    ensures parts { IfOk result (λ inner. reverse modules.old.items ≡ inner.items ++ reverse modules.new.items) }
    ensures within { IfOk result (λ inner. All (λ j. is_within path.now (path_of j).components ≡ true) inner.items) }
    ensures others { IfOk result (λ inner. paths_of (reverse modules.new.items) ≡ behind_those_within path.now (paths_of (reverse modules.old.items))) }
{
    let mut inner = Vec::new(alloc);
    'modules: while is_last_within(modules.as_slice(), path) {
        match modules.pop() {
            None => unreachable!(),
            Some(module) => push_one(&mut inner, module)?,
        }
    }
    Ok(inner)
}

/// The justfile of a project's layout.
#[tactic(auto, using(crate::proofs::Nested::made_last, crate::proofs::Nested::not_none))]
pub fn justfile_of<'a, T: Texts, L: Linker<'a>>(
    alloc: Global,
    project: &Project<'_, 'a, T, L>,
) -> Result<Justfile, NoMemory>
    requires links { L.known project.now.links.now }
    // Each module but the root stands within one before it.
    requires root { outermost project.now.layout.now.modules ≡ [] ∷ [] }
    ensures { IfOk result (IsJustfileOf (T.text_of project.now.texts.now) (L.links project.now.links.now) (wins_in project.now.winners.now) project.now.layout.now) }
{
    let comments = comments_of_files(alloc, project.layout.files.as_slice())?;
    let modules = project.layout.modules.as_slice();
    let mut outer: Vec<Justfile> = Vec::new(alloc);
    let mut left = modules.len();
    'modules: while left > 0 {
        left -= 1;
        let some_module = &modules[left];
        let inner = take_within(alloc, &mut outer, some_module.path.components.as_slice())?;
        let made = module_of(
            alloc,
            project,
            comments.as_slice(),
            left,
            some_module,
            Seq::from(inner),
        )?;
        push_one(&mut outer, made)?;
    }
    match outer.pop() {
        None => unreachable!(),
        Some(root) => Ok(root),
    }
}
