//! What listings show of a module but what stands in it.
ghost use Rattle.std.specs.Prelude.{◌≡◌, option_map, IfOk};
ghost use Rattle.just_lang_spots.specs.Entries.{entry};
ghost use Rattle.just_lang_types.specs.declared.project.Justfile.{out-Justfile};
ghost use Rattle.just_lang_justfile.specs.Declarations.{declaration_of};
ghost use Rattle.just_print_tree.specs.Branches.{last_name, is_hidden};

use super::declared::declaration_of;
use just_lang_layout::{File, Module};
use just_lang_shapes::is_private;
use just_lang_spots::Entry;
use just_lang_syntax::AstItem;
use just_lang_types::Modulepath;
use just_lang_types::project::Justfile;
use just_path_text::{NoMemory, Seq, Text, TryClone};
use std::alloc::Global;

/// What listings show of a module but what stands in it.
#[derive(Drop)]
pub(crate) struct Head {
    pub(crate) name: Text,
    pub(crate) path: Modulepath,
    pub(crate) doc: Option<Text>,
    pub(crate) groups: Seq<Text>,
    pub(crate) private: bool,
}

/// The last name of a path; the root's has none.
#[tactic(auto, using(crate::proofs::LastNames::last_is, crate::proofs::LastNames::last_none))]
fn last_name(alloc: Global, path: &[Text]) -> Result<Text, NoMemory>
    ensures { IfOk result (λ name. name ≡ last_name path.now) }
{
    match path.split_last() {
        None => Ok(Text::from(String::new(alloc))),
        Some((last, _)) => last.try_clone(),
    }
}

/// Whether listings leave out the module that a `mod` names.
fn is_hidden(declaration: Option<Entry<'_>>) -> bool
    ensures { result ≡ is_hidden (option_map entry declaration.entry) }
{
    match declaration {
        None => false,
        Some(one) => match one.item {
            AstItem::Module {
                attributes,
                name,
                ..
            } => is_private(attributes.as_slice(), name.text.as_str()),
            _ => false,
        },
    }
}

/// What listings show of a module but what stands in it.
pub(crate) fn head_of(
    alloc: Global,
    files: &[File],
    some_module: &Module,
    justfile: &Justfile,
) -> Result<Head, NoMemory>
    ensures name { IfOk result (λ h. h.name ≡ last_name some_module.now.path.components) }
    ensures path { IfOk result (λ h. h.path ≡ some_module.now.path) }
    ensures doc { IfOk result (λ h. h.doc ≡ (out-Justfile justfile.now).doc) }
    ensures groups { IfOk result (λ h. h.groups ≡ (out-Justfile justfile.now).groups) }
    ensures private { IfOk result (λ h. h.private ≡ is_hidden
        (declaration_of files.now some_module.now)) }
{
    let private = is_hidden(declaration_of(files, some_module));
    let groups = justfile.groups.try_clone()?;
    let doc = justfile.doc.try_clone()?;
    let path = some_module.path.try_clone()?;
    let name = last_name(alloc, some_module.path.components.as_slice())?;
    Ok(Head {
        name,
        path,
        doc,
        groups,
        private,
    })
}
