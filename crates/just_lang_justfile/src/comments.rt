//! The comments directly above what stands in the files of a project.
ghost use Rattle.std.specs.Prelude.{◌≡◌, IfOk};
ghost use Rattle.std.specs.Option.{option_copied};
ghost use Rattle.just_lang_justfile.specs.Comments.{above_at, AreCommentsOf};

use super::steps::push_one;
use just_lang_layout::File;
use just_lang_shapes::{Comments, comments_of};
use just_lang_syntax::Name;
use just_path_text::NoMemory;
use std::alloc::Global;

/// The comments of each file.
#[tactic(auto, using(crate::proofs::Tables::files_step))]
pub(crate) fn comments_of_files<'a>(
    alloc: Global,
    files: &'a [File],
) -> Result<Vec<Comments<'a>>, NoMemory>
    ensures { IfOk result (λ v. AreCommentsOf files.now v.items) }
{
    let mut all = Vec::new(alloc);
    'files: for file in files {
        let comments = comments_of(alloc, file.items.as_slice())?;
        push_one(&mut all, comments)?;
    }
    Ok(all)
}

/// What the comment says that stands directly above the recipe or module of that name in the file of that number.
pub(crate) fn above_in<'a>(comments: &[Comments<'a>], file: usize, name: &Name) -> Option<&'a str>
    ensures { option_copied result ≡ above_at comments.now file name.now }
{
    match comments.get(file) {
        None => None,
        Some(of_file) => of_file.above(name),
    }
}
