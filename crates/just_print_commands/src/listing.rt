//! The listing of the module that names lead to.
ghost use Rattle.std.specs.Prelude.{◌≡◌, IfOk, IfErr, string_bytes};
ghost use Rattle.just_print_commands.specs.Projects.{parts};
ghost use Rattle.just_print_commands.specs.Refusals.{IsUnlisted, error_of_listing};
ghost use Rattle.just_print_commands.specs.Texts.{IsListOf};

use super::error::ListTextError;
use super::place::listed_at;
use super::project::Project;
use just_eval_words::inner_module;
use just_path_text::Text;
use just_print_entries::{ListError, ListOptions, list};
use std::alloc::Global;

/// The error of a listing as that of the command.
fn error_of_listing(refused: ListError) -> ListTextError
    ensures { result ≡ error_of_listing refused }
{
    match refused {
        ListError::UnknownGroup(group) => ListTextError::UnknownGroup(group),
        ListError::NoMemory => ListTextError::NoMemory,
    }
}

/// The listing of the module that names lead to, as `--list` prints it.
#[tactic(auto, using(crate::proofs::Leading::unlisted_path, crate::proofs::Leading::unlisted_by, crate::proofs::Leading::listed_there, crate::proofs::Leading::listed_so))]
pub fn list_text(
    alloc: Global,
    project: Project<'_, '_, '_, '_, '_, '_>,
    options: &ListOptions<'_>,
    names: &[Text],
) -> Result<String, ListTextError>
    ensures listed { IfOk result (λ t. IsListOf (parts project.entry) options.now names.now
        (string_bytes t)) }
    ensures refused { IfErr result (IsUnlisted (parts project.entry) options.now names.now) }
{
    let inner = inner_module(alloc, project.justfiles, project.root, names)?;
    let Some(listed) = listed_at(project.tree, inner.module_path.components.as_slice()) else {
        return Err(ListTextError::NoMemory);
    };
    match list(alloc, options, listed) {
        Ok(text) => Ok(text),
        Err(refused) => Err(error_of_listing(refused)),
    }
}
