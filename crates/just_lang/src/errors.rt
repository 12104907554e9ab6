//! The errors of broken rules.
ghost use Rattle.std.specs.Prelude.{◌≡◌, ◌≢◌, IfOk, IfErr};
ghost use Rattle.just_lang_types.specs.declared.project.LangError.{LangError};
ghost use Rattle.just_lang_layout.specs.Laid.{path_of};
ghost use Rattle.just_lang_layout.specs.Paths.{Pairs};
ghost use Rattle.just_lang_names.specs.Names.{layout_of, wins_of};
ghost use Rattle.just_lang.specs.CycleTables.{AreRecipes};
ghost use Rattle.just_lang.specs.Errors.{error_of_files, error_of_rule, error_of_constant, BreaksNone, IsErrorIn};
ghost use Rattle.just_lang.specs.Projects.{HasError};

use super::recipe::Recipes;
use super::rule::first_rule;
use just_lang_layout::{File, Layout, LayoutError};
use just_lang_rulebook::{Broken, first_not_constant, first_on_files};
use just_lang_spots::Spot;
use just_lang_types::CompileError;
use just_lang_types::project::LangError;
use just_path::Utf8PathBuf;
use just_path_text::{Environ, NoMemory, TryClone};
use std::alloc::Global;

/// The error of a rule on files.
pub fn error_of_files(refused: LayoutError) -> LangError
    ensures { result ≡ error_of_files refused }
{
    match refused {
        LayoutError::MissingImportFile => LangError::MissingImportFile,
        LayoutError::CircularImport { current, import } => {
            LangError::CircularImport { current, import }
        }
        LayoutError::MissingModuleFile { module } => LangError::MissingModuleFile { module },
        LayoutError::AmbiguousModuleFile { module, found } => {
            LangError::AmbiguousModuleFile { module, found }
        }
        LayoutError::Homedir => LangError::Homedir,
        LayoutError::NoMemory => LangError::NoMemory,
    }
}

/// The path of the file of that number.
fn path_of(alloc: Global, files: &[File], number: usize) -> Result<Utf8PathBuf, NoMemory>
    ensures { IfOk result (λ p. p ≡ path_of files.now number) }
{
    match files.get(number) {
        None => Ok(Utf8PathBuf::from(String::new(alloc))),
        Some(file) => file.path.try_clone(),
    }
}

/// The error of a rule that is broken.
fn error_of_rule(alloc: Global, layout: &Layout, broken: Broken) -> Result<LangError, NoMemory>
    ensures { IfOk result (λ e. e ≡ error_of_rule layout.now broken) }
{
    let path = path_of(alloc, layout.files.as_slice(), broken.spot.file)?;
    Ok(LangError::Compile(CompileError {
        kind: broken.kind,
        path,
        line: broken.spot.line,
        column: broken.spot.column,
    }))
}

/// The error of a text that isn't constant.
fn error_of_constant(alloc: Global, layout: &Layout, spot: Spot) -> Result<LangError, NoMemory>
    ensures { IfOk result (λ e. e ≡ error_of_constant layout.now spot) }
{
    let path = path_of(alloc, layout.files.as_slice(), spot.file)?;
    Ok(LangError::Const {
        path,
        line: spot.line,
        column: spot.column,
    })
}

/// Refuses the first broken rule on the texts of files and on their number, for which nothing has to be known of the files' names.
#[tactic(auto, using(crate::proofs::ProjectLaws::files_have_error))]
pub fn check_files(alloc: Global, layout: &Layout) -> Result<(), LangError>
    ensures { IfErr result (λ e. e ≢ LangError.NoMemory
        → (environ : Pairs) → HasError environ layout.now e) }
{
    if let Some(broken) = first_on_files(layout) {
        let error = error_of_rule(alloc, layout, broken)?;
        return Err(error);
    }
    Ok(())
}

/// Refuses the first broken rule of a project with a layout.
#[tactic(auto, using(crate::proofs::Refusals::breaks_none, crate::proofs::Refusals::breaks_rule, crate::proofs::Refusals::breaks_constant))]
pub fn check_rules(
    alloc: Global,
    environ: &Environ,
    recipes: &Recipes<'_, '_>,
) -> Result<(), LangError>
    requires { AreRecipes recipes.now }
    ensures none { IfOk result (λ _. BreaksNone environ.now.pairs (wins_of recipes.now.names.now) (layout_of recipes.now.names.now)) }
    ensures refused { IfErr result (λ e. e ≢ LangError.NoMemory → IsErrorIn environ.now.pairs (wins_of recipes.now.names.now) (layout_of recipes.now.names.now) e) }
{
    let layout = recipes.names.layout;
    let rule = first_rule(alloc, environ, recipes)?;
    if let Some(broken) = rule {
        let error = error_of_rule(alloc, layout, broken)?;
        return Err(error);
    }
    let constant = first_not_constant(alloc, layout)?;
    if let Some(spot) = constant {
        let error = error_of_constant(alloc, layout, spot)?;
        return Err(error);
    }
    Ok(())
}
