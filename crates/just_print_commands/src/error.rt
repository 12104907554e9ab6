//! Why a command prints nothing.
ghost use Rattle.std.specs.Prelude.{◌≡◌};
ghost use Rattle.just_print_commands.specs.declared.error.ShowError.TheVariants as show_error;
ghost use Rattle.just_print_commands.specs.declared.error.ListTextError.TheVariants as list_error;

use just_lang_types::project::LangError;
use just_path_text::{NoMemory, Text};

/// Why no recipe is shown.
#[derive(Drop)]
pub enum ShowError {
    /// The path leads to a module.
    Required,
    /// The path leads nowhere, or memory was wanting where it was looked up.
    Path(LangError),
    /// Memory was wanting, or what was asked wasn't of one project.
    NoMemory,
}

/// Why no module is listed.
#[derive(Drop)]
pub enum ListTextError {
    /// The path leads nowhere, or memory was wanting where it was looked up.
    Path(LangError),
    /// The module doesn't have a group that was given.
    UnknownGroup(Text),
    /// Memory was wanting, or what was asked wasn't of one project.
    NoMemory,
}

impl From<NoMemory> for ShowError {
    ghost from_gives = { λ _ e. e ≡ show_error.NoMemory };

    fn from(_refused: NoMemory) -> ShowError {
        ShowError::NoMemory
    }
}

impl From<LangError> for ShowError {
    ghost from_gives = { λ refused e. e ≡ show_error.Path refused };

    fn from(refused: LangError) -> ShowError {
        ShowError::Path(refused)
    }
}

impl From<NoMemory> for ListTextError {
    ghost from_gives = { λ _ e. e ≡ list_error.NoMemory };

    fn from(_refused: NoMemory) -> ListTextError {
        ListTextError::NoMemory
    }
}

impl From<LangError> for ListTextError {
    ghost from_gives = { λ refused e. e ≡ list_error.Path refused };

    fn from(refused: LangError) -> ListTextError {
        ListTextError::Path(refused)
    }
}
