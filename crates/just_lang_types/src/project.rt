//! The justfile that a project's files make, and why a project or a request of it is refused.

ghost use Rattle.std.specs.Prelude.{◌≡◌};
ghost use Rattle.just_lang_types.specs.declared.project.LangError.TheVariants.{NoMemory as OutOfMemory};

use super::{
    Alias, Assignment, CompileError, Disabled, Modulepath, Parameter, Recipe, Settings, Switch,
};
use just_path::Utf8PathBuf;
use just_path_text::{NoMemory, Seq, Text};
use std::alloc::{AllocError, AllocFailed};

/// A module of a project: what its file and the files that it imports say. The root module is the whole project.
#[derive(Drop)]
pub struct Justfile {
    /// The names that lead here from the root, which has none.
    pub module_path: Modulepath,
    /// The path of its file.
    pub source: Utf8PathBuf,
    pub settings: Settings,
    /// The variables that stand, in the order of the sources.
    pub assignments: Seq<Assignment>,
    pub unexports: Seq<Text>,
    /// The recipes that stand, in the order of the sources, those of `disabled_recipes` too. A dependency's path begins at the root.
    pub recipes: Seq<Recipe>,
    /// The further names of recipes; a target's path begins at the root.
    pub recipe_aliases: Seq<Alias>,
    pub modules: Seq<Justfile>,
    /// The further names of modules; a target's path begins at the root.
    pub module_aliases: Seq<Alias>,
    /// The modules that may be missing and are.
    pub absent_modules: Seq<Text>,
    /// The recipes that can't be run, since they lead to an absent module.
    pub disabled_recipes: Seq<Disabled>,
    pub disabled_aliases: Seq<Disabled>,
    /// The groups that the module's declaration names.
    pub groups: Seq<Text>,
    /// What a listing says of it.
    pub doc: Option<Text>,
}

/// Why a project, or a request of its recipes, is refused. The texts of `Display` say each.
#[derive(Drop)]
pub enum LangError {
    /// The first broken rule.
    Compile(CompileError),
    /// A setting or an attribute has a text that isn't constant.
    Const {
        path: Utf8PathBuf,
        line: usize,
        column: usize,
    },
    MissingImportFile,
    /// A file is named by one that it leads to.
    CircularImport {
        current: Utf8PathBuf,
        import: Utf8PathBuf,
    },
    MissingModuleFile {
        module: Text,
    },
    AmbiguousModuleFile {
        module: Text,
        found: Seq<Text>,
    },
    /// A path begins with `~`, and there is no home folder.
    Homedir,
    UnknownOverrides {
        overrides: Seq<Text>,
    },
    FunctionCall {
        name: Text,
    },
    NoRecipes,
    NoDefaultRecipe,
    DefaultRecipeRequiresArguments {
        recipe: Text,
        min_arguments: u64,
    },
    UnknownRecipe {
        recipe: Text,
    },
    UnknownSubmodule {
        path: Text,
    },
    ModuleAbsent {
        module: Text,
    },
    RecipeDisabled {
        recipe: Text,
        modules: Seq<Text>,
    },
    AliasDisabled {
        alias: Text,
        modules: Seq<Text>,
    },
    ExpectedSubmoduleButFoundRecipe {
        path: Text,
    },
    UnknownOption {
        recipe: Text,
        switch: Switch,
    },
    InvalidOption {
        argument: Text,
    },
    FlagWithValue {
        recipe: Text,
        switch: Switch,
    },
    NonFinalOptionWithValue {
        recipe: Text,
        switch: Switch,
    },
    OptionMissingValue {
        recipe: Text,
        switch: Switch,
    },
    DuplicateOption {
        recipe: Text,
        switch: Switch,
    },
    PositionalArgumentCountMismatch {
        recipe: Text,
        path: Modulepath,
        parameters: Seq<Parameter>,
        found: usize,
    },
    MissingOption {
        recipe: Text,
        switch: Switch,
    },
    ArgumentTooFewValues {
        recipe: Text,
        parameter: Text,
        found: u64,
        min: u64,
    },
    ArgumentTooManyValues {
        recipe: Text,
        parameter: Text,
        found: u64,
        max: u64,
    },
    ArgumentPatternMismatch {
        argument: Text,
        recipe: Text,
        parameter: Text,
        pattern: Seq<Text>,
    },
    EmptyListArgument {
        recipe: Text,
        parameter: Text,
    },
    ExcessInvocations {
        invocations: u64,
    },
    ClosureLimit,
    NoMemory,
}

impl From<NoMemory> for LangError {
    ghost from_gives = { λ _ e. e ≡ OutOfMemory };

    fn from(_refused: NoMemory) -> LangError {
        LangError::NoMemory
    }
}

impl From<AllocError> for LangError {
    ghost from_gives = { λ _ e. e ≡ OutOfMemory };

    fn from(_refused: AllocError) -> LangError {
        LangError::NoMemory
    }
}

impl<T: Drop> From<AllocFailed<T>> for LangError {
    ghost from_gives = { λ _ e. e ≡ OutOfMemory };

    fn from(_refused: AllocFailed<T>) -> LangError {
        LangError::NoMemory
    }
}
