//! The refusals of lower layers as errors of a run.

ghost use Rattle.std.specs.Prelude.{◌≡◌};
ghost use Rattle.just_exec.specs.declared.error.Error.TheVariants.{NoMemory as OutOfMemory};
ghost use Rattle.just_exec.specs.Refusals.{error_of_usage, error_of_config, error_of_lang, error_of_search, error_of_env, error_of_cache};

use super::Error;
use just_cache::CacheError;
use just_config::{ConfigError, Usage, UsageKind};
use just_env::{EnvError, SearchError};
use just_host_record::HostFault;
use just_lang_types::project::LangError;
use just_path::Miss;
use just_path_text::NoMemory;

impl From<NoMemory> for Error {
    ghost from_gives = { λ _ e. e ≡ OutOfMemory };

    fn from(_refused: NoMemory) -> Error {
        Error::NoMemory
    }
}

impl From<Usage> for Error {
    ghost from_gives = { λ u e. e ≡ error_of_usage u };

    fn from(usage: Usage) -> Error {
        match usage.kind {
            UsageKind::NoMemory => Error::NoMemory,
            _ => Error::Usage(usage),
        }
    }
}

impl From<ConfigError> for Error {
    ghost from_gives = { λ c e. e ≡ error_of_config c };

    fn from(error: ConfigError) -> Error {
        match error {
            ConfigError::NoMemory => Error::NoMemory,
            other => Error::Config(other),
        }
    }
}

impl From<LangError> for Error {
    ghost from_gives = { λ l e. e ≡ error_of_lang l };

    fn from(error: LangError) -> Error {
        match error {
            LangError::Compile(error) => Error::Compile(error),
            LangError::Const { path, line, column } => Error::Const { path, line, column },
            LangError::MissingImportFile => Error::MissingImportFile,
            LangError::CircularImport { current, import } => Error::CircularImport {
                current,
                import,
            },
            LangError::MissingModuleFile { module } => Error::MissingModuleFile { module },
            LangError::AmbiguousModuleFile { module, found } => Error::AmbiguousModuleFile {
                module,
                found,
            },
            LangError::Homedir => Error::Homedir,
            LangError::UnknownOverrides { overrides } => Error::UnknownOverrides { overrides },
            LangError::FunctionCall { name } => Error::FunctionCall { name },
            LangError::NoRecipes => Error::NoRecipes,
            LangError::NoDefaultRecipe => Error::NoDefaultRecipe,
            LangError::DefaultRecipeRequiresArguments {
                recipe,
                min_arguments,
            } => Error::DefaultRecipeRequiresArguments {
                recipe,
                min_arguments,
            },
            LangError::UnknownRecipe { recipe } => Error::UnknownRecipe { recipe },
            LangError::UnknownSubmodule { path } => Error::UnknownSubmodule { path },
            LangError::ModuleAbsent { module } => Error::ModuleAbsent { module },
            LangError::RecipeDisabled { recipe, modules } => Error::RecipeDisabled {
                recipe,
                modules,
            },
            LangError::AliasDisabled { alias, modules } => Error::AliasDisabled { alias, modules },
            LangError::ExpectedSubmoduleButFoundRecipe { path } =>
                Error::ExpectedSubmoduleButFoundRecipe { path },
            LangError::UnknownOption { recipe, switch } => Error::UnknownOption { recipe, switch },
            LangError::InvalidOption { argument } => Error::InvalidOption { argument },
            LangError::FlagWithValue { recipe, switch } => Error::FlagWithValue { recipe, switch },
            LangError::NonFinalOptionWithValue { recipe, switch } =>
                Error::NonFinalOptionWithValue { recipe, switch },
            LangError::OptionMissingValue { recipe, switch } => Error::OptionMissingValue {
                recipe,
                switch,
            },
            LangError::DuplicateOption { recipe, switch } => Error::DuplicateOption {
                recipe,
                switch,
            },
            LangError::PositionalArgumentCountMismatch {
                recipe,
                path,
                parameters,
                found,
            } => Error::PositionalArgumentCountMismatch {
                recipe,
                path,
                parameters,
                found,
            },
            LangError::MissingOption { recipe, switch } => Error::MissingOption { recipe, switch },
            LangError::ArgumentTooFewValues {
                recipe,
                parameter,
                found,
                min,
            } => Error::ArgumentTooFewValues {
                recipe,
                parameter,
                found,
                min,
            },
            LangError::ArgumentTooManyValues {
                recipe,
                parameter,
                found,
                max,
            } => Error::ArgumentTooManyValues {
                recipe,
                parameter,
                found,
                max,
            },
            LangError::ArgumentPatternMismatch {
                argument,
                recipe,
                parameter,
                pattern,
            } => Error::ArgumentPatternMismatch {
                argument,
                recipe,
                parameter,
                pattern,
            },
            LangError::EmptyListArgument { recipe, parameter } => Error::EmptyListArgument {
                recipe,
                parameter,
            },
            LangError::ExcessInvocations { invocations } => Error::ExcessInvocations {
                invocations,
            },
            LangError::ClosureLimit => Error::ClosureLimit,
            LangError::NoMemory => Error::NoMemory,
        }
    }
}

impl From<SearchError> for Error {
    ghost from_gives = { λ s e. e ≡ error_of_search s };

    fn from(error: SearchError) -> Error {
        match error {
            SearchError::FilesystemIo { path, io } => Error::FilesystemIo { path, io },
            SearchError::Load { path, io } => Error::Load { path, io },
            SearchError::Lang(error) => Error::from(error),
            SearchError::NoMemory => Error::NoMemory,
            other => Error::Search(other),
        }
    }
}

impl From<EnvError> for Error {
    ghost from_gives = { λ d e. e ≡ error_of_env d };

    fn from(error: EnvError) -> Error {
        match error {
            EnvError::DotenvRequired => Error::DotenvRequired,
            EnvError::Dotenv { path, line } => Error::Dotenv { path, line },
            EnvError::DotenvArgumentsRequireLists => Error::DotenvArgumentsRequireLists,
            EnvError::DotenvCommand {
                command,
                output_error,
            } => Error::DotenvCommand {
                command,
                output_error,
            },
            EnvError::Io(io, path) => Error::FilesystemIo { path, io },
            EnvError::NoMemory => Error::NoMemory,
        }
    }
}

impl From<CacheError> for Error {
    ghost from_gives = { λ c e. e ≡ error_of_cache c };

    fn from(error: CacheError) -> Error {
        match error {
            CacheError::InputMissing(path) => Error::CacheInputMissing { path },
            CacheError::InputDirectory(path) => Error::CacheInputDirectory { path },
            CacheError::EntryRead(path) => Error::FilesystemIo {
                path,
                io: HostFault::Missed(Miss::NotUtf8),
            },
            CacheError::Io(io, path) => Error::FilesystemIo { path, io },
            CacheError::NoMemory => Error::NoMemory,
        }
    }
}
