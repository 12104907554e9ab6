//! Why a request is refused, or a run failed.

use just_config::{ConfigError, UnstableFeature};
use just_config_words::Usage;
use just_env::{OutputError, SearchError};
use just_host_record::{HostFault, Signal, Status};
use just_lang_types::{CompileError, Modulepath, Parameter, Switch};
use just_path::Utf8PathBuf;
use just_path_text::{Seq, Text};

/// Why a request is refused, or a run failed. Recipes are told by their names without those of their modules.
pub enum Error {
    /// The words of the command line, or a variable that fills them in, are at fault.
    Usage(Usage),
    /// The arguments of the words give no configuration.
    Config(ConfigError),
    CurrentDir {
        io: HostFault,
    },
    /// No justfile is found.
    Search(SearchError),
    /// A file of a justfile can't be read.
    Load {
        path: Utf8PathBuf,
        io: HostFault,
    },
    /// A call of the host was a miss or failed; the path is empty where the call names none.
    FilesystemIo {
        path: Utf8PathBuf,
        io: HostFault,
    },
    MissingImportFile,
    /// A file is named by one that it leads to.
    CircularImport {
        current: Utf8PathBuf,
        import: Utf8PathBuf,
    },
    MissingModuleFile {
        module: Text,
    },
    AmbiguousModuleFile {
        module: Text,
        found: Seq<Text>,
    },
    /// A path begins with `~`, and there is no home folder.
    Homedir,
    /// The first broken rule of a justfile.
    Compile(CompileError),
    /// A setting or an attribute has a text that isn't constant.
    Const {
        path: Utf8PathBuf,
        line: usize,
        column: usize,
    },
    UnstableFeature(UnstableFeature),
    /// A module requires a dotenv file, and none was found.
    DotenvRequired,
    /// A dotenv file has a text that can't be read, from an entry on that begins on that line.
    Dotenv {
        path: Utf8PathBuf,
        line: usize,
    },
    /// The words give several names or several paths of dotenv files, and a module doesn't set `lists`.
    DotenvArgumentsRequireLists,
    /// A command that gives dotenv pairs gave none.
    DotenvCommand {
        command: Text,
        output_error: OutputError,
    },
    /// The words override variables that the justfile doesn't have: each once, as `module::name`, ordered by module path and then by name.
    UnknownOverrides {
        overrides: Seq<Text>,
    },
    /// A value asks the environment for a variable that isn't there.
    FunctionCall {
        name: Text,
    },
    NoRecipes,
    NoDefaultRecipe,
    DefaultRecipeRequiresArguments {
        recipe: Text,
        min_arguments: u64,
    },
    UnknownRecipe {
        recipe: Text,
    },
    UnknownSubmodule {
        path: Text,
    },
    ModuleAbsent {
        module: Text,
    },
    RecipeDisabled {
        recipe: Text,
        modules: Seq<Text>,
    },
    AliasDisabled {
        alias: Text,
        modules: Seq<Text>,
    },
    ExpectedSubmoduleButFoundRecipe {
        path: Text,
    },
    UnknownOption {
        recipe: Text,
        switch: Switch,
    },
    InvalidOption {
        argument: Text,
    },
    FlagWithValue {
        recipe: Text,
        switch: Switch,
    },
    NonFinalOptionWithValue {
        recipe: Text,
        switch: Switch,
    },
    OptionMissingValue {
        recipe: Text,
        switch: Switch,
    },
    DuplicateOption {
        recipe: Text,
        switch: Switch,
    },
    /// A recipe got more or fewer positional arguments than it takes.
    PositionalArgumentCountMismatch {
        recipe: Text,
        path: Modulepath,
        parameters: Seq<Parameter>,
        found: usize,
    },
    MissingOption {
        recipe: Text,
        switch: Switch,
    },
    ArgumentTooFewValues {
        recipe: Text,
        parameter: Text,
        found: u64,
        min: u64,
    },
    ArgumentTooManyValues {
        recipe: Text,
        parameter: Text,
        found: u64,
        max: u64,
    },
    ArgumentPatternMismatch {
        argument: Text,
        recipe: Text,
        parameter: Text,
        pattern: Seq<Text>,
    },
    EmptyListArgument {
        recipe: Text,
        parameter: Text,
    },
    /// More recipes are asked for than one.
    ExcessInvocations {
        invocations: u64,
    },
    /// A command asks for a recipe, and the path leads to a module.
    RecipeRequired {
        subcommand: Text,
    },
    /// A group is to be listed that the module doesn't have.
    UnknownGroup {
        group: Text,
    },
    /// A variable is asked for in what is no module.
    EvalUnknownSubmodule {
        submodule: Text,
    },
    /// What is to be evaluated is neither a variable nor a module.
    EvalUnknownSubmoduleOrVariable {
        name: Text,
    },
    /// The justfile isn't as `--fmt` writes it.
    FormatCheckFoundDiff,
    /// Recipes are to be chosen, and none can be.
    NoChoosableRecipes,
    /// The shell that runs a chooser couldn't be started: its command, and its arguments with a blank between two of them.
    ChooserInvoke {
        shell: Text,
        arguments: Text,
        chooser: Text,
        io: HostFault,
    },
    /// What a chooser printed couldn't be read.
    ChooserRead {
        chooser: Text,
        io: HostFault,
    },
    /// The lines to choose from couldn't be written to a chooser.
    ChooserWrite {
        chooser: Text,
        io: HostFault,
    },
    /// A chooser ended with neither the code 0 nor 130.
    ChooserStatus {
        chooser: Text,
        status: Status,
    },
    /// An editor couldn't be started or waited for.
    EditorInvoke {
        editor: Text,
        io: HostFault,
    },
    /// An editor didn't end with the code 0.
    EditorStatus {
        editor: Text,
        status: Status,
    },
    /// The first of some words with the others as its arguments couldn't be started or waited for.
    CommandInvoke {
        binary: Text,
        arguments: Seq<Text>,
        io: HostFault,
    },
    /// Such a command didn't end with the code 0.
    CommandStatus {
        binary: Text,
        arguments: Seq<Text>,
        status: Status,
    },
    /// The request needs more than 1,000,000 recipes.
    ClosureLimit,
    /// The first line of a script names no interpreter.
    InvalidShebang {
        recipe: Text,
        shebang: Text,
    },
    /// A command ended with a code other than 0; a script has no line. The last field says whether the message is printed.
    Code {
        recipe: Text,
        line: Option<usize>,
        code: i32,
        message: bool,
    },
    /// A guard ended with a code other than 0 and 1.
    GuardCode {
        recipe: Text,
        line: usize,
        code: i32,
    },
    /// A command was ended by a signal.
    Signal {
        recipe: Text,
        line: Option<usize>,
        signal: i32,
    },
    /// How a command ended isn't known.
    Unknown {
        recipe: Text,
        line: Option<usize>,
    },
    /// The shell of a recipe's line couldn't be started or waited for.
    ShellIo {
        recipe: Text,
        shell: Text,
        io: HostFault,
    },
    /// The command of a recipe's script, with its arguments, couldn't be started or waited for.
    Script {
        recipe: Text,
        command: Text,
        io: HostFault,
    },
    /// The script of a recipe, which names an interpreter and perhaps its argument, couldn't be started or waited for.
    Shebang {
        recipe: Text,
        command: Text,
        argument: Option<Text>,
        io: HostFault,
    },
    /// The temporary file of a recipe's script couldn't be made.
    TempdirIo {
        recipe: Text,
        io: HostFault,
    },
    /// An input of a cached recipe isn't there.
    CacheInputMissing {
        path: Utf8PathBuf,
    },
    /// An input of a cached recipe is a folder.
    CacheInputDirectory {
        path: Utf8PathBuf,
    },
    /// A cached recipe ended well and didn't make what it names as its output.
    CacheOutputMissing {
        recipe: Text,
        output: Text,
    },
    /// The entry of a cached recipe couldn't be written.
    CacheEntryWrite {
        path: Utf8PathBuf,
        io: HostFault,
    },
    /// A recipe's prompt wasn't answered by a yes.
    NotConfirmed {
        recipe: Text,
    },
    /// The answer to a prompt couldn't be read.
    GetConfirmation {
        io: HostFault,
    },
    /// A text couldn't be printed.
    StdoutIo {
        io: HostFault,
    },
    /// A file stands where a justfile is to be written.
    InitExists {
        justfile: Utf8PathBuf,
    },
    /// A justfile couldn't be written.
    WriteJustfile {
        justfile: Utf8PathBuf,
        io: HostFault,
    },
    /// A signal was caught before all recipes were done.
    Interrupted(Signal),
    NoMemory,
}

impl Drop for Error {
    fn drop(self) {
        match self {
            Error::Usage(_)
            | Error::Config(_)
            | Error::CurrentDir { io: _ }
            | Error::Search(_)
            | Error::Load { path: _, io: _ }
            | Error::FilesystemIo { path: _, io: _ }
            | Error::MissingImportFile
            | Error::CircularImport {
                current: _,
                import: _,
            }
            | Error::MissingModuleFile { module: _ }
            | Error::AmbiguousModuleFile {
                module: _,
                found: _,
            }
            | Error::Homedir
            | Error::Compile(_)
            | Error::Const {
                path: _,
                line: _,
                column: _,
            }
            | Error::UnstableFeature(_)
            | Error::DotenvRequired
            | Error::Dotenv { path: _, line: _ }
            | Error::DotenvArgumentsRequireLists
            | Error::DotenvCommand {
                command: _,
                output_error: _,
            }
            | Error::UnknownOverrides { overrides: _ }
            | Error::FunctionCall { name: _ }
            | Error::NoRecipes
            | Error::NoDefaultRecipe
            | Error::DefaultRecipeRequiresArguments {
                recipe: _,
                min_arguments: _,
            }
            | Error::UnknownRecipe { recipe: _ }
            | Error::UnknownSubmodule { path: _ }
            | Error::ModuleAbsent { module: _ }
            | Error::RecipeDisabled {
                recipe: _,
                modules: _,
            }
            | Error::AliasDisabled {
                alias: _,
                modules: _,
            }
            | Error::ExpectedSubmoduleButFoundRecipe { path: _ }
            | Error::UnknownOption {
                recipe: _,
                switch: _,
            }
            | Error::InvalidOption { argument: _ }
            | Error::FlagWithValue {
                recipe: _,
                switch: _,
            }
            | Error::NonFinalOptionWithValue {
                recipe: _,
                switch: _,
            }
            | Error::OptionMissingValue {
                recipe: _,
                switch: _,
            }
            | Error::DuplicateOption {
                recipe: _,
                switch: _,
            }
            | Error::PositionalArgumentCountMismatch {
                recipe: _,
                path: _,
                parameters: _,
                found: _,
            }
            | Error::MissingOption {
                recipe: _,
                switch: _,
            }
            | Error::ArgumentTooFewValues {
                recipe: _,
                parameter: _,
                found: _,
                min: _,
            }
            | Error::ArgumentTooManyValues {
                recipe: _,
                parameter: _,
                found: _,
                max: _,
            }
            | Error::ArgumentPatternMismatch {
                argument: _,
                recipe: _,
                parameter: _,
                pattern: _,
            }
            | Error::EmptyListArgument {
                recipe: _,
                parameter: _,
            }
            | Error::ExcessInvocations { invocations: _ }
            | Error::RecipeRequired { subcommand: _ }
            | Error::UnknownGroup { group: _ }
            | Error::EvalUnknownSubmodule { submodule: _ }
            | Error::EvalUnknownSubmoduleOrVariable { name: _ }
            | Error::FormatCheckFoundDiff
            | Error::NoChoosableRecipes
            | Error::ChooserInvoke {
                shell: _,
                arguments: _,
                chooser: _,
                io: _,
            }
            | Error::ChooserRead { chooser: _, io: _ }
            | Error::ChooserWrite { chooser: _, io: _ }
            | Error::ChooserStatus {
                chooser: _,
                status: _,
            }
            | Error::EditorInvoke { editor: _, io: _ }
            | Error::EditorStatus {
                editor: _,
                status: _,
            }
            | Error::CommandInvoke {
                binary: _,
                arguments: _,
                io: _,
            }
            | Error::CommandStatus {
                binary: _,
                arguments: _,
                status: _,
            }
            | Error::ClosureLimit
            | Error::InvalidShebang {
                recipe: _,
                shebang: _,
            }
            | Error::Code {
                recipe: _,
                line: _,
                code: _,
                message: _,
            }
            | Error::GuardCode {
                recipe: _,
                line: _,
                code: _,
            }
            | Error::Signal {
                recipe: _,
                line: _,
                signal: _,
            }
            | Error::Unknown { recipe: _, line: _ }
            | Error::ShellIo {
                recipe: _,
                shell: _,
                io: _,
            }
            | Error::Script {
                recipe: _,
                command: _,
                io: _,
            }
            | Error::Shebang {
                recipe: _,
                command: _,
                argument: _,
                io: _,
            }
            | Error::TempdirIo { recipe: _, io: _ }
            | Error::CacheInputMissing { path: _ }
            | Error::CacheInputDirectory { path: _ }
            | Error::CacheOutputMissing {
                recipe: _,
                output: _,
            }
            | Error::CacheEntryWrite { path: _, io: _ }
            | Error::NotConfirmed { recipe: _ }
            | Error::GetConfirmation { io: _ }
            | Error::StdoutIo { io: _ }
            | Error::InitExists { justfile: _ }
            | Error::WriteJustfile { justfile: _, io: _ }
            | Error::Interrupted(_)
            | Error::NoMemory => {}
        }
    }
}
