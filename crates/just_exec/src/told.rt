//! The texts of errors.

ghost use Rattle.std.specs.Prelude.{◌++◌, codes, Some};
ghost use Rattle.std.specs.Fmt.{WritesOnOk};
ghost use Rattle.just_env.specs.declared.search_error.SearchError.{SearchError};
ghost use Rattle.just_exec.specs.declared.error.Error.{Error};
ghost use Rattle.just_exec.specs.Parts.{fault_text};
ghost use Rattle.just_exec.specs.Texts.{search_text, dotenv_text, output_text, command_text, error_text};

use super::Error;
use super::children::{tell_editor, tell_ended, tell_invocation, tell_unstarted, tell_unwell};
use super::failed::{
    tell_code, tell_failed, tell_folder, tell_guard, tell_script, tell_shebang, tell_shell,
    tell_signal, tell_terminated,
};
use super::parts::{fault_text, kind_text, usage_text};
use super::refused::{
    tell_absent, tell_circular, tell_count, tell_default, tell_overrides, tell_pattern,
    tell_unstable, tell_values,
};
use super::sentences::{
    tell_at, tell_fault, tell_list, tell_naming, tell_part, tell_place, tell_switch,
};
use just_config::Usage;
use just_env::{OutputError, SearchError};
use just_host_record::HostFault;
use std::fmt;

/// Faulty words.
fn tell_usage<W: fmt::Write>(usage: &Usage, f: &mut fmt::Formatter<W>) -> fmt::Result
    ensures { WritesOnOk W.write_str_gives f.old result (error_text (Error.Usage usage.now)) f.new }
{
    let kind = usage_text(usage.kind);
    let word = usage.word.as_str();
    write!(f, "error: usage: {kind} `{word}`")
}

/// Why no justfile is found.
fn tell_search<W: fmt::Write>(error: &SearchError, f: &mut fmt::Formatter<W>) -> fmt::Result
    ensures { WritesOnOk W.write_str_gives f.old result (search_text error.now) f.new }
{
    match error {
        SearchError::FilesystemIo { path, io } => {
            tell_at("I/O error at ", path.as_str(), *io, f)
        }
        SearchError::GlobalJustfileInit => f.write_str("error: cannot initialize global justfile"),
        SearchError::GlobalJustfileNotFound => f.write_str("error: global justfile not found"),
        SearchError::InitWithJustfileFromStandardInput => {
            f.write_str("error: cannot use justfile from standard input with `--init`")
        }
        SearchError::JustfileHadNoParent { path } => {
            write!(f, "error: justfile path had no parent: {}", path.as_str())
        }
        SearchError::MultipleCandidates { folder, candidates } => tell_list(
            "multiple candidate justfiles found in ",
            folder.as_str(),
            candidates.as_slice(),
            f,
        ),
        SearchError::NotFound => f.write_str("error: no justfile found"),
        SearchError::StdinIo { io } => tell_fault("error reading from standard input: ", *io, f),
        SearchError::TempdirIo { io } => {
            tell_fault("I/O error creating temporary directory: ", *io, f)
        }
        SearchError::Load { path, io } => {
            tell_at("failed to read justfile at ", path.as_str(), *io, f)
        }
        SearchError::Lang(_) => f.write_str("error: the justfile is refused"),
        SearchError::NoMemory => f.write_str("error: out of memory"),
    }
}

/// A dotenv file that can't be read.
fn tell_dotenv<W: fmt::Write>(path: &str, line: usize, f: &mut fmt::Formatter<W>) -> fmt::Result
    ensures { WritesOnOk W.write_str_gives f.old result (dotenv_text path.now line) f.new }
{
    write!(
        f,
        "error: failed to load environment file from `{path}`: line {line}"
    )
}

/// Why the child of a command can't be run to its end.
fn tell_execution<W: fmt::Write>(io: HostFault, f: &mut fmt::Formatter<W>) -> fmt::Result
    ensures { WritesOnOk W.write_str_gives f.old result (codes "error executing process: " ++ fault_text io) f.new }
{
    f.write_str("error executing process: ")?;
    f.write_str(fault_text(io))
}

/// Why the output of a command isn't read.
fn tell_output<W: fmt::Write>(error: OutputError, f: &mut fmt::Formatter<W>) -> fmt::Result
    ensures { WritesOnOk W.write_str_gives f.old result (output_text error) f.new }
{
    match error {
        OutputError::Code(code) => write!(f, "process exited with status code {code}"),
        OutputError::Io(io) => tell_execution(io, f),
        OutputError::Signal(number) => write!(f, "process terminated by signal {number}"),
        OutputError::Unknown => f.write_str("process experienced an unknown failure"),
        OutputError::Utf8 => f.write_str("could not convert process stdout to UTF-8"),
    }
}

/// A command that gives no dotenv pairs.
fn tell_command<W: fmt::Write>(
    command: &str,
    error: OutputError,
    f: &mut fmt::Formatter<W>,
) -> fmt::Result
    ensures { WritesOnOk W.write_str_gives f.old result (command_text command.now error) f.new }
{
    tell_naming("dotenv command ", command, " failed: ", f)?;
    tell_output(error, f)
}

/// What is told before a justfile is read; no other error is told here.
fn tell_start<W: fmt::Write>(error: &Error, f: &mut fmt::Formatter<W>) -> fmt::Result
    ensures { WritesOnOk W.write_str_gives f.old result (error_text error.now) f.new }
{
    match error {
        Error::Usage(usage) => tell_usage(usage, f),
        Error::Config(error) => write!(f, "{error}"),
        Error::CurrentDir { io } => tell_fault("failed to get current directory: ", *io, f),
        Error::Search(error) => tell_search(error, f),
        Error::NoMemory => f.write_str("error: out of memory"),
        _ => Err(fmt::Error),
    }
}

/// What is told of files and of the standard streams; no other error is told here.
fn tell_access<W: fmt::Write>(error: &Error, f: &mut fmt::Formatter<W>) -> fmt::Result
    ensures { WritesOnOk W.write_str_gives f.old result (error_text error.now) f.new }
{
    match error {
        Error::Load { path, io } => {
            tell_at("failed to read justfile at ", path.as_str(), *io, f)
        }
        Error::FilesystemIo { path, io } => tell_at("I/O error at ", path.as_str(), *io, f),
        Error::StdoutIo { io } => tell_fault("I/O error writing to stdout: ", *io, f),
        Error::GetConfirmation { io } => {
            tell_fault("failed to read confirmation from stdin: ", *io, f)
        }
        Error::InitExists { justfile } => {
            tell_naming("justfile ", justfile.as_str(), " already exists", f)
        }
        Error::WriteJustfile { justfile, io } => {
            tell_at("failed to write justfile to ", justfile.as_str(), *io, f)
        }
        _ => Err(fmt::Error),
    }
}

/// What is told of the sources of a justfile; no other error is told here.
fn tell_source<W: fmt::Write>(error: &Error, f: &mut fmt::Formatter<W>) -> fmt::Result
    ensures { WritesOnOk W.write_str_gives f.old result (error_text error.now) f.new }
{
    match error {
        Error::MissingImportFile => { f.write_str("error: could not find source file for import") }
        Error::CircularImport { current, import } => {
            tell_circular(current.as_str(), import.as_str(), f)
        }
        Error::MissingModuleFile { module } => tell_naming(
            "could not find source file for module ",
            module.as_str(),
            "",
            f,
        ),
        Error::AmbiguousModuleFile { module, found } => tell_list(
            "found multiple source files for module ",
            module.as_str(),
            found.as_slice(),
            f,
        ),
        Error::Homedir => f.write_str("error: failed to get homedir"),
        Error::Compile(error) => {
            let kind = kind_text(error.kind);
            tell_place(kind, error.path.as_str(), error.line, error.column, f)
        }
        Error::Const { path, line, column } => {
            tell_place("not constant", path.as_str(), *line, *column, f)
        }
        _ => Err(fmt::Error),
    }
}

/// What is told of features, dotenv files and variables; no other error is told here.
fn tell_variables<W: fmt::Write>(error: &Error, f: &mut fmt::Formatter<W>) -> fmt::Result
    ensures { WritesOnOk W.write_str_gives f.old result (error_text error.now) f.new }
{
    match error {
        Error::UnstableFeature(feature) => tell_unstable(feature, f),
        Error::DotenvRequired => f.write_str("error: dotenv file not found"),
        Error::Dotenv { path, line } => tell_dotenv(path.as_str(), *line, f),
        Error::DotenvArgumentsRequireLists => f.write_str(
            "error: multiple `--dotenv-filename` or `--dotenv-path` arguments require `set lists`",
        ),
        Error::DotenvCommand {
            command,
            output_error,
        } => tell_command(command.as_str(), *output_error, f),
        Error::UnknownOverrides { overrides } => tell_overrides(overrides.as_slice(), f),
        Error::FunctionCall { name } => tell_naming(
            "call to function `env` failed: environment variable ",
            name.as_str(),
            " not present",
            f,
        ),
        _ => Err(fmt::Error),
    }
}

/// What is told of a request as a whole; no other error is told here.
fn tell_request<W: fmt::Write>(error: &Error, f: &mut fmt::Formatter<W>) -> fmt::Result
    ensures { WritesOnOk W.write_str_gives f.old result (error_text error.now) f.new }
{
    match error {
        Error::NoRecipes => f.write_str("error: justfile contains no recipes"),
        Error::NoDefaultRecipe => f.write_str("error: justfile contains no default recipe"),
        Error::DefaultRecipeRequiresArguments {
            recipe,
            min_arguments,
        } => tell_default(recipe, *min_arguments, f),
        Error::ExcessInvocations { invocations } => write!(
            f,
            "error: expected 1 command-line recipe invocation but found {invocations}"
        ),
        Error::ClosureLimit => f.write_str("error: request needs more than 1000000 recipes"),
        _ => Err(fmt::Error),
    }
}

/// What is told of a command that prints nothing; no other error is told here.
fn tell_command_refused<W: fmt::Write>(error: &Error, f: &mut fmt::Formatter<W>) -> fmt::Result
    ensures { WritesOnOk W.write_str_gives f.old result (error_text error.now) f.new }
{
    match error {
        Error::RecipeRequired { subcommand } => {
            write!(f, "error: `--{}` requires recipe", subcommand.as_str())
        }
        Error::UnknownGroup { group } => tell_naming(
            "justfile does not contain group ",
            group.as_str(),
            "",
            f,
        ),
        Error::EvalUnknownSubmodule { submodule } => tell_naming(
            "justfile does not contain submodule ",
            submodule.as_str(),
            "",
            f,
        ),
        Error::EvalUnknownSubmoduleOrVariable { name } => tell_naming(
            "justfile does not contain variable or submodule ",
            name.as_str(),
            "",
            f,
        ),
        Error::FormatCheckFoundDiff => {
            f.write_str("error: formatted justfile differs from original")
        }
        _ => Err(fmt::Error),
    }
}

/// What is told of a chooser; no other error is told here.
fn tell_chooser<W: fmt::Write>(error: &Error, f: &mut fmt::Formatter<W>) -> fmt::Result
    ensures { WritesOnOk W.write_str_gives f.old result (error_text error.now) f.new }
{
    match error {
        Error::NoChoosableRecipes => {
            f.write_str("error: justfile contains no choosable recipes")
        }
        Error::ChooserInvoke {
            shell,
            arguments,
            chooser,
            io,
        } => tell_invocation(shell, arguments, chooser, *io, f),
        Error::ChooserRead { chooser, io } => tell_at(
            "failed to read output from chooser ",
            chooser.as_str(),
            *io,
            f,
        ),
        Error::ChooserWrite { chooser, io } => {
            tell_at("failed to write to chooser ", chooser.as_str(), *io, f)
        }
        Error::ChooserStatus { chooser, status } => tell_ended("chooser ", chooser, *status, f),
        _ => Err(fmt::Error),
    }
}

/// What is told of a child that a command ran alone; no other error is told here.
fn tell_alone<W: fmt::Write>(error: &Error, f: &mut fmt::Formatter<W>) -> fmt::Result
    ensures { WritesOnOk W.write_str_gives f.old result (error_text error.now) f.new }
{
    match error {
        Error::EditorInvoke { editor, io } => tell_editor(editor, *io, f),
        Error::EditorStatus { editor, status } => tell_ended("editor ", editor, *status, f),
        Error::CommandInvoke {
            binary,
            arguments,
            io,
        } => tell_unstarted(binary, arguments.as_slice(), *io, f),
        Error::CommandStatus {
            binary,
            arguments,
            status,
        } => tell_unwell(binary, arguments.as_slice(), *status, f),
        _ => Err(fmt::Error),
    }
}

/// What is told of a name that a request asks for; no other error is told here.
fn tell_name<W: fmt::Write>(error: &Error, f: &mut fmt::Formatter<W>) -> fmt::Result
    ensures { WritesOnOk W.write_str_gives f.old result (error_text error.now) f.new }
{
    match error {
        Error::UnknownRecipe { recipe } => {
            tell_naming("justfile does not contain recipe ", recipe.as_str(), "", f)
        }
        Error::UnknownSubmodule { path } => {
            tell_naming("justfile does not contain submodule ", path.as_str(), "", f)
        }
        Error::ModuleAbsent { module } => {
            tell_naming("optional module ", module.as_str(), " is absent", f)
        }
        Error::RecipeDisabled { recipe, modules } => {
            tell_absent("recipe ", recipe.as_str(), modules.as_slice(), f)
        }
        Error::AliasDisabled { alias, modules } => {
            tell_absent("alias ", alias.as_str(), modules.as_slice(), f)
        }
        Error::ExpectedSubmoduleButFoundRecipe { path } => tell_naming(
            "expected submodule at ",
            path.as_str(),
            " but found recipe",
            f,
        ),
        _ => Err(fmt::Error),
    }
}

/// What is told of the options of a recipe; no other error is told here.
fn tell_option<W: fmt::Write>(error: &Error, f: &mut fmt::Formatter<W>) -> fmt::Result
    ensures { WritesOnOk W.write_str_gives f.old result (error_text error.now) f.new }
{
    match error {
        Error::UnknownOption { recipe, switch } => {
            tell_switch(recipe, " does not have option ", switch, "", f)
        }
        Error::InvalidOption { argument } => {
            tell_naming("argument ", argument.as_str(), " is not a valid option", f)
        }
        Error::FlagWithValue { recipe, switch } => {
            tell_switch(recipe, " flag ", switch, " does not take value", f)
        }
        Error::NonFinalOptionWithValue { recipe, switch } => tell_switch(
            recipe,
            " option ",
            switch,
            " takes a value and so must be last when combined with other options",
            f,
        ),
        Error::OptionMissingValue { recipe, switch } => {
            tell_switch(recipe, " option ", switch, " missing value", f)
        }
        Error::DuplicateOption { recipe, switch } => tell_switch(
            recipe,
            " option ",
            switch,
            " cannot be passed more than once",
            f,
        ),
        Error::MissingOption { recipe, switch } => {
            tell_switch(recipe, " requires option ", switch, "", f)
        }
        _ => Err(fmt::Error),
    }
}

/// What is told of the other arguments of a recipe; no other error is told here.
fn tell_argument<W: fmt::Write>(error: &Error, f: &mut fmt::Formatter<W>) -> fmt::Result
    ensures { WritesOnOk W.write_str_gives f.old result (error_text error.now) f.new }
{
    match error {
        Error::PositionalArgumentCountMismatch {
            recipe,
            path,
            parameters,
            found,
        } => tell_count(recipe, path, parameters.as_slice(), *found, f),
        Error::ArgumentTooFewValues {
            recipe,
            parameter,
            found,
            min,
        } => tell_values(recipe, parameter, *found, "least", *min, f),
        Error::ArgumentTooManyValues {
            recipe,
            parameter,
            found,
            max,
        } => tell_values(recipe, parameter, *found, "most", *max, f),
        Error::ArgumentPatternMismatch {
            argument,
            recipe,
            parameter,
            pattern,
        } => tell_pattern(
            argument.as_str(),
            recipe.as_str(),
            parameter.as_str(),
            pattern.as_slice(),
            f,
        ),
        Error::EmptyListArgument { recipe, parameter } => tell_part(
            recipe,
            " parameter ",
            parameter,
            " requires at least one element but received empty list",
            f,
        ),
        _ => Err(fmt::Error),
    }
}

/// What is told of how a recipe ended; no other error is told here.
fn tell_end<W: fmt::Write>(error: &Error, f: &mut fmt::Formatter<W>) -> fmt::Result
    ensures { WritesOnOk W.write_str_gives f.old result (error_text error.now) f.new }
{
    match error {
        Error::Code {
            recipe,
            line,
            code,
            ..
        } => {
            tell_failed(recipe, line, f)?;
            tell_code(code, f)
        }
        Error::GuardCode { recipe, line, code } => tell_guard(recipe, *line, code, f),
        Error::Signal {
            recipe,
            line,
            signal,
        } => {
            tell_terminated(recipe, line, f)?;
            tell_signal(signal, f)
        }
        Error::Unknown { recipe, line } => {
            tell_failed(recipe, line, f)?;
            f.write_str(" for an unknown reason")
        }
        Error::NotConfirmed { recipe } => {
            tell_naming("recipe ", recipe.as_str(), " was not confirmed", f)
        }
        Error::Interrupted(signal) => write!(f, "error: interrupted by {signal}"),
        _ => Err(fmt::Error),
    }
}

/// What is told of a child that wasn't run; no other error is told here.
fn tell_child<W: fmt::Write>(error: &Error, f: &mut fmt::Formatter<W>) -> fmt::Result
    ensures { WritesOnOk W.write_str_gives f.old result (error_text error.now) f.new }
{
    match error {
        Error::InvalidShebang { recipe, shebang } => {
            tell_part(recipe, " has invalid shebang ", shebang, "", f)
        }
        Error::ShellIo { recipe, shell, io } => tell_shell(recipe, shell, *io, f),
        Error::Script {
            recipe,
            command,
            io,
        } => tell_script(recipe, command, *io, f),
        Error::Shebang {
            recipe,
            command,
            argument,
            io,
        } => tell_shebang(recipe, command.as_str(), argument, *io, f),
        Error::TempdirIo { recipe, io } => tell_folder(recipe, *io, f),
        _ => Err(fmt::Error),
    }
}

/// What is told of a recipe's cache; no other error is told here.
fn tell_cache<W: fmt::Write>(error: &Error, f: &mut fmt::Formatter<W>) -> fmt::Result
    ensures { WritesOnOk W.write_str_gives f.old result (error_text error.now) f.new }
{
    match error {
        Error::CacheInputMissing { path } => {
            tell_naming("cache input does not exist: ", path.as_str(), "", f)
        }
        Error::CacheInputDirectory { path } => {
            tell_naming("cache input is directory: ", path.as_str(), "", f)
        }
        Error::CacheOutputMissing { recipe, output } => {
            tell_part(recipe, " failed to create cache output ", output, "", f)
        }
        Error::CacheEntryWrite { path, io } => {
            tell_at("failed to write cache entry at ", path.as_str(), *io, f)
        }
        _ => Err(fmt::Error),
    }
}

impl fmt::Display for Error {
    ghost output = { λ e. Some (error_text e) };

    /// The error as it is told, without a newline at its end; a count of arguments has the usage of its recipe on further lines.
    fn fmt<W: fmt::Write>(&self, f: &mut fmt::Formatter<W>) -> fmt::Result {
        match self {
            Error::Usage(_)
            | Error::Config(_)
            | Error::CurrentDir { .. }
            | Error::Search(_)
            | Error::NoMemory => tell_start(self, f),
            Error::Load { .. }
            | Error::FilesystemIo { .. }
            | Error::StdoutIo { .. }
            | Error::GetConfirmation { .. }
            | Error::InitExists { .. }
            | Error::WriteJustfile { .. } => tell_access(self, f),
            Error::MissingImportFile
            | Error::CircularImport { .. }
            | Error::MissingModuleFile { .. }
            | Error::AmbiguousModuleFile { .. }
            | Error::Homedir
            | Error::Compile(_)
            | Error::Const { .. } => tell_source(self, f),
            Error::UnstableFeature(_)
            | Error::DotenvRequired
            | Error::Dotenv { .. }
            | Error::DotenvArgumentsRequireLists
            | Error::DotenvCommand { .. }
            | Error::UnknownOverrides { .. }
            | Error::FunctionCall { .. } => tell_variables(self, f),
            Error::NoRecipes
            | Error::NoDefaultRecipe
            | Error::DefaultRecipeRequiresArguments { .. }
            | Error::ExcessInvocations { .. }
            | Error::ClosureLimit => tell_request(self, f),
            Error::RecipeRequired { .. }
            | Error::UnknownGroup { .. }
            | Error::EvalUnknownSubmodule { .. }
            | Error::EvalUnknownSubmoduleOrVariable { .. }
            | Error::FormatCheckFoundDiff => tell_command_refused(self, f),
            Error::NoChoosableRecipes
            | Error::ChooserInvoke { .. }
            | Error::ChooserRead { .. }
            | Error::ChooserWrite { .. }
            | Error::ChooserStatus { .. } => tell_chooser(self, f),
            Error::EditorInvoke { .. }
            | Error::EditorStatus { .. }
            | Error::CommandInvoke { .. }
            | Error::CommandStatus { .. } => tell_alone(self, f),
            Error::UnknownRecipe { .. }
            | Error::UnknownSubmodule { .. }
            | Error::ModuleAbsent { .. }
            | Error::RecipeDisabled { .. }
            | Error::AliasDisabled { .. }
            | Error::ExpectedSubmoduleButFoundRecipe { .. } => tell_name(self, f),
            Error::UnknownOption { .. }
            | Error::InvalidOption { .. }
            | Error::FlagWithValue { .. }
            | Error::NonFinalOptionWithValue { .. }
            | Error::OptionMissingValue { .. }
            | Error::DuplicateOption { .. }
            | Error::MissingOption { .. } => tell_option(self, f),
            Error::PositionalArgumentCountMismatch { .. }
            | Error::ArgumentTooFewValues { .. }
            | Error::ArgumentTooManyValues { .. }
            | Error::ArgumentPatternMismatch { .. }
            | Error::EmptyListArgument { .. } => tell_argument(self, f),
            Error::Code { .. }
            | Error::GuardCode { .. }
            | Error::Signal { .. }
            | Error::Unknown { .. }
            | Error::NotConfirmed { .. }
            | Error::Interrupted(_) => tell_end(self, f),
            Error::InvalidShebang { .. }
            | Error::ShellIo { .. }
            | Error::Script { .. }
            | Error::Shebang { .. }
            | Error::TempdirIo { .. } => tell_child(self, f),
            Error::CacheInputMissing { .. }
            | Error::CacheInputDirectory { .. }
            | Error::CacheOutputMissing { .. }
            | Error::CacheEntryWrite { .. } => tell_cache(self, f),
        }
    }
}

impl fmt::Debug for Error {
    /// The text of the error, as it is told.
    fn fmt<W: fmt::Write>(&self, f: &mut fmt::Formatter<W>) -> fmt::Result {
        write!(f, "{self}")
    }
}

impl std::error::Error for Error {}
