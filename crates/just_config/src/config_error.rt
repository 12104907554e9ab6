//! Why arguments give no configuration.
ghost use Rattle.std.specs.Prelude.{◌≡◌, ◌++◌, Some, codes, length};
ghost use Rattle.std.specs.Fmt.{DisplaysOnOk};
ghost use Rattle.just_print.specs.SmallTexts.{list_text, plural, ticked};
ghost use Rattle.just_config.specs.Texts.{error_text, internal_text, use_text, used_with};

use just_path_text::{NoMemory, Seq, Text};
use just_print::List;
use std::fmt;

/// Why arguments give no configuration.
#[derive(Drop)]
pub enum ConfigError {
    /// The name of an override is no path of a variable.
    OverridePath {
        path: Text,
    },
    /// Arguments that words can't give; what is wrong with them.
    Internal {
        message: Text,
    },
    /// A search folder beside `--global-justfile`, `--justfile` or `--working-directory`.
    SearchDirConflict,
    /// The words of a command are no module path; they are joined with blanks.
    ModulePath {
        path: Text,
    },
    /// The text of `--request` is no request.
    RequestParse,
    /// The arguments that the command doesn't take.
    SubcommandArguments {
        subcommand: Text,
        arguments: Seq<Text>,
    },
    /// The overrides that the command doesn't take: each variable once, as `module::name=value` with its last value, ordered by module path and then by name.
    SubcommandOverrides {
        subcommand: Text,
        overrides: Seq<Text>,
    },
    /// The overrides and the arguments that the command doesn't take, the overrides as in `SubcommandOverrides`.
    SubcommandOverridesAndArguments {
        subcommand: Text,
        overrides: Seq<Text>,
        arguments: Seq<Text>,
    },
    /// Want of memory.
    NoMemory,
}

impl From<NoMemory> for ConfigError {
    ghost use Rattle.just_config.specs.declared.config_error.ConfigError.TheVariants as error;
    ghost use Rattle.std.specs.Prelude.{◌≡◌};

    ghost from_gives = { λ m e. e ≡ error.NoMemory };

    fn from(_: NoMemory) -> ConfigError {
        ConfigError::NoMemory
    }
}

/// Writes that a name of an override is no path of a variable.
fn write_override_path<W: fmt::Write>(path: &Text, f: &mut fmt::Formatter<W>) -> fmt::Result
    ensures { DisplaysOnOk W.write_str_gives f.old result
        (Some (codes "error: invalid override path " ++ ticked path.now)) f.new }
{
    write!(f, "error: invalid override path `{}`", path.as_str())
}

/// Writes that words are no module path.
fn write_module_path<W: fmt::Write>(path: &Text, f: &mut fmt::Formatter<W>) -> fmt::Result
    ensures { DisplaysOnOk W.write_str_gives f.old result
        (Some (codes "error: invalid module path " ++ ticked path.now)) f.new }
{
    write!(f, "error: invalid module path `{}`", path.as_str())
}

/// Writes which command was used with something.
fn write_command<W: fmt::Write>(subcommand: &Text, f: &mut fmt::Formatter<W>) -> fmt::Result
    ensures { DisplaysOnOk W.write_str_gives f.old result (Some (use_text subcommand.now)) f.new }
{
    write!(
        f,
        "error: `--{}` used with unexpected ",
        subcommand.as_str()
    )
}

/// Writes texts behind a colon.
fn write_texts<W: fmt::Write>(texts: &[Text], f: &mut fmt::Formatter<W>) -> fmt::Result
    ensures { DisplaysOnOk W.write_str_gives f.old result (Some (codes ": " ++ list_text (codes "and") texts.now)) f.new }
{
    let list = List::and_ticked(texts);
    write!(f, ": {list}")
}

/// Writes that a command was used with something.
fn write_use<W: fmt::Write>(
    subcommand: &Text,
    surplus: &str,
    texts: &[Text],
    f: &mut fmt::Formatter<W>,
) -> fmt::Result
    ensures { DisplaysOnOk W.write_str_gives f.old result (Some (used_with subcommand.now surplus.now texts.now)) f.new }
{
    write_command(subcommand, f)?;
    f.write_str(surplus)?;
    write_texts(texts, f)
}

/// Writes which arguments there are beside overrides.
fn write_also<W: fmt::Write>(texts: &[Text], f: &mut fmt::Formatter<W>) -> fmt::Result
    ensures { DisplaysOnOk W.write_str_gives f.old result (Some (codes "; and arguments: " ++ list_text (codes "and") texts.now)) f.new }
{
    let list = List::and_ticked(texts);
    write!(f, "; and arguments: {list}")
}

/// `argument` for one text, else `arguments`.
fn arguments_noun(texts: &Seq<Text>) -> &'static str
    ensures { result.now ≡ plural (codes "argument") (length texts.now) }
{
    if texts.len() == 1 {
        "argument"
    } else {
        "arguments"
    }
}

/// Writes that something is wrong with hand-made arguments.
fn write_internal<W: fmt::Write>(message: &Text, f: &mut fmt::Formatter<W>) -> fmt::Result
    ensures { DisplaysOnOk W.write_str_gives f.old result (Some (internal_text message.now)) f.new }
{
    write!(
        f,
        "error: internal config error, this may indicate a bug in just: {} consider filing an issue: https://github.com/casey/just/issues/new",
        message.as_str()
    )
}

impl fmt::Display for ConfigError {
    ghost output = { λ e. Some (error_text e) };

    /// One line without its end.
    fn fmt<W: fmt::Write>(&self, f: &mut fmt::Formatter<W>) -> fmt::Result {
        match self {
            ConfigError::OverridePath { path } => write_override_path(path, f),
            ConfigError::Internal { message } => write_internal(message, f),
            ConfigError::SearchDirConflict => f.write_str(
                "error: path-prefixed recipes may not be used with `--global-justfile`, `--working-directory`, or `--justfile`",
            ),
            ConfigError::ModulePath { path } => write_module_path(path, f),
            ConfigError::RequestParse => {
                f.write_str("error: failed to parse request: invalid JSON")
            }
            ConfigError::SubcommandArguments {
                subcommand,
                arguments,
            } => write_use(
                subcommand,
                arguments_noun(arguments),
                arguments.as_slice(),
                f,
            ),
            ConfigError::SubcommandOverrides {
                subcommand,
                overrides,
            } => write_use(subcommand, "overrides", overrides.as_slice(), f),
            ConfigError::SubcommandOverridesAndArguments {
                subcommand,
                overrides,
                arguments,
            } => {
                write_use(subcommand, "overrides", overrides.as_slice(), f)?;
                write_also(arguments.as_slice(), f)
            }
            ConfigError::NoMemory => f.write_str("error: out of memory"),
        }
    }
}
