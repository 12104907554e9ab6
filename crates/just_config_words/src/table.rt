//! The table of options.
ghost use Rattle.std.specs.Prelude.{◌≡◌, ◌<◌, map, IfOk};
ghost use Rattle.just_config_words.specs.Table.{table, row_of, entry_named, entry_lettered};

use super::{Entry, Form, Kind, Values};
use just_path_text::{NoMemory, Text};
use std::alloc::Global;

/// A row of the table: an option's names, without dashes; what it is, and what it takes; and the variable that fills it.
#[derive(Clone, Copy)]
pub(crate) struct Row {
    pub name: &'static str,
    pub other: Option<&'static str>,
    pub short: Option<char>,
    pub kind: Kind,
    pub values: Values,
    pub form: Form,
    pub variable: Option<&'static str>,
}

macro_rules! row {
    ($name:literal, $other:expr, $short:expr, $kind:ident, $values:ident, $form:ident, $variable:expr) => {
        Row {
            name: $name,
            other: $other,
            short: $short,
            kind: Kind::$kind,
            values: Values::$values,
            form: Form::$form,
            variable: $variable,
        }
    };
}

/// Each option: its long names, its short one, what it is, what it takes, in which form, and its variable.
#[rattlefmt::skip]
static ROWS: [Row; 70] = [
    // Flags.
    row!("allow-missing", None, None, Flag, Nothing, Switch, Some("JUST_ALLOW_MISSING")),
    row!("check", None, None, Flag, Nothing, Switch, None),
    row!("clear-shell-args", None, None, Flag, Nothing, Switch, None),
    row!("default-list", None, None, Flag, Nothing, Switch, Some("JUST_DEFAULT_LIST")),
    row!("dry-run", None, Some('n'), Flag, Nothing, Switch, Some("JUST_DRY_RUN")),
    row!("explain", None, None, Flag, Nothing, Switch, Some("JUST_EXPLAIN")),
    row!("global-justfile", None, Some('g'), Flag, Nothing, Switch, None),
    row!("list-submodules", None, None, Flag, Nothing, Switch, Some("JUST_LIST_SUBMODULES")),
    row!("no-aliases", None, None, Flag, Nothing, Switch, Some("JUST_NO_ALIASES")),
    row!("no-cache", None, None, Flag, Nothing, Switch, Some("JUST_NO_CACHE")),
    row!("no-deps", Some("no-dependencies"), None, Flag, Nothing, Switch, Some("JUST_NO_DEPS")),
    row!("no-dotenv", None, None, Flag, Nothing, Switch, Some("JUST_NO_DOTENV")),
    row!("one", None, None, Flag, Nothing, Switch, Some("JUST_ONE")),
    row!("quiet", None, Some('q'), Flag, Nothing, Switch, Some("JUST_QUIET")),
    row!("shell-command", None, None, Flag, Nothing, Switch, None),
    row!("unsorted", None, Some('u'), Flag, Nothing, Switch, Some("JUST_UNSORTED")),
    row!("unstable", None, None, Flag, Nothing, LooseSwitch, Some("JUST_UNSTABLE")),
    row!("verbose", None, Some('v'), Counter, Nothing, Count, Some("JUST_VERBOSE")),
    row!("yes", None, None, Flag, Nothing, Switch, Some("JUST_YES")),
    row!("complete-aliases", None, None, Flag, Nothing, Switch, None),
    row!("highlight", None, None, Flag, Nothing, Switch, None),
    row!("no-highlight", None, None, Flag, Nothing, Switch, None),
    // One value.
    row!("alias-style", None, None, Single, One, AliasStyle, Some("JUST_ALIAS_STYLE")),
    row!("ceiling", None, None, Single, One, Text, Some("JUST_CEILING")),
    row!("chooser", None, None, Single, One, Text, Some("JUST_CHOOSER")),
    row!("dump-format", None, None, Single, One, DumpFormat, Some("JUST_DUMP_FORMAT")),
    row!("evaluate-format", None, None, Single, One, EvaluateFormat, Some("JUST_EVALUATE_FORMAT")),
    row!("indentation", None, None, Single, One, Indentation, Some("JUST_INDENTATION")),
    row!("jobs", None, None, Single, One, Jobs, Some("JUST_JOBS")),
    row!("justfile", None, Some('f'), Single, One, Text, Some("JUST_JUSTFILE")),
    row!("list-heading", None, None, Single, One, Text, Some("JUST_LIST_HEADING")),
    row!("list-prefix", None, None, Single, One, Text, Some("JUST_LIST_PREFIX")),
    row!("shell", None, None, Single, One, Text, None),
    row!("tempdir", None, None, Single, One, Text, Some("JUST_TEMPDIR")),
    row!("working-directory", None, Some('d'), Single, One, Text, Some("JUST_WORKING_DIRECTORY")),
    row!("color", None, None, Single, One, Text, None),
    row!("command-color", None, None, Single, One, Text, None),
    row!("cygpath", None, None, Single, One, Text, None),
    // Repeated values.
    row!("dotenv-command", None, None, Repeatable, One, Text, Some("JUST_DOTENV_COMMAND")),
    row!("dotenv-filename", None, Some('F'), Repeatable, One, Text, None),
    row!("dotenv-path", None, Some('E'), Repeatable, One, Text, None),
    row!("group", None, None, Repeatable, One, Text, Some("JUST_GROUP")),
    row!("justfile-name", None, None, Repeatable, One, Text, Some("JUST_JUSTFILE_NAME")),
    row!("shell-arg", None, None, Repeatable, Any, Text, None),
    row!("set", None, None, Repeatable, Two, Text, None),
    // Commands.
    row!("choose", None, None, Command, Nothing, Text, None),
    row!("clean", None, None, Command, Following, Text, None),
    row!("command", None, Some('c'), Command, Rest, Text, None),
    row!("dump", None, None, Command, Nothing, Text, None),
    row!("edit", None, Some('e'), Command, Nothing, Text, None),
    row!("evaluate", Some("eval"), None, Command, Nothing, Text, None),
    row!("fmt", Some("format"), None, Command, Nothing, Text, None),
    row!("groups", None, None, Command, Nothing, Text, None),
    row!("init", Some("initialize"), None, Command, Nothing, Text, None),
    row!("list", None, Some('l'), Command, Following, Text, None),
    row!("request", None, None, Command, One, Text, None),
    row!("show", None, Some('s'), Command, AtLeastOne, Text, None),
    row!("summary", None, None, Command, Nothing, Text, None),
    row!("usage", None, None, Command, AtLeastOne, Text, None),
    row!("variables", None, None, Command, Nothing, Text, None),
    row!("vectors", None, None, Command, One, Vectors, None),
    // Questions.
    row!("help", None, Some('h'), Help, Nothing, Text, None),
    row!("version", None, Some('V'), Version, Nothing, Text, None),
    // Left out.
    row!("changelog", None, None, LeftOut, Nothing, Text, None),
    row!("completions", None, None, LeftOut, Nothing, Text, None),
    row!("json", None, None, LeftOut, Nothing, Text, None),
    row!("man", None, None, LeftOut, Nothing, Text, None),
    row!("time", None, None, LeftOut, Nothing, Text, None),
    row!("timestamp", None, None, LeftOut, Nothing, Text, None),
    row!("timestamp-format", None, None, LeftOut, Nothing, Text, None),
];

/// The rows of the table, in its order.
#[tactic(auto, unfolding(crate::specs::Table::table))]
pub(crate) fn rows() -> &'static [Row]
    ensures { map row_of result.now ≡ table }
{
    &ROWS
}

impl Row {
    ghost use Rattle.std.specs.Prelude.{◌||◌, IfOk};
    ghost use Rattle.std.specs.Str.{bytes_eq};
    ghost use Rattle.just_config_words.specs.Table.{is_text, other_in};

    /// The option of the row.
    pub(crate) fn entry(&self, alloc: Global) -> Result<Entry, NoMemory>
        ensures { IfOk result (λ e. e ≡ record { name = self.now.name.now; kind = self.now.kind; values = self.now.values; form = self.now.form }) }
    {
        Ok(Entry {
            name: Text::from_str(alloc, self.name)?,
            kind: self.kind,
            values: self.values,
            form: self.form,
        })
    }

    /// Whether it is one of its long names.
    fn has_name(&self, name: &str) -> bool
        ensures { result ≡ (bytes_eq self.now.name.now name.now || is_text (other_in self.now) name.now) }
    {
        if self.name == name {
            return true;
        }
        match self.other {
            Some(other) => other == name,
            None => false,
        }
    }
}

/// The option of that long name.
pub(crate) fn entry_named(alloc: Global, name: &str) -> Result<Option<Entry>, NoMemory>
    ensures { IfOk result (λ e. e ≡ entry_named name.now) }
{
    'rows: for row in rows() {
        if row.has_name(name) {
            return Ok(Some(row.entry(alloc)?));
        }
    }
    Ok(None)
}

/// The option of that short name.
pub(crate) fn entry_lettered(alloc: Global, letter: char) -> Result<Option<Entry>, NoMemory>
    requires { letter < 128 }
    ensures { IfOk result (λ e. e ≡ entry_lettered letter) }
{
    'rows: for row in rows() {
        if let Some(short) = row.short {
            if short == letter {
                return Ok(Some(row.entry(alloc)?));
            }
        }
    }
    Ok(None)
}
