//! What changes in the environment of children.

use just_env::Environment;
use just_lang_types::{Binding, Level, Scope, Settings, Value};
use just_path_text::{NoMemory, Seq, Text};
use std::alloc::{AllocError, Global};

/// A variable: its name, its text, and whether it is exported.
type Variable = (&'static str, &'static str, bool);

/// Those texts, in that order.
fn texts(alloc: Global, words: &[&str]) -> Result<Vec<Text>, NoMemory> {
    let mut texts = Vec::new(alloc);
    for word in words {
        texts.push(Text::from_str(alloc, word)?)?;
    }
    Ok(texts)
}

/// A variable with a text; with a value without elements, where the text is empty.
fn binding(alloc: Global, variable: &Variable) -> Result<Binding, NoMemory> {
    let (name, text, export) = *variable;
    let elements = if text.is_empty() {
        Vec::new(alloc)
    } else {
        texts(alloc, &[text])?
    };
    Ok(Binding {
        name: Text::from_str(alloc, name)?,
        value: Value {
            elements: Seq::from(elements),
        },
        export,
    })
}

/// Adds a level of those variables.
fn push_level(
    alloc: Global,
    levels: &mut Vec<Level>,
    prelude: bool,
    variables: &[Variable],
) -> Result<(), NoMemory> {
    let mut bindings = Vec::new(alloc);
    for variable in variables {
        bindings.push(binding(alloc, variable)?)?;
    }
    levels.push(Level {
        bindings: Seq::from(bindings),
        prelude,
    })?;
    Ok(())
}

/// The constants.
const CONSTANTS: [Variable; 1] = [("HEX", "0", false)];

/// The variables of the outer module.
const OUTER: [Variable; 4] = [
    ("A", "x", true),
    ("B", "x", true),
    ("D", "x", false),
    ("E", "x", true),
];

/// The variables of the inner module.
const INNER: [Variable; 3] = [("A", "y", true), ("E", "", true), ("G", "z", true)];

/// The parameters.
const PARAMETERS: [Variable; 1] = [("F", "x", true)];

/// Constants, the variables of two modules, one in the other, and parameters.
fn scope(alloc: Global) -> Result<Scope, NoMemory> {
    let mut levels = Vec::new(alloc);
    push_level(alloc, &mut levels, true, &CONSTANTS)?;
    push_level(alloc, &mut levels, false, &OUTER)?;
    push_level(alloc, &mut levels, false, &INNER)?;
    push_level(alloc, &mut levels, false, &PARAMETERS)?;
    Ok(Scope {
        levels: Seq::from(levels),
    })
}

/// Settings of which all but `export` are as they are where nothing is set.
fn settings(export: bool) -> Settings {
    Settings {
        allow_duplicate_recipes: false,
        allow_duplicate_variables: false,
        default_list: false,
        dotenv_load: false,
        dotenv_override: false,
        dotenv_required: false,
        export,
        fallback: false,
        guards: false,
        ignore_comments: false,
        lists: false,
        no_cd: false,
        no_exit_message: false,
        positional_arguments: false,
        quiet: false,
        unstable: false,
        windows_powershell: false,
        dotenv_command: None,
        dotenv_filename: None,
        dotenv_path: None,
        indentation: None,
        tempdir: None,
        working_directory: None,
        shell: None,
        script_interpreter: None,
        windows_shell: None,
    }
}

/// The pair of a name and the text `file`.
fn pair(alloc: Global, name: &str) -> Result<(Text, Text), NoMemory> {
    let name = Text::from_str(alloc, name)?;
    Ok((name, Text::from_str(alloc, "file")?))
}

/// The dotenv pairs.
fn pairs(alloc: Global) -> Result<Vec<(Text, Text)>, NoMemory> {
    let mut pairs = Vec::new(alloc);
    for name in ["C", "B", "A"] {
        pairs.push(pair(alloc, name)?)?;
    }
    Ok(pairs)
}

/// Adds a change: the name with what it gets, or with `-` where it is taken out.
fn push_change(all: &mut String, change: &(Text, Option<Text>)) -> Result<(), AllocError> {
    let name = change.0.as_str();
    match &change.1 {
        Some(text) => write!(all, "{name}={} ", text.as_str()),
        None => write!(all, "{name}- "),
    }
}

/// Changes as a text.
fn shown(alloc: Global, changes: &[(Text, Option<Text>)]) -> Result<String, AllocError> {
    let mut all = String::new(alloc);
    for change in changes {
        push_change(&mut all, change)?;
    }
    Ok(all)
}

/// What changes over those pairs, in that scope and under those settings, where some names are taken out.
fn changed_in(
    alloc: Global,
    pairs: &[(Text, Text)],
    scope: &Scope,
    settings: &Settings,
    unexports: &[Text],
) -> Result<String, NoMemory> {
    let environment = Environment::new(alloc, pairs, scope, settings, unexports)?;
    Ok(shown(alloc, environment.changes())?)
}

/// What changes without or with `set export`, where `B` and `G` are taken out.
/// The one error is want of memory. No clause: it serves tests alone.
pub fn changed(alloc: Global, export: bool) -> Result<String, NoMemory> {
    let unexports = texts(alloc, &["B", "G"])?;
    let pairs = pairs(alloc)?;
    let scope = scope(alloc)?;
    let (pairs, unexports) = (pairs.as_slice(), unexports.as_slice());
    let settings = settings(export);
    let changed = changed_in(alloc, pairs, &scope, &settings, unexports);
    drop(settings);
    changed
}
