//! What is read of words, as a text.

use crate::shown::Shown;
use just_config_words::{Arguments, Read, Subcommand, Usage, UsageKind};
use just_path_text::{Seq, Text};
use std::alloc::Global;

/// What is read of words, as a text. The call of `drop` stands in place of a walk through all fields of the arguments at the
/// scope's end. It promises nothing beyond safety.
pub(crate) fn read_shown(alloc: Global, answer: Result<Read, Usage>) -> Shown {
    let mut shown = Shown::new(alloc);
    match &answer {
        Ok(Read::Help) => shown.add("help"),
        Ok(Read::Version) => shown.add("version"),
        Ok(Read::Go(arguments)) => add_arguments(alloc, &mut shown, arguments),
        Err(usage) => add_usage(&mut shown, usage),
    }
    drop(answer);
    shown
}

/// Shows a refusal.
fn add_usage(shown: &mut Shown, usage: &Usage) {
    shown.add(kind_name(usage.kind));
    shown.add(" ");
    shown.add(usage.word.as_str());
}

/// The name of a kind.
fn kind_name(kind: UsageKind) -> &'static str {
    match kind {
        UsageKind::Unknown => "Unknown",
        UsageKind::LeftOut => "LeftOut",
        UsageKind::MissingValue => "MissingValue",
        UsageKind::UnexpectedValue => "UnexpectedValue",
        UsageKind::BadValue => "BadValue",
        UsageKind::Repeated => "Repeated",
        UsageKind::Conflict => "Conflict",
        UsageKind::Requires => "Requires",
        UsageKind::NoMemory => "NoMemory",
    }
}

/// Shows what is set.
fn add_arguments(alloc: Global, shown: &mut Shown, arguments: &Arguments) {
    add_flags(shown, arguments);
    add_numbers(alloc, shown, arguments);
    add_one_values(shown, arguments);
    add_lists(shown, arguments);
    if let Some(subcommand) = &arguments.subcommand {
        let (name, words) = command(subcommand);
        shown.add(name);
        shown.add(":");
        add_texts(shown, words);
        shown.add(";");
    }
}

/// Shows a name, where it is set.
fn add_flag(shown: &mut Shown, name: &str, is_set: bool) {
    if is_set {
        shown.add(name);
        shown.add(";");
    }
}

/// Shows a name with its value, where there is one.
fn add_value(shown: &mut Shown, name: &str, value: &Option<Text>) {
    if let Some(value) = value {
        shown.add(name);
        shown.add("=");
        shown.add(value.as_str());
        shown.add(";");
    }
}

/// Shows a name with its values, where there are some.
fn add_values(shown: &mut Shown, name: &str, values: &Seq<Text>) {
    if !values.is_empty() {
        shown.add(name);
        shown.add("=");
        add_texts(shown, values);
        shown.add(";");
    }
}

/// Shows texts with commas between.
fn add_texts(shown: &mut Shown, values: &Seq<Text>) {
    let mut is_first = true;
    for value in values.as_slice() {
        if !is_first {
            shown.add(",");
        }
        is_first = false;
        shown.add(value.as_str());
    }
}

/// Shows the flags that are set.
fn add_flags(shown: &mut Shown, a: &Arguments) {
    let flags = [
        ("allow-missing", a.allow_missing),
        ("check", a.check),
        ("clear-shell-args", a.clear_shell_args),
        ("default-list", a.default_list),
        ("dry-run", a.dry_run),
        ("explain", a.explain),
        ("global-justfile", a.global_justfile),
        ("list-submodules", a.list_submodules),
        ("no-aliases", a.no_aliases),
        ("no-cache", a.no_cache),
        ("no-deps", a.no_deps),
        ("no-dotenv", a.no_dotenv),
        ("one", a.one),
        ("quiet", a.quiet),
        ("shell-command", a.shell_command),
        ("unsorted", a.unsorted),
        ("unstable", a.unstable),
        ("yes", a.yes),
        ("complete-aliases", a.complete_aliases),
        ("highlight", a.highlight),
        ("no-highlight", a.no_highlight),
    ];
    for (name, is_set) in flags {
        add_flag(shown, name, is_set);
    }
}

/// Shows what is counted.
fn add_numbers(alloc: Global, shown: &mut Shown, a: &Arguments) {
    if a.verbose > 0 {
        let verbose = a.verbose;
        shown.add_made(format!(in alloc; "verbose={verbose};"));
    }
    if let Some(jobs) = a.jobs {
        let jobs = jobs.get();
        shown.add_made(format!(in alloc; "jobs={jobs};"));
    }
}

/// Shows the values that are set.
fn add_one_values(shown: &mut Shown, a: &Arguments) {
    let values = [
        ("alias-style", &a.alias_style),
        ("ceiling", &a.ceiling),
        ("chooser", &a.chooser),
        ("dump-format", &a.dump_format),
        ("evaluate-format", &a.evaluate_format),
        ("indentation", &a.indentation),
        ("justfile", &a.justfile),
        ("list-heading", &a.list_heading),
        ("list-prefix", &a.list_prefix),
        ("shell", &a.shell),
        ("tempdir", &a.tempdir),
        ("working-directory", &a.working_directory),
        ("color", &a.color),
        ("command-color", &a.command_color),
        ("cygpath", &a.cygpath),
    ];
    for (name, value) in values {
        add_value(shown, name, value);
    }
}

/// Shows the lists that aren't empty.
fn add_lists(shown: &mut Shown, a: &Arguments) {
    let lists = [
        ("dotenv-command", &a.dotenv_command),
        ("dotenv-filename", &a.dotenv_filename),
        ("dotenv-path", &a.dotenv_path),
        ("group", &a.group),
        ("justfile-name", &a.justfile_name),
        ("shell-arg", &a.shell_arg),
        ("set", &a.set),
        ("arguments", &a.arguments),
    ];
    for (name, values) in lists {
        add_values(shown, name, values);
    }
}

/// A command's name and its words.
fn command(subcommand: &Subcommand) -> (&'static str, &Seq<Text>) {
    match subcommand {
        Subcommand::Choose(words) => ("choose", words),
        Subcommand::Clean(words) => ("clean", words),
        Subcommand::Command(words) => ("command", words),
        Subcommand::Dump(words) => ("dump", words),
        Subcommand::Edit(words) => ("edit", words),
        Subcommand::Evaluate(words) => ("evaluate", words),
        Subcommand::Fmt(words) => ("fmt", words),
        Subcommand::Groups(words) => ("groups", words),
        Subcommand::Init(words) => ("init", words),
        Subcommand::List(words) => ("list", words),
        Subcommand::Request(words) => ("request", words),
        Subcommand::Show(words) => ("show", words),
        Subcommand::Summary(words) => ("summary", words),
        Subcommand::Usage(words) => ("usage", words),
        Subcommand::Variables(words) => ("variables", words),
        Subcommand::Vectors(words) => ("vectors", words),
    }
}
