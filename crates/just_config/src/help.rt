//! The text of the help.

/// The text of the help: how the program is called, then a line for each option and command, in the order of the table, with its names, the
/// short one last. It tells none of `--help`, `--version` and `--vectors`.
pub const HELP: &str = "\
usage: just [OPTIONS] [ARGUMENTS]...\n\
\x20   --allow-missing\n\
\x20   --check\n\
\x20   --clear-shell-args\n\
\x20   --default-list\n\
\x20   --dry-run, -n\n\
\x20   --explain\n\
\x20   --global-justfile, -g\n\
\x20   --list-submodules\n\
\x20   --no-aliases\n\
\x20   --no-cache\n\
\x20   --no-deps, --no-dependencies\n\
\x20   --no-dotenv\n\
\x20   --one\n\
\x20   --quiet, -q\n\
\x20   --shell-command\n\
\x20   --unsorted, -u\n\
\x20   --unstable\n\
\x20   --verbose, -v\n\
\x20   --yes\n\
\x20   --complete-aliases\n\
\x20   --highlight\n\
\x20   --no-highlight\n\
\x20   --alias-style\n\
\x20   --ceiling\n\
\x20   --chooser\n\
\x20   --dump-format\n\
\x20   --evaluate-format\n\
\x20   --indentation\n\
\x20   --jobs\n\
\x20   --justfile, -f\n\
\x20   --list-heading\n\
\x20   --list-prefix\n\
\x20   --shell\n\
\x20   --tempdir\n\
\x20   --working-directory, -d\n\
\x20   --color\n\
\x20   --command-color\n\
\x20   --cygpath\n\
\x20   --dotenv-command\n\
\x20   --dotenv-filename, -F\n\
\x20   --dotenv-path, -E\n\
\x20   --group\n\
\x20   --justfile-name\n\
\x20   --shell-arg\n\
\x20   --set\n\
\x20   --choose\n\
\x20   --clean\n\
\x20   --command, -c\n\
\x20   --dump\n\
\x20   --edit, -e\n\
\x20   --evaluate, --eval\n\
\x20   --fmt, --format\n\
\x20   --groups\n\
\x20   --init, --initialize\n\
\x20   --list, -l\n\
\x20   --request\n\
\x20   --show, -s\n\
\x20   --summary\n\
\x20   --usage\n\
\x20   --variables\n";
