//! The text of a new justfile.

/// The text of the justfile that `--init` writes.
pub const INIT_JUSTFILE: &str = "# https://just.systems\n\ndefault:\n    echo 'Hello, world!'\n";
