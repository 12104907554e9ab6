//! Where the user's own justfile may be.

use just_path::Utf8PathBuf;
use just_path_text::Text;

/// A folder, and the name under which the justfile is looked for in it.
#[derive(Drop)]
pub struct Place {
    pub folder: Utf8PathBuf,
    pub name: Text,
}
