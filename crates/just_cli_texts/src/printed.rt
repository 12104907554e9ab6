//! What a command prints.

use just_path_text::Text;

/// What a command prints.
#[derive(Drop)]
pub struct Printed {
    /// The text for standard output.
    pub text: Text,
    /// What is told beside it on standard error, unless the words ask for quiet.
    pub told: Option<Text>,
}
