//! Variables with their values, and how they are printed.

use just_path_text::Text;

/// A variable with its value.
pub struct Evaluated {
    pub name: Text,
    pub text: Text,
}

impl Drop for Evaluated {
    fn drop(self) {
        let Evaluated { name: _, text: _ } = self;
    }
}

/// How variables are printed.
#[derive(Clone, Copy)]
pub enum EvaluateFormat {
    /// As assignments of a justfile.
    Just,
    /// As assignments of a shell.
    Shell,
}
