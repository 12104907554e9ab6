//! What words lead to.

use just_lang_types::Recipe;
use just_lang_types::project::Justfile;

/// A recipe, and the module that it stands in.
#[derive(Clone, Copy)]
pub struct Found<'p> {
    pub parent: &'p Justfile,
    pub recipe: &'p Recipe,
}

/// What a word leads to.
#[derive(Clone, Copy)]
pub enum Target<'p> {
    Module(&'p Justfile),
    Recipe(Found<'p>),
}
