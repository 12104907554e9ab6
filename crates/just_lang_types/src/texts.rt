//! The texts that the strings of a justfile mean.
use just_lang_syntax::StringLiteral;
use just_path_text::{NoMemory, Text};
use std::alloc::Global;

/// What strings mean, as by the environment that those with an `x` in front are expanded over.
pub trait Texts {
    ghost use Rattle.std.specs.Prelude.{◌≡◌, IfOk, List, Option, ℕ};
    ghost use Rattle.just_lang_syntax.specs.declared.ast.StringLiteral.{StringLiteral};

    ghost text_of: { Self → StringLiteral → Option (List ℕ) };

    /// The text of a string; none where it has none, as where it can't be expanded.
    fn text(&self, alloc: Global, literal: &StringLiteral) -> Result<Option<Text>, NoMemory>
        ensures { IfOk result (λ t. t ≡ text_of self.now literal.now) };
}
