//! The texts that strings mean over an environment.
ghost use Rattle.std.specs.Prelude.{◌≡◌, IfOk, Option, List, ℕ};
ghost use Rattle.just_lang_layout.specs.Paths.{Means};
ghost use Rattle.just_lang_rulebook.specs.Meant.{meant};

use just_lang_layout::meaning;
use just_lang_syntax::StringLiteral;
use just_lang_types::Texts;
use just_path_text::{Environ, NoMemory, Text};
use std::alloc::Global;

/// The text that a string means, with an `x` in front expanded over the environment; none where it can't be.
#[tactic(auto, using(crate::proofs::MeantLaws::is_meant, crate::proofs::MeantLaws::meant_means))]
pub fn text_meant(
    alloc: Global,
    environ: &Environ,
    literal: &StringLiteral,
) -> Result<Option<Text>, NoMemory>
    ensures text { IfOk result (λ t. t ≡ meant environ.now.pairs literal.now) }
    // It means this text, and no other.
    ensures means { Means environ.now.pairs literal.now (meant environ.now.pairs literal.now) }
    ensures only { (other : Option (List ℕ)) → Means environ.now.pairs literal.now other → other ≡ meant environ.now.pairs literal.now }
{
    meaning(alloc, environ, literal)
}

/// What strings mean over an environment.
#[derive(Clone, Copy, Drop)]
pub struct Meanings<'a> {
    pub environ: &'a Environ,
}

impl<'a> Texts for Meanings<'a> {
    ghost use Rattle.just_lang_rulebook.specs.Meant.{meant};

    ghost text_of = { λ m x. meant m.environ.now.pairs x };

    fn text(&self, alloc: Global, literal: &StringLiteral) -> Result<Option<Text>, NoMemory> {
        text_meant(alloc, self.environ, literal)
    }
}
