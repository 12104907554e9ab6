//! Copies of attributes and bodies, with their strings expanded.
ghost use Rattle.std.specs.Prelude.{◌≡◌, IfOk};
ghost use Rattle.just_lang_shapes.specs.Expansions.{expanded_attributes, expanded_lines};

use super::expansions::{Expand, expanded_each, expanded_expr};
use just_lang_syntax::{Argument, Attribute, Fragment, Line};
use just_lang_types::Texts;
use just_path_text::{NoMemory, Seq, TryClone};
use std::alloc::Global;

impl Expand for Argument {
    ghost use Rattle.just_lang_shapes.specs.Expansions.{expanded_argument};

    ghost expansion = { λ text_of x. expanded_argument text_of x };

    fn expanded<T: Texts>(&self, alloc: Global, texts: &T) -> Result<Argument, NoMemory> {
        let key = self.key.try_clone()?;
        let value = expanded_expr(alloc, texts, &self.value)?;
        Ok(Argument {
            key,
            line: self.line,
            column: self.column,
            value,
        })
    }
}

impl Expand for Attribute {
    ghost use Rattle.just_lang_shapes.specs.Expansions.{expanded_attribute};

    ghost expansion = { λ text_of x. expanded_attribute text_of x };

    fn expanded<T: Texts>(&self, alloc: Global, texts: &T) -> Result<Attribute, NoMemory> {
        let arguments = expanded_each(alloc, texts, self.arguments.as_slice())?;
        let name = self.name.try_clone()?;
        let comment = self.comment.try_clone()?;
        Ok(Attribute {
            name,
            colon: self.colon,
            arguments,
            comment,
        })
    }
}

impl Expand for Fragment {
    ghost use Rattle.just_lang_shapes.specs.Expansions.{expanded_fragment};

    ghost expansion = { λ text_of x. expanded_fragment text_of x };

    fn expanded<T: Texts>(&self, alloc: Global, texts: &T) -> Result<Fragment, NoMemory> {
        match self {
            Fragment::Text(text) => Ok(Fragment::Text(text.try_clone()?)),
            Fragment::Value(value) => Ok(Fragment::Value(expanded_expr(alloc, texts, value)?)),
        }
    }
}

impl Expand for Line {
    ghost use Rattle.just_lang_shapes.specs.Expansions.{expanded_line};

    ghost expansion = { λ text_of x. expanded_line text_of x };

    fn expanded<T: Texts>(&self, alloc: Global, texts: &T) -> Result<Line, NoMemory> {
        let fragments = expanded_each(alloc, texts, self.fragments.as_slice())?;
        Ok(Line {
            number: self.number,
            fragments,
        })
    }
}

/// Attributes with their strings expanded.
pub(crate) fn expanded_attributes<T: Texts>(
    alloc: Global,
    texts: &T,
    attributes: &[Attribute],
) -> Result<Seq<Attribute>, NoMemory>
    ensures { IfOk result (λ all. all ≡ expanded_attributes (T.text_of texts.now) attributes.now) }
{
    expanded_each(alloc, texts, attributes)
}

/// The lines of a body with their strings expanded.
pub(crate) fn expanded_lines<T: Texts>(
    alloc: Global,
    texts: &T,
    lines: &[Line],
) -> Result<Seq<Line>, NoMemory>
    ensures { IfOk result (λ all. all ≡ expanded_lines (T.text_of texts.now) lines.now) }
{
    expanded_each(alloc, texts, lines)
}
