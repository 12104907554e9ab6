//! The rules that `arg` is for a parameter that there is.
ghost use Rattle.std.specs.Prelude.{◌≡◌, map};
ghost use Rattle.just_lang_spots.specs.Repeated.{is_among};
ghost use Rattle.just_lang_rules.specs.AttributeSpots.{is_stranger};

use just_lang_spots::{Rule, Spot, argument_spot, first_among, spot_where};
use just_lang_syntax::{AstItem, AstParameter, Attribute};
use just_lang_types::{Texts, const_text};
use just_path_text::{NoMemory, Text};
use std::alloc::Global;

/// Whether a parameter has the name.
fn is_parameter(parameters: &[AstParameter], name: &str) -> bool
    ensures { result ≡ is_among name.now (map (λ p. p.name.text) parameters.now) }
{
    'parameters: for parameter in parameters {
        if parameter.name.text.as_str() == name {
            return true;
        }
    }
    false
}

/// Whether a name is there and no parameter has it.
fn is_stranger(parameters: &[AstParameter], name: &Option<Text>) -> bool
    ensures { result ≡ is_stranger (map (λ p. p.name.text) parameters.now) name.now }
{
    match name {
        None => false,
        Some(name) => !is_parameter(parameters, name.as_str()),
    }
}

/// The rule that an `arg` of a recipe with these parameters is for one of them.
#[derive(Clone, Copy, Drop)]
struct UnknownArg<'a, T> {
    texts: &'a T,
    parameters: &'a [AstParameter],
}

impl<'a, T: Texts> Rule<Attribute> for UnknownArg<'a, T> {
    ghost use Rattle.std.specs.Prelude.{map};
    ghost use Rattle.just_lang_rules.specs.AttributeSpots.{unknown_arg_of};

    ghost spots = { λ r file a. unknown_arg_of (T.text_of r.texts.now) file (map (λ p. p.name.text) r.parameters.now) a };

    fn first(
        &self,
        alloc: Global,
        file: usize,
        thing: &Attribute,
    ) -> Result<Option<Spot>, NoMemory> {
        if thing.name.text.as_str() != "arg" {
            return Ok(None);
        }
        match thing.arguments.as_slice() {
            [] => Ok(None),
            [argument, ..] => {
                let name = const_text(alloc, self.texts, &argument.value)?;
                let is_unknown = is_stranger(self.parameters, &name);
                Ok(spot_where(is_unknown, argument_spot(file, argument)))
            }
        }
    }
}

/// The rule that each `arg` is for a parameter that there is. Its place is the argument that names the parameter.
#[derive(Clone, Copy, Drop)]
pub struct UnknownArgParameter<'a, T> {
    pub texts: &'a T,
}

impl<'a, T: Texts> Rule<AstItem> for UnknownArgParameter<'a, T> {
    ghost use Rattle.just_lang_rules.specs.AttributeSpots.{unknown_args_of};

    ghost spots = { λ r file x. unknown_args_of (T.text_of r.texts.now) file x };

    fn first(&self, alloc: Global, file: usize, thing: &AstItem) -> Result<Option<Spot>, NoMemory> {
        match thing {
            AstItem::Recipe(recipe) => {
                let recipe = recipe.get();
                let rule = UnknownArg {
                    texts: self.texts,
                    parameters: recipe.parameters.as_slice(),
                };
                first_among(alloc, &rule, file, recipe.attributes.as_slice())
            }
            _ => Ok(None),
        }
    }
}
