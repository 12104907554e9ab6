//! The rule that no parameter that wants a value stands behind one with a default.
ghost use Rattle.std.specs.Prelude.{◌≡◌, ◌||◌, IfOk, false, is_some};
ghost use Rattle.just_lang_spots.specs.Spots.{first_spot};
ghost use Rattle.just_lang_rules.specs.ParameterSpots.{wants_value, is_misplaced, misplaced, required_behind};

use just_lang_spots::{Rule, Spot, earlier, name_spot, spot_where};
use just_lang_syntax::{AstItem, AstParameter, Attribute, ParameterKind};
use just_lang_types::{Texts, is_option};
use just_path_text::NoMemory;
use std::alloc::Global;

/// Whether the parameter has no default, and isn't one of any number.
fn wants_value(parameter: &AstParameter) -> bool
    ensures { result ≡ wants_value parameter.now }
{
    match parameter.kind {
        ParameterKind::Singular | ParameterKind::Plus => parameter.default.is_none(),
        ParameterKind::Star => false,
    }
}

/// Whether the parameter may not stand behind one with a default: it wants a value and is no option.
fn is_misplaced<T: Texts>(
    alloc: Global,
    texts: &T,
    attributes: &[Attribute],
    parameter: &AstParameter,
) -> Result<bool, NoMemory>
    ensures { IfOk result (λ b. b ≡ is_misplaced (T.text_of texts.now) attributes.now parameter.now) }
{
    if !wants_value(parameter) {
        return Ok(false);
    }
    Ok(!is_option(alloc, texts, attributes, parameter)?)
}

/// The place of the parameter, where one with a default stands before it and it may not stand there.
fn misplaced<T: Texts>(
    alloc: Global,
    texts: &T,
    attributes: &[Attribute],
    file: usize,
    behind: bool,
    parameter: &AstParameter,
) -> Result<Option<Spot>, NoMemory>
    ensures { IfOk result (λ s. s ≡ first_spot (misplaced (T.text_of texts.now) attributes.now file behind parameter.now)) }
{
    if !behind {
        return Ok(None);
    }
    let is_it = is_misplaced(alloc, texts, attributes, parameter)?;
    Ok(spot_where(is_it, name_spot(file, &parameter.name)))
}

/// Whether a parameter with a default is this one or stands before it, which `behind` tells.
fn is_behind(behind: bool, parameter: &AstParameter) -> bool
    ensures { result ≡ (behind || is_some parameter.now.default) }
{
    behind || parameter.default.is_some()
}

/// The first parameter of a recipe that may not stand where it does.
#[tactic(auto, using(just_lang_spots::proofs::Spots::earlier_none))]
fn first_required<T: Texts>(
    alloc: Global,
    texts: &T,
    attributes: &[Attribute],
    file: usize,
    parameters: &[AstParameter],
) -> Result<Option<Spot>, NoMemory>
    ensures { IfOk result (λ s. s ≡ first_spot (required_behind (T.text_of texts.now) attributes.now file false parameters.now)) }
{
    let mut found = None;
    let mut behind = false;
    'parameters: for parameter in parameters {
        let here = misplaced(alloc, texts, attributes, file, behind, parameter)?;
        found = earlier(found, here);
        behind = is_behind(behind, parameter);
    }
    Ok(found)
}

/// The rule that no parameter that wants a value stands behind one with a default; options may. Its place is the parameter's
/// name.
#[derive(Clone, Copy, Drop)]
pub struct RequiredParameterFollowsDefault<'a, T> {
    pub texts: &'a T,
}

impl<'a, T: Texts> Rule<AstItem> for RequiredParameterFollowsDefault<'a, T> {
    ghost use Rattle.just_lang_rules.specs.ParameterSpots.{required_follows_of};

    ghost spots = { λ r file x. required_follows_of (T.text_of r.texts.now) file x };

    fn first(&self, alloc: Global, file: usize, thing: &AstItem) -> Result<Option<Spot>, NoMemory> {
        match thing {
            AstItem::Recipe(recipe) => {
                let recipe = recipe.get();
                let attributes = recipe.attributes.as_slice();
                first_required(
                    alloc,
                    self.texts,
                    attributes,
                    file,
                    recipe.parameters.as_slice(),
                )
            }
            _ => Ok(None),
        }
    }
}
