//! The rule that the parameters of a recipe have different names.
ghost use Rattle.std.specs.Prelude.{◌≡◌, IfOk, map};
ghost use Rattle.just_lang_spots.specs.Repeated.{named};
ghost use Rattle.just_lang_rules.specs.ParameterSpots.{parameter_name};

use just_lang_spots::{Named, Rule, Spot, first_repeated, name_spot};
use just_lang_syntax::{AstItem, AstParameter};
use just_path_text::NoMemory;
use std::alloc::{AllocError, Global};

/// The names of parameters.
#[tactic(auto, using(just_lang_spots::proofs::Names::one_more))]
fn parameter_names(
    alloc: Global,
    file: usize,
    parameters: &[AstParameter],
) -> Result<Vec<Named<'_>>, AllocError>
    ensures { IfOk result (λ v. map named v.items ≡ map (parameter_name file) parameters.now) }
{
    let mut names = Vec::new(alloc);
    'parameters: for parameter in parameters {
        names.push(Named {
            name: parameter.name.text.as_str(),
            spot: name_spot(file, &parameter.name),
        })?;
    }
    Ok(names)
}

/// The rule that the parameters of a recipe have different names. Its place is the name that comes again.
#[derive(Clone, Copy, Drop)]
pub struct DuplicateParameter;

impl Rule<AstItem> for DuplicateParameter {
    ghost use Rattle.std.specs.Prelude.{map};
    ghost use Rattle.just_lang_spots.specs.Repeated.{repeated};
    ghost use Rattle.just_lang_rules.specs.ParameterSpots.{parameter_name, parameters_of};

    ghost spots = { λ _ file x. repeated (map (parameter_name file) (parameters_of x)) };

    fn first(&self, alloc: Global, file: usize, thing: &AstItem) -> Result<Option<Spot>, NoMemory> {
        match thing {
            AstItem::Recipe(recipe) => {
                let names = parameter_names(alloc, file, recipe.get().parameters.as_slice())?;
                first_repeated(alloc, names.as_slice())
            }
            _ => Ok(None),
        }
    }
}
