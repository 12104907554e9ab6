//! The names of parameters, as a set.
ghost use Rattle.std.specs.Prelude.{◌≡◌, [], ◌∷◌, ◌++◌, List, IfOk, OnOk};
ghost use Rattle.just_lang_syntax.specs.declared.ast.AstParameter.{AstParameter};
ghost use Rattle.just_lang_names.specs.Scopes.{has_name_of, AreParameters};

use just_lang_syntax::AstParameter;
use just_path_text::NoMemory;
use std::alloc::Global;
use std::collections::BTreeSet;

/// The names of some parameters.
#[derive(Drop)]
pub(crate) struct Parameters<'a> {
    names: BTreeSet<&'a str>,
}

impl<'a> Parameters<'a> {
    /// Those of none.
    pub(crate) fn new(alloc: Global) -> Parameters<'a>
        ensures { AreParameters [] result }
    {
        Parameters {
            names: BTreeSet::new(alloc),
        }
    }

    /// Whether one has that name.
    pub(crate) fn has(&self, name: &str) -> bool
        ensures { result ≡ has_name_of self.now name.now }
    {
        self.names.contains(name)
    }

    /// Adds the name of a parameter.
    pub(crate) fn add(&mut self, parameter: &'a AstParameter) -> Result<(), NoMemory>
        ensures { OnOk result ((ps : List AstParameter) → AreParameters ps self.old → AreParameters (ps ++ parameter.now ∷ []) self.new) }
    {
        self.names.insert(parameter.name.text.as_str())?;
        Ok(())
    }
}

/// The names of some parameters.
pub(crate) fn parameters_of<'a>(
    alloc: Global,
    parameters: &'a [AstParameter],
) -> Result<Parameters<'a>, NoMemory>
    ensures { IfOk result (AreParameters parameters.now) }
{
    let mut names = Parameters::new(alloc);
    'parameters: for parameter in parameters {
        names.add(parameter)?;
    }
    Ok(names)
}
