//! Names in expressions that nothing defines.
ghost use Rattle.std.specs.Prelude.{◌≡◌, [], IfOk};
ghost use Rattle.std.specs.List.{flat_map};
ghost use Rattle.just_lang_spots.specs.Entries.{entry, entries};
ghost use Rattle.just_lang_spots.specs.Spots.{first_spot};
ghost use Rattle.just_lang_names.specs.Names.{AreNames, layout_of, wins_of};
ghost use Rattle.just_lang_names.specs.ScopeSpots.{unknown_name, unknown_names, unknown_in_default, unknown_in_defaults, unknown_behind, unknown_in_recipe, unknown_in_item, undefined_variable_spots};
ghost use Rattle.just_lang_names.specs.Scopes.{module_scope_of, scope_with, scope_of, unknown_in_names};

use super::names::{ModuleNames, Names};
use super::parameters::{Parameters, parameters_of};
use just_lang_spots::{Entry, Rule, Spot, earlier, first_among, name_spot, spot_where};
use just_lang_syntax::{
    Argument, AstDependency, AstItem, AstParameter, AstRecipe, Attribute, Expr, Fragment, Line,
    Name,
};
use just_lang_types::constant;
use just_path_text::NoMemory;
use std::alloc::Global;

/// Which names are known in an expression: some parameters, the variables that stand in a module, and the constants.
#[derive(Clone, Copy, Drop)]
pub(crate) struct Scope<'a, 'b> {
    pub(crate) names: &'b ModuleNames<'a>,
    pub(crate) parameters: &'b Parameters<'a>,
}

/// Whether a name is a variable's or a constant's.
fn module_knows(names: &ModuleNames<'_>, name: &str) -> bool
    ensures { result ≡ module_scope_of names.now name.now }
{
    names.variable_places.place(name).is_some() || constant(name).is_some()
}

/// Whether a name is known.
fn knows(scope: &Scope<'_, '_>, name: &str) -> bool
    ensures { result ≡ scope_of scope.now name.now }
{
    scope.parameters.has(name) || module_knows(scope.names, name)
}

/// The place of a name that isn't known.
fn first_in_name(scope: &Scope<'_, '_>, file: usize, name: &Name) -> Option<Spot>
    ensures { result ≡ first_spot (unknown_name (scope_of scope.now) file name.now) }
{
    let is_known = knows(scope, name.text.as_str());
    spot_where(!is_known, name_spot(file, name))
}

/// The first name in an expression that isn't known.
fn first_in_expr(scope: &Scope<'_, '_>, file: usize, expr: &Expr) -> Option<Spot>
    ensures { result ≡ first_spot (unknown_names (scope_of scope.now) file expr.now) }
{
    match expr {
        Expr::If {
            left,
            right,
            consequent,
            alternative,
            ..
        } => {
            let left = first_in_expr(scope, file, left.get());
            let right = first_in_expr(scope, file, right.get());
            let consequent = first_in_expr(scope, file, consequent.get());
            let alternative = first_in_expr(scope, file, alternative.get());
            let blocks = earlier(consequent, alternative);
            let behind = earlier(right, blocks);
            earlier(left, behind)
        }
        Expr::Root(inside) | Expr::Group(inside) => first_in_expr(scope, file, inside.get()),
        Expr::Join(first, second) => {
            let first = first_in_expr(scope, file, first.get());
            let second = first_in_expr(scope, file, second.get());
            earlier(first, second)
        }
        Expr::Concat(first, second) => {
            let first = first_in_expr(scope, file, first.get());
            let second = first_in_expr(scope, file, second.get());
            earlier(first, second)
        }
        Expr::Literal(_) => None,
        Expr::Variable(name) => first_in_name(scope, file, name),
        Expr::Env { key, default, .. } => {
            let key = first_in_expr(scope, file, key.get());
            match default {
                None => key,
                Some(default) => {
                    let default = first_in_expr(scope, file, default.get());
                    earlier(key, default)
                }
            }
        }
    }
}

impl<'a, 'b> Rule<Expr> for Scope<'a, 'b> {
    ghost use Rattle.just_lang_names.specs.ScopeSpots.{unknown_names};
    ghost use Rattle.just_lang_names.specs.Scopes.{scope_of};

    ghost spots = { λ r file x. unknown_names (scope_of r) file x };

    fn first(&self, _alloc: Global, file: usize, thing: &Expr) -> Result<Option<Spot>, NoMemory> {
        Ok(first_in_expr(self, file, thing))
    }
}

impl<'a, 'b> Rule<Argument> for Scope<'a, 'b> {
    ghost use Rattle.just_lang_names.specs.ScopeSpots.{unknown_in_argument};
    ghost use Rattle.just_lang_names.specs.Scopes.{scope_of};

    ghost spots = { λ r file x. unknown_in_argument (scope_of r) file x };

    fn first(
        &self,
        _alloc: Global,
        file: usize,
        thing: &Argument,
    ) -> Result<Option<Spot>, NoMemory> {
        Ok(first_in_expr(self, file, &thing.value))
    }
}

impl<'a, 'b> Rule<AstDependency> for Scope<'a, 'b> {
    ghost use Rattle.just_lang_names.specs.ScopeSpots.{unknown_in_dependency};
    ghost use Rattle.just_lang_names.specs.Scopes.{scope_of};

    ghost spots = { λ r file x. unknown_in_dependency (scope_of r) file x };

    fn first(
        &self,
        alloc: Global,
        file: usize,
        thing: &AstDependency,
    ) -> Result<Option<Spot>, NoMemory> {
        first_among(alloc, self, file, thing.arguments.as_slice())
    }
}

impl<'a, 'b> Rule<Fragment> for Scope<'a, 'b> {
    ghost use Rattle.just_lang_names.specs.ScopeSpots.{unknown_in_fragment};
    ghost use Rattle.just_lang_names.specs.Scopes.{scope_of};

    ghost spots = { λ r file x. unknown_in_fragment (scope_of r) file x };

    fn first(
        &self,
        _alloc: Global,
        file: usize,
        thing: &Fragment,
    ) -> Result<Option<Spot>, NoMemory> {
        match thing {
            Fragment::Text(_) => Ok(None),
            Fragment::Value(expr) => Ok(first_in_expr(self, file, expr)),
        }
    }
}

impl<'a, 'b> Rule<Line> for Scope<'a, 'b> {
    ghost use Rattle.just_lang_names.specs.ScopeSpots.{unknown_in_line};
    ghost use Rattle.just_lang_names.specs.Scopes.{scope_of};

    ghost spots = { λ r file x. unknown_in_line (scope_of r) file x };

    fn first(&self, alloc: Global, file: usize, thing: &Line) -> Result<Option<Spot>, NoMemory> {
        first_among(alloc, self, file, thing.fragments.as_slice())
    }
}

impl<'a, 'b> Rule<Attribute> for Scope<'a, 'b> {
    ghost use Rattle.just_lang_names.specs.ScopeSpots.{unknown_in_attribute};
    ghost use Rattle.just_lang_names.specs.Scopes.{scope_of};

    ghost spots = { λ r file x. unknown_in_attribute (scope_of r) file x };

    fn first(
        &self,
        alloc: Global,
        file: usize,
        thing: &Attribute,
    ) -> Result<Option<Spot>, NoMemory> {
        if thing.name.text.as_str() != "cache" {
            return Ok(None);
        }
        first_among(alloc, self, file, thing.arguments.as_slice())
    }
}

/// The first name in a parameter's default that isn't known behind these parameters.
fn first_in_default<'a>(
    names: &ModuleNames<'a>,
    parameters: &Parameters<'a>,
    file: usize,
    default: &Option<Expr>,
) -> Option<Spot>
    ensures { result ≡ first_spot (unknown_in_default (scope_with names.now parameters.now) file default.now) }
{
    match default {
        None => None,
        Some(expr) => first_in_expr(&Scope { names, parameters }, file, expr),
    }
}

/// The first such name in the defaults of parameters: each knows those before it.
fn first_in_defaults<'a>(
    alloc: Global,
    names: &ModuleNames<'a>,
    file: usize,
    parameters: &'a [AstParameter],
) -> Result<Option<Spot>, NoMemory>
    ensures { IfOk result (λ s. s ≡ first_spot (unknown_in_defaults (module_scope_of names.now) file [] parameters.now)) }
{
    let mut before = Parameters::new(alloc);
    let mut found = None;
    'parameters: for parameter in parameters {
        let here = first_in_default(names, &before, file, &parameter.default);
        found = earlier(found, here);
        before.add(parameter)?;
    }
    Ok(found)
}

/// The first such name in what stands beside and behind the parameters of a recipe.
fn first_behind(
    alloc: Global,
    scope: &Scope<'_, '_>,
    file: usize,
    recipe: &AstRecipe,
) -> Result<Option<Spot>, NoMemory>
    ensures { IfOk result (λ s. s ≡ first_spot (unknown_behind (scope_of scope.now) file recipe.now)) }
{
    let attributes = first_among(alloc, scope, file, recipe.attributes.as_slice())?;
    let priors = first_among(alloc, scope, file, recipe.priors.as_slice())?;
    let subsequents = first_among(alloc, scope, file, recipe.subsequents.as_slice())?;
    let body = first_among(alloc, scope, file, recipe.body.as_slice())?;
    let further = earlier(subsequents, body);
    let behind = earlier(priors, further);
    Ok(earlier(attributes, behind))
}

/// The first such name in a recipe.
fn first_in_recipe<'a>(
    alloc: Global,
    names: &ModuleNames<'a>,
    file: usize,
    recipe: &'a AstRecipe,
) -> Result<Option<Spot>, NoMemory>
    ensures { IfOk result (λ s. s ≡ first_spot (unknown_in_recipe (module_scope_of names.now) file recipe.now)) }
{
    let defaults = first_in_defaults(alloc, names, file, recipe.parameters.as_slice())?;
    let parameters = parameters_of(alloc, recipe.parameters.as_slice())?;
    let scope = Scope {
        names,
        parameters: &parameters,
    };
    let behind = first_behind(alloc, &scope, file, recipe)?;
    Ok(earlier(defaults, behind))
}

/// The first such name in an expression outside recipes.
fn first_outside(alloc: Global, names: &ModuleNames<'_>, file: usize, expr: &Expr) -> Option<Spot>
    ensures { result ≡ first_spot (unknown_names (module_scope_of names.now) file expr.now) }
{
    let parameters = Parameters::new(alloc);
    let scope = Scope {
        names,
        parameters: &parameters,
    };
    first_in_expr(&scope, file, expr)
}

/// The first such name in an item that is a variable or a recipe.
fn first_in_item<'a>(
    alloc: Global,
    names: &ModuleNames<'a>,
    one: &Entry<'a>,
) -> Result<Option<Spot>, NoMemory>
    ensures { IfOk result (λ s. s ≡ first_spot (unknown_in_item (module_scope_of names.now) (entry one.now))) }
{
    match one.item {
        AstItem::Assignment { value, .. } => Ok(first_outside(alloc, names, one.file, value)),
        AstItem::Recipe(recipe) => first_in_recipe(alloc, names, one.file, recipe.get()),
        _ => Ok(None),
    }
}

/// The first such name in some items.
fn first_in_items<'a>(
    alloc: Global,
    names: &ModuleNames<'a>,
    items: &[Entry<'a>],
) -> Result<Option<Spot>, NoMemory>
    ensures { IfOk result (λ s. s ≡ first_spot (flat_map (unknown_in_item (module_scope_of names.now)) (entries items.now))) }
{
    let mut found = None;
    'items: for one in items {
        let here = first_in_item(alloc, names, one)?;
        found = earlier(found, here);
    }
    Ok(found)
}

/// The first such name in what stands in a module.
#[tactic(auto, using(just_lang_spots::proofs::Spots::first_spot_append))]
fn first_in_module(alloc: Global, names: &ModuleNames<'_>) -> Result<Option<Spot>, NoMemory>
    ensures { IfOk result (λ s. s ≡ first_spot (unknown_in_names names.now)) }
{
    let variables = first_in_items(alloc, names, names.variables.as_slice())?;
    let recipes = first_in_items(alloc, names, names.recipes.as_slice())?;
    Ok(earlier(variables, recipes))
}

/// The first such name in what stands in one of some modules.
#[tactic(auto, using(just_lang_spots::proofs::Spots::earlier_none))]
fn first_in_modules(alloc: Global, modules: &[ModuleNames<'_>]) -> Result<Option<Spot>, NoMemory>
    ensures { IfOk result (λ s. s ≡ first_spot (flat_map unknown_in_names modules.now)) }
{
    let mut found = None;
    'modules: for of_module in modules {
        let here = first_in_module(alloc, of_module)?;
        found = earlier(found, here);
    }
    Ok(found)
}

/// The first name in an expression that is no parameter's, no variable's and no constant's, among the variables and the
/// recipes that stand in any module.
pub fn first_undefined_variable(alloc: Global, names: &Names<'_>) -> Result<Option<Spot>, NoMemory>
    requires { AreNames names.now }
    ensures { IfOk result (λ s. s ≡ first_spot (undefined_variable_spots (wins_of names.now) (layout_of names.now))) }
{
    let found = first_in_modules(alloc, names.modules.as_slice())?;
    Ok(found)
}
