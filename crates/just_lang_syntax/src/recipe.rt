//! The line of a recipe: its name, its parameters and the recipes that it depends on.
ghost use Rattle.std.specs.Prelude.{◌≡◌};
ghost use Rattle.just_lang_read.specs.Reader.{Reads};
ghost use Rattle.just_lang_syntax.specs.Recipes.{begins_parameter, begins_dependency};
ghost use Rattle.just_lang_syntax.specs.Collected.{ReadsVec};
ghost use Rattle.just_lang_syntax.specs.ItemReaders as read;

use super::expr::{LEVELS, expr, value};
use super::list::{add, list_of};
use super::token::{name, path, rest};
use super::{AstDependency, AstParameter, AstRecipe, Attribute, Expr, ParameterKind};
use just_lang_read::{Cursor, NameStart, ReadError, maybe, token};
use just_path_text::Seq;
use std::alloc::Global;

/// A recipe's line, behind its attributes; the body is empty.
#[tactic(auto, unfolding(crate::specs::ItemReaders::recipe_line))]
pub fn recipe_line(
    alloc: Global,
    cursor: &mut Cursor<'_>,
    attributes: Seq<Attribute>,
) -> Result<AstRecipe, ReadError>
    ensures { Reads (read.recipe_line attributes cursor.old) result cursor.new }
{
    let quiet = maybe(cursor, b"@")?;
    let name = name(alloc, cursor)?;
    let parameters = parameters(alloc, cursor)?;
    let recipe = AstRecipe {
        attributes,
        quiet,
        name,
        parameters,
        priors: Seq::new(alloc),
        subsequents: Seq::new(alloc),
        comment: None,
        body: Seq::new(alloc),
    };
    behind_parameters(alloc, cursor, recipe)
}

/// What stands behind the parameters of a recipe's line, as far as this one is read.
fn behind_parameters(
    alloc: Global,
    cursor: &mut Cursor<'_>,
    recipe: AstRecipe,
) -> Result<AstRecipe, ReadError>
    ensures { Reads (read.behind_parameters recipe cursor.old) result cursor.new }
{
    token(cursor, b":")?;
    let priors = dependencies(alloc, cursor)?;
    let subsequents = subsequents(alloc, cursor)?;
    let comment = rest(alloc, cursor)?;
    Ok(recipe.depending(priors, subsequents, comment))
}

/// Whether a parameter begins here that takes one value.
fn begins_parameter(cursor: &Cursor<'_>) -> bool
    ensures { result ≡ begins_parameter cursor.now }
{
    cursor.begins(b"$") || cursor.starts::<NameStart>()
}

/// The parameters of a recipe; the last one may take several values.
#[tactic(auto, unfolding(crate::specs::ItemReaders::parameters))]
fn parameters(alloc: Global, cursor: &mut Cursor<'_>) -> Result<Seq<AstParameter>, ReadError>
    ensures { Reads (read.parameters cursor.old) result cursor.new }
{
    let mut found = singular(alloc, cursor)?;
    if let Some(last) = variadic(alloc, cursor)? {
        add(&mut found, last)?;
    }
    Ok(list_of(found))
}

/// The parameters that take one value.
#[tactic(auto, using(crate::proofs::Loops::parameters_begin, crate::proofs::Loops::parameters_more, crate::proofs::Loops::parameters_done, crate::proofs::Loops::parameters_wrong, crate::proofs::Loops::parameters_shorter))]
fn singular(alloc: Global, cursor: &mut Cursor<'_>) -> Result<Vec<AstParameter>, ReadError>
    ensures { ReadsVec (read.singular cursor.old) result cursor.new }
{
    let mut found = Vec::new(alloc);
    'parameters: while begins_parameter(cursor) {
        match parameter(alloc, cursor, ParameterKind::Singular) {
            Ok(next) => add(&mut found, next)?,
            Err(refused) => return Err(refused),
        }
    }
    Ok(found)
}

/// The parameter that takes several values, if there is one.
#[tactic(auto, unfolding(crate::specs::ItemReaders::variadic))]
fn variadic(alloc: Global, cursor: &mut Cursor<'_>) -> Result<Option<AstParameter>, ReadError>
    ensures { Reads (read.variadic cursor.old) result cursor.new }
{
    if cursor.begins(b"*") {
        token(cursor, b"*")?;
        let last = parameter(alloc, cursor, ParameterKind::Star)?;
        return Ok(Some(last));
    }
    if cursor.begins(b"+") {
        token(cursor, b"+")?;
        let last = parameter(alloc, cursor, ParameterKind::Plus)?;
        return Ok(Some(last));
    }
    Ok(None)
}

/// A parameter, behind the sign of its kind.
#[tactic(auto, unfolding(crate::specs::ItemReaders::parameter))]
fn parameter(
    alloc: Global,
    cursor: &mut Cursor<'_>,
    kind: ParameterKind,
) -> Result<AstParameter, ReadError>
    ensures { Reads (read.parameter kind cursor.old) result cursor.new }
{
    let export = maybe(cursor, b"$")?;
    let name = name(alloc, cursor)?;
    let default = parameter_default(alloc, cursor)?;
    Ok(AstParameter {
        kind,
        export,
        name,
        default,
    })
}

/// The default of a parameter, if it has one.
#[tactic(auto, unfolding(crate::specs::ItemReaders::parameter_default))]
fn parameter_default(alloc: Global, cursor: &mut Cursor<'_>) -> Result<Option<Expr>, ReadError>
    ensures { Reads (read.parameter_default cursor.old) result cursor.new }
{
    if !cursor.begins(b"=") {
        return Ok(None);
    }
    token(cursor, b"=")?;
    let found = value(alloc, cursor, LEVELS)?;
    Ok(Some(found))
}

/// Whether a dependency begins here.
fn begins_dependency(cursor: &Cursor<'_>) -> bool
    ensures { result ≡ begins_dependency cursor.now }
{
    cursor.begins(b"(") || cursor.starts::<NameStart>()
}

/// Dependencies, as long as one begins.
#[tactic(auto, using(crate::proofs::Loops::dependencies_begin, crate::proofs::Loops::dependencies_more, crate::proofs::Loops::dependencies_done, crate::proofs::Loops::dependencies_wrong, crate::proofs::Loops::dependencies_shorter))]
fn dependencies(alloc: Global, cursor: &mut Cursor<'_>) -> Result<Seq<AstDependency>, ReadError>
    ensures { Reads (read.dependencies cursor.old) result cursor.new }
{
    let mut found = Vec::new(alloc);
    'dependencies: while begins_dependency(cursor) {
        match dependency(alloc, cursor) {
            Ok(next) => add(&mut found, next)?,
            Err(refused) => return Err(refused),
        }
    }
    Ok(list_of(found))
}

/// `&&` and at least one dependency, or nothing.
#[tactic(auto, unfolding(crate::specs::ItemReaders::subsequents))]
fn subsequents(alloc: Global, cursor: &mut Cursor<'_>) -> Result<Seq<AstDependency>, ReadError>
    ensures { Reads (read.subsequents cursor.old) result cursor.new }
{
    if !cursor.begins(b"&&") {
        return Ok(Seq::new(alloc));
    }
    token(cursor, b"&&")?;
    if !begins_dependency(cursor) {
        return Err(ReadError::Syntax);
    }
    dependencies(alloc, cursor)
}

/// A path, or a path and arguments in parentheses.
#[tactic(auto, unfolding(crate::specs::ItemReaders::dependency))]
fn dependency(alloc: Global, cursor: &mut Cursor<'_>) -> Result<AstDependency, ReadError>
    ensures { Reads (read.dependency cursor.old) result cursor.new }
{
    if !cursor.begins(b"(") {
        let path = path(alloc, cursor)?;
        return Ok(AstDependency {
            path,
            grouped: false,
            arguments: Seq::new(alloc),
        });
    }
    token(cursor, b"(")?;
    let path = path(alloc, cursor)?;
    let arguments = arguments(alloc, cursor)?;
    token(cursor, b")")?;
    Ok(AstDependency {
        path,
        grouped: true,
        arguments,
    })
}

/// Whether no parenthesis closes here.
fn is_open(cursor: &Cursor<'_>) -> bool
    ensures { result ≡ read.is_open cursor.now }
{
    !cursor.begins(b")")
}

/// Expressions up to a closing parenthesis.
#[tactic(auto, using(crate::proofs::Loops::values_begin, crate::proofs::Loops::values_more, crate::proofs::Loops::values_done, crate::proofs::Loops::values_wrong, crate::proofs::Loops::values_shorter))]
fn arguments(alloc: Global, cursor: &mut Cursor<'_>) -> Result<Seq<Expr>, ReadError>
    ensures { Reads (read.dependency_values cursor.old) result cursor.new }
{
    let mut found = Vec::new(alloc);
    'arguments: while is_open(cursor) {
        match expr(alloc, cursor, LEVELS) {
            Ok(next) => add(&mut found, next)?,
            Err(refused) => return Err(refused),
        }
    }
    Ok(list_of(found))
}
