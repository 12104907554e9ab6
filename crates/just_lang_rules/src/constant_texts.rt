//! The rule that the texts of settings and attributes are constant.
ghost use Rattle.std.specs.Prelude.{◌≡◌, ◌++◌, IfOk};
ghost use Rattle.std.specs.List.{flat_map};
ghost use Rattle.just_lang_spots.specs.Spots.{first_spot};
ghost use Rattle.just_lang_rules.specs.ConstantTexts.{variable_spot, variables_of_expr, variables_behind_key, variables_of_arg, variables_of_setting};

use just_lang_spots::{Rule, Spot, earlier, first_among, name_spot};
use just_lang_syntax::{Argument, AstItem, Attribute, Expr, Name, SettingValue};
use just_lang_types::constant;
use just_path_text::NoMemory;
use std::alloc::Global;

/// The place of a name that isn't a constant's.
fn variable(file: usize, name: &Name) -> Option<Spot>
    ensures { result ≡ first_spot (variable_spot file name.now) }
{
    match constant(name.text.as_str()) {
        Some(_) => None,
        None => Some(name_spot(file, name)),
    }
}

/// The first name in the expression that isn't a constant's, or its first call of `env`.
fn first_variable(file: usize, expr: &Expr) -> Option<Spot>
    ensures { result ≡ first_spot (variables_of_expr file expr.now) }
{
    match expr {
        Expr::If {
            left,
            right,
            consequent,
            alternative,
            ..
        } => {
            let left = first_variable(file, left.get());
            let right = first_variable(file, right.get());
            let consequent = first_variable(file, consequent.get());
            let alternative = first_variable(file, alternative.get());
            let blocks = earlier(consequent, alternative);
            let behind = earlier(right, blocks);
            earlier(left, behind)
        }
        Expr::Root(inside) | Expr::Group(inside) => first_variable(file, inside.get()),
        Expr::Join(first, second) => {
            let first = first_variable(file, first.get());
            let second = first_variable(file, second.get());
            earlier(first, second)
        }
        Expr::Concat(first, second) => {
            let first = first_variable(file, first.get());
            let second = first_variable(file, second.get());
            earlier(first, second)
        }
        Expr::Literal(_) => None,
        Expr::Variable(name) => variable(file, name),
        Expr::Env { line, column, .. } => Some(Spot {
            file,
            line: *line,
            column: *column,
        }),
    }
}

/// The rule that the text of an attribute's argument is constant.
#[derive(Clone, Copy, Drop)]
struct ConstantArgument;

impl Rule<Argument> for ConstantArgument {
    ghost use Rattle.just_lang_rules.specs.ConstantTexts.{variables_of_expr};

    ghost spots = { λ _ file x. variables_of_expr file x.value };

    fn first(
        &self,
        _alloc: Global,
        file: usize,
        thing: &Argument,
    ) -> Result<Option<Spot>, NoMemory> {
        Ok(first_variable(file, &thing.value))
    }
}

/// The rule that the text of an argument that has a key is constant.
#[derive(Clone, Copy, Drop)]
struct ConstantBehindKey;

impl Rule<Argument> for ConstantBehindKey {
    ghost use Rattle.just_lang_rules.specs.ConstantTexts.{variables_behind_key};

    ghost spots = { λ _ file x. variables_behind_key file x };

    fn first(
        &self,
        _alloc: Global,
        file: usize,
        thing: &Argument,
    ) -> Result<Option<Spot>, NoMemory> {
        match &thing.key {
            None => Ok(None),
            Some(_) => Ok(first_variable(file, &thing.value)),
        }
    }
}

/// The first such name in the first argument of `arg` or behind a key.
#[tactic(auto, using(just_lang_spots::proofs::Spots::first_spot_append))]
fn first_of_arg(
    alloc: Global,
    file: usize,
    first: &Argument,
    keys: &[Argument],
) -> Result<Option<Spot>, NoMemory>
    ensures { IfOk result (λ s. s ≡ first_spot (variables_of_expr file first.now.value ++ flat_map (variables_behind_key file) keys.now)) }
{
    let here = first_variable(file, &first.value);
    let behind = first_among(alloc, &ConstantBehindKey, file, keys)?;
    Ok(earlier(here, behind))
}

/// The first such name in the arguments of `arg`.
fn first_in_arg(
    alloc: Global,
    file: usize,
    arguments: &[Argument],
) -> Result<Option<Spot>, NoMemory>
    ensures { IfOk result (λ s. s ≡ first_spot (variables_of_arg file arguments.now)) }
{
    match arguments {
        [] => Ok(None),
        [first, keys @ ..] => first_of_arg(alloc, file, first, keys),
    }
}

/// The rule that the texts of an attribute are constant.
#[derive(Clone, Copy, Drop)]
struct ConstantAttribute;

impl Rule<Attribute> for ConstantAttribute {
    ghost use Rattle.just_lang_rules.specs.ConstantTexts.{variables_of_attribute};

    ghost spots = { λ _ file a. variables_of_attribute file a };

    fn first(
        &self,
        alloc: Global,
        file: usize,
        thing: &Attribute,
    ) -> Result<Option<Spot>, NoMemory> {
        if thing.name.text.as_str() == "cache" {
            return Ok(None);
        }
        if thing.name.text.as_str() == "arg" {
            return first_in_arg(alloc, file, thing.arguments.as_slice());
        }
        first_among(alloc, &ConstantArgument, file, thing.arguments.as_slice())
    }
}

/// The first such name in the value of a setting.
fn variable_in_setting(file: usize, value: &Option<SettingValue>) -> Option<Spot>
    ensures { result ≡ first_spot (variables_of_setting file value.now) }
{
    match value {
        Some(SettingValue::Text(expr)) => first_variable(file, expr),
        Some(SettingValue::Bool(_) | SettingValue::List(_)) | None => None,
    }
}

/// The rule that the texts of settings and of attributes are constant. Its place is the name that isn't a constant's, or `env`.
#[derive(Clone, Copy, Drop)]
pub struct NotConstant;

impl Rule<AstItem> for NotConstant {
    ghost use Rattle.just_lang_rules.specs.ConstantTexts.{variables_of};

    ghost spots = { λ _ file x. variables_of file x };

    fn first(&self, alloc: Global, file: usize, thing: &AstItem) -> Result<Option<Spot>, NoMemory> {
        match thing {
            AstItem::Module { attributes, .. } => {
                first_among(alloc, &ConstantAttribute, file, attributes.as_slice())
            }
            AstItem::Setting { value, .. } => Ok(variable_in_setting(file, value)),
            AstItem::Recipe(recipe) => {
                let attributes = recipe.get().attributes.as_slice();
                first_among(alloc, &ConstantAttribute, file, attributes)
            }
            _ => Ok(None),
        }
    }
}
