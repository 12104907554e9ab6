//! The rule that strings with an `x` in front can be expanded.
ghost use Rattle.std.specs.Prelude.{◌≡◌, IfOk};
ghost use Rattle.just_lang_rules.specs.Expansions.{cannot_expand, expansion_spots_of};
ghost use Rattle.just_lang_rules.specs.Literals.{literals_of_expr, literals_behind_colon, literals_of_recipe, literals_of_setting, literals_of_path};
ghost use Rattle.just_lang_spots.specs.Spots.{first_spot};

use just_lang_spots::{Rule, Spot, earlier, first_among, literal_spot, spot_where};
use just_lang_syntax::{
    Argument, AstDependency, AstItem, AstParameter, AstRecipe, Attribute, Expr, Fragment, Line,
    SettingValue, StringLiteral,
};
use just_lang_types::Texts;
use just_path_text::NoMemory;
use std::alloc::Global;

/// Whether the string has an `x` in front and can't be expanded.
fn cannot_expand<T: Texts>(
    alloc: Global,
    texts: &T,
    literal: &StringLiteral,
) -> Result<bool, NoMemory>
    ensures { IfOk result (λ b. b ≡ cannot_expand (T.text_of texts.now) literal.now) }
{
    if !literal.expands {
        return Ok(false);
    }
    let text = texts.text(alloc, literal)?;
    Ok(text.is_none())
}

/// The rule that each string with an `x` in front can be expanded. Its place is the `x`.
#[derive(Clone, Copy, Drop)]
pub struct ShellExpansion<'a, T> {
    pub texts: &'a T,
}

impl<'a, T: Texts> Rule<StringLiteral> for ShellExpansion<'a, T> {
    ghost use Rattle.just_lang_rules.specs.Expansions.{cannot_expand};
    ghost use Rattle.just_lang_spots.specs.Places.{literal_spot};
    ghost use Rattle.just_lang_spots.specs.Spots.{spot_where};

    ghost spots = { λ r file x. spot_where (cannot_expand (T.text_of r.texts.now) x) (literal_spot file x) };

    fn first(
        &self,
        alloc: Global,
        file: usize,
        thing: &StringLiteral,
    ) -> Result<Option<Spot>, NoMemory> {
        let cannot = cannot_expand(alloc, self.texts, thing)?;
        Ok(spot_where(cannot, literal_spot(file, thing)))
    }
}

/// The first such string in an expression.
#[tactic(auto, using(crate::proofs::Parts::of_both))]
fn first_in_expr<T: Texts>(
    alloc: Global,
    texts: &T,
    file: usize,
    expr: &Expr,
) -> Result<Option<Spot>, NoMemory>
    ensures { IfOk result (λ s. s ≡ first_spot (expansion_spots_of (T.text_of texts.now) file (literals_of_expr expr.now))) }
{
    match expr {
        Expr::If {
            left,
            right,
            consequent,
            alternative,
            ..
        } => {
            let left = first_in_expr(alloc, texts, file, left.get())?;
            let right = first_in_expr(alloc, texts, file, right.get())?;
            let consequent = first_in_expr(alloc, texts, file, consequent.get())?;
            let alternative = first_in_expr(alloc, texts, file, alternative.get())?;
            let blocks = earlier(consequent, alternative);
            let behind = earlier(right, blocks);
            Ok(earlier(left, behind))
        }
        Expr::Root(inside) | Expr::Group(inside) => {
            first_in_expr(alloc, texts, file, inside.get())
        }
        Expr::Join(first, second) => {
            let first = first_in_expr(alloc, texts, file, first.get())?;
            let second = first_in_expr(alloc, texts, file, second.get())?;
            Ok(earlier(first, second))
        }
        Expr::Concat(first, second) => {
            let first = first_in_expr(alloc, texts, file, first.get())?;
            let second = first_in_expr(alloc, texts, file, second.get())?;
            Ok(earlier(first, second))
        }
        Expr::Literal(literal) => ShellExpansion { texts }.first(alloc, file, literal),
        Expr::Variable(_) => Ok(None),
        Expr::Env { key, default, .. } => {
            let key = first_in_expr(alloc, texts, file, key.get())?;
            match default {
                None => Ok(key),
                Some(default) => {
                    let default = first_in_expr(alloc, texts, file, default.get())?;
                    Ok(earlier(key, default))
                }
            }
        }
    }
}

impl<'a, T: Texts> Rule<Expr> for ShellExpansion<'a, T> {
    ghost use Rattle.just_lang_rules.specs.Expansions.{expansion_spots_of};
    ghost use Rattle.just_lang_rules.specs.Literals.{literals_of_expr};

    ghost spots = { λ r file x. expansion_spots_of (T.text_of r.texts.now) file (literals_of_expr x) };

    fn first(&self, alloc: Global, file: usize, thing: &Expr) -> Result<Option<Spot>, NoMemory> {
        first_in_expr(alloc, self.texts, file, thing)
    }
}

impl<'a, T: Texts> Rule<Argument> for ShellExpansion<'a, T> {
    ghost use Rattle.just_lang_rules.specs.Expansions.{expansion_spots_of};
    ghost use Rattle.just_lang_rules.specs.Literals.{literals_of_expr};

    ghost spots = { λ r file x. expansion_spots_of (T.text_of r.texts.now) file (literals_of_expr x.value) };

    fn first(
        &self,
        alloc: Global,
        file: usize,
        thing: &Argument,
    ) -> Result<Option<Spot>, NoMemory> {
        first_in_expr(alloc, self.texts, file, &thing.value)
    }
}

impl<'a, T: Texts> Rule<Attribute> for ShellExpansion<'a, T> {
    ghost use Rattle.just_lang_rules.specs.Expansions.{expansion_spots_of};
    ghost use Rattle.just_lang_rules.specs.Literals.{literals_of_attribute};

    ghost spots = { λ r file x. expansion_spots_of (T.text_of r.texts.now) file (literals_of_attribute x) };

    #[tactic(auto, using(crate::proofs::Parts::of_each))]
    fn first(
        &self,
        alloc: Global,
        file: usize,
        thing: &Attribute,
    ) -> Result<Option<Spot>, NoMemory> {
        first_among(alloc, self, file, thing.arguments.as_slice())
    }
}

impl<'a, T: Texts> Rule<AstParameter> for ShellExpansion<'a, T> {
    ghost use Rattle.just_lang_rules.specs.Expansions.{expansion_spots_of};
    ghost use Rattle.just_lang_rules.specs.Literals.{literals_of_parameter};

    ghost spots = { λ r file x. expansion_spots_of (T.text_of r.texts.now) file (literals_of_parameter x) };

    fn first(
        &self,
        alloc: Global,
        file: usize,
        thing: &AstParameter,
    ) -> Result<Option<Spot>, NoMemory> {
        match &thing.default {
            None => Ok(None),
            Some(default) => first_in_expr(alloc, self.texts, file, default),
        }
    }
}

impl<'a, T: Texts> Rule<AstDependency> for ShellExpansion<'a, T> {
    ghost use Rattle.just_lang_rules.specs.Expansions.{expansion_spots_of};
    ghost use Rattle.just_lang_rules.specs.Literals.{literals_of_dependency};

    ghost spots = { λ r file x. expansion_spots_of (T.text_of r.texts.now) file (literals_of_dependency x) };

    #[tactic(auto, using(crate::proofs::Parts::of_each))]
    fn first(
        &self,
        alloc: Global,
        file: usize,
        thing: &AstDependency,
    ) -> Result<Option<Spot>, NoMemory> {
        first_among(alloc, self, file, thing.arguments.as_slice())
    }
}

impl<'a, T: Texts> Rule<Fragment> for ShellExpansion<'a, T> {
    ghost use Rattle.just_lang_rules.specs.Expansions.{expansion_spots_of};
    ghost use Rattle.just_lang_rules.specs.Literals.{literals_of_fragment};

    ghost spots = { λ r file x. expansion_spots_of (T.text_of r.texts.now) file (literals_of_fragment x) };

    fn first(
        &self,
        alloc: Global,
        file: usize,
        thing: &Fragment,
    ) -> Result<Option<Spot>, NoMemory> {
        match thing {
            Fragment::Text(_) => Ok(None),
            Fragment::Value(expr) => first_in_expr(alloc, self.texts, file, expr),
        }
    }
}

impl<'a, T: Texts> Rule<Line> for ShellExpansion<'a, T> {
    ghost use Rattle.just_lang_rules.specs.Expansions.{expansion_spots_of};
    ghost use Rattle.just_lang_rules.specs.Literals.{literals_of_line};

    ghost spots = { λ r file x. expansion_spots_of (T.text_of r.texts.now) file (literals_of_line x) };

    #[tactic(auto, using(crate::proofs::Parts::of_each))]
    fn first(&self, alloc: Global, file: usize, thing: &Line) -> Result<Option<Spot>, NoMemory> {
        first_among(alloc, self, file, thing.fragments.as_slice())
    }
}

/// The first such string in the dependencies and the body of a recipe.
fn first_behind_colon<T: Texts>(
    alloc: Global,
    texts: &T,
    file: usize,
    recipe: &AstRecipe,
) -> Result<Option<Spot>, NoMemory>
    ensures { IfOk result (λ s. s ≡ first_spot (expansion_spots_of (T.text_of texts.now) file (literals_behind_colon recipe.now))) }
{
    let rule = ShellExpansion { texts };
    let priors = first_among(alloc, &rule, file, recipe.priors.as_slice())?;
    let subsequents = first_among(alloc, &rule, file, recipe.subsequents.as_slice())?;
    let body = first_among(alloc, &rule, file, recipe.body.as_slice())?;
    let behind = earlier(subsequents, body);
    Ok(earlier(priors, behind))
}

/// The first such string in a recipe.
fn first_in_recipe<T: Texts>(
    alloc: Global,
    texts: &T,
    file: usize,
    recipe: &AstRecipe,
) -> Result<Option<Spot>, NoMemory>
    ensures { IfOk result (λ s. s ≡ first_spot (expansion_spots_of (T.text_of texts.now) file (literals_of_recipe recipe.now))) }
{
    let rule = ShellExpansion { texts };
    let attributes = first_among(alloc, &rule, file, recipe.attributes.as_slice())?;
    let parameters = first_among(alloc, &rule, file, recipe.parameters.as_slice())?;
    let further = first_behind_colon(alloc, texts, file, recipe)?;
    let behind = earlier(parameters, further);
    Ok(earlier(attributes, behind))
}

/// The first such string in the value of a setting.
fn first_in_setting<T: Texts>(
    alloc: Global,
    texts: &T,
    file: usize,
    value: &Option<SettingValue>,
) -> Result<Option<Spot>, NoMemory>
    ensures { IfOk result (λ s. s ≡ first_spot (expansion_spots_of (T.text_of texts.now) file (literals_of_setting value.now))) }
{
    match value {
        None | Some(SettingValue::Bool(_)) => Ok(None),
        Some(SettingValue::Text(expr)) => first_in_expr(alloc, texts, file, expr),
        Some(SettingValue::List(literals)) => {
            first_among(alloc, &ShellExpansion { texts }, file, literals.as_slice())
        }
    }
}

/// The path of a module, where it has one that can't be expanded.
fn first_in_path<T: Texts>(
    alloc: Global,
    texts: &T,
    file: usize,
    path: &Option<StringLiteral>,
) -> Result<Option<Spot>, NoMemory>
    ensures { IfOk result (λ s. s ≡ first_spot (expansion_spots_of (T.text_of texts.now) file (literals_of_path path.now))) }
{
    match path {
        None => Ok(None),
        Some(path) => ShellExpansion { texts }.first(alloc, file, path),
    }
}

impl<'a, T: Texts> Rule<AstItem> for ShellExpansion<'a, T> {
    ghost use Rattle.just_lang_rules.specs.Expansions.{expansion_spots_of};
    ghost use Rattle.just_lang_rules.specs.Literals.{literals_of};

    ghost spots = { λ r file x. expansion_spots_of (T.text_of r.texts.now) file (literals_of x) };

    #[tactic(auto, using(crate::proofs::Parts::of_both, crate::proofs::Parts::of_each))]
    fn first(&self, alloc: Global, file: usize, thing: &AstItem) -> Result<Option<Spot>, NoMemory> {
        match thing {
            AstItem::Import { path, .. } => self.first(alloc, file, path),
            AstItem::Module {
                attributes,
                path,
                ..
            } => {
                let found = first_among(alloc, self, file, attributes.as_slice())?;
                let path = first_in_path(alloc, self.texts, file, path)?;
                Ok(earlier(found, path))
            }
            AstItem::Assignment { value, .. } => first_in_expr(alloc, self.texts, file, value),
            AstItem::Setting { value, .. } => first_in_setting(alloc, self.texts, file, value),
            AstItem::Recipe(recipe) => first_in_recipe(alloc, self.texts, file, recipe.get()),
            AstItem::Blank
            | AstItem::Comment(_)
            | AstItem::Alias { .. }
            | AstItem::Unexport { .. } => Ok(None),
        }
    }
}
