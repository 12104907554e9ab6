//! The unstable features that a project uses.

ghost use Rattle.std.specs.Prelude.{◌≡◌, map};
ghost use Rattle.std.specs.List.{list_any};
ghost use Rattle.just_cli_plan.specs.Features.{is_cached, feature_of, feature_in, unstable_feature};

use just_config::UnstableFeature;
use just_exec_work::has_attribute;
use just_lang_types::Recipe;
use just_lang_types::project::Justfile;

fn is_cached(recipe: &Recipe) -> bool
    ensures { result ≡ is_cached recipe.now }
{
    has_attribute(recipe.attributes.as_slice(), "cache")
}

/// Whether one of these recipes has a cache.
fn has_cached(recipes: &[Recipe]) -> bool
    ensures { result ≡ list_any is_cached recipes.now }
{
    recipes.iter().any(|recipe| is_cached(recipe))
}

/// The first unstable feature that a module uses without leave of its own.
fn feature_of(justfile: &Justfile) -> Option<UnstableFeature>
    ensures { result ≡ feature_of justfile.now }
{
    if justfile.settings.unstable {
        return None;
    }
    if has_cached(justfile.recipes.as_slice()) {
        return Some(UnstableFeature::CachedRecipes);
    }
    if justfile.settings.lists {
        Some(UnstableFeature::ListsSetting)
    } else {
        None
    }
}

/// The first unstable feature that a module of these uses without leave.
fn feature_in(modules: &[&Justfile]) -> Option<UnstableFeature>
    ensures { result ≡ feature_in (map (λ m. m.now) modules.now) }
{
    'modules: for module in modules {
        if let Some(feature) = feature_of(*module) {
            return Some(feature);
        }
    }
    None
}

/// The first unstable feature that a project uses and that neither the words nor its module allow.
pub(crate) fn unstable_feature(allowed: bool, modules: &[&Justfile]) -> Option<UnstableFeature>
    ensures { result ≡ unstable_feature allowed (map (λ m. m.now) modules.now) }
{
    if allowed {
        return None;
    }
    feature_in(modules)
}
