//! The caches of recipes.

ghost use Rattle.std.specs.Prelude.{◌≡◌, IfOk, map, option_map, codes};
ghost use Rattle.just_path.specs.Path.{text_of};
ghost use Rattle.just_eval_closure.specs.Answers.{Gives};
ghost use Rattle.just_exec_work.specs.Works.{run_of};
ghost use Rattle.just_eval_closure.specs.Entries.{located_of, Sees};
ghost use Rattle.just_exec.specs.Caches.{cache_attribute, key_text_of, keyed_text, keyed_texts, texts_under, first_of, path_in, cache_of, script_child, recipe_cache};

use super::NodeCache;
use super::keys::{first_of, key_of};
use just_eval_closure::{Entry, text_in_recipe};
use just_exec_work::{Running, Work, attribute_named};
use just_host_record::{Script, Spec};
use just_lang_syntax::{Argument, Attribute, Name};
use just_lang_types::project::LangError;
use just_lang_types::{BodyLine, Recipe, Scopes, Value};
use just_path::{Utf8Path, Utf8PathBuf};
use just_path_text::{NoMemory, Seq, Text};
use std::alloc::Global;

/// The `cache` of a recipe, if it has one.
fn cache_attribute(recipe: &Recipe) -> Option<&Attribute>
    ensures { option_map (λ a. a.now) result ≡ cache_attribute recipe.now }
{
    attribute_named(recipe.attributes.as_slice(), "cache")
}

/// The text of an argument's key.
fn key_text_of(alloc: Global, key: &Option<Name>) -> Result<Text, NoMemory>
    ensures { IfOk result (λ t. t ≡ key_text_of key.now) }
{
    match key {
        Some(key) => key.text.try_clone(),
        None => Ok(Text::from(String::new(alloc))),
    }
}

/// The key of an argument of `cache`, with the text of its value.
#[tactic(auto, using(crate::proofs::Caching::known_text, crate::proofs::Caching::known_refusal))]
fn keyed_text(
    alloc: Global,
    scopes: &Scopes,
    from: &Entry<'_>,
    values: &[Value],
    argument: &Argument,
) -> Result<(Text, Text), LangError>
    requires { Sees scopes.now from.now }
    ensures { Gives (keyed_text scopes.now (located_of from.now) values.now argument.now) result }
{
    let text = text_in_recipe(alloc, scopes, from, values, &argument.value)?;
    Ok((key_text_of(alloc, &argument.key)?, text))
}

/// The keys of all arguments with the texts of their values.
#[tactic(auto, using(just_eval_closure::proofs::Each::each_more, just_eval_closure::proofs::Each::each_end, just_eval_closure::proofs::Each::each_refused))]
fn keyed_texts(
    alloc: Global,
    scopes: &Scopes,
    from: &Entry<'_>,
    values: &[Value],
    arguments: &[Argument],
) -> Result<Seq<(Text, Text)>, LangError>
    requires { Sees scopes.now from.now }
    ensures { Gives (keyed_texts scopes.now (located_of from.now) values.now arguments.now) result }
{
    let mut texts = Vec::with_capacity(alloc, arguments.len())?;
    'arguments: for argument in arguments {
        texts.push(keyed_text(alloc, scopes, from, values, argument)?)?;
    }
    Ok(Seq::from(texts))
}

/// The texts that have that key.
#[tactic(auto, using(just_exec_work::proofs::Lists::kept_more, just_exec_work::proofs::Lists::kept_passed, just_exec_work::proofs::Lists::kept_all))]
fn texts_under(alloc: Global, key: &str, texts: &[(Text, Text)]) -> Result<Seq<Text>, NoMemory>
    ensures { IfOk result (λ ts. ts ≡ texts_under key.now texts.now) }
{
    let mut found = Vec::with_capacity(alloc, texts.len())?;
    'texts: for pair in texts {
        if pair.0.as_str() == key {
            found.push(pair.1.try_clone()?)?;
        }
    }
    Ok(Seq::from(found))
}

/// The path of what has that name for a body that runs in that folder, or where the program runs.
fn path_in(
    alloc: Global,
    folder: &Option<Utf8PathBuf>,
    name: &Text,
) -> Result<Utf8PathBuf, NoMemory>
    ensures { IfOk result (λ p. p ≡ path_in folder.now name.now) }
{
    let name = Utf8Path::new(name.as_str());
    match folder {
        Some(folder) => folder.as_path().join(alloc, name),
        None => name.to_path_buf(alloc),
    }
}

/// The paths of what has these names.
#[tactic(auto, using(just_exec_work::proofs::Lists::mapped_more, just_exec_work::proofs::Lists::mapped_all))]
fn paths_in(
    alloc: Global,
    folder: &Option<Utf8PathBuf>,
    names: &[Text],
) -> Result<Seq<Utf8PathBuf>, NoMemory>
    ensures { IfOk result (λ ps. ps ≡ map (path_in folder.now) names.now) }
{
    let mut paths = Vec::with_capacity(alloc, names.len())?;
    'names: for name in names {
        paths.push(path_in(alloc, folder, name)?)?;
    }
    Ok(Seq::from(paths))
}

/// The text of `extra`, if these texts have one.
fn extra_of(alloc: Global, texts: &[(Text, Text)]) -> Result<Option<Text>, NoMemory>
    ensures { IfOk result (λ t. t ≡ first_of (texts_under (codes "extra") texts.now)) }
{
    let extras = texts_under(alloc, "extra", texts)?;
    let extra = first_of(extras.as_slice());
    drop(extras);
    extra
}

/// The paths of the outputs that these texts name, of a body that runs in that folder.
fn outputs_of(
    alloc: Global,
    folder: &Option<Utf8PathBuf>,
    texts: &[(Text, Text)],
) -> Result<Seq<Utf8PathBuf>, NoMemory>
    ensures { IfOk result (λ ps. ps ≡
        map (path_in folder.now) (texts_under (codes "outputs") texts.now)) }
{
    let outputs = texts_under(alloc, "outputs", texts)?;
    let paths = paths_in(alloc, folder, outputs.as_slice());
    drop(outputs);
    paths
}

/// The cache of a body with these lines that is run as that script by that child, whose `cache` has these texts.
fn cache_of(
    alloc: Global,
    run: &Running<'_>,
    folder: Utf8Path<'_>,
    lines: &[BodyLine],
    spec: &Spec,
    script: &Script,
    texts: &[(Text, Text)],
) -> Result<NodeCache, NoMemory>
    ensures { IfOk result (λ c. c ≡ cache_of (run_of run.now) (text_of folder.entry) lines.now spec.now script.now texts.now) }
{
    let inputs = texts_under(alloc, "inputs", texts)?;
    let paths = paths_in(alloc, &spec.folder, inputs.as_slice())?;
    let outputs = outputs_of(alloc, &spec.folder, texts)?;
    let folder = folder.to_path_buf(alloc)?;
    let extra = extra_of(alloc, texts)?;
    Ok(NodeCache {
        key: key_of(alloc, run, lines, spec, script, extra)?,
        folder,
        inputs,
        paths,
        outputs,
    })
}

/// The child of a body that is run as a script.
fn script_child(work: &Work) -> Option<(&Spec, &Script)>
    ensures { option_map (λ c. (c.0.now, c.1.now)) result ≡ script_child work.now }
{
    match work {
        Work::Script(command) => {
            let spec = &command.get().spec;
            match &spec.script {
                Some(script) => Some((spec, script)),
                None => None,
            }
        }
        Work::Lines(_) | Work::Empty => None,
    }
}

/// The cache of a recipe that is run so, and whose body has these lines and that to run. A recipe without `cache` has none, nor does a body that
/// starts no child, nor any where the words leave caches alone.
#[tactic(auto, using(crate::proofs::Caching::left_alone, crate::proofs::Caching::no_attribute, crate::proofs::Caching::no_child, crate::proofs::Caching::cache_given, crate::proofs::Caching::cache_refused))]
pub(crate) fn recipe_cache(
    alloc: Global,
    scopes: &Scopes,
    from: &Entry<'_>,
    run: &Running<'_>,
    folder: Utf8Path<'_>,
    lines: &[BodyLine],
    work: &Work,
) -> Result<Option<NodeCache>, LangError>
    requires { Sees scopes.now from.now }
    ensures { Gives (recipe_cache scopes.now (located_of from.now) (run_of run.now) (text_of folder.entry) lines.now work.now) result }
{
    if run.flags.no_cache {
        return Ok(None);
    }
    let Some(attribute) = cache_attribute(run.recipe) else {
        return Ok(None);
    };
    let Some((spec, script)) = script_child(work) else {
        return Ok(None);
    };
    let arguments = attribute.arguments.as_slice();
    let texts = keyed_texts(alloc, scopes, from, run.values, arguments)?;
    let cache = cache_of(alloc, run, folder, lines, spec, script, texts.as_slice())?;
    Ok(Some(cache))
}
