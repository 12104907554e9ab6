//! The keys of cached bodies.

ghost use Rattle.std.specs.Prelude.{◌≡◌, IfOk, map, codes};
ghost use Rattle.just_exec_work.specs.Attributes.{attribute_text};
ghost use Rattle.just_exec_work.specs.Works.{run_of};
ghost use Rattle.just_exec.specs.Caches.{first_of, executor_of, positional_of, key_of};

use just_cache::{CacheKey, KeyExecutor};
use just_exec_work::{Running, attribute_text, has_attribute};
use just_host_record::{Script, Spec};
use just_lang_types::{BodyLine, Interpreter, Modulepath};
use just_path::Utf8PathBuf;
use just_path_text::{NoMemory, Seq, Text, TryClone};
use std::alloc::Global;

/// The first of some texts, if there is one.
pub fn first_of(texts: &[Text]) -> Result<Option<Text>, NoMemory>
    ensures { IfOk result (λ t. t ≡ first_of texts.now) }
{
    match texts {
        [first, ..] => Ok(Some(first.try_clone()?)),
        [] => Ok(None),
    }
}

/// The texts of lines.
#[tactic(auto, using(just_exec_work::proofs::Lists::mapped_more, just_exec_work::proofs::Lists::mapped_all))]
fn line_texts(alloc: Global, lines: &[BodyLine]) -> Result<Seq<Text>, NoMemory>
    ensures { IfOk result (λ ts. ts ≡ map (λ l. l.text) lines.now) }
{
    let mut texts = Vec::with_capacity(alloc, lines.len())?;
    'lines: for line in lines {
        texts.push(line.text.try_clone()?)?;
    }
    Ok(Seq::from(texts))
}

/// What runs a script as that child.
fn executor_of(spec: &Spec, script: &Script) -> Result<KeyExecutor, NoMemory>
    ensures { IfOk result (λ e. e ≡ executor_of spec.now script.now) }
{
    if script.run {
        return Ok(KeyExecutor::Shebang {
            argument: first_of(spec.arguments.as_slice())?,
            interpreter: spec.program.try_clone()?,
        });
    }
    Ok(KeyExecutor::Command(Interpreter {
        command: spec.program.try_clone()?,
        arguments: spec.arguments.try_clone()?,
    }))
}

/// The words that a script is given, where its recipe is given positional arguments.
fn positional_of(run: &Running<'_>, script: &Script) -> Result<Option<Seq<Text>>, NoMemory>
    ensures { IfOk result (λ ts. ts ≡ positional_of (run_of run.now) script.now) }
{
    let attributes = run.recipe.attributes.as_slice();
    if run.settings.positional_arguments || has_attribute(attributes, "positional-arguments") {
        return Ok(Some(script.after.try_clone()?));
    }
    Ok(None)
}

/// What each key has: the texts of the lines, what changes in the environment, and the recipe.
#[derive(Drop)]
struct Fixed {
    body: Seq<Text>,
    environment: Seq<(Text, Option<Text>)>,
    recipe: Modulepath,
}

/// What each key has of a body with these lines that is run by that child.
fn fixed_of(
    alloc: Global,
    run: &Running<'_>,
    lines: &[BodyLine],
    spec: &Spec,
) -> Result<Fixed, NoMemory>
    ensures body { IfOk result (λ f. f.body ≡ map (λ l. l.text) lines.now) }
    ensures environment { IfOk result (λ f. f.environment ≡ spec.now.changes) }
    ensures recipe { IfOk result (λ f. f.recipe ≡ (run_of run.now).recipe.path) }
{
    Ok(Fixed {
        body: line_texts(alloc, lines)?,
        environment: spec.changes.try_clone()?,
        recipe: run.recipe.path.try_clone()?,
    })
}

/// What a key may have: the extension, the words, and the folder.
#[derive(Drop)]
struct Choices {
    extension: Option<Text>,
    positional: Option<Seq<Text>>,
    folder: Option<Utf8PathBuf>,
}

/// What the key may have of a body that is run as that script by that child.
fn choices_of(
    alloc: Global,
    run: &Running<'_>,
    spec: &Spec,
    script: &Script,
) -> Result<Choices, NoMemory>
    ensures extension { IfOk result (λ c. c.extension ≡
        attribute_text (run_of run.now).recipe.attributes (codes "extension")) }
    ensures positional { IfOk result (λ c. c.positional ≡
        positional_of (run_of run.now) script.now) }
    ensures folder { IfOk result (λ c. c.folder ≡ spec.now.folder) }
{
    Ok(Choices {
        extension: attribute_text(alloc, run.recipe.attributes.as_slice(), "extension")?,
        positional: positional_of(run, script)?,
        folder: spec.folder.try_clone()?,
    })
}

/// The key of a body with these lines that is run as that script by that child, without the digests of its inputs.
pub(crate) fn key_of(
    alloc: Global,
    run: &Running<'_>,
    lines: &[BodyLine],
    spec: &Spec,
    script: &Script,
    extra: Option<Text>,
) -> Result<CacheKey, NoMemory>
    ensures { IfOk result (λ k. k ≡ key_of (run_of run.now) lines.now spec.now script.now extra) }
{
    let Fixed {
        body,
        environment,
        recipe,
    } = fixed_of(alloc, run, lines, spec)?;
    let Choices {
        extension,
        positional,
        folder,
    } = choices_of(alloc, run, spec, script)?;
    Ok(CacheKey {
        body,
        environment,
        executor: executor_of(spec, script)?,
        extension,
        extra,
        inputs: None,
        positional,
        recipe,
        working_directory: folder,
    })
}
