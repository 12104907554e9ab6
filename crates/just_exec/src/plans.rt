//! What the plan of a run says of its nodes.

ghost use Rattle.std.specs.Prelude.{◌≡◌, IfOk};
ghost use Rattle.just_path.specs.Path.{text_of};
ghost use Rattle.just_exec_work.specs.Works.{run_of};
ghost use Rattle.just_eval_closure.specs.Entries.{located_of, Sees};
ghost use Rattle.just_exec.specs.Banners.{banner};
ghost use Rattle.just_exec.specs.Caches.{IsPaired};
ghost use Rattle.just_exec.specs.Plans.{GivesPlan, folder_in, running, node_plan, no_plan, run_plan};
ghost use Rattle.just_exec.specs.Prompts.{prompt};

use super::asked::{is_parallel, prompt};
use super::caches::recipe_cache;
use super::heading::banner;
use super::{NodeCache, NodePlan, PlanError};
use just_eval_closure::Entry;
use just_exec_work::{RunFlags, Running, Work, module_folder, recipe_work};
use just_lang_types::project::Justfile;
use just_lang_types::{BodyLine, Recipe, Scopes, Value};
use just_path::Utf8Path;
use just_path_text::{NoMemory, Text};
use std::alloc::Global;

/// The plan of a path at which no recipe is: nothing is run.
pub fn no_plan(alloc: Global) -> NodePlan
    ensures { result ≡ no_plan }
{
    NodePlan {
        prompt: None,
        parallel: false,
        work: Work::Empty,
        banner: Text::from(String::new(alloc)),
        cache: None,
    }
}

/// What is asked before a recipe is run, and what is printed when its body is begun.
fn texts_of(
    alloc: Global,
    flags: &RunFlags,
    recipe: &Recipe,
) -> Result<(Option<Text>, Text), NoMemory>
    ensures asked { IfOk result (λ t. t.0 ≡ prompt flags.now recipe.now) }
    ensures told { IfOk result (λ t. t.1 ≡ banner flags.now recipe.now) }
{
    let told = banner(alloc, flags, recipe)?;
    Ok((prompt(alloc, flags, recipe)?, told))
}

/// The plan of a recipe that has this to run, and that cache, with what is asked and what is printed.
fn node_plan(
    flags: &RunFlags,
    from: &Entry<'_>,
    texts: (Option<Text>, Text),
    work: Work,
    cache: Option<NodeCache>,
) -> NodePlan
    requires asked { texts.0 ≡ prompt flags.now from.now.recipe.now }
    requires told { texts.1 ≡ banner flags.now from.now.recipe.now }
    ensures { result ≡ node_plan flags.now (located_of from.now) work cache }
{
    let _quiet = flags.quiet;
    let (prompt, banner) = texts;
    NodePlan {
        prompt,
        parallel: is_parallel(from.recipe),
        work,
        banner,
        cache,
    }
}

/// The folder of a module.
fn folder_of<'p>(flags: &'p RunFlags, parent: &'p Justfile) -> Utf8Path<'p>
    ensures { text_of result ≡ folder_in flags.now parent.now }
{
    let working = flags.folder.as_path();
    module_folder(working, &parent.module_path, parent.source.as_path())
}

/// A recipe in its module, as it is run with these values of its parameters and these changes of its children's environment.
#[tactic(auto, using(crate::proofs::RunPlans::running_is))]
pub fn running<'r>(
    flags: &'r RunFlags,
    from: &Entry<'r>,
    values: &'r [Value],
    changes: &'r [(Text, Option<Text>)],
) -> Running<'r>
    ensures { run_of result ≡ running flags.now (located_of from.now) values.now changes.now }
{
    Running {
        recipe: from.recipe,
        settings: &from.parent.settings,
        folder: folder_of(flags, from.parent),
        values,
        changes,
        flags,
    }
}

/// What the plan of a run says of a node of a recipe that is run so: what is asked before it, what its body has to run, by the lines of that, what
/// is printed when it is begun, and its cache, whose entries stand in that folder. It is refused where its script names no interpreter, or its
/// `cache` has no values.
#[tactic(auto, using(crate::proofs::RunPlans::run_planned))]
pub fn run_plan(
    alloc: Global,
    scopes: &Scopes,
    from: &Entry<'_>,
    run: &Running<'_>,
    folder: Utf8Path<'_>,
    lines: &[BodyLine],
) -> Result<NodePlan, PlanError>
    requires { Sees scopes.now from.now }
    ensures plan { GivesPlan (run_plan scopes.now (located_of from.now) (run_of run.now)
        (text_of folder.entry) lines.now) result }
    ensures paired { IfOk result (λ p. IsPaired p.cache) }
{
    let work = recipe_work(alloc, run, lines)?;
    let cache = recipe_cache(alloc, scopes, from, run, folder, lines, &work)?;
    let texts = texts_of(alloc, run.flags, from.recipe)?;
    Ok(node_plan(run.flags, from, texts, work, cache))
}
