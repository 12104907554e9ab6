//! The plan of a closure.

ghost use Rattle.std.specs.Prelude.{◌≡◌, ◌^◌, ◌<◌, List, length, zip, map, All, Some, option_map, Ok, Err, IfOk, IfErr};
ghost use Rattle.just_path.specs.Path.{text_of};
ghost use Rattle.just_eval_closure.specs.WellFormed.{IsWellFormed};
ghost use Rattle.just_eval_closure.specs.Entries.{located_of, Sees};
ghost use Rattle.just_eval_closure.specs.Requests.{IsIndexed};
ghost use Rattle.just_exec.specs.declared.plan_error.PlanError.{PlanError};
ghost use Rattle.just_exec.specs.declared.node_plan.NodePlan.{NodePlan};
ghost use Rattle.just_exec_work.specs.Steps.{commands_of};
ghost use Rattle.just_cli_plan.specs.Own.{OrMemory};
ghost use Rattle.just_exec.specs.Caches.{IsPaired};
ghost use Rattle.just_exec.specs.Plans.{GivesPlan};
ghost use Rattle.just_cli_plan.specs.Planned.{entry_changes, recipe_plan, key_plan, cache_planned, node_planned, planned, message_at, messages_of, plan_for, plans_for, plans_in, error_of_command, error_of_plan, RefusesNodes};

use just_cache::{ClassText, class_with_place};
use just_env::changes_of_recipe;
use just_eval::lines_of_recipe;
use just_eval_closure::{Entry, Request, View};
use just_exec::{Error, NodeCache, NodePlan, PlanError, no_plan, run_plan, running};
use just_exec_work::{CommandError, RunFlags, Work, prints_code};
use just_lang_read::Boxed;
use just_lang_types::{Closure, Key, Node, Scopes, Value};
use just_path::Utf8Path;
use just_path_text::{NoMemory, Seq, Text};
use just_sched_history::{CachePlan, Plan, PlanNode};
use std::alloc::Global;

/// What changes in the environment of the children of a recipe that was found, whose parameters have these values.
fn entry_changes(
    alloc: Global,
    from: &Entry<'_>,
    values: &[Value],
) -> Result<Seq<(Text, Option<Text>)>, NoMemory>
    ensures { IfOk result (λ cs. cs ≡ entry_changes from.now values.now) }
{
    let sees = View {
        levels: from.levels,
        parameters: from.recipe.parameters.as_slice(),
        values,
    };
    let unexports = from.parent.unexports.as_slice();
    changes_of_recipe(alloc, from.pairs, sees, &from.parent.settings, unexports)
}

/// What is planned for a recipe that was found, whose parameters have these values.
#[tactic(auto, using(crate::proofs::KeyPlans::lines_refused))]
fn recipe_plan<'r>(
    alloc: Global,
    scopes: &Scopes,
    from: &Entry<'r>,
    flags: &'r RunFlags,
    folder: Utf8Path<'_>,
    values: &'r [Value],
) -> Result<NodePlan, PlanError>
    requires { Sees scopes.now from.now }
    ensures plan { GivesPlan (recipe_plan flags.now (text_of folder.entry) scopes.now values.now
        (Some (located_of from.now))) result }
    ensures paired { IfOk result (λ p. IsPaired p.cache) }
{
    let lines = lines_of_recipe(alloc, scopes, from, values)?;
    let changes = entry_changes(alloc, from, values)?;
    // Its references live as long as what changes does.
    let found = Entry {
        parent: from.parent,
        recipe: from.recipe,
        levels: from.levels,
        pairs: from.pairs,
    };
    let run = running(flags, &found, values, changes.as_slice());
    let lines = lines.as_slice();
    run_plan(alloc, scopes, from, &run, folder, lines)
}

/// What is planned for a key. Its recipe is looked up once, and what was found is handed on.
#[tactic(auto, using(crate::proofs::KeyPlans::no_recipe, crate::proofs::Found::found_sees))]
fn key_plan(
    alloc: Global,
    request: &Request<'_>,
    flags: &RunFlags,
    folder: Utf8Path<'_>,
    key: &Key,
) -> Result<NodePlan, PlanError>
    requires { IsIndexed request.now }
    ensures plan { GivesPlan (key_plan flags.now (text_of folder.entry)
        (map (λ m. m.now) request.now.modules.items) request.now.scopes.now key.now) result }
    ensures paired { IfOk result (λ p. IsPaired p.cache) }
{
    let Some(from) = request.entry(&key.recipe) else {
        return Ok(no_plan(alloc));
    };
    let values = key.arguments.as_slice();
    recipe_plan(alloc, request.scopes, &from, flags, folder, values)
}

/// The error of a body that can't be run.
fn command_error(error: CommandError) -> Error
    ensures { result ≡ error_of_command error }
{
    match error {
        CommandError::InvalidShebang { recipe, shebang } => {
            Error::InvalidShebang { recipe, shebang }
        }
        CommandError::NoMemory => Error::NoMemory,
    }
}

/// The error of nodes that aren't planned.
fn plan_error(error: PlanError) -> Error
    ensures { result ≡ error_of_plan error }
{
    match error {
        PlanError::Lang(error) => Error::from(error),
        PlanError::Command(error) => command_error(error),
    }
}

/// How many commands a body has.
fn command_count(work: &Work) -> usize
    ensures { result ≡ length (commands_of work.now) }
{
    match work {
        Work::Lines(commands) => commands.len(),
        Work::Script(_) => 1,
        Work::Empty => 0,
    }
}

/// The cache of a node of a plan, with its class. One whose files can't be counted in 32 bits wants memory.
fn cache_plan(alloc: Global, cache: NodeCache) -> Result<CachePlan, NoMemory>
    requires { length cache.paths ≡ length cache.inputs }
    ensures { IfOk result (λ c. cache_planned c ≡ cache) }
{
    let ClassText { text, inputs_at } = class_with_place(alloc, &cache.key)?;
    let NodeCache {
        key,
        folder,
        inputs,
        paths,
        outputs,
    } = cache;
    if paths.len() > u32::MAX as usize || outputs.len() > u32::MAX as usize {
        return Err(NoMemory);
    }
    Ok(CachePlan {
        key,
        class: text,
        inputs_at,
        folder,
        inputs,
        paths,
        outputs,
    })
}

/// The same of a node that may have one.
fn cache_plan_of(
    alloc: Global,
    cache: Option<NodeCache>,
) -> Result<Option<Boxed<CachePlan>>, NoMemory>
    requires { IsPaired cache }
    ensures { IfOk result (λ c. option_map cache_planned c ≡ cache) }
{
    match cache {
        Some(cache) => Ok(Some(Boxed::new(alloc, cache_plan(alloc, cache)?)?)),
        None => Ok(None),
    }
}

/// A node with what is planned for it. A body whose commands can't be counted in 32 bits wants memory.
fn plan_node(alloc: Global, node: Node, plan: NodePlan) -> Result<PlanNode, NoMemory>
    requires { IsPaired plan.cache }
    ensures node { IfOk result (λ x. planned x ≡ (node, plan)) }
    ensures short { IfOk result (λ x. length (commands_of x.work) < 2 ^ 32) }
{
    let NodePlan {
        prompt,
        parallel,
        work,
        banner,
        cache,
    } = plan;
    if command_count(&work) > u32::MAX as usize {
        return Err(NoMemory);
    }
    Ok(PlanNode {
        node,
        prompt,
        parallel,
        work,
        banner,
        cache: cache_plan_of(alloc, cache)?,
    })
}

/// A node with what is planned for its key, where its body can be run.
fn planned_node(
    alloc: Global,
    request: &Request<'_>,
    flags: &RunFlags,
    folder: Utf8Path<'_>,
    node: Node,
) -> Result<PlanNode, Error>
    requires { IsIndexed request.now }
    ensures planned { IfOk result (λ x. (x.node ≡ node) × (plan_for flags.now (text_of folder.entry) (map (λ m. m.now) request.now.modules.items) request.now.scopes.now node ≡ Ok (node_planned x))) }
    ensures short { IfOk result (λ x. length (commands_of x.work) < 2 ^ 32) }
    ensures refused { IfErr result (OrMemory (λ e. (f : PlanError) × (plan_for flags.now (text_of folder.entry) (map (λ m. m.now) request.now.modules.items) request.now.scopes.now node ≡ Err f) × (e ≡ error_of_plan f))) }
{
    match key_plan(alloc, request, flags, folder, &node.key) {
        Ok(plan) => Ok(plan_node(alloc, node, plan)?),
        Err(error) => Err(plan_error(error)),
    }
}

/// The nodes of a plan, each with what is planned for it. The first whose body can't be run refuses it.
fn plan_nodes(
    alloc: Global,
    request: &Request<'_>,
    flags: &RunFlags,
    folder: Utf8Path<'_>,
    nodes: Seq<Node>,
) -> Result<Seq<PlanNode>, Error>
    requires { IsIndexed request.now }
    ensures nodes { IfOk result (λ made. (map (λ x. x.node) made ≡ nodes) × (plans_for flags.now (text_of folder.entry) (map (λ m. m.now) request.now.modules.items) request.now.scopes.now nodes ≡ Ok (map node_planned made))) }
    ensures short { IfOk result (All (λ x. length (commands_of x.work) < 2 ^ 32)) }
    ensures refused { IfErr result (OrMemory (λ e. (f : PlanError) × (plans_for flags.now (text_of folder.entry) (map (λ m. m.now) request.now.modules.items) request.now.scopes.now nodes ≡ Err f) × (e ≡ error_of_plan f))) }
{
    let mut left = nodes.into_vec();
    let mut made = match Vec::with_capacity(alloc, left.len()) {
        Ok(made) => made,
        Err(_) => return Err(Error::NoMemory),
    };
    // the first one is at the end, from which they are taken
    left.reverse();
    'nodes: while let Some(node) = left.pop() {
        let planned = match planned_node(alloc, request, flags, folder, node) {
            Ok(planned) => planned,
            Err(error) => return Err(error),
        };
        match made.push(planned) {
            Ok(()) => {}
            Err(_) => return Err(Error::NoMemory),
        }
    }
    Ok(Seq::from(made))
}

/// Whether the message of the exit code of a recipe is told, if there is a recipe.
fn is_told(found: &Option<Entry<'_>>) -> bool
    ensures { result ≡ message_at (option_map located_of found.now) }
{
    match found {
        Some(entry) => prints_code(&entry.parent.settings, entry.recipe),
        None => true,
    }
}

/// Of each node whether the message of its exit code is told.
#[tactic(auto, using(crate::proofs::Found::found_is))]
fn messages_of(alloc: Global, request: &Request<'_>, nodes: &[Node]) -> Result<Seq<bool>, NoMemory>
    requires { IsIndexed request.now }
    ensures { IfOk result (λ ms. ms ≡ messages_of (map (λ m. m.now) request.now.modules.items) nodes.now) }
{
    let mut messages = Vec::with_capacity(alloc, nodes.len())?;
    'nodes: for node in nodes {
        let found = request.entry(&node.key.recipe);
        messages.push(is_told(&found))?;
    }
    Ok(Seq::from(messages))
}

/// The plan of a closure, with of each node whether the message of its exit code is told. The entries of caches stand in that folder. The
/// first node whose body can't be run, or whose cache has no values, refuses it.
pub(crate) fn plan_of(
    alloc: Global,
    request: &Request<'_>,
    flags: &RunFlags,
    folder: Utf8Path<'_>,
    closure: Closure,
) -> Result<(Plan, Seq<bool>), Error>
    requires indexed { IsIndexed request.now }
    requires formed { IsWellFormed closure.nodes closure.invocations }
    requires few { length closure.nodes < 2 ^ 32 }
    ensures nodes { IfOk result (λ p. (plans : List NodePlan) × (plans_in flags.now (text_of folder.entry) (map (λ m. m.now) request.now.modules.items) request.now.scopes.now closure ≡ Ok plans) × (map planned p.0.nodes ≡ zip closure.nodes plans)) }
    ensures invocations { IfOk result (λ p. p.0.invocations ≡ closure.invocations) }
    ensures messages { IfOk result (λ p. p.1 ≡ messages_of (map (λ m. m.now) request.now.modules.items) closure.nodes) }
    ensures refused { IfErr result (OrMemory (λ e. RefusesNodes flags.now (text_of folder.entry) (map (λ m. m.now) request.now.modules.items) request.now.scopes.now closure e)) }
{
    let Closure { nodes, invocations } = closure;
    let messages = messages_of(alloc, request, nodes.as_slice())?;
    let nodes = match plan_nodes(alloc, request, flags, folder, nodes) {
        Ok(nodes) => nodes,
        Err(error) => return Err(error),
    };
    Ok((Plan { nodes, invocations }, messages))
}
