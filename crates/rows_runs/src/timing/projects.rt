//! The justfile of many recipes, and the closures of the first of them: what bench/assemble and bench/closure time. In the shapes `tree` and `ladder`
//! each recipe has up to two dependencies, in another one.

ghost use Rattle.std.specs.Prelude.{List, [], ◌∷◌, IfOk};
ghost use Rattle.just_lang_types.specs.declared.project.Justfile.{Justfile};
ghost use Rattle.just_lang_types.specs.Modules.{AreModules};
ghost use Rattle.just_eval_closure.specs.Ends.{AreEnding};

use super::recipes::recipes;
use super::{bad_words, number, out_of_memory};
use just_cli_plan::projects_end;
use just_eval_closure::closure;
use just_lang::assemble;
use just_lang_types::project::Justfile;
use just_lang_types::{Key, Modulepath, Scopes, Source};
use just_path::Utf8Path;
use just_path_text::{Environ, NoMemory, Seq, Text};
use std::alloc::Global;
use std::io;

/// The source of a text.
fn source(alloc: Global, text: &str) -> Result<Source, NoMemory> {
    let path = Utf8Path::new("/p/justfile").to_path_buf(alloc)?;
    let root = Utf8Path::new("/p").to_path_buf(alloc)?;
    let text = Text::from_str(alloc, text)?;
    Ok(Source { path, root, text })
}

/// The source of the recipes of a shape with the numbers from 1 on, below that count.
fn source_of(alloc: Global, shape: &str, count: u64) -> io::Result<Source> {
    let text = recipes(alloc, shape, count)?;
    match source(alloc, text.as_str()) {
        Ok(source) => Ok(source),
        Err(NoMemory) => Err(out_of_memory()),
    }
}

/// No environment.
fn no_environ(alloc: Global) -> Environ {
    Environ {
        pairs: Seq::new(alloc),
    }
}

/// The justfile of sources that break no rule: no chain of its dependencies is without an end. The call of `drop` stands in
/// place of a walk through all variants of the error at the scope's end.
#[tactic(auto, using(crate::proofs::Ends::dependencies_end))]
fn justfile(alloc: Global, sources: &[Source]) -> io::Result<Justfile>
    ensures { IfOk result (λ j. (modules : List Justfile) → AreModules (j ∷ []) modules → AreEnding modules) }
{
    let environ = no_environ(alloc);
    match assemble(alloc, sources, &environ) {
        Ok(justfile) => {
            projects_end();
            Ok(justfile)
        }
        Err(error) => {
            drop(error);
            Err(bad_words())
        }
    }
}

/// Makes the justfile of sources, and tells how many recipes it has.
fn recipe_count(alloc: Global, sources: &[Source]) -> io::Result<u64> {
    let justfile = justfile(alloc, sources)?;
    let count = justfile.recipes.len() as u64;
    drop(justfile);
    Ok(count)
}

/// How many recipes that many justfiles of sources have together.
fn recipe_counts(alloc: Global, sources: &[Source], times: u64) -> io::Result<u64> {
    let mut made: u64 = 0;
    for _ in 0..times {
        made = made.saturating_add(recipe_count(alloc, sources)?);
    }
    Ok(made)
}

/// Makes the justfile of those recipes so often, and prints how many recipes all of them have together.
pub(crate) fn make(rt: &HostRuntime, words: (&str, &str, &str)) -> io::Result<()> {
    let (shape, count, times) = words;
    let count = number(count)?;
    let times = number(times)?;
    let sources = [source_of(rt.alloc(), shape, count)?];
    let made = recipe_counts(rt.alloc(), &sources, times)?;
    println!(rt; "{made} recipes")
}

/// The key of the recipe `r1`.
fn first_key(alloc: Global) -> Result<Key, NoMemory> {
    let mut components = Vec::new(alloc);
    components.push(Text::from_str(alloc, "r1")?)?;
    Ok(Key {
        recipe: Modulepath {
            components: Seq::from(components),
        },
        arguments: Seq::new(alloc),
    })
}

/// Scopes in which nothing has a value.
fn no_scopes(alloc: Global) -> Scopes {
    Scopes {
        scopes: Seq::new(alloc),
        dotenv: Seq::new(alloc),
        environ: no_environ(alloc),
    }
}

/// The nodes of the closure of a justfile's keys.
fn node_count(alloc: Global, justfile: &Justfile, scopes: &Scopes, keys: &[Key]) -> io::Result<u64>
    requires ends { (modules : List Justfile) → AreModules (justfile.now ∷ []) modules → AreEnding modules }
{
    match closure(alloc, justfile, scopes, keys, false) {
        Ok(closure) => {
            let count = closure.nodes.len() as u64;
            drop(closure);
            Ok(count)
        }
        Err(error) => {
            drop(error);
            Err(out_of_memory())
        }
    }
}

/// The nodes of so many closures of a justfile's first recipe.
fn node_counts(alloc: Global, justfile: &Justfile, times: u64) -> io::Result<u64>
    requires ends { (modules : List Justfile) → AreModules (justfile.now ∷ []) modules → AreEnding modules }
{
    let Ok(key) = first_key(alloc) else {
        return Err(out_of_memory());
    };
    let keys = [key];
    let scopes = no_scopes(alloc);
    let mut nodes: u64 = 0;
    for _ in 0..times {
        nodes = nodes.saturating_add(node_count(alloc, justfile, &scopes, &keys)?);
    }
    Ok(nodes)
}

/// The nodes of so many closures of the first recipe of sources.
fn node_counts_of(alloc: Global, sources: &[Source], times: u64) -> io::Result<u64> {
    let justfile = justfile(alloc, sources)?;
    let nodes = node_counts(alloc, &justfile, times);
    drop(justfile);
    nodes
}

/// Makes the same justfile once, and so often the closure of its first recipe.
pub(crate) fn make_closures(rt: &HostRuntime, words: (&str, &str, &str)) -> io::Result<()> {
    let (shape, count, times) = words;
    let count = number(count)?;
    let times = number(times)?;
    let sources = [source_of(rt.alloc(), shape, count)?];
    let nodes = node_counts_of(rt.alloc(), &sources, times)?;
    println!(rt; "{nodes} nodes")
}
