//! The justfile of so many recipes, and the host in memory that has it.
ghost use Rattle.std.specs.Prelude.{◌≡◌, ◌+◌, ◌*◌, ◌++◌, [], ◌<◌, ◌^◌, false, IfOk, codes, decimal, string_bytes};
ghost use Rattle.just_path.specs.Comps.{slash};
ghost use Rattle.just_path.specs.View.{place_under};
ghost use Rattle.just_host.specs.Mem.{record_of, world_of};
ghost use Rattle.just_host_memory.specs.Trees.{files_of};
ghost use Rattle.just_cli_vectors.specs.Vectors.{prior_text, recipe_text, justfile_text, justfile_tree};

use just_host::{MemHost, Plot, Thing, Tree};
use just_path::Utf8PathBuf;
use just_path_text::{Environ, NoMemory, Seq};
use std::alloc::{AllocError, Global};

/// Adds a word, and a number behind it.
fn push_number(alloc: Global, out: &mut String, word: &str, number: u64) -> Result<(), AllocError>
    ensures { IfOk result
        (λ _. string_bytes out.new ≡ string_bytes out.old ++ (word.now ++ decimal number)) }
{
    let text = format!(in alloc; "{word}{number}")?;
    out.push_str(text.as_str())
}

/// Adds a prior, where there is a recipe of that number.
fn push_prior(alloc: Global, out: &mut String, count: u32, number: u64) -> Result<(), AllocError>
    ensures { IfOk result
        (λ _. string_bytes out.new ≡ string_bytes out.old ++ prior_text count number) }
{
    if number < u64::from(count) {
        return push_number(alloc, out, " r", number);
    }
    Ok(())
}

/// Adds the priors of a recipe.
fn push_priors(alloc: Global, out: &mut String, count: u32, number: u64) -> Result<(), AllocError>
    requires { number < 2 ^ 32 }
    ensures { IfOk result
        (λ _. string_bytes out.new
        ≡ string_bytes out.old
        ++ (prior_text count (2 * number + 1) ++ prior_text count (2 * number + 2))) }
{
    push_prior(alloc, out, count, 2 * number + 1)?;
    push_prior(alloc, out, count, 2 * number + 2)
}

/// Adds a recipe.
fn push_recipe(alloc: Global, out: &mut String, count: u32, number: u32) -> Result<(), AllocError>
    ensures { IfOk result
        (λ _. string_bytes out.new ≡ string_bytes out.old ++ recipe_text count number) }
{
    let wide = u64::from(number);
    push_number(alloc, out, "r", wide)?;
    out.push_str(":")?;
    push_priors(alloc, out, count, wide)?;
    push_number(alloc, out, "\n\techo ", wide)?;
    out.push_str("\n")
}

/// The text of the justfile of so many recipes.
fn text_of(alloc: Global, count: u32) -> Result<String, AllocError>
    ensures { IfOk result (λ t. string_bytes t ≡ justfile_text count) }
{
    let mut out = String::new(alloc);
    'recipes: for number in 0..count {
        push_recipe(alloc, &mut out, count, number)?;
    }
    Ok(out)
}

/// The file of a text.
fn file_of(alloc: Global, text: &str) -> Result<Thing, NoMemory>
    ensures { IfOk result (λ t. t ≡ Thing.File text.now false) }
{
    let bytes = Vec::from_slice(alloc, text.as_bytes())?;
    Ok(Thing::File {
        bytes: Seq::from(bytes),
        executable: false,
    })
}

/// The files of a project that is the justfile in its root.
fn tree_of(alloc: Global, count: u32) -> Result<Tree, NoMemory>
    ensures { IfOk result (λ t. files_of t ≡ justfile_tree count) }
{
    let text = text_of(alloc, count)?;
    let file = file_of(alloc, text.as_str())?;
    let mut tree = Tree::new(alloc);
    tree.insert(alloc, "/", Thing::Folder)?;
    tree.insert(alloc, "/justfile", file)?;
    Ok(tree)
}

/// A fresh host in memory with the justfile of so many recipes in its root, which is the current folder. It has no environment, no input, and
/// no call of it fails.
pub fn host_of(alloc: Global, count: u32) -> Result<MemHost, NoMemory>
    ensures entries { IfOk result (λ h. record_of h ≡ []) }
    ensures files { IfOk result (λ h. (world_of h).tree ≡ justfile_tree count) }
    ensures folder { IfOk result (λ h. (world_of h).current ≡ place_under slash (codes "/")) }
    ensures environ { IfOk result (λ h. (world_of h).environ ≡ []) }
{
    let tree = tree_of(alloc, count)?;
    let folder = Utf8PathBuf::from_str(alloc, "/")?;
    let environ = Environ {
        pairs: Seq::new(alloc),
    };
    MemHost::new(alloc, tree, folder, environ, Plot::new(alloc))
}
