//! The files that a source names and that are there.

ghost use Rattle.std.specs.Prelude.{◌≡◌, IfOk};
ghost use Rattle.just_search_load.specs.Gathers.{Gathers, Adds};
ghost use Rattle.just_search_load.specs.Named.{HasTree, ItemNames, ModuleNames, NamesFile, SourceNames};
ghost use Rattle.just_env.specs.Answers.{Gains};

use super::SearchError;
use super::present::{add_module_files, add_present};
use just_host_record::Host;
use just_lang_layout::{meaning, module_base, path_under};
use just_lang_syntax::{AstItem, Fault, ParseError, StringLiteral, parse};
use just_lang_types::Source;
use just_path::Utf8PathBuf;
use just_path_text::{Environ, NoMemory, Seq, Text};
use std::alloc::Global;

/// Adds the file that a string in a file of that root names.
#[tactic(auto, using(just_env::proofs::Laws::gains_nothing, just_env::proofs::Laws::gains_before, just_env::proofs::Laws::gains_none, just_env::proofs::Laws::gains_then, crate::proofs::Naming::adds_file, crate::proofs::Naming::adds_no_text, crate::proofs::Naming::adds_no_path))]
fn add_named<H: Host>(
    alloc: Global,
    host: &mut H,
    environ: &Environ,
    root: &Utf8PathBuf,
    string: &StringLiteral,
    found: &mut Vec<Utf8PathBuf>,
) -> Result<(), SearchError>
    ensures added { Adds (NamesFile (H.told host.old).world environ.now.pairs root.now string.now) found.old.items found.new.items result }
    ensures gains { Gains (H.told host.old).entries (H.told host.new).entries result }
    ensures world { (H.told host.new).world ≡ (H.told host.old).world }
{
    let Some(text) = meaning(alloc, environ, string)? else {
        return Ok(());
    };
    match path_under(alloc, environ, root, text.as_str())? {
        Some(path) => add_present(alloc, host, &path, found),
        None => Ok(()),
    }
}

/// Adds the files that a module of that name and that string names, in a file of that root.
#[tactic(auto, using(just_env::proofs::Laws::gains_nothing, just_env::proofs::Laws::gains_before, just_env::proofs::Laws::gains_none, just_env::proofs::Laws::gains_then))]
fn add_module<H: Host>(
    alloc: Global,
    host: &mut H,
    environ: &Environ,
    root: &Utf8PathBuf,
    name: &Text,
    string: &Option<StringLiteral>,
    found: &mut Vec<Utf8PathBuf>,
) -> Result<(), SearchError>
    ensures added { Adds (ModuleNames (H.told host.old).world environ.now.pairs root.now name.now string.now) found.old.items found.new.items result }
    ensures gains { Gains (H.told host.old).entries (H.told host.new).entries result }
    ensures world { (H.told host.new).world ≡ (H.told host.old).world }
{
    match string {
        Some(string) => add_named(alloc, host, environ, root, string, found),
        None => {
            let base = module_base(alloc, root, name.as_str())?;
            add_module_files(alloc, host, &base, found)
        }
    }
}

/// Adds the files that an item of a file of that root names.
#[tactic(auto, using(just_env::proofs::Laws::gains_nothing, just_env::proofs::Laws::gains_before, just_env::proofs::Laws::gains_none, just_env::proofs::Laws::gains_then, crate::proofs::Naming::adds_nothing))]
fn add_item<H: Host>(
    alloc: Global,
    host: &mut H,
    environ: &Environ,
    root: &Utf8PathBuf,
    item: &AstItem,
    found: &mut Vec<Utf8PathBuf>,
) -> Result<(), SearchError>
    ensures added { Adds (ItemNames (H.told host.old).world environ.now.pairs root.now item.now) found.old.items found.new.items result }
    ensures gains { Gains (H.told host.old).entries (H.told host.new).entries result }
    ensures world { (H.told host.new).world ≡ (H.told host.old).world }
{
    match item {
        AstItem::Import { path, .. } => add_named(alloc, host, environ, root, path, found),
        AstItem::Module { name, path, .. } => {
            add_module(alloc, host, environ, root, &name.text, path, found)
        }
        _ => Ok(()),
    }
}

/// Adds the files that items of a file of that root name.
fn add_items<H: Host>(
    alloc: Global,
    host: &mut H,
    environ: &Environ,
    root: &Utf8PathBuf,
    items: &[AstItem],
    found: &mut Vec<Utf8PathBuf>,
) -> Result<(), SearchError>
    ensures added { Adds (Gathers (ItemNames (H.told host.old).world environ.now.pairs root.now) items.now) found.old.items found.new.items result }
    ensures gains { Gains (H.told host.old).entries (H.told host.new).entries result }
    ensures world { (H.told host.new).world ≡ (H.told host.old).world }
{
    'items: for item in items {
        match add_item(alloc, host, environ, root, item, found) {
            Ok(()) => {}
            Err(error) => return Err(error),
        }
    }
    Ok(())
}

/// The items of a source, or the fault for which its text is refused.
fn tree_of(alloc: Global, source: &Source) -> Result<Result<Seq<AstItem>, Fault>, NoMemory>
    ensures { IfOk result (HasTree source.now) }
{
    match parse(alloc, source.text.as_str()) {
        Ok(ast) => Ok(Ok(ast.items)),
        Err(ParseError::Fault(fault)) => Ok(Err(fault)),
        Err(ParseError::NoMemory) => Err(NoMemory),
    }
}

/// Adds the files that a source names. A source whose text is refused names none. Where neither `import` nor `mod`
/// stands in the text, it names none either way, and isn't parsed.
#[tactic(auto, using(just_env::proofs::Laws::gains_nothing, just_env::proofs::Laws::gains_before, just_env::proofs::Laws::gains_none, just_env::proofs::Laws::gains_then))]
pub(crate) fn add_source<H: Host>(
    alloc: Global,
    host: &mut H,
    environ: &Environ,
    source: &Source,
    found: &mut Vec<Utf8PathBuf>,
) -> Result<(), SearchError>
    ensures added { Adds (SourceNames (H.told host.old).world environ.now.pairs source.now) found.old.items found.new.items result }
    ensures gains { Gains (H.told host.old).entries (H.told host.new).entries result }
    ensures world { (H.told host.new).world ≡ (H.told host.old).world }
{
    let text = source.text.as_str();
    if !text.contains("import") && !text.contains("mod") {
        return Ok(());
    }
    let tree = tree_of(alloc, source)?;
    let items = match tree {
        Ok(items) => items,
        Err(_) => return Ok(()),
    };
    add_items(alloc, host, environ, &source.root, items.as_slice(), found)
}
