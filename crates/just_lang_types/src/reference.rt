//! The files that a tree names.

ghost use Rattle.std.specs.Prelude.{◌≡◌, IfOk};
ghost use Rattle.just_lang_syntax.specs.Meanings.{text_of};
ghost use Rattle.just_lang_types.specs.References.{maybe_text, reference_in, references_of};

use just_lang_read::ReadError;
use just_lang_syntax::{Ast, AstItem, StringLiteral};
use just_path_text::{NoMemory, Seq, Text};
use std::alloc::Global;

/// What a file is to the one that names it.
#[derive(Clone, Copy)]
pub enum FileKind {
    Import,
    Module,
}

/// A file that a justfile names.
#[derive(Drop)]
pub struct FileRef {
    pub kind: FileKind,
    /// The module's name.
    pub name: Option<Text>,
    /// The text that its string means, before an `x` in front expands it. A module may have no string; a string with an
    /// escape that is none, which no text has, means no text.
    pub path: Option<Text>,
    /// Whether it may be missing.
    pub optional: bool,
}

/// The files that a tree names, in their order.
#[tactic(auto, using(crate::proofs::FilesNamed::go_none, crate::proofs::FilesNamed::go_some))]
pub fn references(alloc: Global, ast: &Ast) -> Result<Seq<FileRef>, NoMemory>
    ensures { IfOk result (λ found. found ≡ references_of ast.now.items) }
{
    let mut found = Vec::new(alloc);
    for item in ast.items.as_slice() {
        if let Some(reference) = reference_in(alloc, item)? {
            found.push(reference)?;
        }
    }
    Ok(Seq::from(found))
}

fn reference_in(alloc: Global, item: &AstItem) -> Result<Option<FileRef>, NoMemory>
    ensures { IfOk result (λ r. r ≡ reference_in item.now) }
{
    match item {
        AstItem::Import { optional, path, .. } => Ok(Some(FileRef {
            kind: FileKind::Import,
            name: None,
            path: text_of(alloc, path)?,
            optional: *optional,
        })),
        AstItem::Module {
            optional,
            name,
            path,
            ..
        } => {
            let name = name.text.try_clone()?;
            let path = maybe_text(alloc, path)?;
            Ok(Some(FileRef {
                kind: FileKind::Module,
                name: Some(name),
                path,
                optional: *optional,
            }))
        }
        _ => Ok(None),
    }
}

/// The text that a string means, where there is a string.
fn maybe_text(alloc: Global, string: &Option<StringLiteral>) -> Result<Option<Text>, NoMemory>
    ensures { IfOk result (λ t. t ≡ maybe_text string.now) }
{
    match string {
        Some(string) => text_of(alloc, string),
        None => Ok(None),
    }
}

/// The text that a string means.
fn text_of(alloc: Global, string: &StringLiteral) -> Result<Option<Text>, NoMemory>
    ensures { IfOk result (λ t. t ≡ text_of string.now) }
{
    match string.text(alloc) {
        Ok(text) => Ok(Some(text)),
        Err(ReadError::NoMemory) => Err(NoMemory),
        Err(ReadError::Syntax | ReadError::Depth) => Ok(None),
    }
}
