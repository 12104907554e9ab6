//! The text of a justfile, and its tree.

ghost use Rattle.std.specs.Prelude.{◌≡◌, IfOk, IfErr, MatchResult, List};
ghost use Rattle.just_lang_syntax.specs.declared.ast.AstItem.{AstItem};
ghost use Rattle.just_lang_types.specs.Trees.{IsTree, RefusesSource, kind_of, compile_error};

use super::project::LangError;
use super::{CompileError, CompileKind, Position};
use just_lang_syntax::{Ast, FaultKind, ParseError, parse as tree_of};
use just_path::Utf8PathBuf;
use just_path_text::{NoMemory, Text};
use std::alloc::Global;

/// The text of a justfile, with the path that it was read from and that path's parent (the path itself where it has
/// none).
#[derive(Drop)]
pub struct Source {
    pub path: Utf8PathBuf,
    pub root: Utf8PathBuf,
    pub text: Text,
}

/// The tree of a justfile.
pub fn parse(alloc: Global, source: &Source) -> Result<Ast, LangError>
    // What is answered is the tree of the text.
    ensures found { IfOk result (λ a. IsTree source.now.text a.items) }
    // The tree of the text is answered, unless memory is wanting.
    ensures only { (items : List AstItem) → IsTree source.now.text items → MatchResult result (λ a. a.items ≡ items) (λ e. e ≡ LangError.NoMemory) }
    // A refusal is that of the text, at the source's path.
    ensures refused { IfErr result (RefusesSource source.now) }
{
    match tree_of(alloc, source.text.as_str()) {
        Ok(ast) => Ok(ast),
        Err(ParseError::NoMemory) => Err(LangError::NoMemory),
        Err(ParseError::Fault(fault)) => {
            let position = Position {
                line: fault.line,
                column: fault.column,
            };
            let error = compile_error(source, kind_of(fault.kind), position)?;
            Err(LangError::Compile(error))
        }
    }
}

/// The kind of a fault of a text.
fn kind_of(kind: FaultKind) -> CompileKind
    ensures { result ≡ kind_of kind }
{
    match kind {
        FaultKind::Syntax => CompileKind::Syntax,
        FaultKind::Unsupported => CompileKind::Unsupported,
        FaultKind::Depth => CompileKind::Depth,
    }
}

/// The error of that kind at a position of a source.
pub(crate) fn compile_error(
    source: &Source,
    kind: CompileKind,
    position: Position,
) -> Result<CompileError, NoMemory>
    ensures { IfOk result (λ c. c ≡ compile_error source.now.path kind position) }
{
    Ok(CompileError {
        kind,
        path: source.path.try_clone()?,
        line: position.line,
        column: position.column,
    })
}
