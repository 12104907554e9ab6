//! The editor of a justfile.

ghost use Rattle.std.specs.Prelude.{◌≡◌, ◌∷◌, [], IfOk};
ghost use Rattle.just_path.specs.Path.{text_of};
ghost use Rattle.just_cli_children.specs.Children.{editor_of, editor_child};

use super::child::{Child, Role};
use just_host_record::Spec;
use just_path::{Utf8Path, Utf8PathBuf};
use just_path_text::{Environ, NoMemory, Seq, Text};
use std::alloc::Global;

/// The editor of an environment.
fn editor_of(environ: &Environ) -> &str
    ensures { result.now ≡ editor_of environ.now.pairs }
{
    if let Some(editor) = environ.get("VISUAL") {
        return editor;
    }
    match environ.get("EDITOR") {
        Some(editor) => editor,
        None => "vim",
    }
}

/// A list of one text.
fn one(alloc: Global, text: &str) -> Result<Seq<Text>, NoMemory>
    ensures { IfOk result (λ ts. ts ≡ text.now ∷ []) }
{
    let mut texts = Vec::new(alloc);
    texts.push(Text::from_str(alloc, text)?)?;
    Ok(Seq::from(texts))
}

/// The child of an environment's editor, in that folder, for the justfile of that path.
pub fn editor_child(
    alloc: Global,
    environ: &Environ,
    folder: &Utf8PathBuf,
    justfile: Utf8Path<'_>,
) -> Result<Child, NoMemory>
    ensures { IfOk result (λ c.
        c ≡ editor_child environ.now.pairs folder.now (text_of justfile.entry)) }
{
    let editor = Text::from_str(alloc, editor_of(environ))?;
    let program = editor.try_clone()?;
    let arguments = one(alloc, justfile.as_str())?;
    let folder = folder.try_clone()?;
    Ok(Child {
        spec: Spec {
            program,
            arguments,
            folder: Some(folder),
            changes: Seq::new(alloc),
            script: None,
        },
        role: Role::Editor(editor),
    })
}
