//! What stands in a tree of files.
use just_path_text::{Seq, Text};

/// What stands at a path of a tree of files.
#[derive(Debug)]
pub enum Thing {
    File { bytes: Seq<u8>, executable: bool },
    Folder,
    /// A link, with the path that it points at.
    Link(Text),
}

impl Drop for Thing {
    fn drop(self) {
        match self {
            Thing::File {
                bytes: _,
                executable: _,
            } => {}
            Thing::Link(_) => {}
            Thing::Folder => {}
        }
    }
}
