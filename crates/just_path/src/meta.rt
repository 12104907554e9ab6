//! What is known of a thing at a path.
use just_path_text::{NoMemory, Text, TryClone};

/// What stands at a path.
#[derive(Clone, Copy, Debug, PartialEq, Eq)]
pub enum Kind {
    File,
    Folder,
    Link,
    /// A device, a pipe or a socket.
    Other,
}

/// What is known of what stands at a path.
#[derive(Clone, Copy, Debug, PartialEq, Eq)]
pub struct Meta {
    pub kind: Kind,
    /// The bytes of a file, or of a link's target.
    pub len: u64,
    /// Whether it is a file that may be run.
    pub executable: bool,
}

/// What stands in a listed folder under a name. A link is not followed.
#[derive(Drop)]
pub struct Item {
    pub name: Text,
    pub kind: Kind,
}

impl TryClone for Kind {
    fn try_clone(&self) -> Result<Kind, NoMemory> {
        Ok(*self)
    }
}

impl TryClone for Meta {
    fn try_clone(&self) -> Result<Meta, NoMemory> {
        Ok(*self)
    }
}
