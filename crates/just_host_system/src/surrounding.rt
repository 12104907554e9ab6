//! The environment that children inherit, where it is large. At the start of a child that inherits it the runtime goes through all entries in front of each
//! one, so where there are many a child is told them. Nothing is claimed of what the system answers.

use just_host_files::system::many_pairs;
use just_path_text::{Seq, Text};
use std::alloc::Global;
use std::rt::{Env, Files};

/// What is known of the environment of this process.
#[derive(Drop)]
pub(crate) enum Surrounding {
    /// It wasn't looked at yet.
    Unknown,
    /// It is inherited: it has few entries, or some that can't be told as pairs.
    Inherited,
    /// It has these pairs, and nothing else.
    Told(Seq<(Text, Text)>),
}

impl Surrounding {
    /// Looks at the environment, where that wasn't done yet.
    pub(crate) fn look<R: Files + Env>(&mut self, rt: &R, alloc: Global) {
        if let Surrounding::Unknown = self {
            *self = match many_pairs(rt, alloc) {
                Ok(Some(pairs)) => Surrounding::Told(pairs),
                Ok(None) | Err(_) => Surrounding::Inherited,
            };
        }
    }

    /// The pairs that a child is told.
    pub(crate) fn pairs(&self) -> Option<&[(Text, Text)]> {
        match self {
            Surrounding::Told(pairs) => Some(pairs.as_slice()),
            Surrounding::Unknown | Surrounding::Inherited => None,
        }
    }
}
