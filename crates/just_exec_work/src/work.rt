//! What a body has to run, and its next step.

use just_host_record::Spec;
use just_lang_read::Boxed;
use just_path_text::{Seq, Text};

/// What a body has to run.
pub enum Work {
    /// One child for each line.
    Lines(Seq<Command>),
    /// One child for the whole body.
    Script(Boxed<Command>),
    Empty,
}

impl Drop for Work {
    fn drop(self) {
        match self {
            Work::Lines(_) | Work::Script(_) => {}
            Work::Empty => {}
        }
    }
}

/// One command of a body.
pub struct Command {
    /// Of a script that is run by itself the program and its arguments are the interpreter and the argument that its first line names.
    pub spec: Spec,
    /// What is printed to standard error before the child starts; nothing where it is empty.
    pub echo: Text,
    /// The number of its line in the source, from 1.
    pub line: Option<usize>,
    /// Whether any ending lets the body go on.
    pub forgiving: bool,
    /// Whether the code 1 ends the body well.
    pub guard: bool,
}

impl Drop for Command {
    fn drop(self) {
        let Command {
            spec: _,
            echo: _,
            line: _,
            forgiving: _,
            guard: _,
        } = self;
    }
}

/// What a body does next.
#[derive(Clone, Copy)]
pub enum Step {
    /// It starts the command at this place.
    Start(usize),
    /// It has ended well.
    Well,
    /// It has failed.
    Failed,
}
