//! What words ask for.

use just_cli_children::Child;
use just_cli_texts::Printed;
use just_lang_types::Modulepath;
use just_path::Utf8PathBuf;
use just_path_text::{Seq, Text};
use just_sched::Plan;
use std::num::NonZeroU64;

/// What words ask for.
#[derive(Drop)]
pub enum Task {
    /// A run of a plan, under a job limit, if there is one; of each node whether the message of its exit code is told; and whether the words
    /// ask for quiet.
    Run(Plan, Option<NonZeroU64>, Seq<bool>, bool),
    /// A dry run of a plan, which is told the same way and not run.
    Dry(Plan, Option<NonZeroU64>, Seq<bool>, bool),
    /// The listing of a module in the place of a run, and whether the words ask for quiet.
    List(Printed, bool),
    /// What is no run, and whether the words ask for quiet.
    Other(Other, bool),
}

/// What words ask for that is no run.
#[derive(Drop)]
pub enum Other {
    /// The help.
    Help,
    /// The line of the version.
    Version,
    /// A new justfile, which is written at that path.
    Init(Utf8PathBuf),
    /// A text that is printed.
    Show(Printed),
    /// Nothing is left to be done.
    Nothing,
    /// A justfile that is written anew at that path.
    Write(Utf8PathBuf, Text),
    /// A cache in that folder that is cleaned: of the entries of recipes whose paths begin with that one, else of all.
    Clean(Utf8PathBuf, Option<Modulepath>),
    /// A child that is run alone.
    Invoke(Child),
    /// So many recipes, whose run over a host in memory is told of.
    Vectors(u32),
}
