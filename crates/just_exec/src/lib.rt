//! The room of execution: what a recipe's body has to run, what the plan of a run says of each node of a closure, and why a run is
//! refused or fails.
//!
//! What a plan says of a node: what is asked before it, what its body has to run, what is printed in front of that, and by
//! which cache the body may be skipped. Scripts, shells and the children of lines are those of `just_exec_work`, which are handed on here.
//!
//! The recipe, the lines of its body and the changes of the environment are given, so that this crate doesn't depend on how they are
//! found.
#![tactic(auto)]

mod asked;
mod caches;
mod children;
mod code;
mod error;
mod failed;
mod from;
mod heading;
mod keys;
mod lost;
mod node_cache;
mod node_plan;
mod parts;
mod plan_error;
mod plans;
mod refused;
mod sentences;
mod told;

pub use asked::{is_parallel, prompt};
pub use error::Error;
pub use heading::banner;
pub use just_cache::{CacheKey, KeyExecutor};
pub use just_config::{ConfigError, UnstableFeature};
pub use just_config_words::{Usage, UsageKind};
pub use just_env::{EnvError, OutputError, SearchError};
pub use just_eval_closure::Entry;
pub use just_exec_work::{
    Command, CommandError, Executor, RunAttributes, RunFlags, Running, Shebang, ShellKind, Step,
    Work, after, attribute_text, command, has_attribute, module_folder, prints_code,
    read_attributes, recipe_work, shell, step_behind,
};
pub use just_host_record::{Call, HostFault, Script, ScriptText, Signal, Spec, Status};
pub use just_lang_read::Boxed;
pub use just_lang_types::project::{Justfile, LangError};
pub use just_lang_types::{
    Attribute, BodyLine, CompileError, CompileKind, DotenvOf, Interpreter, Key, Modulepath,
    Parameter, Recipe, Scopes, Settings, Switch, Value,
};
pub use just_path::{Miss, Utf8Path, Utf8PathBuf};
pub use just_path_text::{NoMemory, Seq, Text, TryClone};
pub use keys::first_of;
pub use lost::{executor_error, spaced};
pub use node_cache::NodeCache;
pub use node_plan::NodePlan;
pub use plan_error::PlanError;
pub use plans::{no_plan, run_plan, running};
