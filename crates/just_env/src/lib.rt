//! The room of environments, and its door: why a justfile can't be found or loaded, the dotenv pairs of its modules, and
//! what changes in the environment of a recipe's children.
#![tactic(auto)]

mod ask;
mod changes;
mod climb;
mod command;
mod env_error;
mod environs;
mod file;
mod files;
mod law;
mod levels;
mod module;
mod modules;
mod pairs;
mod recipes;
mod search_error;

pub use ask::{DotenvAsk, Sources};
pub use changes::{Environment, changes_of_module};
pub use command::command_spec;
pub use env_error::{EnvError, OutputError};
pub use environs::environment;
pub use just_eval_closure::View;
pub use just_exec_work::RunFlags;
pub use just_host_record::{Call, Host, HostFault};
pub use just_lang_types::project::{Justfile, LangError};
pub use just_lang_types::{
    Binding, DotenvOf, Interpreter, Level, Modulepath, Parameter, Scope, Settings, Value,
};
pub use just_path::{Miss, Utf8Path, Utf8PathBuf};
pub use just_path_text::{Environ, NoMemory, Seq, Text};
pub use law::dotenv_agrees;
pub use module::load_dotenv;
pub use modules::load_modules;
pub use recipes::changes_of_recipe;
pub use search_error::SearchError;
