//! The room of the command line: the children that commands run, and what a dry run tells.
//!
//! A chooser is run to its end for what it prints: it is fed lines, and answers words. An editor, and the words of a command, are one child that is started,
//! waited for and settled. A dry run starts no child: it tells what a run would tell whose commands all end with the code 0.
#![tactic(auto)]

mod child;
mod chooser;
mod configs;
mod dry;
mod editor;
mod environment;
mod faults;
mod law;
mod run;
mod text_words;
mod wants;
mod words;

pub use child::{Child, Role};
pub use chooser::{choose, chooser_of};
pub use configs::{wanted_with, with_words};
pub use dry::tell_plan;
pub use editor::editor_child;
pub use faults::{fault_of_path, folder_error, io_error, print_error, write_error};
pub use just_cli_plan::Wanted;
pub use just_config::Config;
pub use just_exec::Error;
pub use just_host_record::Host;
pub use just_path_text::{NoMemory, Seq, Text};
pub use just_sched_history::Plan;
pub use law::well_bodies_start_all;
pub use run::run_alone;
pub use wants::{is_any, wanted};
pub use words::words_child;
