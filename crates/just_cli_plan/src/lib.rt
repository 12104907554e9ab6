//! The room of the command line: the plan of a run, from the sources of a project and what is asked of it; that there is
//! one at most; and the error of a run that failed.
#![tactic(auto)]

mod agree;
mod cache_errors;
mod closure_plan;
mod ends;
mod features;
mod keys;
mod law;
mod one;
mod outcome;
mod pairs;
mod project;
mod wanted;

pub use agree::{closures_agree, evaluations_agree, loads_agree};
pub use ends::projects_end;
pub use just_env::DotenvAsk;
pub use keys::plan_of_keys;
pub use law::plans_agree;
pub use one::projects_agree;
pub use outcome::error_for;
pub use pairs::load_pairs;
pub use project::{check_project, plan_of_project, project_of_sources, scopes_of};
pub use wanted::Wanted;
