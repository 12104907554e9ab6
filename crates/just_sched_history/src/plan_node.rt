//! A node of a plan.

use super::{CachePlan, Work};
use just_lang_read::Boxed;
use just_lang_types::Node;
use just_path_text::Text;

/// A node of a plan: its place in the closure, and what its body does.
#[derive(Drop)]
pub struct PlanNode {
    pub node: Node,
    /// What is asked before anything of the node; nothing where there is none.
    pub prompt: Option<Text>,
    /// Whether its priors may run side by side, and so its subsequents.
    pub parallel: bool,
    pub work: Work,
    /// What is printed to standard error as the body begins; nothing where it is empty.
    pub banner: Text,
    /// The cache of its body; none where it is always run.
    pub cache: Option<Boxed<CachePlan>>,
}
