//! What a plan says of a node.

use super::NodeCache;
use just_exec_work::Work;
use just_path_text::Text;

/// What a plan says of a node, beside the node itself.
#[derive(Drop)]
pub struct NodePlan {
    /// What is asked before the node's priors are begun, if anything is.
    pub prompt: Option<Text>,
    /// Whether its priors may run side by side, and its subsequents too.
    pub parallel: bool,
    pub work: Work,
    /// What is printed to standard error when its body is begun; nothing where it is empty.
    pub banner: Text,
    /// The cache of its body; none where it is always run.
    pub cache: Option<NodeCache>,
}
