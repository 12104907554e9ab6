//! What a recipe says of its cache.

use just_cache::CacheKey;
use just_path::Utf8PathBuf;
use just_path_text::{Seq, Text};

/// The cache of a recipe's body: what the body depends on, and the files that it reads and makes.
#[derive(Drop)]
pub struct NodeCache {
    /// The key, without the digests of the inputs.
    pub key: CacheKey,
    /// The folder of the entries.
    pub folder: Utf8PathBuf,
    /// The names of the inputs, as the recipe gives them.
    pub inputs: Seq<Text>,
    /// Their paths, in the same order.
    pub paths: Seq<Utf8PathBuf>,
    /// The paths of what the body makes.
    pub outputs: Seq<Utf8PathBuf>,
}
