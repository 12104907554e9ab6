//! The cache of a node of a plan.

ghost use Rattle.std.specs.Prelude.{◌≡◌, ◌<◌, ◌^◌, length};
ghost use Rattle.just_cache.specs.Keys.{class_text, TakesInputs};

use just_cache::CacheKey;
use just_path::Utf8PathBuf;
use just_path_text::{Seq, Text};

/// The cache of a node: what its body depends on, and the files that it reads and makes.
#[derive(Drop)]
pub struct CachePlan {
    /// The key, but for the digests of the inputs.
    pub key: CacheKey,
    /// The text of the key without its inputs. Bodies of one class are never open at once.
    pub class: Text,
    /// Where the value of the inputs stands in that text.
    pub inputs_at: usize,
    /// The folder of the entries.
    pub folder: Utf8PathBuf,
    /// The names of the inputs, as the recipe gives them.
    pub inputs: Seq<Text>,
    /// Their paths, in the same order.
    pub paths: Seq<Utf8PathBuf>,
    /// The paths of what the body makes.
    pub outputs: Seq<Utf8PathBuf>,
    pub ghost classed: { class ≡ class_text key },
    pub ghost placed: { TakesInputs key inputs_at },
    pub ghost paired: { length paths ≡ length inputs },
    pub ghost few: { length paths < 2 ^ 32 },
    pub ghost few_outputs: { length outputs < 2 ^ 32 },
}
