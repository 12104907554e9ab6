//! The room of the cache of bodies that ended well: the key of a body, the sums of its inputs, whether it may be skipped, and
//! what is saved of one.
//!
//! The key of a cached recipe: all that its body depends on, as one text, and the digest that names its entry.
//!
//! A body is skipped where an earlier body of the same key has ended well. So the key has all that the body depends on,
//! and its text is JSON in its shortest form, an object with one member for each field of [`CacheKey`], in byte order of
//! their names. Two keys with one text are one key, which the laws of this crate say exactly.
//!
//! ```
//! // {"body":["touch out"],"environment":{},"executor":{"arguments":["-eu"],"command":"sh","type":"command"},
//! //  "extension":null,"extra":null,"inputs":null,"positional":null,"recipe":"m","working_directory":"/p"}
//! ```
//!
//! An entry is a file in the cache's folder, named by the digest of the body's key. A body is skipped where its entry isn't empty
//! and each of its outputs is there.
#![tactic(auto)]

mod cache;
mod cache_error;
mod class;
mod digests;
mod entry;
mod input;
mod key;
mod lock;
mod member;
mod named;
mod status;
mod sums;
mod text;

pub use cache::{Cache, entry_path};
pub use cache_error::CacheError;
pub use class::ClassText;
pub use digests::digest;
pub use entry::CacheEntry;
pub use input::inputs;
pub use just_host_record::{Call, Host, HostFault};
pub use just_lang_types::{Interpreter, Modulepath};
pub use just_path::{Miss, Utf8Path, Utf8PathBuf};
pub use just_path_text::{NoMemory, Seq, Text, TryClone};
pub use key::{CacheKey, KeyExecutor};
pub use lock::CacheLock;
pub use status::CacheStatus;
pub use text::{Inputs, class_text, class_with_place, key_text, key_text_of_class, key_text_with};
