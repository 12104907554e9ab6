//! Paths that are text.
//!
//! A path is a text that is read as Unix paths are: it is split at each `/`, and what stands between gives its
//! components. A leading `/` gives the root, once; an empty piece gives nothing; `.` gives nothing but in front of a
//! relative path, where it is the current folder; `..` is the parent; all else is a name.
//!
//! ```
//! // "/a/./b//.."  is  RootDir, Normal("a"), Normal("b"), ParentDir
//! // "./a"         is  CurDir, Normal("a")
//! ```
//!
//! Equality, order and hash speak of the components alone, so `a/b`, `a/b/`, `a//b` and `a/./b` are equal, while `./a/b`
//! and `a/b` differ, and `a/../b` is not `b`. The text stays as it was given, and is what is printed. [`Utf8Path::clean`]
//! takes out each `.` and each name with the `..` behind it.
//!
//! The calls are those of the crate `camino` 1.2.6, with these differences:
//! - `Utf8Path` is a sized and copied value round a `&str`, and what converts from `Path` and `OsStr` there converts from
//!   bytes here.
//! - What takes memory answers a `Result`, whose error is [`NoMemory`] where nothing else is refused; `Utf8PathBuf` has `new`
//!   with the allocator in place of `Default`, and `try_clone` in place of `Clone`.
//! - `set_extension` and `add_extension`, which panic there where the extension holds a `/`, have that as their condition.
//! - Comparisons with text are `eq_str` and `cmp_str`; the refusal of `strip_prefix` is [`StripPrefix`].
//! - What asks the files asks a [`PathHost`]; a listing is refused whole, comes in byte order of names, and keeps the
//!   kinds.
//!
//! [`Text`], [`Seq`], [`TryClone`], [`NoMemory`] and [`Environ`] are those of the crate `just_path_text`.
#![tactic(auto)]

mod absolute;
mod ancestors;
mod broken;
mod bytes;
mod clean;
mod compare;
mod component;
mod components;
mod directory;
mod edit;
mod from_bytes_error;
mod from_owned_error;
mod host;
mod iter;
mod meta;
mod metadata;
mod name;
mod order;
mod path;
mod path_buf;
mod path_made;
mod path_parts;
mod prefix;
mod room;
mod scan;
mod serialized;
mod show;
mod strip;
mod walk;

pub use absolute::absolute_utf8;
pub use ancestors::Utf8Ancestors;
pub use component::Utf8Component;
pub use components::Utf8Components;
pub use directory::{ReadDirUtf8, Utf8DirEntry};
pub use from_bytes_error::{FromOsStrError, FromPathError};
pub use from_owned_error::{FromBoxedPathError, FromOsStringError, FromPathBufError};
pub use host::{Miss, PathCall, PathFault, PathHost, PathNote};
pub use iter::Iter;
pub use just_path_text::{Environ, NoMemory, Seq, Text, TryClone};
pub use meta::{Item, Kind, Meta};
pub use path::Utf8Path;
pub use path_buf::Utf8PathBuf;
pub use prefix::{Utf8Prefix, Utf8PrefixComponent};
pub use strip::StripPrefix;
