//! The room of paths: the small types that all crates here share.
//!
//! [`Text`] and [`Seq`] are a `String` and a `Vec` that contracts see as the list of bytes and the list of items, compared,
//! ordered, hashed and copied as these lists; [`TryClone`] is the one way to copy what holds them. [`Environ`] is an
//! environment. [`NoMemory`] is the answer where memory is wanting.
#![tactic(auto)]

mod copies;
mod environ;
mod memory;
mod seq;
mod text;

pub use copies::TryClone;
pub use environ::Environ;
pub use memory::NoMemory;
pub use seq::Seq;
pub use text::Text;
