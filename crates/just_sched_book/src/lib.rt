//! The room of runs: the book of a run, which keeps a legal history over a host and makes its moves. It knows nothing of threads.
#![tactic(auto)]

mod book;
mod cached;
mod caching;
mod calls;
mod driven;
mod ending;
mod named;
mod naming;
mod seat;
mod token;

pub use book::Book;
pub use driven::Driven;
pub use named::Named;
pub use naming::Naming;
pub use seat::Seat;
pub use token::{HeldBody, Next, OpenBody, WaitedBody};
