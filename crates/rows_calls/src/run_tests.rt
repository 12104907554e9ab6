//! Tests of runs: a book by itself, workers side by side, and guards.

mod books;
mod histories;
mod hosts;
mod lattice;
mod plans;
mod semaphores;
mod workers;
