//! Tests of hosts: the system's, and one in memory beside it.

mod agree;
mod alike;
mod both;
mod forms;
mod real;
mod search;
mod stands;
mod trees;
