//! Tests that need code: each public call once, over hosts; the hosts by themselves; and runs of a plan. Functions here promise nothing
//! beyond safety: they only call and compare.
#![tactic(auto)]

#[cfg(test)]
mod body;
#[cfg(test)]
mod caches;
#[cfg(test)]
mod call_tests;
#[cfg(test)]
mod calls;
#[cfg(test)]
mod captures;
#[cfg(test)]
mod changes;
#[cfg(test)]
mod cleaned;
#[cfg(test)]
mod digests;
#[cfg(test)]
mod executors;
#[cfg(test)]
mod graphs;
#[cfg(test)]
mod host_tests;
#[cfg(test)]
mod hosts;
#[cfg(test)]
mod key;
#[cfg(test)]
mod loading;
#[cfg(test)]
mod names;
#[cfg(test)]
mod owned;
#[cfg(test)]
mod printed;
#[cfg(test)]
mod run_tests;
#[cfg(test)]
mod scanned;
#[cfg(test)]
mod shown;
#[cfg(test)]
mod sights;
#[cfg(test)]
mod told;
