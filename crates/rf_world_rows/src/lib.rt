//! Tests of worlds and sinks: each call once where it succeeds, each fault once, and the files of the system.
#![tactic(auto)]

#[cfg(test)]
mod in_memory;
#[cfg(test)]
mod of_the_system;
