//! Tests of whole runs: worked examples over worlds and sinks in memory, honest ones, and those of the system.
#![tactic(auto)]

#[cfg(test)]
mod example;
#[cfg(test)]
mod faults;
#[cfg(test)]
mod first_form;
#[cfg(test)]
mod real_files;
#[cfg(test)]
mod rule_files;
#[cfg(test)]
mod starved;
