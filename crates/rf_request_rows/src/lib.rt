//! Request files, each with what it asks for, or with the line that is told of it.
#![tactic(auto)]

#[cfg(test)]
mod faults;
#[cfg(test)]
mod options;
#[cfg(test)]
mod targets;
#[cfg(test)]
mod told;
