//! Rule files, each with the program that it reads to, or with the line that is told of it.
#![tactic(auto)]

#[cfg(test)]
mod faults;
#[cfg(test)]
mod files;
#[cfg(test)]
mod formulas;
#[cfg(test)]
mod told;
