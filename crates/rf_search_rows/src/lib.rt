//! Tests of the canonical search, on its public items.
#![tactic(auto)]

#[cfg(test)]
mod built;
#[cfg(test)]
mod found;
#[cfg(test)]
mod plain;
#[cfg(test)]
mod refuted;
#[cfg(test)]
mod small;
#[cfg(test)]
mod unequal;
