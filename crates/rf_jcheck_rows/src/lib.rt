//! Trees made by hand: those of the language fit, and those that break one condition alone don't.
#![tactic(auto)]

#[cfg(test)]
mod decl_trees;
#[cfg(test)]
mod decls;
#[cfg(test)]
mod exprs;
#[cfg(test)]
mod members;
#[cfg(test)]
mod mods;
#[cfg(test)]
mod stmts;
#[cfg(test)]
mod trees;
