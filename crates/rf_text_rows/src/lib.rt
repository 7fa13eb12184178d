//! Texts, lists, boxes and names: each call once where it succeeds, and a tree that is made of them.
#![tactic(auto)]

#[cfg(test)]
mod boxes;
mod formula;
#[cfg(test)]
mod lists;
#[cfg(test)]
mod names;
#[cfg(test)]
mod sorts;
#[cfg(test)]
mod texts;
#[cfg(test)]
mod trees;
