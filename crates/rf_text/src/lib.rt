//! Texts, lists and positions: the values that every other crate passes around.
//! Contracts see a `Bytes` and a `List` as a list, and `Names` as the list of its distinct texts.
#![tactic(auto)]

mod boxed;
mod bytes;
mod list;
mod memory;
mod names;
mod order;
mod short;
mod span;

pub use boxed::Boxed;
pub use bytes::Bytes;
pub use list::List;
pub use memory::Memory;
pub use names::{Names, names_are_distinct};
pub use span::{NameId, Span};
