//! Programs of the rule language, and what it means that one has no kind fault.
#![tactic(auto)]

mod checked;
mod copies;
mod faults;
mod forms;
mod items;
mod language;
mod tables;
mod words;

pub use checked::Checked;
pub use copies::Copied;
pub use faults::KindFault;
pub use forms::{Comp, Quant, RForm, RTerm};
pub use items::{Item, RuleProg};
pub use language::Lang;
pub use tables::{Row, kinds, properties, queries};
pub use words::{Ask, RVar, Word};
