//! Projects of Java files: what their elements and references are, with ids, and what names of types and the rules on whole
//! projects mean. The numbering makes a project of files.
#![tactic(auto)]

mod ids;
pub mod laws;
mod numbering;
mod projects;
mod tables;
mod types;

pub use ids::{CtorId, Decl, FieldId, LocalId, MethodId, NodeId, RefId, Target, TypeId, UnitId};
pub use numbering::number;
pub use projects::{PlacedUnit, Project};
pub use tables::{Tables, TypeRow, UnitRow};
pub use types::{Ty, TyBase};
