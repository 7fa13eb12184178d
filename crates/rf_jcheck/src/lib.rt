//! A slow check of whether a finished tree fits, which tests of the definition use.
#![tactic(auto)]

mod decl_checks;
mod expr_checks;
mod form_checks;
mod member_checks;
mod member_parts;
mod mod_checks;
mod name_checks;
mod stmt_checks;
mod stmt_form_checks;
mod unit_checks;
mod variable_checks;

pub use decl_checks::decl_fits;
pub use expr_checks::{args_fit, braces_fit, expr_fits, exprs_fit, init_fits};
pub use member_checks::member_fits;
pub use mod_checks::{mod_fits, mods_fit};
pub use name_checks::{base_fits, dims_fit, name_fits, type_fits};
pub use stmt_checks::{block_fits, stmt_fits, stmts_fit};
pub use unit_checks::unit_fits;
pub use variable_checks::local_fits;
