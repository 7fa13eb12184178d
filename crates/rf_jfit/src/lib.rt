//! Tests of tokens and forms that the parsers ask, exact over the definition of trees that fit.
#![tactic(auto)]

mod expr_forms;
mod kinds;
pub mod levels;
mod mod_forms;
mod stmt_forms;

pub use expr_forms::{
    begins_operand, binds_at, expr_first, expr_level, is_left_side, is_no_name, is_no_new_array,
};
pub use kinds::{
    has_key, has_op, is_ident, is_key, is_key_of, is_literal, is_op, is_op_of, is_str,
};
pub use mod_forms::{
    has_one_access_at_most, is_final_or_annotation, is_mark_name, is_suppress_name,
    none_stands_twice,
};
pub use stmt_forms::{
    are_statement_exprs, ends_open, has_catch_or_last, is_nearest_if, is_no_local,
    is_statement_expr,
};
