//! Tests of the first form: each answer once, and the greatest request.
#![tactic(auto)]

#[cfg(test)]
mod first_form;
