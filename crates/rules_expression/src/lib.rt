//! Reads the expressions of a rules file, by their grammar.
#![tactic(auto)]

mod expression;
mod form;
mod laws;
mod tokens;

pub use expression::read_expression;
pub use form::{count_operators, is_form, is_too_deep};
pub use laws::one_expression;
pub use tokens::{Token, Tokens};
