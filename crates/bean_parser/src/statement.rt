//! What a block says.

use bean_directives::{Directive, Undated};

/// What a block without a fault says.
#[derive(Drop)]
pub enum Statement<'a> {
    Directive(Directive<'a>),
    Undated(Undated<'a>),
}
