//! What a section is to compute, before its instructions stand at places.

use crate::entry::Entry;
use crate::literal::ShortText;
use bql_tree::MetadataOwner;
use query_code::Unary;
use query_terms::Column;
use query_values::Binary;

/// What puts a value on the stack.
#[derive(Drop)]
pub enum Load<'a> {
    Truth(bool),
    Constant(Entry<'a>),
    Column(Column),
    /// A text of metadata, by its key.
    Metadata(MetadataOwner, ShortText<'a>),
    /// A key of the group, by its index.
    Key(u8),
    /// An aggregate of the group, by its index.
    Aggregate(u8),
}

/// An operation on one value.
#[derive(Drop)]
pub enum Change<'a> {
    /// By itself.
    Plain(Unary),
    /// Whether a text matches a pattern.
    Matches(ShortText<'a>),
    /// Whether some member of a set does.
    SomeMatch(ShortText<'a>),
    /// Whether a value is in a list.
    Among(Entry<'a>),
}

/// What a section is to compute.
pub enum Core<'a> {
    Load(Load<'a>),
    Change(Change<'a>, Box<Core<'a>>),
    Join(Binary, Box<Core<'a>>, Box<Core<'a>>),
    And(Box<Core<'a>>, Box<Core<'a>>),
    Or(Box<Core<'a>>, Box<Core<'a>>),
}

/// Written out, so that what gives one up needs to know nothing of what is in it.
impl Drop for Core<'_> {
    fn drop(self) {
        match self {
            Core::Load(_) => {}
            Core::Change(_, _) => {}
            Core::Join(_, _, _) => {}
            Core::And(_, _) => {}
            Core::Or(_, _) => {}
        }
    }
}
