// What stands in place of a parameter.

use grin_syntax::{TagId, VarId};

/// A parameter is replaced by the fields of its cell's node, in variables in a row.
#[derive(Clone, Copy, Debug, PartialEq, Eq)]
pub struct Raising {
    /// The tag of the node.
    pub tag: TagId,
    /// The variable of the first field.
    pub first: VarId,
    /// How many fields the tag has.
    pub fields: u32,
}
