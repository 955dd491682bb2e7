//! How many fields the nodes of a program have.
#![tactic(auto)]

ghost use Rattle.std.specs.Prelude.{◌≡◌};
ghost use Rattle.grin_meaning.specs.Ready.{most_fields, most_value_fields, value_fields};

use grin_syntax::{Tag, TagKind};

/// The most fields that a tag has.
pub fn most_fields(tags: &[Tag]) -> u32
    ensures { result ≡ most_fields tags.now }
{
    let mut most = 0;
    for tag in tags {
        most = tag.fields.max(most);
    }
    most
}

/// The most fields that a tag of values has.
pub fn most_value_fields(tags: &[Tag]) -> u32
    ensures { result ≡ most_value_fields tags.now }
{
    let mut most = 0;
    for tag in tags {
        most = value_fields(tag).max(most);
    }
    most
}

// The fields of a tag whose nodes are values; a delayed call is none.
fn value_fields(tag: &Tag) -> u32
    ensures { result ≡ value_fields tag.now.kind tag.now.fields }
{
    match tag.kind {
        TagKind::Fun => 0,
        TagKind::Con => tag.fields,
        TagKind::Part => tag.fields,
    }
}
