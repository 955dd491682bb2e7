// Which of the items at a place a reader wants.

/// A kind of place.
#[derive(Clone, Copy, Debug, PartialEq, Eq)]
pub enum Kind {
    Sites,
    Vars,
    Results,
}

/// What is wanted of the items: the tags of nodes; these and the tags in the first word; the sites
/// of cells in the first word.
#[derive(Clone, Copy, Debug, PartialEq, Eq)]
pub enum Wanted {
    NodeTags,
    Tags,
    Sites,
}
