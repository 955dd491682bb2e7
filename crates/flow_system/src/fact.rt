// What the analysis knows: which words may stand in which part of which place.

/// A place where values are: the cells of the site of this number, the variable of this number, or
/// the result of the procedure of this number.
#[derive(Clone, Copy, Debug, PartialEq, Eq, PartialOrd, Ord)]
pub enum Place {
    Site(u32),
    Var(u32),
    Result(u32),
}

/// A set at a place: the tags of the nodes there, what stands in a field of the nodes of a tag (the
/// tag's number, then the field's, from 0), and what stands in a word of the words there (from 0).
#[derive(Clone, Copy, Debug, PartialEq, Eq, PartialOrd, Ord)]
pub enum Part {
    Tags,
    Field(u32, u32),
    Word(u32),
}

/// A word, as the analysis sees it: a cell of the site of this number, the tag of this number, or
/// some number.
#[derive(Clone, Copy, Debug, PartialEq, Eq, PartialOrd, Ord)]
pub enum Element {
    Cell(u32),
    Tag(u32),
    Number,
}
