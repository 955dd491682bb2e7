//! The names of the stages of a program, and the words of a command line that stand for them.
#![tactic(auto)]

ghost use Rattle.std.specs.Prelude.{◌≡◌, Some};
ghost use Rattle.stage_names.specs.Words.{word_of, stage_named};

/// The stages of a program, in the order in which they are made.
#[derive(Clone, Copy, PartialEq, Eq, Debug, Drop)]
pub enum PassName {
    /// The translation to GRIN.
    Translate,
    /// The program in which every `eval` is inlined, by the tags that it meets.
    Eval,
    /// The program in which every `apply` is inlined too.
    Apply,
    /// The program with vectors of words in place of its node variables.
    Vectorise,
    /// The program in which alternatives stand in place of cases on known tags.
    Simplify,
    /// The program that fetches words in place of nodes.
    Fetch,
    /// The program without copies.
    Copy,
    /// The program whose updates have known tags.
    Update,
    /// The program whose procedures give numbers without their tag.
    Unbox,
    /// The program whose procedures take words in place of the node in which they stand.
    Raise,
    /// The program in which statements stand in place of nested blocks.
    Flat,
    /// The program with literals in place of words that are known.
    Known,
    /// The program without fetches of words that are known of the procedure's own cells.
    Cells,
    /// The program without words of vectors that nobody reads and cells that nothing reads.
    Dead,
}

impl PassName {
    /// The stage that a word names, or `None` where it names none.
    pub fn named(word: &str) -> Option<PassName>
        ensures { result ≡ stage_named word.now }
    {
        match word {
            "translate" => Some(PassName::Translate),
            "eval" => Some(PassName::Eval),
            "apply" => Some(PassName::Apply),
            "vectorise" => Some(PassName::Vectorise),
            "simplify" => Some(PassName::Simplify),
            "fetch" => Some(PassName::Fetch),
            "copy" => Some(PassName::Copy),
            "update" => Some(PassName::Update),
            "unbox" => Some(PassName::Unbox),
            "raise" => Some(PassName::Raise),
            "flat" => Some(PassName::Flat),
            "known" => Some(PassName::Known),
            "cells" => Some(PassName::Cells),
            "dead" => Some(PassName::Dead),
            _ => None,
        }
    }

    /// The word of a stage, which names it.
    pub fn word(self) -> &'static str
        ensures word { result.now ≡ word_of self }
        ensures names { stage_named result.now ≡ Some self }
    {
        match self {
            PassName::Translate => "translate",
            PassName::Eval => "eval",
            PassName::Apply => "apply",
            PassName::Vectorise => "vectorise",
            PassName::Simplify => "simplify",
            PassName::Fetch => "fetch",
            PassName::Copy => "copy",
            PassName::Update => "update",
            PassName::Unbox => "unbox",
            PassName::Raise => "raise",
            PassName::Flat => "flat",
            PassName::Known => "known",
            PassName::Cells => "cells",
            PassName::Dead => "dead",
        }
    }
}
