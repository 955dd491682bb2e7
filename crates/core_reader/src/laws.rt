//! What the definitions of texts and their rules say by themselves.

ghost use Rattle.core_reader.specs.Laws.{RefusalIsUnique, TokensAreUnique, ProgramIsUnique, AcceptedIsReadable};

/// The refusals exclude one another: a text breaks at most one rule first, at one place.
pub fn refusal_is_unique()
    ensures { RefusalIsUnique }
{}

/// The longest-token reading of a text is unique.
pub fn tokens_are_unique()
    ensures { TokensAreUnique }
{}

/// A text stands for at most one program, with its places and its names.
pub fn program_is_unique()
    ensures { ProgramIsUnique }
{}

/// A program is readable where a text that breaks no rule stands for it.
pub fn accepted_is_readable()
    ensures { AcceptedIsReadable }
{}
