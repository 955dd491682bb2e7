//! What the definitions of texts with lambdas say by themselves.

ghost use Rattle.lambda_reader.specs.Laws.{ProgramIsUnique};

/// A text stands for at most one program, with its places and its names.
pub fn program_is_unique()
    ensures { ProgramIsUnique }
{}
