//! What the definitions say by themselves.

ghost use Rattle.command_line.specs.Laws.{ParsingMatchesGrammar, OptionOrderIsFree};

/// Words stand for exactly the options and operands that the grammar of a line says, and so for at
/// most one list of them.
pub fn parsing_matches_grammar()
    ensures { ParsingMatchesGrammar }
{}

/// Options stand anywhere among the operands: an option that changes places with its neighbour
/// leaves the command as it is.
pub fn option_order_is_free()
    ensures { OptionOrderIsFree }
{}
