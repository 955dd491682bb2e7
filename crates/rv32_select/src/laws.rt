// What items do that are selected for low code.

ghost use Rattle.rv32_select.specs.Laws.{SelectionRefines};

/// Items that are selected for low code that is never missing do what it does.
pub fn selection_refines()
    ensures { SelectionRefines }
{}
