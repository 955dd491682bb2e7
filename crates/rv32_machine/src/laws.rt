//! Laws of the operations, and of runs, which hold of every state and input.

ghost use Rattle.rv32_machine.specs.Arithmetic.{MachineOpsMatchSourceOps};
ghost use Rattle.rv32_machine.specs.Runs.{RunsCompose, EndedRunIsStable, OutputGrows, PiecesAreTheOutput, InputIsUsedInOrder};

/// The operations on words compute what the languages here compute of the words' numbers.
pub fn machine_ops_match_source_ops()
    ensures { MachineOpsMatchSourceOps }
{}

/// So many steps and then so many more are all of them together.
pub fn runs_compose()
    ensures { RunsCompose }
{}

/// A run that has ended stays as it is.
pub fn ended_run_is_stable()
    ensures { EndedRunIsStable }
{}

/// With more steps a run only writes more.
pub fn output_grows()
    ensures { OutputGrows }
{}

/// The bytes of the pieces that a run puts are its output.
pub fn pieces_are_the_output()
    ensures { PiecesAreTheOutput }
{}

/// A run uses the bytes of its input in their order, and with more steps only more of them.
pub fn input_is_used_in_order()
    ensures { InputIsUsedInOrder }
{}
