// What the machine does with words that are placed for items.

ghost use Rattle.rv32_items.specs.Laws.{MachineMatchesItems, ItemsAreReached, MachineEntersLabels, MachineGoesForward};
ghost use Rattle.rv32_items.specs.Pace.{ItemsBoundSteps};
ghost use Rattle.rv32_items.specs.LastStep.{LastStepIsAtLinkJump, ProceduresPrecedeStops, StopsAreLast, ExitKeepsRegisters};

/// Where the items never trap, the machine shows what they show, and in at most three steps an
/// item.
pub fn machine_matches_items()
    ensures show { MachineMatchesItems }
    ensures reached { ItemsAreReached }
{}

/// The machine enters the addresses of just the labels that the course passes, each with an
/// instruction right after it.
pub fn machine_enters_labels()
    ensures { MachineEntersLabels }
{}

/// Where each return goes to the item after the last call that is open, the machine goes forward.
pub fn machine_goes_forward()
    ensures { MachineGoesForward }
{}

/// There it does all items at most once at the start and once for each procedure that it enters.
pub fn items_bound_steps()
    ensures { ItemsBoundSteps }
{}

/// Where a course leaves the procedures by a jump that links a register, the register tells at the
/// end where the machine's last step before the stops stood. These are the code's last words, and
/// no procedure begins among them.
pub fn last_step_is_at_link_jump()
    ensures left { LastStepIsAtLinkJump }
    ensures behind { ProceduresPrecedeStops }
    ensures last { StopsAreLast }
{}

/// Where a course exits, the machine exits with the same registers.
pub fn exit_keeps_registers()
    ensures { ExitKeepsRegisters }
{}
