//! How the machine runs the code of a compiler: code that stands in memory is done, stretches of a
//! run join, and straight-line code, jumps, branches and calls do what they say. All of it is laws,
//! for the proofs of code generators.
#![tactic(auto)]

ghost use Rattle.rv32_steps.specs.Laws.{StepsCompose, SilentStepsKeepInput, SegmentHoldsCode, InstructionsChangeState, StraightCodeRuns, ZerosAreWords, BytesAreWritten, ReadCallsAskForBytes, ReadBytesFillWords, JumpsReachTargets, ReturnsGoBack, TakenBranchesJump, UntakenBranchesFallThrough, WriteCallsWrite, ReadCallsTake, ReadCallsEnd, ExitCallsEnd};

/// Stretches of a run join, and what reads no byte is one on every input.
pub fn steps_compose()
    ensures join { StepsCompose }
    ensures input { SilentStepsKeepInput }
{}

/// In a segment of the words of instructions these instructions stand, one each four bytes: a step
/// does each.
pub fn segment_holds_code()
    ensures { SegmentHoldsCode }
{}

/// Straight-line code over registers, heap and stack is done to its end, one step each instruction,
/// and each instruction does the same wherever it stands. A segment of zeros is one of words.
pub fn straight_code_runs()
    ensures each { InstructionsChangeState }
    ensures all { StraightCodeRuns }
    ensures zeros { ZerosAreWords }
{}

/// Jumps, returns, and branches by their test, go where they say.
pub fn jumps_reach_targets()
    ensures jumps { JumpsReachTargets }
    ensures returns_back { ReturnsGoBack }
    ensures taken { TakenBranchesJump }
    ensures not_taken { UntakenBranchesFallThrough }
{}

/// A call of one byte finds it in a word: a write call writes the low byte of the word, and a read
/// call puts the byte where a word is zero.
pub fn byte_calls_use_words()
    ensures written { BytesAreWritten }
    ensures asked { ReadCallsAskForBytes }
    ensures taken { ReadBytesFillWords }
{}

/// Write calls write, read calls take a byte or tell the input's end, and exit calls end the run.
pub fn system_calls_work()
    ensures writes { WriteCallsWrite }
    ensures reads { ReadCallsTake }
    ensures reads_end { ReadCallsEnd }
    ensures exits { ExitCallsEnd }
{}
