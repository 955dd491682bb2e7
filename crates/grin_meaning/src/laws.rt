// Laws of runs.

ghost use Rattle.grin_meaning.specs.Looking.{ChecksDecideGoodRuns};
ghost use Rattle.grin_meaning.specs.Full.{NodesHaveAllFields};

/// A law: the looking run of a program without eval and apply is never missing exactly where its
/// runs are well and never missing, and then it is the run.
#[tactic(auto, using(crate::proofs::Looked::looking_law))]
pub fn checks_decide_good_runs()
    ensures { ChecksDecideGoodRuns }
{}

/// A law: in the runs of a well-formed program each node has as many fields as its tag.
#[tactic(auto, using(crate::proofs::Fullness::nodes_full))]
pub fn nodes_have_all_fields()
    ensures { NodesHaveAllFields }
{}
