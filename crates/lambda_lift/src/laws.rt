//! What lifting keeps.

ghost use Rattle.lambda_lift.specs.Laws.{LiftingPreservesMeaning, LiftingTreesPreservesMeaning};

/// The lifted program puts out the same as a tree by its own meaning.
pub fn lifting_trees_preserves_meaning()
    ensures { LiftingTreesPreservesMeaning }
{}

/// The lifted program puts out the same as the text by its own meaning.
pub fn lifting_preserves_meaning()
    ensures { LiftingPreservesMeaning }
{}
