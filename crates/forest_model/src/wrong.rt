// Wrong rules are shown wrong. The function stands for the clauses of its contract, and does nothing.

ghost use Rattle.forest_model.specs.Wrong.{ForkBehind, PromoteLeast, CopyFromMade, DropCommitted, GiveUpEarliest};

/// For each of five wrong rules a small case in which it breaks a law, and in which the right one keeps it: a copy behind
/// the conflicting read is another run; the least survivor is not where the reader's point is; a copy from the list that is
/// being made, or without the committed guard's shadow, is not of the furthest; and without the shadow that blocks
/// earliest a reader does not go back to the last point that it wants.
pub fn wrong_rules()
    ensures fork_behind { ForkBehind }
    ensures promote_least { PromoteLeast }
    ensures copy_from_made { CopyFromMade }
    ensures drop_committed { DropCommitted }
    ensures give_up_earliest { GiveUpEarliest }
{}
