//! Laws of frames.
ghost use Rattle.frame.specs.Laws.{GroupsHaveMandatoryPairs, PairListsDecideAsGroups};

/// The groups of a frame have exactly its mandatory pairs.
pub fn groups_have_mandatory_pairs()
    ensures { GroupsHaveMandatoryPairs }
{}

/// The mandatory pairs as lists decide whether images are disjoint as the groups of the frame do.
pub fn pair_lists_decide_as_groups()
    ensures { PairListsDecideAsGroups }
{}
