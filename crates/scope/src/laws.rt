//! Laws about active statements and about the rules, each the contract of a function that does
//! nothing.
ghost use Rattle.scope.specs.Laws.{ActiveByCounts, ActiveAfterStatement, ActiveAfterClose};
ghost use Rattle.scope.specs.Laws.{ActiveAfterBlocks, RulesIgnoreProofs};

/// States that a statement is active at a later position exactly if no prefix of the statements
/// between has more `$}` than `${`.
pub fn active_by_counts()
    ensures { ActiveByCounts }
{}

/// States which statements are active after one more statement that closes no block.
pub fn active_after_statement()
    ensures { ActiveAfterStatement }
{}

/// States which statements are active after a `$}`.
pub fn active_after_close()
    ensures { ActiveAfterClose }
{}

/// States which statements are active after later statements that close none of the earlier blocks.
pub fn active_after_blocks()
    ensures { ActiveAfterBlocks }
{}

/// States that no rule looks at a proof.
pub fn rules_ignore_proofs()
    ensures { RulesIgnoreProofs }
{}
