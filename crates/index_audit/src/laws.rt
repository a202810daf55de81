//! The laws of the audit. Each function does nothing: its contract is the law, over every graph, ranking and index.
ghost use Rattle.index_audit.specs.Laws.{TheChecksDecide, EachIndexHasAnAudit, TheAuditIsUnique, TheTracedChecksDecide, EachTracedIndexHasAnAudit, TheTracedAuditIsUnique, EachIndexHasAnUpgrade, TheUpgradeIsUnique};

/// Nothing is wrong with an index exactly where it has that ranking and is the canonical hub labelling under it.
pub fn the_checks_decide()
    ensures { TheChecksDecide }
{}

/// Each index is answered something.
pub fn each_index_has_an_audit()
    ensures { EachIndexHasAnAudit }
{}

/// And it is answered one thing only.
pub fn the_audit_is_unique()
    ensures { TheAuditIsUnique }
{}

/// Nothing is wrong with an index with vias exactly where it is that labelling, too, and its vias are those that its rows tell.
pub fn the_traced_checks_decide()
    ensures { TheTracedChecksDecide }
{}

/// Each index with vias is answered something.
pub fn each_traced_index_has_an_audit()
    ensures { EachTracedIndexHasAnAudit }
{}

/// And it is answered one thing only.
pub fn the_traced_audit_is_unique()
    ensures { TheTracedAuditIsUnique }
{}

/// Each index of as many nodes as the graph has an upgrade.
pub fn each_index_has_an_upgrade()
    ensures { EachIndexHasAnUpgrade }
{}

/// And one only.
pub fn the_upgrade_is_unique()
    ensures { TheUpgradeIsUnique }
{}
