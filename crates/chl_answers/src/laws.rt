//! The laws of what the files decide. Each function does nothing: its contract is the law, over every command and every
//! table of files.
ghost use Rattle.chl_answers.specs.Laws.{TheFilesDecide, TheFilesDecideOnce, TheFilesDecideOneStatus, AQueryOfABuiltFileSolves, AnAuditOfABuiltFileIsTheSame, AnUpgradeOfABuiltFileIsVersionTwo, ATraceOfABuiltFileTellsWalks, AnOpeningIsABuild, AnOpeningOfABuiltFileIsABuild};

/// Every command over every table of files has an answer.
pub fn the_files_decide()
    ensures { TheFilesDecide }
{}

/// And one answer at most; but `rank` may say any ranking of the graph's nodes.
pub fn the_files_decide_once()
    ensures { TheFilesDecideOnce }
{}

/// So it has one status, done or which refusal.
pub fn the_files_decide_one_status()
    ensures { TheFilesDecideOneStatus }
{}

/// A query of an index file that was built, of either version, says what solving says.
pub fn a_query_of_a_built_file_solves()
    ensures { AQueryOfABuiltFileSolves }
{}

/// An audit of an index file that was built of the same texts, of either version, says that it is the same.
pub fn an_audit_of_a_built_file_is_the_same()
    ensures { AnAuditOfABuiltFileIsTheSame }
{}

/// An upgrade of an index file that was built of the same graph, of either version, writes what building version 2 writes.
pub fn an_upgrade_of_a_built_file_is_version_two()
    ensures { AnUpgradeOfABuiltFileIsVersionTwo }
{}

/// A trace of an index file of version 2 that was built is never broken, and tells of each pair a shortest walk by way of the
/// highest-ranked node on any, or that there is none.
pub fn a_trace_of_a_built_file_tells_walks()
    ensures { ATraceOfABuiltFileTellsWalks }
{}

/// `open` writes what `build` writes of the longer graph, and of the ranking of the index, in the asked version.
pub fn an_opening_is_a_build()
    ensures { AnOpeningIsABuild }
{}

/// Of an index file that was built of the same texts, of either version, `open` comes to whatever `build` comes to of the longer
/// graph: the same bytes, or the same first hub that is too far.
pub fn an_opening_of_a_built_file_is_a_build()
    ensures { AnOpeningOfABuiltFileIsABuild }
{}
