//! Laws of the library of a log. Each is a function that does nothing and ensures a sentence of
//! `specs/Laws`.
ghost use Rattle.library.specs.Laws.{OneVerdict, OneLibrary, LibrariesGrow, LibrariesAreGood};
ghost use Rattle.library.specs.Laws.{LimitKeepsStatements, NoLimit, PlainWithoutCharters};
ghost use Rattle.library.specs.Laws.{TooCostlyIfPast, WorksAddUp};

/// At a given replica, an entry has one verdict and leads to one replica.
pub fn one_verdict()
    ensures { OneVerdict }
{}

/// A log has one library under a limit.
pub fn one_library()
    ensures { OneLibrary }
{}

/// The statements of a log's library are a prefix of those of the library of a log that continues
/// it.
pub fn libraries_grow()
    ensures { LibrariesGrow }
{}

/// The library of a log is good.
pub fn libraries_are_good()
    ensures { LibrariesAreGood }
{}

/// Without a limit, a log has the library of the definition without limits.
pub fn no_limit()
    ensures { NoLimit }
{}

/// Without a limit, a log without charters has the statements and the verdicts of the plain
/// library, and no charter.
pub fn plain_without_charters()
    ensures { PlainWithoutCharters }
{}

/// Where a limit gives no verdict, the library of a log is, apart from the limit, the one without
/// it.
pub fn limit_keeps_statements()
    ensures { LimitKeepsStatements }
{}

/// A submission whose outcome, the work aside, is known is too costly exactly if what is counted
/// until it is known is past the limit.
pub fn too_costly_if_past()
    ensures { TooCostlyIfPast }
{}

/// The works of texts that are added one after another sum to that of the text that they are
/// together.
pub fn works_add_up()
    ensures { WorksAddUp }
{}
