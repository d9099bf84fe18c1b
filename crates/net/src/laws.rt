//! The laws of agreement, each the contract of a function that does nothing.
ghost use Rattle.net.specs.Crash.{CrashesLeaveEvents, CrashesOnlyRestart, LogsAgreeAcrossCrash};
ghost use Rattle.net.specs.Laws.{BallotsHaveOneValue, ChosenValuesPersist, ChosenValuesAgree};
ghost use Rattle.net.specs.Laws.{LogEntriesAreChosen, LogsOfNodesAgree, LogEntriesWereOffered};
ghost use Rattle.net.specs.Laws.{KeptPartSurvives, LogsOnlyGrow, RestartEmptiesLog};
ghost use Rattle.net.specs.Resumed.{HistoriesGoOn, NewPartsAreLeft, RunsAreLeft};

/// States agreement after any events of which none meets a fault, whatever was lost, repeated or
/// delayed and whichever nodes restarted, for any weights, any limit on events and any values.
///
/// Source: Lamport, Paxos Made Simple, section 2.2.
pub fn agreement<V>()
    ensures one_value { BallotsHaveOneValue V }
    ensures later_value { ChosenValuesPersist V }
    ensures chosen { ChosenValuesAgree V }
    ensures logs_chosen { LogEntriesAreChosen V }
    ensures logs_agree { LogsOfNodesAgree V }
    ensures logs_offered { LogEntriesWereOffered V }
{}

/// States that a node's kept part survives restarts: after an event and then a restart of one node,
/// it is the part before the event with the change of the event, whether or not any packet of the
/// event is ever delivered.
///
/// Source: Lamport, Paxos Made Simple, section 2.5.
pub fn kept_part<V>()
    ensures { KeptPartSurvives V }
{}

/// States that the log of a node only grows, except that a restart empties it.
pub fn logs_grow<V>()
    ensures grows { LogsOnlyGrow V }
    ensures restart { RestartEmptiesLog V }
{}

/// States that a crash of all nodes only restarts them.
///
/// A crash leaves each node with its kept part, or with that and the change of its event under way,
/// which was stored and not yet committed: these are the kept parts after the events before and
/// some of those under way. Nodes that begin with them, in a new process whose packets and events
/// count from 0, go on with the run: what the new process takes is taken behind the events before
/// and the restarts of all nodes, with the packets from before lost. So the logs of any two nodes
/// agree also across a crash, and across any number of crashes, since a further crash may end this
/// run.
///
/// Source: Lamport, Paxos Made Simple, section 2.5.
pub fn crash<V>()
    ensures left { CrashesLeaveEvents V }
    ensures one_run { CrashesOnlyRestart V }
    ensures logs_agree { LogsAgreeAcrossCrash V }
{}

/// States that a process whose nodes begin with the kept parts that an earlier run left goes on
/// with that run: agreement holds of both as one run, and of the logs of any two nodes, at any
/// moments of either, one is a prefix of the other. A node at which nothing happens, since what it
/// kept is damaged or not to be had, may begin with anything. New nodes begin with what a run
/// without events leaves. What the process leaves is left by one run of new nodes too, so the same
/// holds after any number of crashes.
///
/// Source: Lamport, Paxos Made Simple, section 2.5.
pub fn resume<V>()
    ensures goes_on { HistoriesGoOn V }
    ensures new { NewPartsAreLeft V }
    ensures left { RunsAreLeft V }
{}
