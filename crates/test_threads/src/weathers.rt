//! Repeated, delayed and lost hints, a restart, and a gap in one node's log that a later answer
//! fills.
ghost use Rattle.std.specs.Prelude.{◌≡◌, length, IfOk};

use crate::three_nodes::{
    EntryKeep, MAX_POLLS, is_added_by_all, polled_verdict, same_weathers,
    start_three_nodes_with_open_gate, submit_text, text_entry,
};
use library::{Entry, Library, Verdict};
use net::StepFault;
use nodes::{Cluster, Desk, Fate, Naming, Opened, Weather};
use std::alloc::{AllocError, Global};
use std::marker::Brand;
use std::sync::atomic::{AtomicU8, Ordering};
use std::sync::{Arc, Wait};
use std::thread;
use std::thread::Threads;
use std::time::{Clock, Duration};
use synod::Weights;
use verify_pool::{Gate, OpenGate};

/// Passes, repeats and delays hints in turn. The number says what happens to the next one: 0
/// passes, 1 repeats, 2 delays it.
#[derive(Clone, Copy)]
struct CyclingWeather(u8);

impl Weather for CyclingWeather {
    fn turn(&mut self, _number: u64) -> Fate {
        match self.0 {
            0 => {
                self.0 = 1;
                Fate::Pass
            }
            1 => {
                self.0 = 2;
                Fate::Twice
            }
            _ => {
                self.0 = 0;
                Fate::Later
            }
        }
    }
}

/// The four texts: the third breaks a rule, and the fourth has the serial number of the first.
const TEXTS: [(u64, &[u8]); 4] = [
    (1, b"$c |- wff $. wx $a wff $."),
    (2, b"p $a |- $."),
    (3, b"p $a |- $."),
    (1, b"$c a $."),
];

#[test]
fn served_by_all(rt: HostRuntime) {
    assert!(rt; nodes_answer_alike::<Brand, _>(&rt, rt.alloc(), Opened::new()) == Ok(true));
}

/// Returns whether each node answers like one library to which the texts are applied in order, node
/// 2 also after a restart.
fn nodes_answer_alike<
    J: Naming + Send + Sync + Drop + 'static,
    R: Threads + Wait + Clock + Copy + Send + Sync + Drop + 'static,
>(rt: &R, alloc: Global, opened: Opened) -> Result<bool, StepFault>
    requires { opened ≡ J.book }
{
    let mut library = Library::new(alloc, None);
    let served = nodes_answer_like_filled::<J, R>(rt, alloc, opened, &mut library);
    // An explicit `drop` is proved once for each type; a drop at the end of the scope would be
    // proved here.
    drop(library);
    served
}

/// Applies the texts to this new library, and returns whether each of three nodes then answers like
/// it.
fn nodes_answer_like_filled<
    J: Naming + Send + Sync + Drop + 'static,
    R: Threads + Wait + Clock + Copy + Send + Sync + Drop + 'static,
>(rt: &R, alloc: Global, opened: Opened, library: &mut Library) -> Result<bool, StepFault>
    requires { opened ≡ J.book }
{
    Ok(apply_all(alloc, library)? && nodes_answer_like::<J, R>(rt, alloc, opened, library)?)
}

/// Applies the texts to the library in order. Returns whether it has three statements then.
fn apply_all(alloc: Global, library: &mut Library) -> Result<bool, AllocError> {
    for (serial, text) in TEXTS {
        apply_one(library, &text_entry(alloc, serial, text)?)?;
    }
    Ok(library.statements().len() == 3)
}

/// Applies one text.
fn apply_one(library: &mut Library, entry: &Entry) -> Result<(), AllocError> {
    let _verdict = library.apply(Some(entry))?;
    Ok(())
}

/// Returns whether each of three new nodes, at which the texts are submitted, answers like that
/// library.
fn nodes_answer_like<
    J: Naming + Send + Sync + Drop + 'static,
    R: Threads + Wait + Clock + Copy + Send + Sync + Drop + 'static,
>(rt: &R, alloc: Global, opened: Opened, library: &Library) -> Result<bool, StepFault>
    requires { opened ≡ J.book }
{
    let weathers = same_weathers(alloc, CyclingWeather(0))?;
    let mut cluster: Cluster<J, OpenGate, EntryKeep> = start_three_nodes_with_open_gate(
        rt,
        alloc,
        opened,
        Weights::equal(3),
        weathers,
    )?;
    answers_and_stops(rt, alloc, &mut cluster, library)
}

/// Returns whether the nodes of this cluster answer like the library, and stops the cluster.
fn answers_and_stops<J: Naming, R: Threads + Wait + Clock>(
    rt: &R,
    alloc: Global,
    cluster: &mut Cluster<J, OpenGate, EntryKeep>,
    library: &Library,
) -> Result<bool, StepFault> {
    let served = cluster_answers_like(rt, alloc, cluster, library);
    cluster.stop(rt)?;
    served
}

/// Returns whether the nodes of this cluster answer like the library.
fn cluster_answers_like<J: Naming, R: Wait + Clock>(
    rt: &R,
    alloc: Global,
    cluster: &Cluster<J, OpenGate, EntryKeep>,
    library: &Library,
) -> Result<bool, StepFault> {
    let mut desk = cluster.desk()?;
    desk_answers_like(rt, alloc, &mut desk, library)
}

/// Submits the texts at the desk. Returns whether no node lists an assertion before, and each then
/// answers like the library, node 2 also after a restart.
fn desk_answers_like<J: Naming, R: Wait + Clock>(
    rt: &R,
    alloc: Global,
    desk: &mut Desk<J, OpenGate, EntryKeep>,
    library: &Library,
) -> Result<bool, StepFault> {
    if !lists_nothing(rt, desk)? {
        return Ok(false);
    }
    submit_all(rt, alloc, desk)?;
    for k in [0, 1, 2] {
        if !node_answers_like(rt, desk, k, library)? {
            return Ok(false);
        }
    }
    desk.restart(rt, 2)?;
    node_answers_like(rt, desk, 2, library)
}

/// Returns whether each node lists no assertion.
fn lists_nothing<J: Naming, R: Wait>(
    rt: &R,
    desk: &mut Desk<J, OpenGate, EntryKeep>,
) -> Result<bool, StepFault> {
    for k in [0, 1, 2] {
        if !desk.list(rt, k)?.is_empty() {
            return Ok(false);
        }
    }
    Ok(true)
}

/// Begins a ballot at node 0, and submits the texts there.
fn submit_all<J: Naming, G: Gate, R: Wait>(
    rt: &R,
    alloc: Global,
    desk: &mut Desk<J, G, EntryKeep>,
) -> Result<(), StepFault> {
    desk.begin(rt, 0)?;
    for (serial, text) in TEXTS {
        submit_text(rt, alloc, desk, serial, text)?;
    }
    Ok(())
}

/// Returns whether node `k` has the verdicts and lists the assertions of that library.
fn node_answers_like<J: Naming, G: Gate, R: Wait + Clock>(
    rt: &R,
    desk: &mut Desk<J, G, EntryKeep>,
    k: u8,
    library: &Library,
) -> Result<bool, StepFault> {
    for serial in [1, 2, 3] {
        if polled_verdict(rt, desk, k, serial, MAX_POLLS)? != library.status(7, serial) {
            return Ok(false);
        }
    }
    let list = desk.list(rt, k)?;
    let expected = library.list()?;
    let same = list.iter().zip(expected.iter()).all(|(one, other)| {
        one.label.as_bytes() == other.label.as_bytes() && one.proved == other.proved
    });
    Ok(same && list.len() == expected.len())
}

/// The setting with which the hints of a node pass.
const PASS: u8 = 0;

/// The setting with which they are lost.
const LOSE: u8 = 1;

/// The setting with which they are delayed.
const DELAY: u8 = 2;

/// Passes a node's first hint, and treats the others by a setting that the test changes meanwhile.
#[derive(Drop)]
struct SettableWeather {
    setting: Arc<AtomicU8>,
    /// Whether no hint has come yet.
    is_first: bool,
}

impl Weather for SettableWeather {
    fn turn(&mut self, _number: u64) -> Fate {
        if self.is_first {
            self.is_first = false;
            return Fate::Pass;
        }
        match self.setting.load(Ordering::SeqCst) {
            LOSE => Fate::Drop,
            DELAY => Fate::Later,
            _ => Fate::Pass,
        }
    }
}

#[test]
fn a_filled_gap_is_applied(rt: HostRuntime) {
    assert!(rt; fills_its_gap::<Brand, _>(&rt, rt.alloc(), Opened::new()) == Ok(true));
}

/// Returns whether node 2 applies all of six texts. The packets of the first do not reach it, and
/// while it learns the next four, its requests for the first are lost. When it learns the sixth, it
/// asks again, and the answer has all that it lacks.
fn fills_its_gap<
    J: Naming + Send + Sync + Drop + 'static,
    R: Threads + Wait + Clock + Copy + Send + Sync + Drop + 'static,
>(rt: &R, alloc: Global, opened: Opened) -> Result<bool, StepFault>
    requires { opened ≡ J.book }
{
    let (Ok(first_two_setting), Ok(third_setting)) = (
        Arc::new(alloc, AtomicU8::new(PASS)),
        Arc::new(alloc, AtomicU8::new(LOSE)),
    ) else {
        return Err(StepFault::Memory);
    };
    let weathers = settable_weathers(alloc, &first_two_setting, &third_setting)?;
    let mut cluster: Cluster<J, OpenGate, EntryKeep> = start_three_nodes_with_open_gate(
        rt,
        alloc,
        opened,
        Weights::equal(3),
        weathers,
    )?;
    applies_and_stops(rt, alloc, &mut cluster, &first_two_setting, &third_setting)
}

/// Returns the same for the nodes of this cluster, which is stopped afterwards.
fn applies_and_stops<J: Naming, R: Threads + Wait + Clock>(
    rt: &R,
    alloc: Global,
    cluster: &mut Cluster<J, OpenGate, EntryKeep>,
    first_two_setting: &AtomicU8,
    third_setting: &AtomicU8,
) -> Result<bool, StepFault> {
    let filled = applies_all(rt, alloc, cluster, first_two_setting, third_setting);
    cluster.stop(rt)?;
    filled
}

/// Returns three weathers: those of nodes 0 and 1 share one setting, and that of node 2 has its
/// own.
fn settable_weathers(
    alloc: Global,
    first_two_setting: &Arc<AtomicU8>,
    third_setting: &Arc<AtomicU8>,
) -> Result<Vec<SettableWeather>, AllocError>
    ensures { IfOk result (λ weathers. length weathers.items ≡ 3) }
{
    let mut weathers = Vec::with_capacity(alloc, 3)?;
    weathers.push_reserved(weather_of(first_two_setting)?);
    weathers.push_reserved(weather_of(first_two_setting)?);
    weathers.push_reserved(weather_of(third_setting)?);
    Ok(weathers)
}

/// Returns a weather with this setting.
fn weather_of(setting: &Arc<AtomicU8>) -> Result<SettableWeather, AllocError> {
    Ok(SettableWeather {
        setting: Arc::try_clone(setting)?,
        is_first: true,
    })
}

/// Returns whether node 2 of the cluster applies all texts.
fn applies_all<J: Naming, R: Wait + Clock>(
    rt: &R,
    alloc: Global,
    cluster: &Cluster<J, OpenGate, EntryKeep>,
    first_two_setting: &AtomicU8,
    third_setting: &AtomicU8,
) -> Result<bool, StepFault> {
    let mut desk = cluster.desk()?;
    applies_at(rt, alloc, &mut desk, first_two_setting, third_setting)
}

/// Returns the same, with a desk of the cluster.
fn applies_at<J: Naming, R: Wait + Clock>(
    rt: &R,
    alloc: Global,
    desk: &mut Desk<J, OpenGate, EntryKeep>,
    first_two_setting: &AtomicU8,
    third_setting: &AtomicU8,
) -> Result<bool, StepFault> {
    desk.begin(rt, 0)?;
    let decided = submit_and_wait(rt, alloc, desk, 1)?;
    third_setting.store(DELAY, Ordering::SeqCst);
    let more = submit_and_wait(rt, alloc, desk, 2)?
        && submit_and_wait(rt, alloc, desk, 3)?
        && submit_and_wait(rt, alloc, desk, 4)?
        && submit_and_wait(rt, alloc, desk, 5)?;
    first_two_setting.store(LOSE, Ordering::SeqCst);
    third_setting.store(PASS, Ordering::SeqCst);
    thread::sleep(rt, Duration::from_millis(TRANSIT_MILLIS));
    first_two_setting.store(PASS, Ordering::SeqCst);
    // Node 2 applies no text before the first, which it has not learned yet.
    let fifth_is_undecided = desk.status(rt, 2, 7, 5)?.is_none();
    submit_text(rt, alloc, desk, 6, b"$c a $.")?;
    Ok(decided && more && fifth_is_undecided && is_added_by_all(rt, desk, 6)?)
}

/// How many milliseconds the test waits for hints that are on their way.
const TRANSIT_MILLIS: u64 = 100;

/// Submits a text at node 0 and waits until nodes 0 and 1 have decided it; then waits
/// `TRANSIT_MILLIS` for the hints on their way to node 2, which its weather loses or delays.
/// Returns whether nodes 0 and 1 have added the text.
fn submit_and_wait<J: Naming, R: Wait + Clock>(
    rt: &R,
    alloc: Global,
    desk: &mut Desk<J, OpenGate, EntryKeep>,
    serial: u64,
) -> Result<bool, StepFault> {
    submit_text(rt, alloc, desk, serial, b"")?;
    let added = Some(Verdict::Added);
    let decided = polled_verdict(rt, desk, 0, serial, MAX_POLLS)? == added
        && polled_verdict(rt, desk, 1, serial, MAX_POLLS)? == added;
    thread::sleep(rt, Duration::from_millis(TRANSIT_MILLIS));
    Ok(decided)
}
