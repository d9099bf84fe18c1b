//! Laws of the answers, as contracts of calls that do nothing.

ghost use Rattle.verify_pool.specs.Laws.{OneAnswer, OneStop};

use crate::work::Work;

/// For one list of jobs at most one answer meets `IsFirstWrongJob`, so the answer of `check_all`
/// does not depend on the number of workers.
pub fn one_answer()
    ensures { OneAnswer }
{}

/// For the same jobs and the same meter at most one outcome meets `IsFirstStop`, so the outcome of
/// `judge_all` does not depend on the number of workers.
pub fn one_stop<W: Work>(_work: &W)
    ensures { OneStop (W.right _work.now) (W.work _work.now) (W.count _work.now) }
{}
