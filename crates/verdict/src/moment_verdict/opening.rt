//! The verdict on one moment: one run of recovery for each branch of its cuts.

ghost use Rattle.verdict.specs.Branches.{IsWithin};
ghost use Rattle.verdict.specs.Numbers.{is_flagged};
ghost use Rattle.verdict.specs.Opened.{IfFew, IsOpened};
ghost use Rattle.crash_image.specs.View.{HasLines};
ghost use Rattle.store_trace.specs.Floor.{floor};
ghost use Rattle.store_trace.specs.Stores.{stores};
ghost use Rattle.verdict.specs.Verdicts.{AreFlagged, IfPassed, IsMomentVerdict};
ghost use Rattle.store_trace.specs.History.{at_moment};
ghost use Rattle.std.specs.List.{AllByRecursion};
ghost use Rattle.std.specs.Prelude.{◌≡◌, ℕ, ◌≤◌, List, None, Option, true, length, IfOk};
ghost use Rattle.verdict.specs.declared.branches.question.Question.{Question};

use crate::branches::{Opened, Opener, Recovery};
use crate::moment_verdict::MomentVerdict;
use crate::moment_verdict::contents::WidestLines;
use crate::moment_verdict::naming::name_cut;
use line_memory::Medium;
use std::alloc::{AllocError, Global};
use std::thread::Threads;
use store_trace::Trace;

/// The most branches that are opened.
pub(crate) const MAX_BRANCHES: u32 = 65_536;

/// The verdict on the state after the first `moment` events of the trace, which started from the medium: its images are those that the
/// recovery has for cuts, and they are judged by one run of it for each branch, in threads of their own where there are many. The medium
/// has every line that the trace names. Where the moment passes, the opener has each line that recovery asks.
pub fn open_moment<R: Recovery + Sync, T: Threads + Sync>(
    rt: &T,
    alloc: Global,
    medium: &Medium,
    trace: &Trace,
    moment: u32,
    recovery: &R,
    workspace: &mut R::Workspace,
    opener: &mut Opener,
) -> Result<MomentVerdict<R::Cause>, AllocError>
    requires lines { HasLines medium.now trace.now.events }
    requires there { moment ≤ length trace.now.events }
    requires count { R.lines recovery.now ≡ length medium.now }
    requires size { length opener.old ≡ length medium.now }
    requires low { R.low recovery.now ≡ (λ l. floor l (at_moment trace.now.events moment)) }
    requires high { R.high recovery.now ≡ (λ l. stores l (at_moment trace.now.events moment)) }
    requires alike { (k c : ℕ → ℕ) (found : Option R.Cause) → ((l : ℕ) → k l ≡ c l) → R.judged recovery.now c found → R.judged recovery.now k found }
    requires fits { R.fits recovery.now workspace.old }
    ensures ok { IfOk result (IsMomentVerdict (R.further recovery.now) (R.alike recovery.now) (R.asks recovery.now) (R.judged recovery.now) (at_moment trace.now.events moment)) }
    ensures asked { IfOk result (λ verdict. IfPassed verdict (AreFlagged (R.asks recovery.now) (at_moment trace.now.events moment) opener.new)) }
    ensures size { length opener.new ≡ length opener.old }
    ensures fits { R.fits recovery.now workspace.new }
{
    let opened = opener.open(rt, alloc, recovery, workspace, MAX_BRANCHES)?;
    verdict_of(alloc, medium, trace, moment, recovery, opener, opened)
}

/// The verdict by what the opened branches showed; the opener is the one that opened them.
fn verdict_of<R: Recovery>(
    alloc: Global,
    medium: &Medium,
    trace: &Trace,
    moment: u32,
    recovery: &R,
    opener: &Opener,
    opened: Opened<R::Cause>,
) -> Result<MomentVerdict<R::Cause>, AllocError>
    requires lines { HasLines medium.now trace.now.events }
    requires there { moment ≤ length trace.now.events }
    requires low { R.low recovery.now ≡ (λ l. floor l (at_moment trace.now.events moment)) }
    requires high { R.high recovery.now ≡ (λ l. stores l (at_moment trace.now.events moment)) }
    requires alike { (k c : ℕ → ℕ) (found : Option R.Cause) → ((l : ℕ) → k l ≡ c l) → R.judged recovery.now c found → R.judged recovery.now k found }
    requires opened { IsOpened (R.further recovery.now) (R.alike recovery.now) (R.asks recovery.now) (R.judged recovery.now) (R.low recovery.now) (R.high recovery.now) (R.lines recovery.now) 65536 opened }
    requires asked { IfFew opened ((k : ℕ → ℕ) → IsWithin (R.low recovery.now) (R.high recovery.now) k →
        (qs : List Question) → R.asks recovery.now k qs → AllByRecursion (λ q. is_flagged q.line opener.now ≡ true) qs) }
    ensures ok { IfOk result (IsMomentVerdict (R.further recovery.now) (R.alike recovery.now) (R.asks recovery.now) (R.judged recovery.now) (at_moment trace.now.events moment)) }
    ensures asked { IfOk result (λ verdict. IfPassed verdict (AreFlagged (R.asks recovery.now) (at_moment trace.now.events moment) opener.now)) }
{
    match opened {
        Opened::Over { lines: None } => Ok(MomentVerdict::TooMany { lines: None }),
        Opened::Over { lines: Some(lines) } => Ok(MomentVerdict::TooMany {
            lines: Some(WidestLines::of(alloc, recovery, &lines)?),
        }),
        Opened::OverBad { numbers, cause } => Ok(MomentVerdict::Fail {
            image: name_cut(alloc, medium, trace, moment, &numbers)?,
            cause,
            of_too_many: true,
        }),
        Opened::Pass => Ok(MomentVerdict::Pass),
        Opened::Bad { numbers, cause } => Ok(MomentVerdict::Fail {
            image: name_cut(alloc, medium, trace, moment, &numbers)?,
            cause,
            of_too_many: false,
        }),
    }
}
