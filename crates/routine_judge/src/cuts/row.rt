//! The verdict on a row of moments by the fewest power cuts in recovery.

ghost use Rattle.routine_judge.specs.Chains.{IsCutsVerdict, IsFirstUnsettled, most_of};
ghost use Rattle.routine_judge.specs.CutRows.{IsEndBy, IsLongEnd, IsRowEnd, end_in, less_one, times_of};
ghost use Rattle.routine_judge.specs.CutVerdicts.{IsJudgedWith};
ghost use Rattle.routine_judge.specs.declared.cuts.row.Why.TheVariants.{Bad, TooMany};
ghost use Rattle.std.specs.Prelude.{◌≡◌, ◌<◌, ◌≤◌, ◌+◌, length, IfOk};
ghost use Rattle.verdict.specs.GoingOn.{IsVerdictOn, settled};
ghost use Rattle.verdict.specs.Progress.{IsTold};

use crate::cuts::chain::bad_chain;
use crate::cuts::judging::CutCause;
use crate::cuts::outcome::{CutsVerdict, RecoveryCuts};
use crate::cuts::run::RunWithCuts;
use crate::run::MarkedRun;
use std::alloc::{AllocError, Global};
use std::thread::Threads;
use verdict::{Moments, Part, Progress, Unwatched, Verdict};

/// After how many cuts in recovery what further ones leave isn't looked at, where any number of them is.
const MAX_CUTS: u32 = 64;

/// Moments of a run, one after another, by how many workers they are judged, and whether judging goes on behind one that takes too many runs.
#[derive(Clone, Copy)]
pub struct CutRow<'r, 'a> {
    pub run: &'r MarkedRun<'a>,
    /// The first of the moments.
    pub first: u32,
    /// One past the last of them.
    pub end: u32,
    /// One to eight.
    pub workers: u32,
    pub goes_on: bool,
    ghost order: { first ≤ end },
    ghost there: { end ≤ length run.now.events + 1 },
    ghost few: { end ≤ 65537 },
    ghost some: { 0 < workers },
    ghost eight: { workers ≤ 8 },
}

/// The least moment of a row that isn't settled, and why it isn't.
#[derive(Clone, Copy)]
struct RowEnd {
    moment: u32,
    why: Why,
}

/// Why a moment isn't settled.
#[derive(Clone, Copy)]
enum Why {
    /// Cuts leave a bad image.
    Bad,
    /// It takes too many runs.
    TooMany,
    /// What is right can't be told within the steps that recovery has.
    TooLong,
}

impl<'r, 'a> CutRow<'r, 'a> {
    /// The moments of a part, by so many workers.
    pub fn of(part: &'r Part<MarkedRun<'a>>, workers: u32, goes_on: bool) -> CutRow<'r, 'a>
        requires there { part.now.end ≤ length part.now.run.events + 1 }
        requires workers { (0 < workers) × (workers ≤ 8) }
        ensures run { result.run.now ≡ part.now.run }
        ensures first { result.first ≡ part.now.first }
        ensures end { result.end ≡ part.now.end }
        ensures goes_on { result.goes_on ≡ goes_on }
    {
        // a look at their number, for it to be known
        let _ = part.run().moments();
        CutRow {
            run: part.run(),
            first: part.first(),
            end: part.end(),
            workers,
            goes_on,
        }
    }

    /// The verdict on the moments: by as many cuts in recovery as are asked for; where that isn't a pass, by the fewest by which it isn't.
    ///
    /// # Errors
    /// A growth was refused.
    pub fn judge<T: Threads + Sync, P: Progress>(
        &self,
        rt: &T,
        alloc: Global,
        asked: RecoveryCuts,
        progress: &mut P,
    ) -> Result<CutsVerdict, AllocError>
        ensures ok { IfOk result (IsCutsVerdict self.now.goes_on self.now.run.now asked self.now.first self.now.end) }
        ensures told { IsTold P.hears (settled self.now.goes_on (IsJudgedWith (most_of asked) self.now.run.now)) self.now.run.now.events
            self.now.first self.now.end progress.old progress.new }
    {
        match self.judge_to(rt, alloc, most(asked), progress)? {
            Verdict::Pass { moments, images } => Ok(CutsVerdict::Pass { moments, images }),
            Verdict::Open {
                moments,
                images,
                open,
            } => Ok(CutsVerdict::Open {
                moments,
                images,
                open,
            }),
            Verdict::Fail { moment, .. } => self.fewest(rt, alloc, asked, bad_at(moment)),
            Verdict::TooMany { moment, .. } => {
                self.too_many(rt, alloc, asked, too_many_at(moment))
            }
            Verdict::TooLong { moment } => Ok(CutsVerdict::TooLong { moment }),
        }
    }

    /// The verdict on the moments with up to so many cuts in recovery, or any number of them.
    fn judge_to<T: Threads + Sync, P: Progress>(
        &self,
        rt: &T,
        alloc: Global,
        most: Option<u32>,
        progress: &mut P,
    ) -> Result<Verdict<CutCause>, AllocError>
        ensures ok { IfOk result (IsVerdictOn self.now.goes_on (IsJudgedWith most self.now.run.now) self.now.run.now.events self.now.first self.now.end) }
        ensures told { IsTold P.hears (settled self.now.goes_on (IsJudgedWith most self.now.run.now)) self.now.run.now.events
            self.now.first self.now.end progress.old progress.new }
    {
        let run = RunWithCuts {
            run: self.run,
            most,
        };
        let part = Part::new(run, self.first, self.end);
        part.judge_watched(rt, alloc, self.workers, self.goes_on, progress)
    }

    /// The least moment that isn't settled by up to so many cuts in recovery, and why. None where all are.
    fn settle<T: Threads + Sync>(
        &self,
        rt: &T,
        alloc: Global,
        most: Option<u32>,
    ) -> Result<Option<RowEnd>, AllocError>
        ensures { IfOk result (IsEndBy self.now.goes_on self.now.run.now most self.now.first self.now.end) }
    {
        let verdict = self.judge_to(rt, alloc, most, &mut Unwatched)?;
        Ok(row_end(&verdict))
    }

    /// The verdict where as many cuts in recovery as are asked for take too many runs, at this moment first: where that is any number of them, up to the
    /// most that are looked at may settle all.
    fn too_many<T: Threads + Sync>(
        &self,
        rt: &T,
        alloc: Global,
        asked: RecoveryCuts,
        last: RowEnd,
    ) -> Result<CutsVerdict, AllocError>
        requires { IsRowEnd self.now.goes_on self.now.run.now (most_of asked) self.now.first self.now.end last }
        ensures { IfOk result (IsCutsVerdict self.now.goes_on self.now.run.now asked self.now.first self.now.end) }
    {
        let RecoveryCuts::Any = asked else {
            return self.fewest(rt, alloc, asked, last);
        };
        let found = self.settle(rt, alloc, Some(MAX_CUTS))?;
        let Some(_earlier) = found else {
            return Ok(CutsVerdict::TooMany {
                moment: last.moment,
                cuts: Some(MAX_CUTS),
            });
        };
        self.fewest(rt, alloc, asked, last)
    }

    /// The verdict by the fewest cuts in recovery, where up to as many as are asked for don't settle the moments: this is the least one that they don't.
    fn fewest<T: Threads + Sync>(
        &self,
        rt: &T,
        alloc: Global,
        asked: RecoveryCuts,
        last: RowEnd,
    ) -> Result<CutsVerdict, AllocError>
        requires { IsRowEnd self.now.goes_on self.now.run.now (most_of asked) self.now.first self.now.end last }
        ensures { IfOk result (IsCutsVerdict self.now.goes_on self.now.run.now asked self.now.first self.now.end) }
    {
        for cuts in 0..times(asked) {
            let found = self.settle(rt, alloc, Some(cuts))?;
            if let Some(end) = found {
                return self.tell(alloc, asked, cuts, end);
            }
        }
        match asked {
            RecoveryCuts::AtMost(most) => self.tell(alloc, asked, most, last),
            RecoveryCuts::Any => Ok(CutsVerdict::TooMany {
                moment: last.moment,
                cuts: Some(MAX_CUTS),
            }),
        }
    }

    /// The verdict where so many cuts in recovery are the fewest that don't settle the moments, and this is the least one that they don't.
    fn tell(
        &self,
        alloc: Global,
        asked: RecoveryCuts,
        cuts: u32,
        end: RowEnd,
    ) -> Result<CutsVerdict, AllocError>
        requires first { IsFirstUnsettled self.now.goes_on self.now.run.now asked self.now.first self.now.end cuts end.moment }
        requires long { IsLongEnd self.now.run.now end }
        ensures { IfOk result (IsCutsVerdict self.now.goes_on self.now.run.now asked self.now.first self.now.end) }
    {
        match end.why {
            Why::Bad => self.tell_chain(alloc, asked, cuts, end.moment),
            Why::TooMany => Ok(CutsVerdict::TooMany {
                moment: end.moment,
                cuts: one_less(cuts),
            }),
            Why::TooLong => Ok(CutsVerdict::TooLong { moment: end.moment }),
        }
    }

    /// The same where cuts leave a bad image: a chain of them, unless the search for it takes too many runs.
    fn tell_chain(
        &self,
        alloc: Global,
        asked: RecoveryCuts,
        cuts: u32,
        moment: u32,
    ) -> Result<CutsVerdict, AllocError>
        requires { IsFirstUnsettled self.now.goes_on self.now.run.now asked self.now.first self.now.end cuts moment }
        ensures { IfOk result (IsCutsVerdict self.now.goes_on self.now.run.now asked self.now.first self.now.end) }
    {
        let mut judge = self.run.judge(alloc)?;
        let found = bad_chain(alloc, self.run, &mut judge, moment, cuts)?;
        match found {
            Some(chain) => Ok(CutsVerdict::Fail {
                chain: chain.links,
                cause: chain.cause,
            }),
            None => Ok(CutsVerdict::TooMany {
                moment,
                cuts: one_less(cuts),
            }),
        }
    }
}

/// How many cuts in recovery are looked at, where a number is given.
fn most(asked: RecoveryCuts) -> Option<u32>
    ensures { result ≡ most_of asked }
{
    match asked {
        RecoveryCuts::AtMost(most) => Some(most),
        RecoveryCuts::Any => None,
    }
}

/// How many numbers of cuts are tried before as many as are asked for.
fn times(asked: RecoveryCuts) -> u32
    ensures { result ≡ times_of asked }
{
    match asked {
        RecoveryCuts::AtMost(most) => most,
        RecoveryCuts::Any => MAX_CUTS + 1,
    }
}

/// One less than a number, where there is one.
fn one_less(number: u32) -> Option<u32>
    ensures { result ≡ less_one number }
{
    if number == 0 {
        return None;
    }
    Some(number - 1)
}

fn bad_at(moment: u32) -> RowEnd
    ensures { result ≡ record { moment = moment; why = Bad } }
{
    RowEnd {
        moment,
        why: Why::Bad,
    }
}

fn too_many_at(moment: u32) -> RowEnd
    ensures { result ≡ record { moment = moment; why = TooMany } }
{
    RowEnd {
        moment,
        why: Why::TooMany,
    }
}

/// The least moment that isn't settled by a verdict on a row.
fn row_end(verdict: &Verdict<CutCause>) -> Option<RowEnd>
    ensures { result ≡ end_in verdict.now }
{
    match verdict {
        Verdict::Pass { .. } | Verdict::Open { .. } => None,
        Verdict::Fail { moment, .. } => Some(bad_at(*moment)),
        Verdict::TooMany { moment, .. } => Some(too_many_at(*moment)),
        Verdict::TooLong { moment } => Some(RowEnd {
            moment: *moment,
            why: Why::TooLong,
        }),
    }
}
