//! The moments of events that an outside recovery judges.

ghost use Rattle.crash_image.specs.View.{HasLines};
ghost use Rattle.routine_judge.specs.MarkFaults.{AreSound};
ghost use Rattle.routine_judge.specs.Outside.{IsAskedFor, IsOutsideVerdict};
ghost use Rattle.routine_judge.specs.OutsideLoops.{IsAnswered, IsMissing, IsSettled, IsStopped, IsUnanswered, IsVerdictAt};
ghost use Rattle.routine_judge.specs.OutsideTables.{AreKeptIn};
ghost use Rattle.routine_judge.specs.Verdicts.{IsRefusal, judged_from};
ghost use Rattle.routine_judge.specs.declared.history.overlap.Overlap.TheVariants.{Never};
ghost use Rattle.std.specs.Prelude.{◌≡◌, ◌≢◌, ◌+◌, ◌≤◌, [], length, IfErr, IfOk, IfSome, OnOk};
ghost use Rattle.store_trace.specs.Marks.{begun};

use crate::JudgeFault;
use crate::history::{MarkFault, Overlap, Windows, check_marks};
use crate::outside::answering::{Answering, Wanted};
use crate::outside::cause::OutsideCause;
use crate::outside::fault::OutsideFault;
use crate::outside::moment::Judged;
use crate::outside::replies::Replies;
use crate::run::first_judged;
use crash_image::{TraceIndex, images_between};
use line_memory::Medium;
use std::alloc::{AllocError, Global};
use std::marker::Model;
use std::thread::Threads;
use store_trace::Trace;
use verdict::{MomentVerdict, Opener, Verdict, end_at};

/// Events with right marks, whose operations don't overlap, and which an outside recovery judges.
///
/// A contract sees the lines of the starting medium, and the events.
#[derive(Drop)]
pub struct OutsideRun<'a> {
    pub(crate) medium: &'a Medium,
    pub(crate) trace: &'a Trace,
    pub(crate) index: TraceIndex<'a>,
    pub(crate) windows: Windows,
    /// The number of lines of the medium.
    lines: u32,
    /// The first moment that is judged.
    begin: u32,
}

impl<'a> Model for OutsideRun<'a> {
    ghost use Rattle.crash_image.specs.TraceIndexView.{IndexView};
    ghost use Rattle.crash_image.specs.View.{HasLines};
    ghost use Rattle.line_memory.specs.Lines.{IsMedium};
    ghost use Rattle.routine_judge.specs.MarkFaults.{AreSound};
    ghost use Rattle.routine_judge.specs.Spans.{AreWindows};
    ghost use Rattle.routine_judge.specs.Verdicts.{first_judged};
    ghost use Rattle.routine_judge.specs.declared.history.overlap.Overlap.TheVariants.{Never};
    ghost use Rattle.std.specs.Prelude.{◌≡◌, ◌≤◌, All, length};
    ghost use Rattle.store_trace.specs.TraceView.{IsEvent};

    ghost Value = { IndexView };

    ghost view = { λ r. record { start = r.medium.now; events = r.trace.now.events } };

    ghost invariant = { λ r. (r.index.start ≡ r.medium.now)
        × (r.index.events ≡ r.trace.now.events)
        × IsMedium r.medium.now
        × All IsEvent r.trace.now.events
        × HasLines r.medium.now r.trace.now.events
        × AreWindows r.trace.now.events r.windows
        × AreSound Never r.trace.now.events (length r.trace.now.events)
        × (length r.trace.now.events ≤ 65536)
        × (r.begin ≡ first_judged r.trace.now.events)
        × (r.lines ≡ length r.medium.now) };
}

impl<'a> OutsideRun<'a> {
    /// The events of this trace, which started from the medium. It has every line that the trace names.
    ///
    /// # Errors
    /// A wrong mark of an operation, or that there is none. Memory where a growth is refused, behind a Begin that is right.
    #[tactic(auto, using(crate::proofs::Begun::sound_begin))]
    pub fn new(
        alloc: Global,
        medium: &'a Medium,
        trace: &'a Trace,
    ) -> Result<OutsideRun<'a>, JudgeFault>
        requires { HasLines medium.now trace.now.events }
        ensures ok { IfOk result (λ run. run ≡ record { start = medium.now; events = trace.now.events }) }
        ensures sound { IfOk result (λ run. AreSound Never trace.now.events (length trace.now.events)) }
        ensures begins { IfOk result (λ run. begun trace.now.events ≢ []) }
        ensures err { IfErr result (IsRefusal Never trace.now.events 0) }
    {
        match check_marks(alloc, trace, Overlap::Never) {
            Ok(()) => {}
            Err(MarkFault::Memory) => return Err(JudgeFault::Memory),
            Err(fault) => return Err(JudgeFault::Marks(fault)),
        }
        let run = OutsideRun::of(alloc, medium, trace)?;
        Ok(run)
    }

    fn of(alloc: Global, medium: &'a Medium, trace: &'a Trace) -> Result<OutsideRun<'a>, AllocError>
        requires lines { HasLines medium.now trace.now.events }
        requires sound { AreSound Never trace.now.events (length trace.now.events) }
        ensures { IfOk result (λ run. run ≡ record { start = medium.now; events = trace.now.events }) }
    {
        let index = TraceIndex::new(alloc, medium, trace)?;
        let windows = Windows::of(alloc, trace)?;
        let lines = index.lines();
        let begin = first_judged(trace.events());
        Ok(OutsideRun {
            medium,
            trace,
            index,
            windows,
            lines,
            begin,
        })
    }

    /// The number of moments: one more than there are events.
    fn moments(&self) -> u32
        ensures count { result ≡ length self.now.events + 1 }
        ensures most { result ≤ 65537 }
    {
        self.trace.events().len() as u32 + 1
    }

    /// Of the moments from `first` on that are below `end` the first that is judged; `end` where none is.
    fn judged_from(&self, first: u32, end: u32) -> u32
        ensures from { result ≡ judged_from self.now.events first end }
        ensures most { result ≤ end }
    {
        first.max(self.begin).min(end)
    }

    /// The verdict on the moments from `first` to `last`, or to the last one of the run where none is given, that are judged: from the first
    /// Begin on. A moment past those of the run counts as its last one. Images are asked for in turn, and none that a reply is one on.
    ///
    /// # Errors
    /// NoSuchMoment where `first` is past the moments of the run; no image is asked for then. Memory where a growth is refused. Where there is
    /// no reply, why; no image is asked for behind it.
    pub fn judge<A: Answering, T: Threads + Sync>(
        &self,
        rt: &T,
        alloc: Global,
        first: u32,
        last: Option<u32>,
        answering: &mut A,
    ) -> Result<Verdict<OutsideCause>, OutsideFault<A::Fault>>
        requires { IfSome last (λ moment. first ≤ moment) }
        ensures ok { IfOk result (IsOutsideVerdict A.gives self.now.start self.now.events first last answering.old answering.new) }
        ensures err { IfErr result (IsMissing A.gives A.fails self.now.start self.now.events first answering.old answering.new) }
    {
        if first as usize > self.trace.events().len() {
            return Err(OutsideFault::Judge(JudgeFault::NoSuchMoment));
        }
        let end = end_at(last, self.moments());
        let from = self.judged_from(first, end);
        let found = self.first_not_passing(rt, alloc, from, end, answering)?;
        match found {
            None => {
                let images = images_between(alloc, self.trace, from, end)?;
                Ok(Verdict::Pass {
                    moments: u64::from(end - from),
                    images,
                })
            }
            Some((moment, verdict)) => Ok(verdict_at(moment, verdict)),
        }
    }

    /// The first of the moments from `first` on that are below `end` which doesn't pass, with its verdict.
    fn first_not_passing<A: Answering, T: Threads + Sync>(
        &self,
        rt: &T,
        alloc: Global,
        first: u32,
        end: u32,
        answering: &mut A,
    ) -> Result<Option<(u32, MomentVerdict<OutsideCause>)>, OutsideFault<A::Fault>>
        requires order { first ≤ end }
        requires there { end ≤ length self.now.events + 1 }
        ensures ok { IfOk result (IsSettled A.gives self.now.start self.now.events first end answering.old answering.new) }
        ensures err { IfErr result (IsStopped A.gives A.fails self.now.start self.now.events answering.old answering.new) }
    {
        let mut opener = Opener::new(alloc, self.lines)?;
        let mut replies = Replies::none(alloc);
        let mut next = first;
        for _ in 0..u64::MAX {
            if next == end {
                return Ok(None);
            }
            let judged = self.judge_moment(rt, alloc, &replies, &mut opener, next)?;
            match judged {
                Judged::Is(verdict) => {
                    if verdict.is_pass() {
                        next += 1;
                    } else {
                        return Ok(Some((next, verdict)));
                    }
                }
                Judged::Asks { moment, numbers } => {
                    self.ask(answering, &mut replies, moment, numbers)?;
                }
            }
        }
        Err(OutsideFault::Judge(JudgeFault::Memory))
    }

    /// Asks for an image of a moment, and keeps the reply.
    fn ask<A: Answering>(
        &self,
        answering: &mut A,
        replies: &mut Replies,
        moment: u32,
        numbers: Vec<u32>,
    ) -> Result<(), OutsideFault<A::Fault>>
        requires known { AreKeptIn self.now.start self.now.events replies.old }
        requires wanted { IsAskedFor self.now.start self.now.events replies.old.known.items moment numbers.items }
        ensures ok { OnOk result (IsAnswered A.gives self.now.start self.now.events moment numbers.items answering.old answering.new
            replies.old.known.items replies.new.known.items) }
        ensures known { OnOk result (AreKeptIn self.now.start self.now.events replies.new) }
        ensures err { IfErr result (IsUnanswered A.gives A.fails self.now.start self.now.events moment numbers.items answering.old answering.new) }
    {
        let wanted = Wanted {
            medium: self.medium,
            index: &self.index,
            moment,
            numbers: &numbers,
        };
        let reply = match answering.answer(&wanted) {
            Ok(reply) => reply,
            Err(fault) => return Err(OutsideFault::Answer(fault)),
        };
        replies.add(numbers, reply)?;
        Ok(())
    }
}

/// The verdict on a row of moments of which this is the least that doesn't pass.
fn verdict_at(moment: u32, verdict: MomentVerdict<OutsideCause>) -> Verdict<OutsideCause>
    requires { verdict ≢ MomentVerdict.Pass }
    ensures { IsVerdictAt moment verdict result }
{
    match verdict {
        MomentVerdict::Pass => unreachable!(),
        MomentVerdict::Fail {
            image,
            cause,
            of_too_many,
        } => Verdict::Fail {
            moment,
            image,
            cause,
            of_too_many,
        },
        MomentVerdict::TooMany { lines } => Verdict::TooMany { moment, lines },
        MomentVerdict::TooLong => Verdict::TooLong { moment },
    }
}
