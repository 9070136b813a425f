//! A moment as the replies so far judge it.

ghost use Rattle.crash_image.specs.View.{HasLines};
ghost use Rattle.routine_judge.specs.Images.{full_cut};
ghost use Rattle.routine_judge.specs.Outside.{HasNoneOn};
ghost use Rattle.routine_judge.specs.OutsideJudging.{AreAllStores, AreNumbersOf, IsJudgedSoFar, IsRightOfTwo, IsRightSoFar, IsSaid, IsWordOf, SaysCause};
ghost use Rattle.routine_judge.specs.OutsideTables.{AreKeptIn, AreKnownIn, IsReplyAt};
ghost use Rattle.routine_judge.specs.OutsideViews.{KnownView as AKnown};
ghost use Rattle.std.specs.Prelude.{◌≡◌, ◌≤◌, IfNone, IfOk, IfSome, length};
ghost use Rattle.verdict.specs.CutImages.{image_at};

use crate::full_image::FullImage;
use crate::history::{Window, operations_apart_have_few, windows_lie_in_the_run};
use crate::outside::cause::{OutsideCause, Sought};
use crate::outside::judging::OutsideRun;
use crate::outside::known_images::KnownImages;
use crate::outside::replies::Replies;
use crate::outside::right_replies::RightReplies;
use crash_image::{Cuts, ImageName, numbers_of_lines};
use std::alloc::{AllocError, Global};
use std::thread::Threads;
use verdict::{MomentCuts, MomentVerdict, Opener, open_moment};

/// What the replies so far say of a moment.
#[derive(Drop)]
pub(crate) enum Judged {
    /// Its verdict.
    Is(MomentVerdict<OutsideCause>),
    /// That this image has to be asked for: one of a moment, in which each line has so many of its stores.
    Asks { moment: u32, numbers: Vec<u32> },
}

/// The right answers of a moment, as far as the replies so far give them.
#[derive(Drop)]
pub(crate) enum RightSoFar {
    Are(RightReplies),
    /// No reply is one on the full image of this moment.
    Lacks(u32),
}

impl OutsideRun<'_> {
    /// What the replies so far say of a moment.
    pub(crate) fn judge_moment<T: Threads + Sync>(
        &self,
        rt: &T,
        alloc: Global,
        replies: &Replies,
        opener: &mut Opener,
        moment: u32,
    ) -> Result<Judged, AllocError>
        requires known { AreKeptIn self.now.start self.now.events replies.now }
        requires there { moment ≤ length self.now.events }
        requires size { length opener.old ≡ length self.now.start }
        ensures ok { IfOk result (IsJudgedSoFar self.now.start self.now.events replies.now.known.items moment) }
        ensures size { length opener.new ≡ length self.now.start }
    {
        let right = match self.right_at(alloc, replies, moment)? {
            RightSoFar::Are(right) => right,
            RightSoFar::Lacks(at) => {
                let numbers = self.full_numbers(alloc, at)?;
                return Ok(Judged::Asks {
                    moment: at,
                    numbers,
                });
            }
        };
        let cuts = MomentCuts::new(&self.index, moment);
        let images = KnownImages {
            cuts: &cuts,
            replies,
            right: &right,
        };
        let (medium, trace) = (self.medium, self.trace);
        let verdict = open_moment(rt, alloc, medium, trace, moment, &images, &mut (), opener)?;
        self.said(alloc, replies, right.last, moment, verdict)
    }

    /// What is said by a verdict in which an image without a reply is bad.
    fn said(
        &self,
        alloc: Global,
        replies: &Replies,
        last: usize,
        moment: u32,
        verdict: MomentVerdict<Sought>,
    ) -> Result<Judged, AllocError>
        requires { moment ≤ length self.now.events }
        ensures { IfOk result (IsSaid self.now.start self.now.events replies.now.known.items last moment verdict) }
    {
        match verdict {
            MomentVerdict::Pass => Ok(Judged::Is(MomentVerdict::Pass)),
            MomentVerdict::TooLong => Ok(Judged::Is(MomentVerdict::TooLong)),
            MomentVerdict::TooMany { lines } => Ok(Judged::Is(MomentVerdict::TooMany { lines })),
            MomentVerdict::Fail {
                image,
                cause,
                of_too_many,
            } => match told_cause(alloc, replies, last, cause)? {
                Some(cause) => Ok(Judged::Is(MomentVerdict::Fail {
                    image,
                    cause,
                    of_too_many,
                })),
                None => {
                    let numbers = self.cut_numbers(alloc, moment, &image)?;
                    Ok(Judged::Asks { moment, numbers })
                }
            },
        }
    }

    /// The right answers of a moment.
    fn right_at(
        &self,
        alloc: Global,
        replies: &Replies,
        moment: u32,
    ) -> Result<RightSoFar, AllocError>
        requires known { AreKnownIn self.now.start self.now.events replies.now }
        requires there { moment ≤ length self.now.events }
        ensures { IfOk result (IsRightSoFar self.now.start self.now.events replies.now.known.items moment) }
    {
        operations_apart_have_few();
        windows_lie_in_the_run();
        match self.windows.at(self.trace.events(), moment as usize) {
            Window::Itself => self.right_of(alloc, replies, moment, moment),
            Window::Either { before, after } => {
                self.right_of(alloc, replies, before as u32, after as u32)
            }
            Window::Through { .. } => unreachable!(),
        }
    }

    /// The answers on the full images of two moments, of which the second may be the first.
    fn right_of(
        &self,
        alloc: Global,
        replies: &Replies,
        first: u32,
        last: u32,
    ) -> Result<RightSoFar, AllocError>
        requires known { AreKnownIn self.now.start self.now.events replies.now }
        requires order { first ≤ last }
        requires there { last ≤ length self.now.events }
        ensures { IfOk result (IsRightOfTwo self.now.start self.now.events replies.now.known.items first last) }
    {
        let Some(one) = self.full_reply(replies, first) else {
            return Ok(RightSoFar::Lacks(first));
        };
        let Some(other) = self.full_reply(replies, last) else {
            return Ok(RightSoFar::Lacks(last));
        };
        let right = RightReplies::of_two(alloc, replies, one, other)?;
        Ok(RightSoFar::Are(right))
    }

    /// The number of a reply that is one on the full image of a moment.
    fn full_reply(&self, replies: &Replies, moment: u32) -> Option<usize>
        requires known { AreKnownIn self.now.start self.now.events replies.now }
        requires there { moment ≤ length self.now.events }
        ensures some { IfSome result (λ i. (known : AKnown) × IsReplyAt self.now.start self.now.events replies.now.known.items i
            (image_at self.now.start self.now.events moment (full_cut self.now.events moment)) known) }
        ensures none { IfNone result (HasNoneOn self.now.start self.now.events replies.now.known.items
            (image_at self.now.start self.now.events moment (full_cut self.now.events moment))) }
    {
        let cuts = MomentCuts::new(&self.index, moment);
        let image = FullImage::new(&cuts);
        replies.find(&self.index, &image)
    }

    /// How many stores each line has in the full image of a moment.
    fn full_numbers(&self, alloc: Global, moment: u32) -> Result<Vec<u32>, AllocError>
        requires { moment ≤ length self.now.events }
        ensures numbers { IfOk result (λ numbers. AreAllStores self.now.start self.now.events moment numbers.items) }
        ensures lines { HasLines self.now.start self.now.events }
    {
        let mut numbers = Vec::new(alloc);
        for line in 0..self.index.lines() {
            numbers.push(self.index.stores(line, moment))?;
        }
        Ok(numbers)
    }

    /// How many stores each line has in the image of this name.
    fn cut_numbers(
        &self,
        alloc: Global,
        moment: u32,
        image: &ImageName,
    ) -> Result<Vec<u32>, AllocError>
        requires { moment ≤ length self.now.events }
        ensures { IfOk result (λ numbers. AreNumbersOf self.now.start self.now.events moment image.now numbers.items) }
    {
        let Ok(cuts) = Cuts::at(alloc, self.medium, self.trace, moment) else {
            return Err(AllocError);
        };
        let Ok(cut) = cuts.named(alloc, image) else {
            return Err(AllocError);
        };
        numbers_of_lines(alloc, self.index.lines(), cut.entries())
    }
}

/// Why an image is bad, by the words of replies; reply `last` is the one on the full image that comes last. None where no reply is one on it.
fn told_cause(
    alloc: Global,
    replies: &Replies,
    last: usize,
    cause: Sought,
) -> Result<Option<OutsideCause>, AllocError>
    ensures { IfOk result (SaysCause replies.now.known.items last cause) }
{
    match cause {
        Sought::Unknown => Ok(None),
        Sought::Different => Ok(Some(OutsideCause::Different)),
        Sought::Missing(number) => {
            let word = word_of(alloc, replies, number)?;
            Ok(Some(OutsideCause::Missing(word)))
        }
        Sought::Full => {
            let word = word_of(alloc, replies, last)?;
            Ok(Some(OutsideCause::Full(word)))
        }
    }
}

/// The word for why a reply has no answer; empty where it has one.
fn word_of(alloc: Global, replies: &Replies, number: usize) -> Result<Vec<u8>, AllocError>
    ensures { IfOk result (λ word. IsWordOf replies.now.known.items number word.items) }
{
    if number >= replies.known.len() {
        return Ok(Vec::new(alloc));
    }
    match replies.known[number].reply().found() {
        Ok(_) => Ok(Vec::new(alloc)),
        Err(word) => Vec::from_slice(alloc, word),
    }
}
