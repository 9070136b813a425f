//! The images of a moment as replies judge them, while the branches of their cuts are opened. Each line that a reply names is asked of every
//! image.

ghost use Rattle.crash_image.specs.TraceIndexView.{IndexView};
ghost use Rattle.image_check.specs.Verdicts.{whole_line};
ghost use Rattle.routine_judge.specs.OutsideTables.{AreKnownIn, IsSoughtOn};
ghost use Rattle.std.specs.List.{AllByRecursion};
ghost use Rattle.std.specs.Prelude.{◌≡◌, ◌<◌, ◌++◌, ℕ, List, Contains, OnOk, length, map};
ghost use Rattle.verdict.specs.CutImages.{AreNumbers};
ghost use Rattle.verdict.specs.Numbers.{number_over};
ghost use Rattle.verdict.specs.CutImages.{image_at};
ghost use Rattle.store_trace.specs.Floor.{floor};
ghost use Rattle.store_trace.specs.Stores.{stores};
ghost use Rattle.store_trace.specs.History.{at_moment};

use crate::bytes::have_same;
use crate::outside::cause::Sought;
use crate::outside::replies::Replies;
use crate::outside::right_replies::RightReplies;
use std::alloc::{AllocError, Global};
use verdict::{CutImage, Images, MomentCuts, Question, Recovery};

/// The images of a moment, and by what they are judged: an image is good where a reply is one on it whose answer is right.
#[derive(Drop)]
pub(crate) struct KnownImages<'a, 'b, 'c> {
    pub(crate) cuts: &'a MomentCuts<'b, 'c>,
    pub(crate) replies: &'a Replies,
    pub(crate) right: &'a RightReplies,
    ghost known: { AreKnownIn cuts.now.index.now.start cuts.now.index.now.events replies.now },
}

impl Recovery for KnownImages<'_, '_, '_> {
    ghost use Rattle.recovery.specs.Images.{has_same_bytes};
    ghost use Rattle.routine_judge.specs.Branchwise.{bytes_alike, bytes_both, bytes_nothing};
    ghost use Rattle.routine_judge.specs.Outside.{asks_all};
    ghost use Rattle.routine_judge.specs.OutsideBranches.{all_adaptive, all_shared, known_branchwise};
    ghost use Rattle.routine_judge.specs.OutsideTables.{IsSoughtOn};
    ghost use Rattle.std.specs.Prelude.{◌≡◌, length, true};
    ghost use Rattle.store_trace.proofs.Bounds.{floor_le_stores};
    ghost use Rattle.store_trace.specs.Floor.{floor};
    ghost use Rattle.store_trace.specs.History.{at_moment};
    ghost use Rattle.store_trace.specs.Stores.{stores};
    ghost use Rattle.verdict.specs.CutImages.{image_at};

    type Cause = Sought;

    type Workspace = ();

    ghost lines = { λ s. length s.cuts.now.index.now.start };

    ghost low = { λ s l. floor l (at_moment s.cuts.now.index.now.events s.cuts.now.moment) };

    ghost high = { λ s l. stores l (at_moment s.cuts.now.index.now.events s.cuts.now.moment) };

    ghost alike = { λ s. has_same_bytes (image_at s.cuts.now.index.now.start s.cuts.now.index.now.events s.cuts.now.moment) };

    ghost further = { λ s. true };

    ghost asks = { λ s. asks_all s.replies.now.lines.items };

    ghost judged = { λ s k found. IsSoughtOn s.cuts.now.index.now.start s.cuts.now.index.now.events s.replies.now.known.items
        s.right.now.answers.answers.items (image_at s.cuts.now.index.now.start s.cuts.now.index.now.events s.cuts.now.moment k) found };

    ghost fits = { λ s workspace. Unit {0} };

    fn lines(&self) -> u32 {
        self.cuts.lines()
    }

    fn floor(&self, line: u32) -> u32 {
        self.cuts.lowest(line)
    }

    fn stores(&self, line: u32) -> u32 {
        self.cuts.highest(line)
    }

    fn is_alike(&self, asked: Question, one: u32, other: u32) -> bool {
        have_same(
            asked.bytes,
            self.cuts.line(asked.line, one),
            self.cuts.line(asked.line, other),
        )
    }

    fn is_first(&self, asked: Question, number: u32) -> bool {
        let floor = self.floor(asked.line);
        for lower in floor..number {
            if self.is_alike(asked, lower, number) {
                return false;
            }
        }
        true
    }

    fn tries_further(&self) -> bool {
        true
    }

    fn workspace(&self, _alloc: Global) -> Result<(), AllocError> {
        Ok(())
    }

    fn recover(
        &self,
        _alloc: Global,
        _workspace: &mut (),
        numbers: &[u32],
        asked: &mut Vec<Question>,
    ) -> Result<Option<Sought>, AllocError> {
        ask_whole(&self.replies.lines, asked)?;
        let image = CutImage::new(self.cuts, numbers);
        match self.replies.find(self.cuts.index, &image) {
            Some(number) => Ok(self.right.judge(self.replies, number)),
            None => Ok(Some(Sought::Unknown)),
        }
    }

    ghost ordered = { λ s l. floor_le_stores l (at_moment s.cuts.now.index.now.events s.cuts.now.moment) };

    ghost equivalent = { λ s. bytes_alike (image_at s.cuts.now.index.now.start s.cuts.now.index.now.events s.cuts.now.moment) };

    ghost nothing = { λ s l n m. bytes_nothing (image_at s.cuts.now.index.now.start s.cuts.now.index.now.events s.cuts.now.moment) l n m };

    ghost both = { λ s l a b n m. bytes_both (image_at s.cuts.now.index.now.start s.cuts.now.index.now.events s.cuts.now.moment) l a b n m };

    ghost adaptive = { λ s. all_adaptive s.replies.now.lines.items
        (has_same_bytes (image_at s.cuts.now.index.now.start s.cuts.now.index.now.events s.cuts.now.moment)) };

    ghost shared = { λ s. all_shared s.replies.now.lines.items
        (has_same_bytes (image_at s.cuts.now.index.now.start s.cuts.now.index.now.events s.cuts.now.moment)) };

    ghost branchwise = { λ s c k questions found a h f. known_branchwise s.cuts.now.index.now.start s.cuts.now.index.now.events s.cuts.now.moment
        s.replies.now s.right.now.answers.answers.items s.known s.cuts.now.whole c k questions found a h f };
}

/// Asks these lines, each as a whole.
fn ask_whole(lines: &[u32], asked: &mut Vec<Question>) -> Result<(), AllocError>
    ensures { OnOk result (asked.new.items ≡ asked.old.items ++ map whole_line lines.now) }
{
    for line in lines {
        asked.push(Question {
            line: *line,
            bytes: u64::MAX,
        })?;
    }
    Ok(())
}
