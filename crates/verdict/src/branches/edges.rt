//! Edge images, which are tried where there are too many branches.

ghost use Rattle.std.specs.Prelude.{◌≡◌, ℕ, ◌<◌, None, true, if◌then◌else◌, length, slice_index, IfNone, IfOk, IfSome, OnOk};
ghost use Rattle.std.specs.List.{AllByRecursion};
ghost use Rattle.verdict.specs.Branches.{IsWithin};
ghost use Rattle.verdict.specs.Edges.{AreAllGood, AreOpen, IsBadCut, all_full, edges};
ghost use Rattle.verdict.specs.Opened.{ComesOf};
ghost use Rattle.verdict.specs.Numbers.{has, is_flagged, number_over};
ghost use Rattle.verdict.specs.Queue.{with_number};

use crate::branches::Recovery;
use crate::branches::findings::Findings;
use crate::branches::opener::Opened;
use crate::branches::run::Run;
use std::alloc::{AllocError, Global};

impl Findings {
    /// The lines that recovery asked and that have stores past their floors, upwards.
    pub fn open_lines<R: Recovery>(
        &self,
        alloc: Global,
        recovery: &R,
    ) -> Result<Vec<u32>, AllocError>
        requires { length self.now.asked ≡ R.lines recovery.now }
        ensures past { IfOk result (λ lines. AreOpen (R.low recovery.now) (R.high recovery.now) (R.lines recovery.now) lines.items) }
        ensures asked { IfOk result (λ lines. AllByRecursion (λ l. is_flagged l self.now.asked ≡ true) lines.items) }
        ensures all { IfOk result (λ lines. (l : ℕ) → is_flagged l self.now.asked ≡ true → R.low recovery.now l < R.high recovery.now l → has l lines.items ≡ true) }
    {
        let mut lines = Vec::new(alloc);
        for line in 0..recovery.lines() {
            if self.asked.contains(line) && recovery.floor(line) < recovery.stores(line) {
                lines.push(line)?;
            }
        }
        Ok(lines)
    }
}

impl Run {
    /// What comes of an opening with over so many branches, of which none that was opened is bad: a bad edge image of these lines, or the lines.
    pub fn try_edges<R: Recovery>(
        &mut self,
        alloc: Global,
        recovery: &R,
        workspace: &mut R::Workspace,
        lines: Vec<u32>,
    ) -> Result<Opened<R::Cause>, AllocError>
        requires size { length self.old.numbers ≡ R.lines recovery.now }
        requires fits { R.fits recovery.now workspace.old }
        requires past { AreOpen (R.low recovery.now) (R.high recovery.now) (R.lines recovery.now) lines.items }
        ensures found { IfOk result (ComesOf (R.judged recovery.now) (R.low recovery.now) (R.high recovery.now) (R.lines recovery.now) lines.items) }
        ensures size { length self.new.numbers ≡ length self.old.numbers }
        ensures fits { R.fits recovery.now workspace.new }
    {
        match self.first_bad_edge(alloc, recovery, workspace, &lines)? {
            Some(cause) => Ok(Opened::OverBad {
                numbers: self.numbers.as_slice().to_vec(alloc)?,
                cause,
            }),
            None => Ok(Opened::Over { lines: Some(lines) }),
        }
    }

    /// Tries the edge images of these lines, up to the first bad one, whose cut then stands in `numbers`: answers why it is bad.
    fn first_bad_edge<R: Recovery>(
        &mut self,
        alloc: Global,
        recovery: &R,
        workspace: &mut R::Workspace,
        lines: &[u32],
    ) -> Result<Option<R::Cause>, AllocError>
        requires size { length self.old.numbers ≡ R.lines recovery.now }
        requires fits { R.fits recovery.now workspace.old }
        requires past { AreOpen (R.low recovery.now) (R.high recovery.now) (R.lines recovery.now) lines.now }
        ensures good { IfOk result (λ found. IfNone found (AreAllGood (R.judged recovery.now) (edges (R.low recovery.now) (R.high recovery.now) lines.now))) }
        ensures bad { IfOk result (λ found. IfSome found (IsBadCut (R.judged recovery.now) (R.low recovery.now) (R.high recovery.now) self.new.numbers)) }
        ensures size { length self.new.numbers ≡ length self.old.numbers }
        ensures fits { R.fits recovery.now workspace.new }
    {
        self.numbers.clear();
        let judged = self.judge(alloc, recovery, workspace)?;
        if judged.is_some() {
            return Ok(judged);
        }
        let judged = self.first_bad_alone(alloc, recovery, workspace, lines)?;
        if judged.is_some() {
            return Ok(judged);
        }
        self.fill(recovery, lines)?;
        self.first_bad_without(alloc, recovery, workspace, lines)
    }

    /// Tries the images in which one of these lines alone has all its stores, up to the first bad one.
    fn first_bad_alone<R: Recovery>(
        &mut self,
        alloc: Global,
        recovery: &R,
        workspace: &mut R::Workspace,
        lines: &[u32],
    ) -> Result<Option<R::Cause>, AllocError>
        requires size { length self.old.numbers ≡ R.lines recovery.now }
        requires fits { R.fits recovery.now workspace.old }
        requires past { AreOpen (R.low recovery.now) (R.high recovery.now) (R.lines recovery.now) lines.now }
        requires none { (l : ℕ) → slice_index self.old.numbers l ≡ 0 }
        ensures good { IfOk result (λ found. IfNone found (AllByRecursion (λ l. R.judged recovery.now (with_number (R.low recovery.now) l (R.high recovery.now l)) None) lines.now
            × ((l : ℕ) → slice_index self.new.numbers l ≡ 0))) }
        ensures bad { IfOk result (λ found. IfSome found (IsBadCut (R.judged recovery.now) (R.low recovery.now) (R.high recovery.now) self.new.numbers)) }
        ensures size { length self.new.numbers ≡ length self.old.numbers }
        ensures fits { R.fits recovery.now workspace.new }
    {
        for line in lines {
            self.numbers.put(*line, recovery.stores(*line))?;
            let judged = self.judge(alloc, recovery, workspace)?;
            if judged.is_some() {
                return Ok(judged);
            }
            self.numbers.put(*line, 0)?;
        }
        Ok(None)
    }

    /// Gives each of these lines all its stores, where every line stands at its floor.
    fn fill<R: Recovery>(&mut self, recovery: &R, lines: &[u32]) -> Result<(), AllocError>
        requires size { length self.old.numbers ≡ R.lines recovery.now }
        requires past { AreOpen (R.low recovery.now) (R.high recovery.now) (R.lines recovery.now) lines.now }
        requires none { (l : ℕ) → slice_index self.old.numbers l ≡ 0 }
        ensures full { OnOk result ((l : ℕ) → slice_index self.new.numbers l ≡ (if has l lines.now then R.high recovery.now l else 0)) }
        ensures size { length self.new.numbers ≡ length self.old.numbers }
    {
        for line in lines {
            self.numbers.put(*line, recovery.stores(*line))?;
        }
        Ok(())
    }

    /// Tries the images in which all of these lines but one have all their stores, up to the first bad one.
    fn first_bad_without<R: Recovery>(
        &mut self,
        alloc: Global,
        recovery: &R,
        workspace: &mut R::Workspace,
        lines: &[u32],
    ) -> Result<Option<R::Cause>, AllocError>
        requires size { length self.old.numbers ≡ R.lines recovery.now }
        requires fits { R.fits recovery.now workspace.old }
        requires past { AreOpen (R.low recovery.now) (R.high recovery.now) (R.lines recovery.now) lines.now }
        requires full { (l : ℕ) → slice_index self.old.numbers l ≡ (if has l lines.now then R.high recovery.now l else 0) }
        ensures good { IfOk result (λ found. IfNone found (AllByRecursion (λ l. R.judged recovery.now
            (with_number (all_full (R.low recovery.now) (R.high recovery.now) lines.now) l (R.low recovery.now l)) None) lines.now)) }
        ensures bad { IfOk result (λ found. IfSome found (IsBadCut (R.judged recovery.now) (R.low recovery.now) (R.high recovery.now) self.new.numbers)) }
        ensures size { length self.new.numbers ≡ length self.old.numbers }
        ensures fits { R.fits recovery.now workspace.new }
    {
        for line in lines {
            self.numbers.put(*line, 0)?;
            let judged = self.judge(alloc, recovery, workspace)?;
            if judged.is_some() {
                return Ok(judged);
            }
            self.numbers.put(*line, recovery.stores(*line))?;
        }
        Ok(None)
    }

    /// Runs recovery on the image of the cut that stands in `numbers`, and answers why it is bad.
    fn judge<R: Recovery>(
        &mut self,
        alloc: Global,
        recovery: &R,
        workspace: &mut R::Workspace,
    ) -> Result<Option<R::Cause>, AllocError>
        requires size { length self.old.numbers ≡ R.lines recovery.now }
        requires within { IsWithin (R.low recovery.now) (R.high recovery.now) (number_over (R.low recovery.now) self.old.numbers) }
        requires fits { R.fits recovery.now workspace.old }
        ensures judged { IfOk result (λ found. R.judged recovery.now (number_over (R.low recovery.now) self.old.numbers) found) }
        ensures numbers { self.new.numbers ≡ self.old.numbers }
        ensures fits { R.fits recovery.now workspace.new }
    {
        self.asked.clear();
        recovery.recover(alloc, workspace, self.numbers.as_slice(), &mut self.asked)
    }
}
