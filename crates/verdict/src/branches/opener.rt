//! Opening the branches of a moment.

ghost use Rattle.std.specs.Prelude.{◌≡◌, ℕ, ◌≤◌, List, None, true, false, length, replicate, IfOk};
ghost use Rattle.std.specs.List.{AllByRecursion};
ghost use Rattle.verdict.specs.Branches.{IsAsked, IsWithin};
ghost use Rattle.verdict.specs.Numbers.{is_flagged, number_over};
ghost use Rattle.verdict.specs.Opened.{IfFew, IsOpened};
ghost use Rattle.verdict.specs.declared.branches.question.Question.{Question};

use crate::branches::Recovery;
use crate::branches::progress::Progress;
use crate::branches::run::Run;
use std::alloc::{AllocError, Global};
use std::marker::Model;
use std::thread::Threads;

/// What the branches of a moment came to.
#[derive(Drop)]
pub enum Opened<Cause> {
    /// There are over so many. Where further images are tried, none is bad: of the branches that were opened, and of the edge images of these
    /// lines, which recovery asks and which have stores past their floors.
    Over { lines: Option<Vec<u32>> },
    /// There are over so many, further images are tried, and this cut is bad.
    OverBad { numbers: Vec<u32>, cause: Cause },
    /// Each cut passes.
    Pass,
    /// The least bad cut, by line, with 0 for a line at its floor, and its cause.
    Bad { numbers: Vec<u32>, cause: Cause },
}

/// Opens the branches of a moment, one run of recovery each. It is made once, and used for each moment: an opening costs nothing
/// by the number of lines, unless a cut is bad or many branches are opened at once.
#[derive(Drop)]
pub struct Opener {
    run: Run,
    progress: Progress,
}

impl Model for Opener {
    ghost use Rattle.std.specs.Prelude.{◌≡◌, Bool, List, length};

    // whether each line was asked in the last opening
    ghost Value = { List Bool };

    ghost view = { λ o. o.progress.findings.asked };

    ghost invariant = { λ o. (length o.run.numbers ≡ length o.progress.findings.asked) × (length o.progress.findings.least ≡ length o.progress.findings.asked) };
}

impl Opener {
    /// An opener for a medium of so many lines. No line was asked yet.
    pub fn new(alloc: Global, lines: u32) -> Result<Opener, AllocError>
        ensures { IfOk result (λ opener. opener ≡ replicate lines false) }
    {
        Ok(Opener {
            run: Run::new(alloc, lines)?,
            progress: Progress::new(alloc, lines)?,
        })
    }

    /// Whether recovery asked the line of any image in the last opening.
    pub fn was_asked(&self, line: u32) -> bool
        ensures { result ≡ is_flagged line self.now }
    {
        self.progress.findings.asked.contains(line)
    }

    /// Opens the branches, up to `limit` and one more, many at once in threads of their own where these can be started. The opener can be
    /// used again after an error too.
    pub fn open<R: Recovery + Sync, T: Threads + Sync>(
        &mut self,
        rt: &T,
        alloc: Global,
        recovery: &R,
        workspace: &mut R::Workspace,
        limit: u32,
    ) -> Result<Opened<R::Cause>, AllocError>
        requires size { length self.old ≡ R.lines recovery.now }
        requires some { 1 ≤ limit }
        requires fits { R.fits recovery.now workspace.old }
        ensures fits { R.fits recovery.now workspace.new }
        ensures opened { IfOk result (IsOpened (R.further recovery.now) (R.alike recovery.now) (R.asks recovery.now) (R.judged recovery.now) (R.low recovery.now) (R.high recovery.now) (R.lines recovery.now) limit) }
        ensures asked { IfOk result (λ opened. IfFew opened ((k : ℕ → ℕ) → IsWithin (R.low recovery.now) (R.high recovery.now) k →
            (qs : List Question) → R.asks recovery.now k qs → AllByRecursion (λ q. is_flagged q.line self.new ≡ true) qs)) }
        ensures only { IfOk result (λ opened. (l : ℕ) → is_flagged l self.new ≡ true → IsAsked (R.asks recovery.now) (R.low recovery.now) (R.high recovery.now) l) }
        ensures size { length self.new ≡ length self.old }
    {
        let least = self
            .progress
            .open_all(rt, alloc, recovery, workspace, &mut self.run, limit)?;
        self.progress
            .finish(alloc, recovery, workspace, &mut self.run, limit, least)
    }
}
