//! How far the opening of a moment's branches has come.

ghost use Rattle.std.specs.Prelude.{◌≡◌, ◌↔◌, ℕ, ◌+◌, ◌<◌, ◌≤◌, ◌∷◌, ◌++◌, [], List, Option, Some, None, true, false, length, replicate, All, IfOk, IsSome, IsTrue, OnOk};
ghost use Rattle.std.specs.List.{AllByRecursion};
ghost use Rattle.verdict.specs.Branches.{IsAsked, IsWithin};
ghost use Rattle.verdict.specs.Numbers.{is_flagged, number_over, AreAbove};
ghost use Rattle.verdict.specs.Opened.{AreSized, IfFew, IsOpened, IsTried};
ghost use Rattle.verdict.specs.Lanes.{AreLanes};
ghost use Rattle.verdict.specs.Pieces.{IsPiece};
ghost use Rattle.verdict.specs.Queue.{entry};
ghost use Rattle.verdict.specs.declared.branches.queue.Entry.{Entry as AnEntry};
ghost use Rattle.verdict.specs.Openings.{IsAt};
ghost use Rattle.verdict.specs.declared.branches.question.Question.{Question};

use crate::branches::Recovery;
use crate::branches::findings::Findings;
use crate::branches::lanes::Lane;
use crate::branches::opener::Opened;
use crate::branches::pieces::Piece;
use crate::branches::queue::Entry;
use crate::branches::rounds::open_round;
use crate::branches::run::Run;
use std::alloc::{AllocError, Global};
use std::thread::Threads;

/// The branches found so far, of which the first `opened` are opened.
#[derive(Drop)]
pub struct Progress {
    pub findings: Findings,
    pub opened: usize,
}

impl Progress {
    /// For a medium of so many lines.
    pub fn new(alloc: Global, lines: u32) -> Result<Progress, AllocError>
        ensures asked { IfOk result (λ progress. progress.findings.asked ≡ replicate lines false) }
        ensures least { IfOk result (λ progress. length progress.findings.least ≡ lines) }
    {
        Ok(Progress {
            findings: Findings::new(alloc, lines)?,
            opened: 0,
        })
    }

    /// Begins an opening: one branch is found, that of the cut with all lines at their floors.
    fn begin(&mut self) -> Result<(), AllocError>
        ensures queue { OnOk result (self.new.findings.found.items ≡ entry 0 0 0 0 ∷ []) }
        ensures opened { OnOk result (self.new.opened ≡ 0) }
        ensures least { self.new.findings.least ≡ self.old.findings.least }
        ensures asked { length self.new.findings.asked ≡ length self.old.findings.asked }
        ensures none { (l : ℕ) → is_flagged l self.new.findings.asked ≡ false }
    {
        self.findings.asked.clear();
        self.findings.found.clear();
        self.findings.found.push(Entry::FIRST)?;
        self.opened = 0;
        Ok(())
    }

    /// Whether a branch is still to be opened: none is where there are over so many.
    fn is_open(&self, limit: u32) -> bool
        ensures open { IsTrue result → (self.now.opened < length self.now.findings.found.items) × (length self.now.findings.found.items ≤ limit) }
        ensures whole { result ≡ false → length self.now.findings.found.items ≤ limit → length self.now.findings.found.items ≤ self.now.opened }
    {
        self.opened < self.findings.found.len() && !self.is_over(limit)
    }

    /// Whether there are over so many branches.
    fn is_over(&self, limit: u32) -> bool
        ensures { IsTrue result ↔ (limit < length self.now.findings.found.items) }
    {
        self.findings.found.len() > limit as usize
    }

    /// Opens the branches, up to `limit` and one more, many at once in threads of their own where these can be started. Answers the cause of
    /// the least bad cut.
    pub fn open_all<R: Recovery + Sync, T: Threads + Sync>(
        &mut self,
        rt: &T,
        alloc: Global,
        recovery: &R,
        workspace: &mut R::Workspace,
        run: &mut Run,
        limit: u32,
    ) -> Result<Option<R::Cause>, AllocError>
        requires size { length self.old.findings.asked ≡ R.lines recovery.now }
        requires least_size { length self.old.findings.least ≡ R.lines recovery.now }
        requires run_size { length run.old.numbers ≡ R.lines recovery.now }
        requires some { 1 ≤ limit }
        requires fits { R.fits recovery.now workspace.old }
        ensures at { IfOk result (λ least. IsAt (R.alike recovery.now) (R.asks recovery.now) (R.judged recovery.now) (R.low recovery.now) (R.high recovery.now) (R.lines recovery.now)
            self.new.opened self.new.findings.found.items self.new.findings.least least self.new.findings.asked) }
        ensures whole { OnOk result (length self.new.findings.found.items ≤ limit → length self.new.findings.found.items ≤ self.new.opened) }
        ensures begun { OnOk result (0 < self.new.opened) }
        ensures size { length self.new.findings.asked ≡ length self.old.findings.asked }
        ensures least_size { length self.new.findings.least ≡ length self.old.findings.least }
        ensures run_size { length run.new.numbers ≡ length run.old.numbers }
        ensures fits { R.fits recovery.now workspace.new }
    {
        self.begin()?;
        let mut lanes = Vec::new(alloc);
        let mut least = None;
        while self.is_open(limit) {
            least = self.open_next(alloc, recovery, workspace, run, least)?;
            least = self.open_many(rt, alloc, recovery, &mut lanes, limit, least)?;
        }
        Ok(least)
    }

    /// Opens the next branch.
    fn open_next<R: Recovery>(
        &mut self,
        alloc: Global,
        recovery: &R,
        workspace: &mut R::Workspace,
        run: &mut Run,
        least: Option<R::Cause>,
    ) -> Result<Option<R::Cause>, AllocError>
        requires there { self.old.opened < length self.old.findings.found.items }
        requires size { length self.old.findings.asked ≡ R.lines recovery.now }
        requires least_size { length self.old.findings.least ≡ R.lines recovery.now }
        requires run_size { length run.old.numbers ≡ R.lines recovery.now }
        requires fits { R.fits recovery.now workspace.old }
        requires at { IsAt (R.alike recovery.now) (R.asks recovery.now) (R.judged recovery.now) (R.low recovery.now) (R.high recovery.now) (R.lines recovery.now)
            self.old.opened self.old.findings.found.items self.old.findings.least least self.old.findings.asked }
        ensures at { IfOk result (λ kept. IsAt (R.alike recovery.now) (R.asks recovery.now) (R.judged recovery.now) (R.low recovery.now) (R.high recovery.now) (R.lines recovery.now)
            self.new.opened self.new.findings.found.items self.new.findings.least kept self.new.findings.asked) }
        ensures one { OnOk result (self.new.opened ≡ self.old.opened + 1) }
        ensures size { length self.new.findings.asked ≡ length self.old.findings.asked }
        ensures least_size { length self.new.findings.least ≡ length self.old.findings.least }
        ensures run_size { length run.new.numbers ≡ length run.old.numbers }
        ensures fits { R.fits recovery.now workspace.new }
    {
        let judged = run.open(
            alloc,
            recovery,
            workspace,
            &self.findings.found,
            self.opened,
        )?;
        self.findings.asked.insert_asked(&run.asked)?;
        let kept = self
            .findings
            .add(&mut run.numbers, judged, &run.found, least)?;
        self.opened += 1;
        Ok(kept)
    }

    /// Opens many of the branches that are still to be opened, in threads of their own where these can be started; none where
    /// there are few. The lanes go from one round of an opening to the next.
    fn open_many<R: Recovery + Sync, T: Threads + Sync>(
        &mut self,
        rt: &T,
        alloc: Global,
        recovery: &R,
        lanes: &mut Vec<Lane<R::Workspace, R::Cause>>,
        limit: u32,
        least: Option<R::Cause>,
    ) -> Result<Option<R::Cause>, AllocError>
        requires workspace { (other : R.Workspace) × R.fits recovery.now other }
        requires lanes { AreLanes (R.fits recovery.now) (R.lines recovery.now) lanes.old.items }
        requires size { length self.old.findings.asked ≡ R.lines recovery.now }
        requires least_size { length self.old.findings.least ≡ R.lines recovery.now }
        requires at { IsAt (R.alike recovery.now) (R.asks recovery.now) (R.judged recovery.now) (R.low recovery.now) (R.high recovery.now) (R.lines recovery.now)
            self.old.opened self.old.findings.found.items self.old.findings.least least self.old.findings.asked }
        ensures at { IfOk result (λ kept. IsAt (R.alike recovery.now) (R.asks recovery.now) (R.judged recovery.now) (R.low recovery.now) (R.high recovery.now) (R.lines recovery.now)
            self.new.opened self.new.findings.found.items self.new.findings.least kept self.new.findings.asked) }
        ensures on { OnOk result (self.old.opened ≤ self.new.opened) }
        ensures size { length self.new.findings.asked ≡ length self.old.findings.asked }
        ensures least_size { length self.new.findings.least ≡ length self.old.findings.least }
        ensures lanes { OnOk result (AreLanes (R.fits recovery.now) (R.lines recovery.now) lanes.new.items) }
    {
        if self.is_over(limit) {
            return Ok(least);
        }
        let mut pieces = open_round(
            rt,
            alloc,
            recovery,
            &self.findings.found,
            self.opened,
            lanes,
        )?;
        self.take_round(recovery, &mut pieces, limit, least)
    }

    /// Takes in what recovery came to in a round, piece by piece.
    fn take_round<R: Recovery>(
        &mut self,
        recovery: &R,
        pieces: &mut [Piece<R::Cause>],
        limit: u32,
        least: Option<R::Cause>,
    ) -> Result<Option<R::Cause>, AllocError>
        requires size { length self.old.findings.asked ≡ R.lines recovery.now }
        requires least_size { length self.old.findings.least ≡ R.lines recovery.now }
        requires pieces { All (IsPiece (R.asks recovery.now) (R.judged recovery.now) (R.alike recovery.now) (R.low recovery.now) (R.high recovery.now) (R.lines recovery.now) self.old.findings.found.items) pieces.old }
        requires at { IsAt (R.alike recovery.now) (R.asks recovery.now) (R.judged recovery.now) (R.low recovery.now) (R.high recovery.now) (R.lines recovery.now)
            self.old.opened self.old.findings.found.items self.old.findings.least least self.old.findings.asked }
        ensures at { IfOk result (λ kept. IsAt (R.alike recovery.now) (R.asks recovery.now) (R.judged recovery.now) (R.low recovery.now) (R.high recovery.now) (R.lines recovery.now)
            self.new.opened self.new.findings.found.items self.new.findings.least kept self.new.findings.asked) }
        ensures on { OnOk result (self.old.opened ≤ self.new.opened) }
        ensures size { length self.new.findings.asked ≡ length self.old.findings.asked }
        ensures least_size { length self.new.findings.least ≡ length self.old.findings.least }
    {
        let mut kept = least;
        for piece in pieces {
            kept = self.take_piece(recovery, piece, limit, kept)?;
        }
        Ok(kept)
    }

    /// Takes in what recovery came to in a piece that begins with the next branch, where there aren't over `limit` yet. Nothing is
    /// taken of another one: the piece before it ended early.
    fn take_piece<R: Recovery>(
        &mut self,
        recovery: &R,
        piece: &mut Piece<R::Cause>,
        limit: u32,
        least: Option<R::Cause>,
    ) -> Result<Option<R::Cause>, AllocError>
        requires size { length self.old.findings.asked ≡ R.lines recovery.now }
        requires least_size { length self.old.findings.least ≡ R.lines recovery.now }
        requires piece { IsPiece (R.asks recovery.now) (R.judged recovery.now) (R.alike recovery.now) (R.low recovery.now) (R.high recovery.now) (R.lines recovery.now) self.old.findings.found.items piece.old }
        requires at { IsAt (R.alike recovery.now) (R.asks recovery.now) (R.judged recovery.now) (R.low recovery.now) (R.high recovery.now) (R.lines recovery.now)
            self.old.opened self.old.findings.found.items self.old.findings.least least self.old.findings.asked }
        ensures at { IfOk result (λ kept. IsAt (R.alike recovery.now) (R.asks recovery.now) (R.judged recovery.now) (R.low recovery.now) (R.high recovery.now) (R.lines recovery.now)
            self.new.opened self.new.findings.found.items self.new.findings.least kept self.new.findings.asked) }
        ensures on { OnOk result (self.old.opened ≤ self.new.opened) }
        ensures longer { OnOk result ((more : List AnEntry) × (self.new.findings.found.items ≡ self.old.findings.found.items ++ more)) }
        ensures size { length self.new.findings.asked ≡ length self.old.findings.asked }
        ensures least_size { length self.new.findings.least ≡ length self.old.findings.least }
    {
        if piece.first != self.opened || self.is_over(limit) {
            return Ok(least);
        }
        let findings = &mut piece.findings;
        self.findings.asked.insert_all(findings.asked.lines())?;
        let kept = self
            .findings
            .add(&mut findings.least, piece.cause, &findings.found, least)?;
        self.opened += piece.count;
        Ok(kept)
    }

    /// What the branches came to, where all are opened or there are over `limit`. Where there are, and none that was opened is bad, edge images
    /// are tried.
    pub fn finish<R: Recovery>(
        &self,
        alloc: Global,
        recovery: &R,
        workspace: &mut R::Workspace,
        run: &mut Run,
        limit: u32,
        least: Option<R::Cause>,
    ) -> Result<Opened<R::Cause>, AllocError>
        requires whole { length self.now.findings.found.items ≤ limit → length self.now.findings.found.items ≤ self.now.opened }
        requires begun { 0 < self.now.opened }
        requires sizes { AreSized (R.lines recovery.now) self.now run.old }
        requires fits { R.fits recovery.now workspace.old }
        requires at { IsAt (R.alike recovery.now) (R.asks recovery.now) (R.judged recovery.now) (R.low recovery.now) (R.high recovery.now) (R.lines recovery.now)
            self.now.opened self.now.findings.found.items self.now.findings.least least self.now.findings.asked }
        ensures opened { IfOk result (IsOpened (R.further recovery.now) (R.alike recovery.now) (R.asks recovery.now) (R.judged recovery.now) (R.low recovery.now) (R.high recovery.now) (R.lines recovery.now) limit) }
        ensures asked { IfOk result (λ opened. IfFew opened ((k : ℕ → ℕ) → IsWithin (R.low recovery.now) (R.high recovery.now) k →
            (qs : List Question) → R.asks recovery.now k qs → AllByRecursion (λ q. is_flagged q.line self.now.findings.asked ≡ true) qs)) }
        ensures only { (l : ℕ) → is_flagged l self.now.findings.asked ≡ true → IsAsked (R.asks recovery.now) (R.low recovery.now) (R.high recovery.now) l }
        ensures run_size { length run.new.numbers ≡ length run.old.numbers }
        ensures fits { R.fits recovery.now workspace.new }
    {
        if self.is_over(limit) {
            return self.finish_over(alloc, recovery, workspace, run, least);
        }
        match least {
            Some(cause) => Ok(Opened::Bad {
                numbers: self.findings.least.as_slice().to_vec(alloc)?,
                cause,
            }),
            None => Ok(Opened::Pass),
        }
    }

    /// The same where there are over so many branches.
    fn finish_over<R: Recovery>(
        &self,
        alloc: Global,
        recovery: &R,
        workspace: &mut R::Workspace,
        run: &mut Run,
        least: Option<R::Cause>,
    ) -> Result<Opened<R::Cause>, AllocError>
        requires begun { 0 < self.now.opened }
        requires sizes { AreSized (R.lines recovery.now) self.now run.old }
        requires fits { R.fits recovery.now workspace.old }
        requires at { IsAt (R.alike recovery.now) (R.asks recovery.now) (R.judged recovery.now) (R.low recovery.now) (R.high recovery.now) (R.lines recovery.now)
            self.now.opened self.now.findings.found.items self.now.findings.least least self.now.findings.asked }
        ensures tried { IfOk result (IsTried (R.further recovery.now) (R.asks recovery.now) (R.judged recovery.now) (R.low recovery.now) (R.high recovery.now) (R.lines recovery.now) least) }
        ensures run_size { length run.new.numbers ≡ length run.old.numbers }
        ensures fits { R.fits recovery.now workspace.new }
    {
        if !recovery.tries_further() {
            return Ok(Opened::Over { lines: None });
        }
        match least {
            Some(cause) => Ok(Opened::OverBad {
                numbers: self.findings.least.as_slice().to_vec(alloc)?,
                cause,
            }),
            None => {
                let lines = self.findings.open_lines(alloc, recovery)?;
                run.try_edges(alloc, recovery, workspace, lines)
            }
        }
    }
}
