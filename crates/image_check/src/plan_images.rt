//! The images of a source as a plan judges them, while the branches of their cuts are opened: one run of recovery judges a branch.

ghost use Rattle.image_check.specs.Branching.{AreKeptWithin, DifferAt};
ghost use Rattle.image_check.specs.Verdicts.{are_asked, whole_line};
ghost use Rattle.nova_log.specs.declared.fault.VolumeFault.TheVariants.{Memory};
ghost use Rattle.nova_log.specs.Kept.{AreKept};
ghost use Rattle.nova_log.specs.Volumes.{volume_of};
ghost use Rattle.std.specs.List.{AllByRecursion};
ghost use Rattle.std.specs.Prelude.{◌≡◌, ◌≢◌, ◌<◌, ◌⊎◌, ◌++◌, ℕ, [], List, Err, Ok, map, IfErr, IsTrue, OnOk};
ghost use Rattle.verdict.specs.CutImages.{AreNumbers};
ghost use Rattle.verdict.specs.Numbers.{number_over};

use crate::Cause;
use crate::image_lines::recover_cut;
use crate::judge::judge_volume;
use crate::legal::Outcomes;
use nova_log::{KeptVolume, VolumeFault};
use plan::Plan;
use std::alloc::{AllocError, Global};
use verdict::{Images, Question, Recovery};

/// What runs of recovery work in: the volume that is kept from one to the next, and the lines that the last one asked.
#[derive(Drop)]
pub struct Workspace {
    kept: KeptVolume,
    lines: Vec<u32>,
}

impl Workspace {
    /// For the images of any source.
    pub fn new(alloc: Global) -> Workspace
        ensures { (medium : List (List ℕ)) → AreKept medium result.kept }
    {
        Workspace {
            kept: KeptVolume::new(alloc),
            lines: Vec::new(alloc),
        }
    }

    /// Makes it one for images that may differ from those so far in this line: no log is kept any more that was read by it.
    pub fn leave(&mut self, line: u32)
        ensures { (medium other : List (List ℕ)) → DifferAt line medium other → AreKept medium self.old.kept → AreKept other self.new.kept }
    {
        for n in 0..self.kept.readings.len() {
            let reading = &mut self.kept.readings[n];
            reading.is_kept = reading.is_kept && is_without(&reading.lines, line);
        }
    }

    /// Makes it one for the images of any source again: no log is kept any more. Its memory stays.
    pub fn forget(&mut self)
        ensures { (medium : List (List ℕ)) → AreKept medium self.new.kept }
    {
        for reading in self.kept.readings.iter_mut() {
            reading.is_kept = false;
            reading.was_read = false;
        }
    }
}

/// Whether this line isn't among them.
fn is_without(lines: &[u32], line: u32) -> bool
    ensures { IsTrue result → AllByRecursion (λ l. l ≢ line) lines.now }
{
    for one in lines {
        if *one == line {
            return false;
        }
    }
    true
}

/// Images, and what the legal volumes are made of where they come from.
#[derive(Drop)]
pub struct PlanImages<'a, I: Images> {
    pub images: &'a I,
    pub plan: &'a Plan,
    pub outcomes: &'a Outcomes,
}

impl<I: Images> Recovery for PlanImages<'_, I> {
    ghost use Rattle.image_check.specs.Alike.{adaptive, branchwise, shared};
    ghost use Rattle.image_check.specs.Branching.{AreKeptWithin};
    ghost use Rattle.image_check.specs.Images.{IsFoundBy};
    ghost use Rattle.image_check.specs.Verdicts.{are_asked};
    ghost use Rattle.std.specs.Prelude.{false};
    ghost use Rattle.verdict.proofs.Numbering.{numbers_both, numbers_equal, numbers_nothing};
    ghost use Rattle.verdict.specs.Branches.{same_number};

    type Cause = Cause;

    type Workspace = Workspace;

    ghost lines = { λ s. I.lines s.images.now };

    ghost low = { λ s. I.low s.images.now };

    ghost high = { λ s. I.high s.images.now };

    ghost alike = { λ s. same_number };

    ghost further = { λ s. false };

    ghost asks = { λ s k questions. are_asked (I.image s.images.now k) questions };

    ghost judged = { λ s k found. IsFoundBy s.plan.now.operations s.outcomes.now (I.image s.images.now k) found };

    ghost fits = { λ s workspace. AreKeptWithin (I.image s.images.now) (I.low s.images.now) (I.high s.images.now) workspace.kept };

    fn lines(&self) -> u32 {
        self.images.lines()
    }

    fn floor(&self, line: u32) -> u32 {
        self.images.lowest(line)
    }

    fn stores(&self, line: u32) -> u32 {
        self.images.highest(line)
    }

    fn is_alike(&self, asked: Question, one: u32, other: u32) -> bool {
        asked.bytes == 0 || one == other
    }

    fn is_first(&self, asked: Question, _number: u32) -> bool {
        asked.bytes != 0
    }

    /// A plan's check names the least bad image, or none.
    fn tries_further(&self) -> bool {
        false
    }

    fn workspace(&self, alloc: Global) -> Result<Workspace, AllocError> {
        Ok(Workspace::new(alloc))
    }

    fn recover(
        &self,
        alloc: Global,
        workspace: &mut Workspace,
        numbers: &[u32],
        asked: &mut Vec<Question>,
    ) -> Result<Option<Cause>, AllocError> {
        match recover_asking(alloc, self.images, numbers, asked, workspace) {
            Ok(()) => judge_volume(alloc, self.plan, self.outcomes, &workspace.kept.volume),
            Err(VolumeFault::Memory) => Err(AllocError),
            Err(fault) => Ok(Some(Cause::Fault(fault))),
        }
    }

    ghost ordered = { λ s l. I.ordered s.images.now l };

    ghost equivalent = { λ s. numbers_equal };

    ghost nothing = { λ s l n m. numbers_nothing l n m };

    ghost both = { λ s l a b n m. numbers_both l a b n m };

    ghost adaptive = { λ s. adaptive (I.lines s.images.now) (I.image s.images.now) (record { count = I.count s.images.now; decides = I.by_line s.images.now }) };

    ghost shared = { λ s. shared (I.lines s.images.now) (I.image s.images.now) (record { count = I.count s.images.now; decides = I.by_line s.images.now }) };

    ghost branchwise = { λ s c k questions found a h f. branchwise s.plan.now.operations s.outcomes.now
        (I.lines s.images.now) (I.image s.images.now) (record { count = I.count s.images.now; decides = I.by_line s.images.now }) c k questions found a h f };
}

/// The volume of the image of a cut, as `recover_cut` finds it; the lines that recovery asks are asked as wholes.
fn recover_asking<I: Images>(
    alloc: Global,
    images: &I,
    numbers: &[u32],
    asked: &mut Vec<Question>,
    workspace: &mut Workspace,
) -> Result<(), VolumeFault>
    requires cut { AreNumbers (I.lines images.now) (I.low images.now) (I.high images.now) numbers.now }
    requires fresh { asked.old.items ≡ [] }
    requires kept { AreKeptWithin (I.image images.now) (I.low images.now) (I.high images.now) workspace.old.kept }
    ensures ok { OnOk result (volume_of (I.image images.now (number_over (I.low images.now) numbers.now)) ≡ Ok workspace.new.kept.volume) }
    ensures err { IfErr result (λ fault. (fault ≡ Memory)
        ⊎ (volume_of (I.image images.now (number_over (I.low images.now) numbers.now)) ≡ Err fault)) }
    ensures ok_asked { OnOk result (are_asked (I.image images.now (number_over (I.low images.now) numbers.now)) asked.new.items) }
    ensures err_asked { IfErr result (λ fault. (fault ≡ Memory)
        ⊎ are_asked (I.image images.now (number_over (I.low images.now) numbers.now)) asked.new.items) }
    ensures below { OnOk result (AllByRecursion (λ q. q.line < I.lines images.now) asked.new.items) }
    ensures err_below { IfErr result (λ fault. (fault ≡ Memory) ⊎ AllByRecursion (λ q. q.line < I.lines images.now) asked.new.items) }
    ensures kept { AreKeptWithin (I.image images.now) (I.low images.now) (I.high images.now) workspace.new.kept }
{
    let Workspace { kept, lines } = workspace;
    lines.clear();
    let recovered = recover_cut(alloc, images, numbers, lines, kept);
    ask_whole(lines, asked)?;
    recovered
}

/// Asks these lines, each as a whole.
fn ask_whole(lines: &[u32], asked: &mut Vec<Question>) -> Result<(), AllocError>
    ensures { OnOk result (asked.new.items ≡ asked.old.items ++ map whole_line lines.now) }
{
    for line in lines {
        asked.push(Question {
            line: *line,
            bytes: u64::MAX,
        })?;
    }
    Ok(())
}
