//! The images of a source as a routine judges them by right answers, while the branches of their cuts are opened: one run of the routine
//! judges a branch.

ghost use Rattle.std.specs.Prelude.{◌≡◌, IfOk};

use crate::Cause;
use crate::bytes::have_same;
use crate::right::RightAnswers;
use program::Program;
use recovery::Routine;
use std::alloc::{AllocError, Global};
use verdict::{CutImage, Images, Question, Recovery};

/// Images, and by what they are judged: an image is good where the routine's answer on it is a right one.
#[derive(Drop)]
pub struct AnswerImages<'a, I: Images> {
    pub images: &'a I,
    /// The recovery routine.
    pub program: &'a Program,
    /// How many steps it makes at most on an image.
    pub steps: u32,
    pub right: &'a RightAnswers,
}

impl<I: Images> Recovery for AnswerImages<'_, I> {
    ghost use Rattle.recovery.proofs.Imaged.{images_adaptive, images_shared};
    ghost use Rattle.recovery.specs.Images.{AsksOn, has_same_bytes};
    ghost use Rattle.routine_judge.specs.Branchwise.{branchwise, bytes_alike, bytes_both, bytes_nothing};
    ghost use Rattle.routine_judge.specs.ImagesVerdicts.{IsFoundIn};
    ghost use Rattle.std.specs.Prelude.{◌≡◌, true};

    type Cause = Cause;

    type Workspace = Routine;

    ghost lines = { λ s. I.lines s.images.now };

    ghost low = { λ s. I.low s.images.now };

    ghost high = { λ s. I.high s.images.now };

    ghost alike = { λ s. has_same_bytes (I.image s.images.now) };

    ghost further = { λ s. true };

    ghost asks = { λ s k questions. AsksOn s.program.now s.steps (I.image s.images.now k) questions };

    ghost judged = { λ s k found. IsFoundIn s.right.now s.program.now s.steps (I.image s.images.now k) found };

    ghost fits = { λ s routine. (routine.program ≡ s.program.now) × (routine.lines ≡ I.lines s.images.now) };

    fn lines(&self) -> u32 {
        self.images.lines()
    }

    fn floor(&self, line: u32) -> u32 {
        self.images.lowest(line)
    }

    fn stores(&self, line: u32) -> u32 {
        self.images.highest(line)
    }

    fn is_alike(&self, asked: Question, one: u32, other: u32) -> bool {
        have_same(
            asked.bytes,
            self.images.line(asked.line, one),
            self.images.line(asked.line, other),
        )
    }

    fn is_first(&self, asked: Question, number: u32) -> bool {
        let floor = self.floor(asked.line);
        for lower in floor..number {
            if self.is_alike(asked, lower, number) {
                return false;
            }
        }
        true
    }

    fn tries_further(&self) -> bool {
        true
    }

    fn workspace(&self, alloc: Global) -> Result<Routine, AllocError> {
        copied_routine(alloc, self.program, self.images.lines())
    }

    fn recover(
        &self,
        alloc: Global,
        routine: &mut Routine,
        numbers: &[u32],
        asked: &mut Vec<Question>,
    ) -> Result<Option<Cause>, AllocError> {
        let image = CutImage::new(self.images, numbers);
        let found = routine.run(alloc, &image, self.steps)?;
        asked.extend_from_slice(routine.asked())?;
        Ok(self.right.judge(&found))
    }

    ghost ordered = { λ s l. I.ordered s.images.now l };

    ghost equivalent = { λ s. bytes_alike (I.image s.images.now) };

    ghost nothing = { λ s l n m. bytes_nothing (I.image s.images.now) l n m };

    ghost both = { λ s l a b n m. bytes_both (I.image s.images.now) l a b n m };

    ghost adaptive = { λ s. images_adaptive s.program.now s.steps (I.lines s.images.now) (I.image s.images.now)
        (record { count = I.count s.images.now; decides = I.by_line s.images.now }) (λ cut. (I.whole s.images.now cut).each) };

    ghost shared = { λ s. images_shared s.program.now s.steps (I.lines s.images.now) (I.image s.images.now)
        (record { count = I.count s.images.now; decides = I.by_line s.images.now }) (λ cut. (I.whole s.images.now cut).each) };

    ghost branchwise = { λ s c k questions found a h f. branchwise s.right.now s.program.now s.steps (I.lines s.images.now) (I.image s.images.now)
        (record { count = I.count s.images.now; decides = I.by_line s.images.now }) (λ cut. (I.whole s.images.now cut).each) c k questions found a h f };
}

/// A routine of its own for one who judges images of so many lines.
pub fn copied_routine(alloc: Global, program: &Program, lines: u32) -> Result<Routine, AllocError>
    ensures program { IfOk result (λ routine. routine.program ≡ program.now) }
    ensures lines { IfOk result (λ routine. routine.lines ≡ lines) }
{
    let program = program.copy(alloc)?;
    match Routine::new(alloc, program, lines) {
        Ok(routine) => Ok(routine),
        Err(_memory) => Err(AllocError),
    }
}
