//! Why a command gives no answer: what is printed of it, and its status.

use assemble::AsmFault;
use bus::FinishFault;
use crash_image::ImageFault;
use elf_file::ElfFault;
use image_check::OpFault;
use machine::{ScheduleFault, StepFault};
use nova_log::VolumeFault;
use plan::PlanFault;
use program::LoadFault;
use routine_judge::MarkFault;
use std::fmt;
use trace_file::TraceFileFault;

/// What the items of a schedule may not go past.
#[derive(Clone, Copy, Debug, PartialEq, Eq)]
pub enum Limit {
    /// So many harts, numbered from 0.
    Harts(u32),
    /// So many cache lines of the medium, numbered from 0.
    Lines(u32),
}

impl Limit {
    ghost use Rattle.std.specs.Prelude.{◌≡◌};
    ghost use Rattle.command_line.specs.Failures.{limit_code};

    /// The code of a step past the limit.
    fn code(self) -> &'static str
        ensures { result.now ≡ limit_code self }
    {
        match self {
            Limit::Harts(_) => StepFault::NoSuchHart.code(),
            Limit::Lines(_) => StepFault::NoSuchLine.code(),
        }
    }
}

/// Input that is refused, by the fault that was found in it.
#[derive(Clone, Copy, Debug, PartialEq, Eq)]
pub enum Refusal {
    /// A source, by its first line at fault.
    Assembly(AsmFault),
    /// A file that begins as an object.
    Object(LoadFault),
    /// An ELF file.
    Elf(ElfFault),
    /// A plan, by its first line at fault.
    Plan(PlanFault),
    /// The text of a schedule.
    ScheduleText,
    /// A trace file, by its first line at fault.
    Trace(TraceFileFault),
    /// The bytes of a medium.
    Medium,
    /// A volume that was to be made.
    Volume(VolumeFault),
    /// A step of a run.
    Step(StepFault),
    /// An item of a run's schedule, by what it goes past.
    Beyond(Limit),
    /// What the harts of a run have made.
    Foreign,
    /// A moment past the events of a run.
    Moment,
    /// An image that a moment doesn't have.
    Image,
    /// The mark of an operation in a run.
    Operation(OpFault),
    /// The marks of a run without a plan.
    Marks(MarkFault),
    /// A line of standard input that is no reply.
    Reply,
    /// The end of standard input where a reply should stand.
    NoReply,
    /// The source of a recovery routine, by its first line at fault.
    RecoverySource(AsmFault),
    /// The file of a recovery routine that begins as an object.
    RecoveryObject(LoadFault),
    /// The ELF file of a recovery routine.
    RecoveryElf(ElfFault),
}

impl Refusal {
    ghost use Rattle.std.specs.Prelude.{◌≡◌};
    ghost use Rattle.command_line.specs.Failures.{refusal_code};
    ghost use Rattle.command_line.specs.Meanings.{refused_line};

    /// The code of the fault.
    pub(crate) fn code(&self) -> &'static str
        ensures { result.now ≡ refusal_code self.now }
    {
        match *self {
            Refusal::Assembly(fault) | Refusal::RecoverySource(fault) => fault.code.name(),
            Refusal::Object(fault) | Refusal::RecoveryObject(fault) => fault.code(),
            Refusal::Elf(fault) | Refusal::RecoveryElf(fault) => fault.code(),
            Refusal::Plan(fault) => fault.code.name(),
            Refusal::ScheduleText => ScheduleFault::Text.code(),
            Refusal::Trace(fault) => fault.code.name(),
            Refusal::Medium => "M3",
            Refusal::Volume(fault) => fault.code(),
            Refusal::Step(fault) => fault.code(),
            Refusal::Beyond(limit) => limit.code(),
            Refusal::Foreign => FinishFault::Foreign.code(),
            Refusal::Moment => ImageFault::NoSuchMoment.code(),
            Refusal::Image => ImageFault::NotACut.code(),
            Refusal::Operation(fault) => fault.code(),
            Refusal::Marks(fault) => fault.code(),
            Refusal::Reply => "V6",
            Refusal::NoReply => "V7",
        }
    }

    /// The line at fault, of the file that is refused.
    pub(crate) fn line(&self) -> Option<usize>
        ensures { result ≡ refused_line self.now }
    {
        match self {
            Refusal::Assembly(fault) | Refusal::RecoverySource(fault) => Some(fault.line as usize),
            Refusal::Plan(fault) => Some(fault.line),
            Refusal::Trace(fault) => Some(fault.line),
            _ => None,
        }
    }
}

/// `refused CODE`, ` line N` where a line is at fault, and ` recovery` where it is a recovery routine's.
impl fmt::Display for Refusal {
    ghost use Rattle.std.specs.Prelude.{Some};
    ghost use Rattle.command_line.specs.Failures.{refusal_text};

    ghost output = { λ refusal. Some (refusal_text refusal) };

    fn fmt<W: fmt::Write>(&self, f: &mut fmt::Formatter<W>) -> fmt::Result {
        write!(f, "refused {}", self.code())?;
        match self {
            Refusal::Assembly(fault) => write!(f, " line {}", fault.line),
            Refusal::Plan(fault) => write!(f, " line {}", fault.line),
            Refusal::Trace(fault) => write!(f, " line {}", fault.line),
            Refusal::RecoverySource(fault) => write!(f, " line {} recovery", fault.line),
            Refusal::RecoveryObject(_) => write!(f, " recovery"),
            Refusal::RecoveryElf(_) => write!(f, " recovery"),
            _ => Ok(()),
        }
    }
}

/// Why a command gives no answer.
#[derive(Drop)]
pub enum Failure {
    /// The command line is at fault, and the text, of whole lines, says how.
    Line(String),
    /// Its input is refused.
    Refused(Refusal),
    /// The run was to be whole, and the text, of whole lines, says what keeps it from being so.
    Unfinished(String),
    /// Memory was refused.
    Memory,
    /// A file, standard input or standard output couldn't be read or written.
    File,
}

impl Failure {
    ghost use Rattle.std.specs.Prelude.{◌≡◌};
    ghost use Rattle.command_line.specs.Failures.{failure_status};

    /// The status that the program ends with: 2, 4 or 5.
    pub fn status(&self) -> u8
        ensures { result ≡ failure_status self.now }
    {
        match self {
            Failure::Line(_) | Failure::Refused(_) | Failure::Unfinished(_) => 2,
            Failure::Memory => 4,
            Failure::File => 5,
        }
    }
}
