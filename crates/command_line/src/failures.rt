//! The failures that faults of the layers below come to.

ghost use Rattle.std.specs.Prelude.{◌≡◌};
ghost use Rattle.command_line.specs.Failures.{failure_of_assembly, failure_of_check, failure_of_drawing, failure_of_file, failure_of_image, failure_of_judge, failure_of_medium, failure_of_plan, failure_of_program, failure_of_run, failure_of_schedule, failure_of_session, failure_of_step, failure_of_together, failure_of_trace, failure_of_volume};
ghost use Rattle.command_line.specs.declared.failure.Failure.TheVariants.{Memory};

use crate::failure::{Failure, Limit, Refusal};
use crate::files::FileFault;
use assemble::{AsmCode, AsmFault};
use crash_image::ImageFault;
use crash_test::{ProgramFault, TogetherFault};
use debugger::DebugFault;
use image_check::CheckFault;
use line_memory::MediumFault;
use machine::{ScheduleFault, StepFault};
use nova_log::VolumeFault;
use plan::{PlanCode, PlanFault};
use random_schedule::InterleaveFault;
use routine_judge::JudgeFault;
use std::alloc::AllocError;
use trace_file::{TraceFileCode, TraceFileFault};

impl From<FileFault> for Failure {
    ghost from_gives = { λ fault failure. failure ≡ failure_of_file fault };

    fn from(fault: FileFault) -> Failure {
        match fault {
            FileFault::Memory => Failure::Memory,
            _ => Failure::File,
        }
    }
}

impl From<AsmFault> for Failure {
    ghost from_gives = { λ fault failure. failure ≡ failure_of_assembly fault };

    fn from(fault: AsmFault) -> Failure {
        match fault.code {
            AsmCode::Memory => Failure::Memory,
            _ => Failure::Refused(Refusal::Assembly(fault)),
        }
    }
}

impl From<ProgramFault> for Failure {
    ghost from_gives = { λ fault failure. failure ≡ failure_of_program fault };

    fn from(fault: ProgramFault) -> Failure {
        match fault {
            ProgramFault::Assembly(fault) => Failure::Refused(Refusal::Assembly(fault)),
            ProgramFault::Object(fault) => Failure::Refused(Refusal::Object(fault)),
            ProgramFault::Elf(fault) => Failure::Refused(Refusal::Elf(fault)),
            ProgramFault::Memory => Failure::Memory,
        }
    }
}

impl From<PlanFault> for Failure {
    ghost from_gives = { λ fault failure. failure ≡ failure_of_plan fault };

    fn from(fault: PlanFault) -> Failure {
        match fault.code {
            PlanCode::Memory => Failure::Memory,
            _ => Failure::Refused(Refusal::Plan(fault)),
        }
    }
}

impl From<TraceFileFault> for Failure {
    ghost from_gives = { λ fault failure. failure ≡ failure_of_trace fault };

    fn from(fault: TraceFileFault) -> Failure {
        match fault.code {
            TraceFileCode::Memory => Failure::Memory,
            _ => Failure::Refused(Refusal::Trace(fault)),
        }
    }
}

impl From<ScheduleFault> for Failure {
    ghost from_gives = { λ fault failure. failure ≡ failure_of_schedule fault };

    fn from(fault: ScheduleFault) -> Failure {
        match fault {
            ScheduleFault::Text => Failure::Refused(Refusal::ScheduleText),
            ScheduleFault::Memory => Failure::Memory,
        }
    }
}

impl From<MediumFault> for Failure {
    ghost from_gives = { λ fault failure. failure ≡ failure_of_medium fault };

    fn from(fault: MediumFault) -> Failure {
        match fault {
            MediumFault::Size => Failure::Refused(Refusal::Medium),
            MediumFault::Memory => Failure::Memory,
        }
    }
}

impl From<VolumeFault> for Failure {
    ghost from_gives = { λ fault failure. failure ≡ failure_of_volume fault };

    fn from(fault: VolumeFault) -> Failure {
        match fault {
            VolumeFault::Memory => Failure::Memory,
            _ => Failure::Refused(Refusal::Volume(fault)),
        }
    }
}

impl From<StepFault> for Failure {
    ghost from_gives = { λ fault failure. failure ≡ failure_of_step fault };

    fn from(fault: StepFault) -> Failure {
        match fault {
            StepFault::Memory => Failure::Memory,
            _ => Failure::Refused(Refusal::Step(fault)),
        }
    }
}

/// The failure of a run by a schedule over so many harts and cache lines of the medium.
pub(crate) fn failure_of_run(harts: u32, lines: u32, fault: StepFault) -> Failure
    ensures { result ≡ failure_of_run harts lines fault }
{
    match fault {
        StepFault::NoSuchHart => Failure::Refused(Refusal::Beyond(Limit::Harts(harts))),
        StepFault::NoSuchLine => Failure::Refused(Refusal::Beyond(Limit::Lines(lines))),
        _ => Failure::from(fault),
    }
}

impl From<InterleaveFault> for Failure {
    ghost from_gives = { λ fault failure. failure ≡ failure_of_drawing fault };

    fn from(fault: InterleaveFault) -> Failure {
        match fault {
            InterleaveFault::TraceFull => Failure::Refused(Refusal::Step(StepFault::TraceFull)),
            InterleaveFault::Memory => Failure::Memory,
        }
    }
}

impl From<TogetherFault> for Failure {
    ghost from_gives = { λ fault failure. failure ≡ failure_of_together fault };

    fn from(fault: TogetherFault) -> Failure {
        match fault {
            TogetherFault::Step(fault) => Failure::from(fault),
            TogetherFault::Foreign => Failure::Refused(Refusal::Foreign),
        }
    }
}

impl From<ImageFault> for Failure {
    ghost from_gives = { λ fault failure. failure ≡ failure_of_image fault };

    fn from(fault: ImageFault) -> Failure {
        match fault {
            ImageFault::NoSuchMoment => Failure::Refused(Refusal::Moment),
            ImageFault::NotACut => Failure::Refused(Refusal::Image),
            ImageFault::Memory => Failure::Memory,
        }
    }
}

impl From<CheckFault> for Failure {
    ghost from_gives = { λ fault failure. failure ≡ failure_of_check fault };

    fn from(fault: CheckFault) -> Failure {
        match fault {
            CheckFault::Operation(fault) => Failure::Refused(Refusal::Operation(fault)),
            CheckFault::NoSuchMoment => Failure::Refused(Refusal::Moment),
            CheckFault::Memory => Failure::Memory,
        }
    }
}

impl From<JudgeFault> for Failure {
    ghost from_gives = { λ fault failure. failure ≡ failure_of_judge fault };

    fn from(fault: JudgeFault) -> Failure {
        match fault {
            JudgeFault::Marks(fault) => Failure::Refused(Refusal::Marks(fault)),
            JudgeFault::NoSuchMoment => Failure::Refused(Refusal::Moment),
            JudgeFault::Memory => Failure::Memory,
        }
    }
}

impl From<DebugFault> for Failure {
    ghost from_gives = { λ fault failure. failure ≡ failure_of_session fault };

    fn from(fault: DebugFault) -> Failure {
        match fault {
            DebugFault::Memory => Failure::Memory,
            _ => Failure::File,
        }
    }
}

impl From<AllocError> for Failure {
    ghost from_gives = { λ _ failure. failure ≡ Memory };

    fn from(_refused: AllocError) -> Failure {
        Failure::Memory
    }
}
