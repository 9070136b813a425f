//! What the faults of the libraries below `crash_test` say of themselves.
//!
//! The codes are those of docs/FORMATS.md; a fault without a code says what is wrong in words.

use crate::calls::messages::differing;
use assemble::{AsmCode, AsmFault};
use bus::{FinishFault, RunFault};
use crash_image::ImageFault;
use debugger::{DebugFault, Place};
use elf_file::ElfFault;
use image_check::{Cause, CheckFault, OpFault};
use isa_table::FieldFault;
use line_memory::{MediumFault, MemFault};
use machine::{RunStop, ScheduleFault, StepFault};
use nova_log::VolumeFault;
use plan::{PlanCode, PlanFault};
use program::LoadFault;
use random_schedule::InterleaveFault;
use routine_judge::{JudgeFault, MarkFault};
use store_trace::TraceFault;

static LINES: [(AsmCode, &str); 10] = [
    (AsmCode::BadToken, "A1"),
    (AsmCode::Mnemonic, "A2"),
    (AsmCode::Operands, "A3"),
    (AsmCode::Register, "A4"),
    (AsmCode::Range, "A5"),
    (AsmCode::UnknownLabel, "A6"),
    (AsmCode::LabelTwice, "A7"),
    (AsmCode::WrongSection, "A8"),
    (AsmCode::TooLarge, "A9"),
    (AsmCode::Memory, "A10"),
];

static SOURCES: [(AsmFault, &str); 2] = [
    (
        AsmFault {
            line: 1,
            code: AsmCode::BadToken,
        },
        "A1 line 1",
    ),
    (
        AsmFault {
            line: 4_294_967_295,
            code: AsmCode::TooLarge,
        },
        "A9 line 4294967295",
    ),
];

static FIELDS: [(FieldFault, &str); 3] = [
    (FieldFault::ImmediateOutOfRange, "immediate out of range"),
    (FieldFault::OddOffset, "odd offset"),
    (FieldFault::ShiftOutOfRange, "shift out of range"),
];

static OBJECTS: [(LoadFault, &str); 6] = [
    (LoadFault::Magic, "P1"),
    (LoadFault::Truncated, "P2"),
    (LoadFault::TooLarge, "P3"),
    (LoadFault::Trailing, "P4"),
    (LoadFault::TextLength, "P5"),
    (LoadFault::Memory, "P6"),
];

static EXECUTABLES: [(ElfFault, &str); 9] = [
    (ElfFault::Truncated, "E1"),
    (ElfFault::Identification, "E2"),
    (ElfFault::Machine, "E3"),
    (ElfFault::Linkage, "E4"),
    (ElfFault::Flags, "E5"),
    (ElfFault::Entry, "E6"),
    (ElfFault::Placement, "E7"),
    (ElfFault::Segment, "E8"),
    (ElfFault::Memory, "E9"),
];

#[test]
fn programs(rt: HostRuntime) {
    let alloc = rt.alloc();
    let found = [
        differing(alloc, &LINES),
        differing(alloc, &SOURCES),
        differing(alloc, &FIELDS),
        differing(alloc, &OBJECTS),
        differing(alloc, &EXECUTABLES),
    ];
    assert_eq!(rt; found, [None; 5]);
}

static STEPS: [(StepFault, &str); 5] = [
    (StepFault::NoSuchHart, "G1"),
    (StepFault::NoSuchLine, "G2"),
    (StepFault::TraceFull, "G4"),
    (StepFault::Memory, "G5"),
    (StepFault::OutOfLimits, "G6"),
];

static STOPS: [(RunStop, &str); 2] = [
    (
        RunStop {
            place: Place { item: 3, steps: 7 },
            fault: StepFault::NoSuchLine,
        },
        "G2",
    ),
    (
        RunStop {
            place: Place { item: 0, steps: 0 },
            fault: StepFault::OutOfLimits,
        },
        "G6",
    ),
];

static SEATS: [(FinishFault, &str); 4] = [
    (FinishFault::SeatMissing, "B1"),
    (FinishFault::SeatNumber, "B2"),
    (FinishFault::Foreign, "B3"),
    (FinishFault::Memory, "B4"),
];

static HARTS: [(RunFault, &str); 2] = [
    (RunFault::Step(StepFault::TraceFull), "G4"),
    (RunFault::Finish(FinishFault::Foreign), "B3"),
];

static SCHEDULES: [(ScheduleFault, &str); 2] = [
    (ScheduleFault::Text, "G3"),
    (ScheduleFault::Memory, "G5"),
];

static SESSIONS: [(DebugFault, &str); 7] = [
    (DebugFault::Command, "D1"),
    (DebugFault::Address, "D2"),
    (DebugFault::PointsFull, "D3"),
    (DebugFault::Memory, "D4"),
    (DebugFault::InputOutput, "D5"),
    (DebugFault::Step(StepFault::NoSuchHart), "G1"),
    (
        DebugFault::Stopped {
            place: Place { item: 1, steps: 2 },
            fault: StepFault::TraceFull,
        },
        "G4",
    ),
];

#[test]
fn runs(rt: HostRuntime) {
    let alloc = rt.alloc();
    let found = [
        differing(alloc, &STEPS),
        differing(alloc, &STOPS),
        differing(alloc, &SEATS),
        differing(alloc, &HARTS),
        differing(alloc, &SCHEDULES),
        differing(alloc, &SESSIONS),
    ];
    assert_eq!(rt; found, [None; 6]);
}

static ACCESSES: [(MemFault, &str); 2] = [
    (MemFault::Misaligned, "not a multiple of the width"),
    (MemFault::Outside, "in no region"),
];

static MEDIA: [(MediumFault, &str); 2] = [
    (MediumFault::Size, "not 512 to 16,384 whole lines"),
    (MediumFault::Memory, "out of memory"),
];

static TRACES: [(TraceFault, &str); 2] = [
    (TraceFault::Full, "the trace is full"),
    (TraceFault::Memory, "out of memory"),
];

static IMAGES: [(ImageFault, &str); 3] = [
    (ImageFault::NoSuchMoment, "no such moment"),
    (ImageFault::NotACut, "not a cut"),
    (ImageFault::Memory, "out of memory"),
];

#[test]
fn memories_and_images(rt: HostRuntime) {
    let alloc = rt.alloc();
    let found = [
        differing(alloc, &ACCESSES),
        differing(alloc, &MEDIA),
        differing(alloc, &TRACES),
        differing(alloc, &IMAGES),
    ];
    assert_eq!(rt; found, [None; 4]);
}

static VOLUMES: [(VolumeFault, &str); 11] = [
    (VolumeFault::Magic, "N1"),
    (VolumeFault::Counts, "N2"),
    (VolumeFault::JournalNumbers, "N3"),
    (VolumeFault::RecordInode, "N4"),
    (VolumeFault::Head, "N5"),
    (VolumeFault::TailNotReached, "N6"),
    (VolumeFault::Link, "N7"),
    (VolumeFault::Kind, "N8"),
    (VolumeFault::Name, "N9"),
    (VolumeFault::Memory, "N10"),
    (VolumeFault::Pages, "N11"),
];

static PLAN_LINES: [(PlanCode, &str); 5] = [
    (PlanCode::Line, "L1"),
    (PlanCode::Twice, "L2"),
    (PlanCode::Inode, "L3"),
    (PlanCode::Name, "L4"),
    (PlanCode::Memory, "L5"),
];

static PLANS: [(PlanFault, &str); 1] = [(
    PlanFault {
        line: 12,
        code: PlanCode::Inode,
    },
    "L3 line 12",
)];

static MARKS: [(OpFault, &str); 4] = [
    (OpFault::Unknown, "O1"),
    (OpFault::BegunTwice, "O2"),
    (OpFault::NotPending, "O3"),
    (OpFault::SharesInode, "O4"),
];

static CHECKS: [(CheckFault, &str); 4] = [
    (CheckFault::Operation(OpFault::Unknown), "O1"),
    (CheckFault::Operation(OpFault::SharesInode), "O4"),
    (CheckFault::NoSuchMoment, "C1"),
    (CheckFault::Memory, "C3"),
];

static CAUSES: [(Cause, &str); 3] = [
    (Cause::Fault(VolumeFault::Magic), "N1"),
    (Cause::Fault(VolumeFault::Name), "N9"),
    (Cause::Illegal, "illegal"),
];

#[test]
fn volumes_and_verdicts(rt: HostRuntime) {
    let alloc = rt.alloc();
    let found = [
        differing(alloc, &VOLUMES),
        differing(alloc, &PLAN_LINES),
        differing(alloc, &PLANS),
        differing(alloc, &MARKS),
        differing(alloc, &CHECKS),
        differing(alloc, &CAUSES),
    ];
    assert_eq!(rt; found, [None; 6]);
}

static OPERATIONS: [(MarkFault, &str); 5] = [
    (MarkFault::BegunTwice, "O2"),
    (MarkFault::NotPending, "O3"),
    (MarkFault::Overlaps, "O5"),
    (MarkFault::NoOperation, "O6"),
    (MarkFault::Memory, "C3"),
];

static JUDGES: [(JudgeFault, &str); 3] = [
    (JudgeFault::Marks(MarkFault::Overlaps), "O5"),
    (JudgeFault::NoSuchMoment, "C1"),
    (JudgeFault::Memory, "C3"),
];

static DRAWS: [(InterleaveFault, &str); 2] = [
    (InterleaveFault::TraceFull, "G4"),
    (InterleaveFault::Memory, "G5"),
];

#[test]
fn judgements_and_draws(rt: HostRuntime) {
    let alloc = rt.alloc();
    let found = [
        differing(alloc, &OPERATIONS),
        differing(alloc, &JUDGES),
        differing(alloc, &DRAWS),
    ];
    assert_eq!(rt; found, [None; 3]);
}
