//! The grammar of the command line, as clap takes it.

ghost use Rattle.std.specs.Prelude.{◌≡◌, ◌++◌, [], IfOk, List, false, map};
ghost use Rattle.clap.specs.Words.{Shape, rule_of};
ghost use Rattle.arguments.specs.Grammar.{IsGrammar, asking, drawing, help_option, judging, judging_programs, leaf, line, making, novacrash, rule, running, shape, telling};

mod overview;

use clap::{Arg, ArgAction};
use overview::Group;
pub(crate) use overview::overview;
use std::alloc::{AllocError, Global};

/// What `--version` prints behind the program's name.
const VERSION: &str = "1.0";

/// A word or an option of a subcommand.
#[derive(Clone, Copy)]
pub(crate) enum Argument {
    /// A word that has to be given.
    Word {
        name: &'static str,
        about: &'static str,
    },
    /// A word that may be left out.
    Optional {
        name: &'static str,
        about: &'static str,
    },
    /// An option that may be left out, with the name of its value.
    Valued {
        name: &'static str,
        value: &'static str,
        about: &'static str,
    },
    /// An option that has to be given, with the name of its value.
    Needed {
        name: &'static str,
        value: &'static str,
        about: &'static str,
    },
    /// An option without a value, which may be left out.
    Flag {
        name: &'static str,
        about: &'static str,
    },
}

/// A subcommand.
pub(crate) struct Subcommand {
    name: &'static str,
    group: Group,
    about: &'static str,
    arguments: &'static [Argument],
    ending: &'static str,
}

/// What the help of a subcommand ends with: an example, at will more lines, the statuses, and where to look further.
macro_rules! ending {
    ($example:literal) => {
        ending!($example, "")
    };
    ($example:literal, $more:literal) => {
        concat!(
            "Example: novacrash ",
            $example,
            "\n\n",
            $more,
            "Statuses: 0 done or pass, 1 fail, 2 refused input or command line, 3 too many or too long,\n",
            "4 out of memory, 5 a file or a standard stream that failed.\n",
            "Formats and codes: docs/FORMATS.md; `novacrash code CODE` says what a code means."
        )
    };
}

const SOURCE: Argument = Argument::Word {
    name: "SOURCE",
    about: "The source's file",
};

const OBJECT: Argument = Argument::Word {
    name: "OBJECT",
    about: "The file that gets the object",
};

const PROGRAM: Argument = Argument::Word {
    name: "PROGRAM",
    about: "The program's file: an ELF file, an object or a source",
};

const SCHEDULE: Argument = Argument::Word {
    name: "SCHEDULE",
    about: "The schedule's file",
};

const PLAN: Argument = Argument::Word {
    name: "PLAN",
    about: "The plan's file",
};

const RECOVERY: Argument = Argument::Word {
    name: "RECOVERY",
    about: "The recovery routine's file: an ELF file, an object or a source",
};

const RECOVERY_OF_TRACE: Argument = Argument::Optional {
    name: "RECOVERY",
    about: "The source, object or ELF executable of the recovery routine, where the line hasn't --ask",
};

const ASK: Argument = Argument::Flag {
    name: "ask",
    about: "Ask for the answers of a recovery that runs outside: requests on standard output, replies on standard input",
};

const LINES: Argument = Argument::Word {
    name: "LINES",
    about: "The number of cache lines of the medium",
};

const NEW_MEDIUM: Argument = Argument::Word {
    name: "MEDIUM",
    about: "The file that gets the medium",
};

const OLD_MEDIUM: Argument = Argument::Word {
    name: "OLD",
    about: "The file of a medium with a volume of either layout",
};

const PAGES: Argument = Argument::Word {
    name: "PAGES",
    about: "The number of pages of the new volume",
};

const UPGRADED_MEDIUM: Argument = Argument::Word {
    name: "NEW",
    about: "The file that gets the new medium",
};

const CODE: Argument = Argument::Optional {
    name: "CODE",
    about: "A code as it's printed, as A3, T5 or illegal, in either case [default: all codes]",
};

const SHOWN_MEDIUM: Argument = Argument::Word {
    name: "MEDIUM",
    about: "The medium's file",
};

const LINE: Argument = Argument::Optional {
    name: "LINE",
    about: "The number of the line whose bytes are printed, in place of the volume",
};

const MOMENT: Argument = Argument::Word {
    name: "MOMENT",
    about: "How many events come before the power cut",
};

const IMAGE: Argument = Argument::Word {
    name: "IMAGE",
    about: "The crash image: its number, or its lines above their floor, as in l1:1,l300:1, or floor",
};

const PICTURE: Argument = Argument::Word {
    name: "FILE",
    about: "The file that gets the picture, an SVG",
};

const IMAGE_OUT: Argument = Argument::Word {
    name: "OUT",
    about: "The file that gets the bytes of the image",
};

const TRACE: Argument = Argument::Needed {
    name: "trace",
    value: "FILE",
    about: "The trace file, whose events are those of another program",
};

const SHOWN_IMAGE: Argument = Argument::Valued {
    name: "image",
    value: "IMAGE",
    about: "The crash image whose stores are told, named as for `explain`",
};

const MEDIUM: Argument = Argument::Valued {
    name: "medium",
    value: "FILE",
    about: "The medium's file [default: 512 lines of zeros]",
};

const START: Argument = Argument::Valued {
    name: "medium",
    value: "FILE",
    about: "The bytes that the events start from: whole lines, among them each of the trace [default: 512 lines of zeros]",
};

const MEDIUM_OF_TRACE: Argument = Argument::Valued {
    name: "medium",
    value: "FILE",
    about: "The medium's file, which has each line of the trace [default: 512 lines of zeros]",
};

const HARTS: Argument = Argument::Valued {
    name: "harts",
    value: "N",
    about: "The number of harts, from 1 to 8 [default: 1]",
};

const CAPACITY: Argument = Argument::Valued {
    name: "capacity",
    value: "N",
    about: "The most lines of the cache, from 1 to 16384 [default: 16]",
};

const STEPS: Argument = Argument::Valued {
    name: "steps",
    value: "N",
    about: "The most steps of each hart, from 1 to 500000000 [default: 1000000]",
};

const SEED: Argument = Argument::Needed {
    name: "seed",
    value: "N",
    about: "What the interleaving is drawn from: a decimal number below 18446744073709551616",
};

const ALL_STEPS: Argument = Argument::Valued {
    name: "steps",
    value: "N",
    about: "The most steps of all harts together, from 1 to 500000000 [default: 1000000]",
};

const RECOVERY_STEPS: Argument = Argument::Valued {
    name: "steps",
    value: "N",
    about: "The most steps of recovery on an image, from 1 to 500000000: more where it is too long [default: 100000]",
};

const EVICTIONS: Argument = Argument::Valued {
    name: "evictions",
    value: "N",
    about: "The number of evictions, from 0 to 65536 [default: 0]",
};

const WORKERS: Argument = Argument::Valued {
    name: "workers",
    value: "N",
    about: "The number of workers that judge the run, from 1 to 8 [default: 1]",
};

const SEARCHERS: Argument = Argument::Valued {
    name: "workers",
    value: "N",
    about: "The number of workers that search, from 1 to 8: the answer doesn't depend on it [default: 1]",
};

const MOMENTS: Argument = Argument::Valued {
    name: "moments",
    value: "A-B",
    about: "The moments that are judged: A-B, A- to the last one, or A alone [default: all]",
};

const ATOMIC: Argument = Argument::Flag {
    name: "atomic",
    about: "Count overlapping operations as made one after another: right is what sequential runs of the program show",
};

const SEQUENTIAL_STATES: Argument = Argument::Valued {
    name: "states",
    value: "N",
    about: "With --atomic, the most states that the search for sequential runs meets, from 1 to 4294967295 [default: 1000000]",
};

const OVERLAPPING: Argument = Argument::Flag {
    name: "overlapping",
    about: "Let operations overlap: right is also what the run shows amid them",
};

const RECOVERY_CUTS: Argument = Argument::Valued {
    name: "recovery-cuts",
    value: "N",
    about: "Judge power cuts in recovery too, and after it: up to N, from 1 to 64, or any [default: none]",
};

const STATES: Argument = Argument::Valued {
    name: "states",
    value: "N",
    about: "The most states that are met, from 1 to 4294967295 [default: 1000000]",
};

const ANY_END: Argument = Argument::Flag {
    name: "any-end",
    about: "Let harts end in any way: by a trap, with another code than 0, or never, with no way out",
};

const RECORD: Argument = Argument::Valued {
    name: "record",
    value: "FILE",
    about: "The file that gets the schedule of the run",
};

const OUT: Argument = Argument::Valued {
    name: "out",
    value: "FILE",
    about: "The file that gets the medium of a power cut at the end",
};

const GO_ON: Argument = Argument::Flag {
    name: "go-on",
    about: "Count a moment with over 65,536 branches as open, and go on behind it",
};

const LEAST: Argument = Argument::Flag {
    name: "least",
    about: "Leave out the evictions that change nothing",
};

const WHOLE: Argument = Argument::Flag {
    name: "whole",
    about: "Refuse a run in which a hart doesn't exit with 0, or an operation doesn't end",
};

const JSON: Argument = Argument::Flag {
    name: "json",
    about: "Print one JSON object a line",
};

const WHY: Argument = Argument::Flag {
    name: "why",
    about: "Say which stores a failing image lacks and keeps, why each can be lost, and how it comes about",
};

const PROGRESS: Argument = Argument::Flag {
    name: "progress",
    about: "Tell on standard error how far the check has come, at most twice a second",
};

const ANSWERS: Argument = Argument::Flag {
    name: "answers",
    about: "Behind a pass, print how many different answers RECOVERY gives where nothing is lost, and the last one",
};

const QUIET: Argument = Argument::Flag {
    name: "quiet",
    about: "With --whole, leave out the notes on standard error",
};

/// The subcommands that make files, in the order in which help tells them.
static MAKING: [Subcommand; 3] = [
    Subcommand {
        name: "asm",
        group: Group::Make,
        about: "Assemble a source and write its object",
        arguments: &[SOURCE, OBJECT],
        ending: ending!("asm append.s append.o"),
    },
    Subcommand {
        name: "mkfs",
        group: Group::Make,
        about: "Write a fresh log volume for the operations of a plan",
        arguments: &[PLAN, LINES, NEW_MEDIUM],
        ending: ending!("mkfs append.plan 512 fresh.medium"),
    },
    Subcommand {
        name: "upgrade",
        group: Group::Make,
        about: "Move the logs of a volume to a new volume of the second layout",
        arguments: &[OLD_MEDIUM, PAGES, LINES, UPGRADED_MEDIUM],
        ending: ending!("upgrade append.medium 1 512 new.medium"),
    },
];

/// The subcommands that run programs on a machine that the line describes, behind those.
static RUNNING: [Subcommand; 3] = [
    Subcommand {
        name: "run",
        group: Group::Look,
        about: "Run a program",
        arguments: &[PROGRAM, MEDIUM, HARTS, CAPACITY, STEPS, RECORD, OUT, WHOLE],
        ending: ending!("run append.s --medium append.medium --record whole.schedule"),
    },
    Subcommand {
        name: "replay",
        group: Group::Look,
        about: "Run a program by a schedule",
        arguments: &[PROGRAM, SCHEDULE, MEDIUM, HARTS, CAPACITY, OUT, WHOLE],
        ending: ending!("replay append.s append.schedule --medium append.medium --out left.medium"),
    },
    Subcommand {
        name: "debug",
        group: Group::Look,
        about: "Debug a program by commands on standard input",
        arguments: &[PROGRAM, MEDIUM, HARTS, CAPACITY],
        ending: ending!(
            "debug append.s --medium append.medium",
            "Commands of the session: break A, watch A, clear A, step H, go [ITEMS], regs H, where H, peek A N, quit.\nOf a source break and clear also take a label, of an ELF file NAME, NAME+0xOFF and FILE:LINE.\n\n"
        ),
    },
];

/// The subcommands that tell of events, of a run by a schedule here, behind those.
static ASKING_OF_RUNS: [Subcommand; 5] = [
    Subcommand {
        name: "trace",
        group: Group::Look,
        about: "Print the events of a run by a schedule, each with its step, pc and source line",
        arguments: &[PROGRAM, SCHEDULE, MEDIUM, HARTS, WHOLE, JSON],
        ending: ending!(
            "trace append.s append.schedule --medium append.medium --whole",
            "With --trace FILE in place of PROGRAM and SCHEDULE it checks a trace file and prints it: docs/TRACES.md.\n\n"
        ),
    },
    Subcommand {
        name: "images",
        group: Group::Look,
        about: "Count the crash images of a moment of a run by a schedule, or of a trace file",
        arguments: &[PROGRAM, SCHEDULE, MOMENT, MEDIUM, HARTS, WHOLE, JSON],
        ending: ending!(
            "images append.s append.schedule 5 --medium append.medium --whole",
            "With --trace FILE in place of PROGRAM and SCHEDULE it takes the events of a trace file: docs/TRACES.md.\n\n"
        ),
    },
    Subcommand {
        name: "image",
        group: Group::Look,
        about: "Write a crash image of a moment of a run by a schedule, or of a trace file",
        arguments: &[
            PROGRAM, SCHEDULE, MOMENT, IMAGE, IMAGE_OUT, MEDIUM, HARTS, WHOLE,
        ],
        ending: ending!(
            "image append.s append.schedule 5 2 cut.medium --medium append.medium --whole",
            "With --trace FILE in place of PROGRAM and SCHEDULE it takes the events of a trace file: docs/TRACES.md.\n\n"
        ),
    },
    Subcommand {
        name: "unpersisted",
        group: Group::Look,
        about: "Print the stores of a run that weren't durable when their operation ended",
        arguments: &[PROGRAM, SCHEDULE, MEDIUM, HARTS, WHOLE, JSON, QUIET],
        ending: ending!(
            "unpersisted append.s append.schedule --medium append.medium --whole",
            "With --trace FILE in place of PROGRAM and SCHEDULE it takes the events of a trace file: docs/TRACES.md.\n\n"
        ),
    },
    Subcommand {
        name: "waste",
        group: Group::Look,
        about: "Print the cleans and fences that a run makes in vain",
        arguments: &[PROGRAM, SCHEDULE, MEDIUM, HARTS, WHOLE, JSON, QUIET],
        ending: ending!(
            "waste append.s append.schedule --medium append.medium --whole",
            "This speaks of the run by this schedule alone: only an instruction with `always` can be deleted, where each run has it.\n\n\
             With --trace FILE in place of PROGRAM and SCHEDULE it takes the events of a trace file: docs/TRACES.md.\n\n"
        ),
    },
];

/// The same of a trace file.
static ASKING_OF_FILES: [Subcommand; 5] = [
    Subcommand {
        name: "trace",
        group: Group::Look,
        about: "Check a trace file, and print its events",
        arguments: &[TRACE, WHOLE],
        ending: ending!("trace --trace log.trace"),
    },
    Subcommand {
        name: "images",
        group: Group::Look,
        about: "Count the crash images of a moment of a trace file",
        arguments: &[TRACE, MOMENT, WHOLE, JSON],
        ending: ending!("images --trace log.trace 3"),
    },
    Subcommand {
        name: "image",
        group: Group::Look,
        about: "Write a crash image of a moment of a trace file",
        arguments: &[TRACE, MOMENT, IMAGE, IMAGE_OUT, START, WHOLE],
        ending: ending!("image --trace log.trace 3 2 cut.pool --medium log.pool"),
    },
    Subcommand {
        name: "unpersisted",
        group: Group::Look,
        about: "Print the stores of a trace file that weren't durable when their operation ended",
        arguments: &[TRACE, WHOLE, JSON, QUIET],
        ending: ending!("unpersisted --trace log.trace"),
    },
    Subcommand {
        name: "waste",
        group: Group::Look,
        about: "Print the cleans and fences of a trace file that are made in vain",
        arguments: &[TRACE, WHOLE, JSON, QUIET],
        ending: ending!("waste --trace log.trace"),
    },
];

/// The subcommands that tell of a run by a schedule alone, behind those.
static TELLING: [Subcommand; 1] = [Subcommand {
    name: "explain",
    group: Group::Look,
    about: "Print a schedule that leaves a crash image of a moment of a run",
    arguments: &[
        PROGRAM, SCHEDULE, MOMENT, IMAGE, MEDIUM, HARTS, LEAST, WHOLE,
    ],
    ending: ending!("explain append.s append.schedule 5 2 --medium append.medium --whole"),
}];

/// The subcommands that judge events, of a run by a schedule here, behind those.
static JUDGING_OF_RUNS: [Subcommand; 2] = [
    Subcommand {
        name: "check",
        group: Group::Judge,
        about: "Judge every crash image of a run, or of a trace file, by a plan of operations",
        arguments: &[
            PLAN, PROGRAM, SCHEDULE, MEDIUM, HARTS, WORKERS, MOMENTS, GO_ON, WHOLE, WHY, JSON,
            PROGRESS, QUIET,
        ],
        ending: ending!(
            "check append.plan append.s append.schedule --medium append.medium --whole --why",
            "With --trace FILE in place of PROGRAM and SCHEDULE it judges the events of a trace file: docs/TRACES.md.\n\n"
        ),
    },
    Subcommand {
        name: "judge",
        group: Group::Judge,
        about: "Judge every crash image of a run, or of a trace file, by a recovery routine of one's own",
        arguments: &[
            PROGRAM,
            SCHEDULE,
            RECOVERY,
            MEDIUM,
            HARTS,
            RECOVERY_STEPS,
            WORKERS,
            ATOMIC,
            SEQUENTIAL_STATES,
            OVERLAPPING,
            RECOVERY_CUTS,
            MOMENTS,
            GO_ON,
            WHOLE,
            WHY,
            ANSWERS,
            JSON,
            PROGRESS,
            QUIET,
        ],
        ending: ending!(
            "judge ring.s ring.schedule ring-recovery.s --whole --why",
            "With --trace FILE in place of PROGRAM and SCHEDULE it judges the events of a trace file: docs/TRACES.md.\n\n"
        ),
    },
];

/// The same of a trace file.
static JUDGING_OF_FILES: [Subcommand; 2] = [
    Subcommand {
        name: "check",
        group: Group::Judge,
        about: "Judge every crash image of a trace file by a plan of operations",
        arguments: &[
            PLAN,
            TRACE,
            MEDIUM_OF_TRACE,
            WORKERS,
            MOMENTS,
            GO_ON,
            WHOLE,
            WHY,
            JSON,
            PROGRESS,
            QUIET,
        ],
        ending: ending!(
            "check append.plan --trace append.trace --medium append.medium --whole --why"
        ),
    },
    Subcommand {
        name: "judge",
        group: Group::Judge,
        about: "Judge every crash image of a trace file by a recovery routine of one's own",
        arguments: &[
            TRACE,
            RECOVERY_OF_TRACE,
            ASK,
            MEDIUM_OF_TRACE,
            RECOVERY_STEPS,
            WORKERS,
            OVERLAPPING,
            MOMENTS,
            GO_ON,
            WHOLE,
            WHY,
            ANSWERS,
            JSON,
            PROGRESS,
            QUIET,
        ],
        ending: ending!(
            "judge --trace ring.trace ring-recovery.s --whole --why",
            "With --ask in place of RECOVERY it asks for the answers of any recovery: docs/FORMATS.md.\n\n"
        ),
    },
];

/// The subcommands that judge every run of a program, or say what a recovery routine answers, behind those.
static JUDGING_PROGRAMS: [Subcommand; 3] = [
    Subcommand {
        name: "check-all",
        group: Group::Judge,
        about: "Judge every crash image of every schedule of a program by a plan of operations",
        arguments: &[
            PLAN, PROGRAM, MEDIUM, HARTS, SEARCHERS, STATES, ANY_END, WHY, JSON, PROGRESS,
        ],
        ending: ending!("check-all append.plan append.s --medium append.medium --why"),
    },
    Subcommand {
        name: "judge-all",
        group: Group::Judge,
        about: "Judge every crash image of every schedule of a program by a recovery routine of one's own",
        arguments: &[
            PROGRAM,
            RECOVERY,
            MEDIUM,
            HARTS,
            RECOVERY_STEPS,
            SEARCHERS,
            STATES,
            ANY_END,
            WHY,
            JSON,
            PROGRESS,
        ],
        ending: ending!("judge-all push.s push-recovery.s --harts 2 --why"),
    },
    Subcommand {
        name: "answer",
        group: Group::Judge,
        about: "Print what a recovery routine answers on a medium, or why it has no answer",
        arguments: &[RECOVERY, MEDIUM, RECOVERY_STEPS],
        ending: ending!("answer ring-recovery.s"),
    },
];

/// The subcommand that draws a run by a schedule, behind those.
static DRAWING_OF_RUNS: [Subcommand; 1] = [Subcommand {
    name: "picture",
    group: Group::Look,
    about: "Draw a run up to a moment: its stores, cleans and fences, and what a power cut may lose",
    arguments: &[
        PROGRAM,
        SCHEDULE,
        MOMENT,
        PICTURE,
        SHOWN_IMAGE,
        MEDIUM,
        HARTS,
    ],
    ending: ending!(
        "picture append.s append.schedule 5 append.svg --image 2 --medium append.medium",
        "With --trace FILE in place of PROGRAM and SCHEDULE it takes the events of a trace file: docs/TRACES.md.\n\n"
    ),
}];

/// The one that draws the events of a trace file.
static DRAWING_OF_FILES: [Subcommand; 1] = [Subcommand {
    name: "picture",
    group: Group::Look,
    about: "Draw a trace file up to a moment: its stores, cleans and fences, and what a power cut may lose",
    arguments: &[TRACE, MOMENT, PICTURE, SHOWN_IMAGE],
    ending: ending!("picture --trace log.trace 3 log.svg --image 2"),
}];

/// The subcommands that show files, and that tell of what the program prints, behind the others.
static SHOWING: [Subcommand; 6] = [
    Subcommand {
        name: "interleave",
        group: Group::Make,
        about: "Print a schedule of a whole run, drawn from a seed",
        arguments: &[PROGRAM, SEED, MEDIUM, HARTS, ALL_STEPS, EVICTIONS],
        ending: ending!("interleave append2.s --seed 1 --harts 2 --medium append.medium"),
    },
    Subcommand {
        name: "show",
        group: Group::Look,
        about: "Print the volume that recovery finds on a medium, or the bytes of one of its lines",
        arguments: &[SHOWN_MEDIUM, LINE],
        ending: ending!("show append.medium"),
    },
    Subcommand {
        name: "listing",
        group: Group::Look,
        about: "Print the words of a program, each with its instruction and its source line",
        arguments: &[PROGRAM],
        ending: ending!("listing append.s"),
    },
    Subcommand {
        name: "program",
        group: Group::Look,
        about: "Print the sizes of a program, and of an executable what is known of its places",
        arguments: &[PROGRAM],
        ending: ending!("program append.s"),
    },
    Subcommand {
        name: "code",
        group: Group::Look,
        about: "Say what a code means that the program prints, and what to do",
        arguments: &[CODE],
        ending: ending!("code A3"),
    },
    Subcommand {
        name: "help",
        group: Group::Unlisted,
        about: "List the commands",
        arguments: &[],
        ending: ending!("help"),
    },
];

impl Argument {
    /// The argument as clap takes it.
    fn to_clap<'a>(self, alloc: Global) -> Arg<'a>
        ensures rule { rule_of result ≡ rule self }
        ensures local { result.global ≡ false }
    {
        match self {
            Argument::Word { name, about } => Arg::new(alloc, name).required(true).help(about),
            Argument::Optional { name, about } => Arg::new(alloc, name).help(about),
            Argument::Valued { name, value, about } => Arg::new(alloc, name)
                .long(name)
                .value_name(value)
                .help(about),
            Argument::Needed { name, value, about } => Arg::new(alloc, name)
                .long(name)
                .value_name(value)
                .required(true)
                .help(about),
            Argument::Flag { name, about } => Arg::new(alloc, name)
                .long(name)
                .action(ArgAction::SetTrue)
                .help(about),
        }
    }
}

/// The option that asks for help, alike at every level.
fn help_flag<'a>(alloc: Global) -> Arg<'a>
    ensures rule { rule_of result ≡ help_option }
    ensures local { result.global ≡ false }
{
    Arg::new(alloc, "help")
        .long("help")
        .short('h')
        .action(ArgAction::Help)
        .help("Print help")
}

impl Subcommand {
    /// The subcommand as clap takes it: its arguments, and `--help`.
    fn to_clap<'a>(&self, alloc: Global) -> Result<clap::Command<'a>, AllocError>
        ensures { IfOk result (IsGrammar (leaf (shape self.now))) }
    {
        let mut command = clap::Command::new(alloc, self.name)
            .about(self.about)
            .after_help(self.ending);
        for argument in self.arguments {
            command = command.arg(argument.to_clap(alloc))?;
        }
        command.arg(help_flag(alloc))
    }
}

/// The line without subcommands, with `--help` anywhere and `--version`.
fn bare<'a>(alloc: Global) -> Result<clap::Command<'a>, AllocError>
    ensures { IfOk result (IsGrammar (line [])) }
{
    clap::Command::new(alloc, "novacrash")
        .version(VERSION)
        .disable_help_flag(true)
        .disable_help_subcommand(true)
        .subcommand_required(true)
        .arg(help_flag(alloc))
}

fn with_making<'a>(alloc: Global) -> Result<clap::Command<'a>, AllocError>
    ensures { IfOk result (IsGrammar (line making)) }
{
    with_all(alloc, bare(alloc)?, &MAKING)
}

fn with_running<'a>(alloc: Global) -> Result<clap::Command<'a>, AllocError>
    ensures { IfOk result (IsGrammar (line (making ++ running))) }
{
    with_all(alloc, with_making(alloc)?, &RUNNING)
}

/// The subcommands that tell of events, of a trace file or of a run.
#[tactic(auto, unfolding(crate::specs::Grammar::asking_of_files, crate::specs::Grammar::asking_of_runs, crate::specs::Grammar::trace_shape, crate::specs::Grammar::images_shape, crate::specs::Grammar::image_shape, crate::specs::Grammar::trace_of_file_shape, crate::specs::Grammar::images_of_file_shape, crate::specs::Grammar::image_of_file_shape, crate::specs::Grammar::unpersisted_shape, crate::specs::Grammar::waste_shape, crate::specs::Grammar::unpersisted_of_file_shape, crate::specs::Grammar::waste_of_file_shape))]
fn asking(of_file: bool) -> &'static [Subcommand]
    ensures { map shape result.now ≡ asking of_file }
{
    if of_file {
        &ASKING_OF_FILES
    } else {
        &ASKING_OF_RUNS
    }
}

fn with_asking<'a>(alloc: Global, of_file: bool) -> Result<clap::Command<'a>, AllocError>
    ensures { IfOk result (IsGrammar (line ((making ++ running) ++ asking of_file))) }
{
    with_all(alloc, with_running(alloc)?, asking(of_file))
}

fn with_telling<'a>(alloc: Global, of_file: bool) -> Result<clap::Command<'a>, AllocError>
    ensures { IfOk result (IsGrammar (line (((making ++ running) ++ asking of_file) ++ telling))) }
{
    with_all(alloc, with_asking(alloc, of_file)?, &TELLING)
}

/// The subcommands that judge events, of a trace file or of a run.
#[tactic(auto, unfolding(crate::specs::Grammar::judging_of_files, crate::specs::Grammar::judging_of_runs, crate::specs::Grammar::check_shape, crate::specs::Grammar::judge_shape, crate::specs::Grammar::check_of_file_shape, crate::specs::Grammar::judge_of_file_shape))]
fn judging(of_file: bool) -> &'static [Subcommand]
    ensures { map shape result.now ≡ judging of_file }
{
    if of_file {
        &JUDGING_OF_FILES
    } else {
        &JUDGING_OF_RUNS
    }
}

fn with_judging<'a>(alloc: Global, of_file: bool) -> Result<clap::Command<'a>, AllocError>
    ensures { IfOk result (IsGrammar (line ((((making ++ running) ++ asking of_file) ++ telling) ++ judging of_file))) }
{
    with_all(alloc, with_telling(alloc, of_file)?, judging(of_file))
}

fn with_judging_programs<'a>(alloc: Global, of_file: bool) -> Result<clap::Command<'a>, AllocError>
    ensures { IfOk result (IsGrammar (line (((((making ++ running) ++ asking of_file) ++ telling) ++ judging of_file) ++ judging_programs))) }
{
    with_all(alloc, with_judging(alloc, of_file)?, &JUDGING_PROGRAMS)
}

/// The subcommand that draws events, of a trace file or of a run.
#[tactic(auto, unfolding(crate::specs::Grammar::drawing_of_files, crate::specs::Grammar::drawing_of_runs, crate::specs::Grammar::picture_shape, crate::specs::Grammar::picture_of_file_shape))]
fn drawing(of_file: bool) -> &'static [Subcommand]
    ensures { map shape result.now ≡ drawing of_file }
{
    if of_file {
        &DRAWING_OF_FILES
    } else {
        &DRAWING_OF_RUNS
    }
}

fn with_drawing<'a>(alloc: Global, of_file: bool) -> Result<clap::Command<'a>, AllocError>
    ensures { IfOk result (IsGrammar (line ((((((making ++ running) ++ asking of_file) ++ telling) ++ judging of_file) ++ judging_programs) ++ drawing of_file))) }
{
    with_all(
        alloc,
        with_judging_programs(alloc, of_file)?,
        drawing(of_file),
    )
}

fn with_showing<'a>(alloc: Global, of_file: bool) -> Result<clap::Command<'a>, AllocError>
    ensures { IfOk result (IsGrammar (novacrash of_file)) }
{
    with_all(alloc, with_drawing(alloc, of_file)?, &SHOWING)
}

/// The line of the program, of a trace file or without one, with the text that `--help` prints where it stands alone.
pub(crate) fn grammar<'a>(
    alloc: Global,
    help: &'a str,
    of_file: bool,
) -> Result<clap::Command<'a>, AllocError>
    ensures { IfOk result (IsGrammar (novacrash of_file)) }
{
    Ok(with_showing(alloc, of_file)?.override_help(help))
}

/// The line with these subcommands behind those that it has.
fn with_all<'a>(
    alloc: Global,
    mut command: clap::Command<'a>,
    subcommands: &[Subcommand],
) -> Result<clap::Command<'a>, AllocError>
    ensures { (shapes : List Shape) → IsGrammar (line shapes) command.entry → IfOk result (IsGrammar (line (shapes ++ map shape subcommands.now))) }
{
    for subcommand in subcommands {
        command = command.subcommand(subcommand.to_clap(alloc)?)?;
    }
    Ok(command)
}
