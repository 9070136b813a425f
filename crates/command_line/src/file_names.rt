//! The names of the files that a command reads.

ghost use Rattle.std.specs.Prelude.{◌≡◌, Some, option_map, string_bytes};
ghost use Rattle.arguments.specs.declared.asked.Command.TheVariants.{Answer, Check, CheckAll, Judge, JudgeAll};
ghost use Rattle.arguments.specs.declared.asked.EventSource.TheVariants as sources;
ghost use Rattle.command_line.specs.FileNames.{is_json, names_in, names_of, names_of_machine, names_of_run, names_of_source, no_names};

use arguments::{
    AnswerCommand, CheckAllCommand, CheckCommand, Command, EventSource, JudgeAllCommand,
    JudgeCommand, MachineOptions, ScheduledRun, TracedEvents,
};

/// The names of the files that a command reads, each by what it has; None where the command reads none of this kind.
#[derive(Clone, Copy)]
pub(crate) struct FileNames<'a> {
    pub(crate) plan: Option<&'a str>,
    pub(crate) program: Option<&'a str>,
    pub(crate) schedule: Option<&'a str>,
    pub(crate) recovery: Option<&'a str>,
    pub(crate) medium: Option<&'a str>,
    pub(crate) trace: Option<&'a str>,
}

/// No names.
const NONE: FileNames<'static> = FileNames {
    plan: None,
    program: None,
    schedule: None,
    recovery: None,
    medium: None,
    trace: None,
};

/// The names of the files that a command reads.
pub(crate) fn names_of(command: &Command) -> FileNames<'_>
    ensures { names_in result ≡ names_of command.now }
{
    match command {
        Command::Assemble(command) => of_program(&command.source),
        Command::MakeVolume(command) => of_plan(&command.plan),
        Command::Upgrade(command) => of_medium(&command.medium),
        Command::Run(command) => of_machine(&command.program, &command.machine),
        Command::Replay(command) => of_run(&command.run),
        Command::Debug(command) => of_machine(&command.program, &command.machine),
        Command::Trace(command) => of_source(&command.source),
        Command::Unpersisted(command) => of_source(&command.source),
        Command::Waste(command) => of_source(&command.source),
        Command::Images(command) => of_source(&command.source),
        Command::Image(command) => of_source(&command.source),
        Command::Explain(command) => of_run(&command.run),
        Command::Check(command) => of_check(command),
        Command::Judge(command) => of_judge(command),
        Command::Ask(command) => of_events(&command.events),
        Command::CheckAll(command) => of_check_all(command),
        Command::JudgeAll(command) => of_judge_all(command),
        Command::Answer(command) => of_answer(command),
        Command::Picture(command) => of_source(&command.source),
        Command::Interleave(command) => of_machine(&command.program, &command.machine),
        Command::Show(command) => of_medium(&command.medium),
        Command::Listing(command) => of_program(&command.program),
        Command::Program(command) => of_program(&command.program),
        Command::Code(_) => NONE,
    }
}

/// Whether the answer of a command is JSON.
pub(crate) fn is_json(command: &Command) -> bool
    ensures { result ≡ is_json command.now }
{
    match command {
        Command::Trace(command) => command.json,
        Command::Unpersisted(command) | Command::Waste(command) => command.json,
        Command::Images(command) => command.json,
        Command::Check(command) => command.judged.json,
        Command::Judge(command) => command.judged.json,
        Command::Ask(command) => command.json,
        Command::CheckAll(command) => command.judged.json,
        Command::JudgeAll(command) => command.judged.json,
        _ => false,
    }
}

fn of_program(program: &String) -> FileNames<'_>
    ensures { names_in result ≡ record no_names { program = Some (string_bytes program.now) } }
{
    FileNames {
        program: Some(program.as_str()),
        ..NONE
    }
}

fn of_plan(plan: &String) -> FileNames<'_>
    ensures { names_in result ≡ record no_names { plan = Some (string_bytes plan.now) } }
{
    FileNames {
        plan: Some(plan.as_str()),
        ..NONE
    }
}

fn of_medium(medium: &String) -> FileNames<'_>
    ensures { names_in result ≡ record no_names { medium = Some (string_bytes medium.now) } }
{
    FileNames {
        medium: Some(medium.as_str()),
        ..NONE
    }
}

fn of_machine<'a>(program: &'a String, machine: &'a MachineOptions) -> FileNames<'a>
    ensures { names_in result ≡ names_of_machine program.now machine.now }
{
    FileNames {
        program: Some(program.as_str()),
        medium: given(&machine.medium),
        ..NONE
    }
}

fn of_run(run: &ScheduledRun) -> FileNames<'_>
    ensures { names_in result ≡ names_of_run run.now }
{
    FileNames {
        schedule: Some(run.schedule.as_str()),
        ..of_machine(&run.program, &run.machine)
    }
}

fn of_source(source: &EventSource) -> FileNames<'_>
    ensures { names_in result ≡ names_of_source source.now }
{
    match source {
        EventSource::Run(run) => of_run(run),
        EventSource::Trace(events) => of_events(events),
    }
}

fn of_events(events: &TracedEvents) -> FileNames<'_>
    ensures { names_in result ≡ names_of_source (sources.Trace events.now) }
{
    FileNames {
        trace: Some(events.file.as_str()),
        medium: given(&events.medium),
        ..NONE
    }
}

fn of_check(command: &CheckCommand) -> FileNames<'_>
    ensures { names_in result ≡ names_of (Check command.now) }
{
    FileNames {
        plan: Some(command.plan.as_str()),
        ..of_source(&command.judged.source)
    }
}

fn of_judge(command: &JudgeCommand) -> FileNames<'_>
    ensures { names_in result ≡ names_of (Judge command.now) }
{
    FileNames {
        recovery: Some(command.recovery.as_str()),
        ..of_source(&command.judged.source)
    }
}

fn of_check_all(command: &CheckAllCommand) -> FileNames<'_>
    ensures { names_in result ≡ names_of (CheckAll command.now) }
{
    let judged = &command.judged;
    FileNames {
        plan: Some(command.plan.as_str()),
        ..of_machine(&judged.program, &judged.machine)
    }
}

fn of_judge_all(command: &JudgeAllCommand) -> FileNames<'_>
    ensures { names_in result ≡ names_of (JudgeAll command.now) }
{
    let judged = &command.judged;
    FileNames {
        recovery: Some(command.recovery.as_str()),
        ..of_machine(&judged.program, &judged.machine)
    }
}

fn of_answer(command: &AnswerCommand) -> FileNames<'_>
    ensures { names_in result ≡ names_of (Answer command.now) }
{
    FileNames {
        recovery: Some(command.recovery.as_str()),
        medium: given(&command.medium),
        ..NONE
    }
}

/// The name of a file that may be left out.
fn given(name: &Option<String>) -> Option<&str>
    ensures { option_map (λ given. given.now) result ≡ option_map string_bytes name.now }
{
    match name {
        Some(name) => Some(name.as_str()),
        None => None,
    }
}
