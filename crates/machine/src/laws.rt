//! The laws of runs, each as the contract of a function with an empty body: a caller has the law as what that
//! call ensures.

ghost use Rattle.machine.specs.Replies.{trace_in};
ghost use Rattle.machine.specs.Evicting.{AreAlike, hart_steps};
ghost use Rattle.machine.specs.Refusals.{Refuses};
ghost use Rattle.machine.specs.Run.{Config, RunsTo, StepsTo};
ghost use Rattle.machine.specs.Outcomes.{MakesEvent};
ghost use Rattle.machine.specs.Represents.{MachineView, Represents};
ghost use Rattle.machine.specs.declared.shared_memory.fault.StepFault.{StepFault};
ghost use Rattle.machine.specs.declared.schedule.items.Step.{Step};
ghost use Rattle.store_trace.specs.declared.event.Event.{Event};
ghost use Rattle.std.specs.Prelude.{◌≡◌, ◌+◌, ◌≤◌, ◌++◌, List, length};

/// From one configuration a step, and a list of steps, comes to one configuration.
#[tactic(auto, using(crate::proofs::Determined::steps_once, crate::proofs::Determined::runs_once))]
pub fn run_is_determined()
    ensures step { (c : Config) (step : Step) (d e : Config) → StepsTo c step d → StepsTo c step e → d ≡ e }
    ensures run { (c : Config) (steps : List Step) (d e : Config) → RunsTo c steps d → RunsTo c steps e → d ≡ e }
{}

/// A machine refuses a step for one reason.
#[tactic(auto, using(crate::proofs::Refusing::refused_once))]
pub fn refusal_is_determined()
    ensures { (machine : MachineView) (step : Step) (f g : StepFault) →
        Refuses machine step f → Refuses machine step g → f ≡ g }
{}

/// A step that makes an event makes the trace of all that the machine represents one longer.
#[tactic(auto, using(crate::proofs::Refusing::event_is_longer))]
pub fn event_is_longer()
    ensures { (machine : MachineView) (step : Step) (c : Config) → length machine.harts ≤ 8 → Represents machine c →
        MakesEvent machine step → (d : Config) × StepsTo c step d × (length (trace_in d.common) ≡ length (trace_in c.common) + 1) }
{}

/// A run of steps after steps is a run of the first and then of the others.
#[tactic(auto, using(crate::proofs::RunParts::run_joined, crate::proofs::RunParts::run_parted))]
pub fn run_has_parts()
    ensures joined { (c d e : Config) (first others : List Step) →
        RunsTo c first d → RunsTo d others e → RunsTo c (first ++ others) e }
    ensures parted { (c e : Config) (first others : List Step) →
        RunsTo c (first ++ others) e → (d : Config) × RunsTo c first d × RunsTo d others e }
{}

/// A trace only grows, by one event a step at most.
#[tactic(auto, using(crate::proofs::RunParts::step_grows, crate::proofs::RunParts::run_grows))]
pub fn trace_grows()
    ensures step { (c d : Config) (step : Step) → StepsTo c step d →
        length (trace_in d.common) ≤ length (trace_in c.common) + 1 }
    ensures run { (c d : Config) (steps : List Step) → RunsTo c steps d →
        (more : List Event) × (trace_in d.common ≡ trace_in c.common ++ more) }
{}

/// Evictions change nothing but the history: from configurations that differ in evictions alone, the same hart steps
/// with any evictions between them come to configurations that differ in evictions alone.
#[tactic(auto, using(crate::proofs::Evicting::runs_alike))]
pub fn evictions_change_nothing_else()
    ensures { (c d e : Config) (steps others : List Step) → AreAlike c d → hart_steps steps ≡ hart_steps others →
        RunsTo c steps e → (f : Config) × RunsTo d others f × AreAlike e f }
{}
