//! A law of traced runs, as the contract of a function with an empty body.

ghost use Rattle.machine.specs.Replies.{trace_in};
ghost use Rattle.machine.specs.Run.{Config, RunsTo};
ghost use Rattle.machine.specs.Traced.{TracedRun, events_in};
ghost use Rattle.machine.specs.declared.run_trace.traced_event.TracedEvent.{TracedEvent};
ghost use Rattle.machine.specs.declared.schedule.items.Step.{Step};
ghost use Rattle.std.specs.Prelude.{◌≡◌, ◌++◌, ℕ, List};

/// A traced run is a run, its events are those that the run adds to the trace, and a run is traced in one way.
#[tactic(auto, using(crate::proofs::Traces::is_run, crate::proofs::Traces::has_events, crate::proofs::Traces::traced_once))]
pub fn traced_run_is_run()
    ensures run { (n : ℕ) (c d : Config) (steps : List Step) (traced : List TracedEvent) →
        TracedRun n c steps d traced → RunsTo c steps d }
    ensures events { (n : ℕ) (c d : Config) (steps : List Step) (traced : List TracedEvent) →
        TracedRun n c steps d traced → trace_in d.common ≡ trace_in c.common ++ events_in traced }
    ensures once { (n : ℕ) (c d e : Config) (steps : List Step) (traced other : List TracedEvent) →
        TracedRun n c steps d traced → TracedRun n c steps e other → traced ≡ other }
{}
