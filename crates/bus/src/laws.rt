//! Laws of seats that agree with a core, each as the contract of a function with an empty body.

ghost use Rattle.std.specs.Prelude.{List, map};
ghost use Rattle.machine.specs.Run.{RunsTo, started};
ghost use Rattle.bus.specs.Finished.{AllAgree, all_of};
ghost use Rattle.bus.specs.Replays.{AreBelow, CoreView, IsReplay, common_of};
ghost use Rattle.bus.specs.Seats.{SeatView};

/// Where all seats agree with a core, the run of their steps in the order of its history, from its start, ends in their
/// states and in what the core represents.
#[tactic(auto, using(crate::proofs::Finishing::agreeing_runs))]
pub fn agreeing_seats_run()
    ensures { (core : CoreView) (seats : List SeatView) → IsReplay core.program core.start core.history core.shared →
        AreBelow core.harts core.history → AllAgree core seats →
        RunsTo (started core.program core.start core.harts) (all_of core seats)
        (record { harts = map (λ seat. seat.state) seats; common = common_of core }) }
{}
