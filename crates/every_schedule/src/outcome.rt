//! What is found out about every schedule of a program.

use machine::Run;
use unfinished::Unfinished;
use verdict::Verdict;

/// What is found out about every schedule of a program. `Cause` is why an image is bad, and `Fault` why a mark is wrong.
#[derive(Drop)]
pub enum Outcome<Cause, Fault> {
    /// Whatever the schedule: marks are right, what a power cut leaves is good, and harts stop as they may. Unless any end will do, some
    /// schedule goes on to where all have stopped.
    Pass {
        /// How many states stand for all schedules.
        states: usize,
        /// How many of them differ in what a power cut may leave, or in what is kept of the operations.
        moments: usize,
    },
    /// A run shows what is wrong.
    Found {
        run: Run,
        finding: Finding<Cause, Fault>,
    },
    /// Nothing is found out: a bound is passed.
    TooMany(Bound),
}

/// What is wrong with a run.
#[derive(Drop)]
pub enum Finding<Cause, Fault> {
    /// A power cut may leave what is bad, or at some moment there are over 65,536 branches.
    Verdict(Verdict<Cause>),
    /// The mark of an operation is wrong.
    Refused(Fault),
    /// The run isn't whole, for these causes.
    NotWhole(Vec<Unfinished>),
    /// No schedule goes on from the end of the run to where all harts have stopped, however long: they wait for each other, or go round for
    /// ever.
    NoWayOut,
}

/// What there is too much of.
#[derive(Clone, Copy, Debug, PartialEq, Eq)]
pub enum Bound {
    /// There are more states than were asked for.
    States,
    /// Sequential runs alone have more states, or a line of one of these has over 65,536 contents.
    Sequential,
    /// A hart makes 100,000 steps without a request.
    Steps,
    /// What is wrong shows in no run that is known of at most 65,536 events.
    Events,
}
