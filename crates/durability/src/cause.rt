//! Why a store may be lost.

ghost use Rattle.std.specs.Prelude.{◌↔◌, ◌<◌, ℕ, List, IsTrue};
ghost use Rattle.store_trace.specs.declared.event.Event.{Event};

/// Why a store may be lost at a moment: what the whole run lacks after it, or has too late.
#[derive(Clone, Copy, Debug, PartialEq, Eq)]
pub enum Cause {
    /// No hart cleans the line after the store.
    NeverCleaned,
    /// The first clean of the line after the store is this event, after the moment.
    CleanedTooLate {
        clean: u32,
    },
    /// The first clean is in time, but no hart that cleans the line after the store makes a fence after that.
    NeverFenced {
        clean: u32,
    },
    /// The first clean is in time, but the first fence that completes one is after the moment. It completes this clean.
    FencedTooLate {
        clean: u32,
        fence: u32,
    },
    /// The same, but by then the hart of the first clean makes no fence: the first one is another hart's, and the first clean of the
    /// line that it completes is that hart's own.
    FencedByAnother {
        clean: u32,
        hart: u32,
        completed: u32,
        fence: u32,
    },
}

impl Cause {
    ghost use Rattle.durability.specs.Causes.{clean_of};
    ghost use Rattle.std.specs.Prelude.{◌≡◌};

    /// The first clean of the line after the store.
    pub fn clean(self) -> Option<u32>
        ensures { result ≡ clean_of self }
    {
        match self {
            Cause::NeverCleaned => None,
            Cause::CleanedTooLate { clean }
            | Cause::NeverFenced { clean }
            | Cause::FencedTooLate { clean, .. }
            | Cause::FencedByAnother { clean, .. } => Some(clean),
        }
    }
}

/// A fence that completes a clean of its hart.
#[derive(Clone, Copy)]
pub struct Completion {
    pub clean: u32,
    pub fence: u32,
}

/// What the run has after an event, for a line: the first clean of it, and the first fence that completes one.
#[derive(Clone, Copy)]
pub struct Fate {
    pub clean: Option<u32>,
    /// The hart of that clean.
    pub hart: u32,
    /// That fence, and the first clean of the line that it completes.
    pub completion: Option<Completion>,
}

impl Fate {
    ghost use Rattle.durability.specs.Causes.{IsCause, IsCompletion, IsFate};

    /// Nothing of that.
    pub const NOTHING: Fate = Fate {
        clean: None,
        hart: 0,
        completion: None,
    };

    /// Why a store with this fate may be lost at the moment.
    pub fn cause(self, moment: u32) -> Cause
        ensures { (events : List Event) (line store : ℕ) → IsFate events line store self →
            IsCause events moment line store result }
    {
        match (self.clean, self.completion) {
            (None, _) => Cause::NeverCleaned,
            (Some(clean), _) if moment < clean => Cause::CleanedTooLate { clean },
            (Some(clean), None) => Cause::NeverFenced { clean },
            (Some(clean), Some(first)) if clean == first.clean => Cause::FencedTooLate {
                clean,
                fence: first.fence,
            },
            (Some(clean), Some(first)) => Cause::FencedByAnother {
                clean,
                hart: self.hart,
                completed: first.clean,
                fence: first.fence,
            },
        }
    }

    /// Whether no clean is complete by the moment.
    pub fn is_open(self, moment: u32) -> bool
        ensures { (events : List Event) (line store : ℕ) → IsFate events line store self →
            (IsTrue result ↔ ((n : ℕ) → IsCompletion events line store n → moment < n)) }
    {
        match self.completion {
            None => true,
            Some(first) => moment < first.fence,
        }
    }
}
