//! The events of a trace.

ghost use Rattle.std.specs.Prelude.{◌≡◌};
ghost use Rattle.store_trace.specs.Marks.{begun_by, ended_by};

/// The most harts of a run: their numbers are below it.
pub const MAX_HARTS: usize = 8;

/// What one instruction of a hart did to persistent memory, or the mark of an operation that it set.
///
/// Harts are numbered from 0 to 7 and lines of 64 bytes from 0, the first line of persistent memory;
/// an offset is a byte's place in its line, and a width is a number of bytes. Offsets and widths are small:
/// in 8 bits each, an event takes 24 bytes.
#[derive(Clone, Copy, Debug, PartialEq, Eq)]
pub enum Event {
    /// A store, an AMO or a successful SC: the low `width` bytes of `value`, the least significant first.
    Store {
        hart: u32,
        line: u32,
        offset: u8,
        width: u8,
        value: u64,
    },
    /// A `cbo.clean`, `cbo.flush` or `cbo.inval` of the line.
    Clean {
        hart: u32,
        line: u32,
    },
    /// A FENCE whose predecessor set has W.
    Fence {
        hart: u32,
    },
    /// The operation `op` begins.
    Begin {
        hart: u32,
        op: u64,
    },
    /// The operation `op` ends.
    End {
        hart: u32,
        op: u64,
    },
}

impl Event {
    /// The operation that begins in this event.
    pub fn begun(self) -> Option<u64>
        ensures { result ≡ begun_by self }
    {
        match self {
            Event::Begin { op, .. } => Some(op),
            _ => None,
        }
    }

    /// The operation that ends in this event.
    pub fn ended(self) -> Option<u64>
        ensures { result ≡ ended_by self }
    {
        match self {
            Event::End { op, .. } => Some(op),
            _ => None,
        }
    }
}
