//! Breakpoints and watched lines.

ghost use Rattle.std.specs.Prelude.{◌≡◌};
ghost use Rattle.debugger.specs.Points.{can_break, is_break, is_meant, is_watch, line_start};
ghost use Rattle.debugger.specs.StopPoint.{touched_line};

use hart::Request;
use line_memory::{LINE_SIZE, TEXT_BASE, TEXT_SIZE};

/// How many points a debugger has at most, breakpoints and watched lines together.
pub const MAX_POINTS: usize = 64;

/// A point at which a run stops.
#[derive(Clone, Copy, Debug, PartialEq, Eq)]
pub enum Point {
    /// The address of an instruction: the run stops before a running hart makes it.
    Break(u64),
    /// The first address of a line: the run stops behind an access to the line.
    Watch(u64),
}

impl Default for Point {
    /// What fills a place where no point is set.
    fn default() -> Point {
        Point::Break(0)
    }
}

impl Point {
    /// Whether this is a breakpoint at the address.
    pub(crate) fn is_break(self, address: u64) -> bool
        ensures { result ≡ is_break address self }
    {
        match self {
            Point::Break(at) => at == address,
            Point::Watch(_) => false,
        }
    }

    /// Whether this watches the line that begins at the address.
    pub(crate) fn is_watch(self, line: u64) -> bool
        ensures { result ≡ is_watch line self }
    {
        match self {
            Point::Break(_) => false,
            Point::Watch(start) => start == line,
        }
    }

    /// Whether this is the breakpoint at the address, or the watch on its line.
    pub(crate) fn is_meant(self, address: u64) -> bool
        ensures { result ≡ is_meant address self }
    {
        match self {
            Point::Break(at) => at == address,
            Point::Watch(line) => line == line_start(address),
        }
    }
}

/// The first address of the line that holds an address.
pub(crate) fn line_start(address: u64) -> u64
    ensures { result ≡ line_start address }
{
    address / LINE_SIZE as u64 * LINE_SIZE as u64
}

/// Whether an instruction of the text region may begin at the address.
pub(crate) fn can_break(address: u64) -> bool
    ensures { result ≡ can_break address }
{
    address >= TEXT_BASE && address < TEXT_BASE + TEXT_SIZE && address % 4 == 0
}

/// The first address of the line that a request touches where it is met.
pub(crate) fn touched_line(request: Request) -> Option<u64>
    ensures { result ≡ touched_line request }
{
    match request {
        Request::Load { address, .. }
        | Request::Store { address, .. }
        | Request::Lr { address, .. }
        | Request::Sc { address, .. }
        | Request::Amo { address, .. } => Some(line_start(address)),
        Request::Cbo { .. }
        | Request::Fence
        | Request::FenceI
        | Request::Begin { .. }
        | Request::End { .. } => None,
    }
}
