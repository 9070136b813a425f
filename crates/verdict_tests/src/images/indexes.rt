//! The index of a small trace, with its numbers by hand.

ghost use Rattle.crash_image.specs.View.{HasLines};
ghost use Rattle.std.specs.Prelude.{◌≡◌, ◌≤◌, length};

use crate::images::events::{FENCED, trace_of};
use crash_image::{TraceIndex, has_lines};
use line_memory::Medium;
use std::alloc::{AllocError, Global};
use std::process::Abort;
use std::test::Fail;
use store_trace::Trace;

/// How many stores line 0 has at a moment, and its floor.
type Bounds = (u32, u32);

/// The bounds of line 0 at the moments of the trace, from 0.
const BOUNDS: [Bounds; 7] = [(0, 0), (1, 0), (2, 0), (2, 0), (3, 0), (3, 0), (3, 2)];

/// What an index says of line 0: its bounds at each moment, and the first byte after each number of stores.
#[derive(Clone, Copy, Debug, PartialEq, Eq)]
struct Indexed {
    bounds: [Bounds; 7],
    bytes: [u8; 4],
}

/// What the index says of line 0 of the trace. None where the trace has other events.
fn read_index(alloc: Global, medium: &Medium, trace: &Trace) -> Result<Option<Indexed>, AllocError>
    requires { HasLines medium.now trace.now.events }
{
    if trace.events().len() != 6 {
        return Ok(None);
    }
    let index = TraceIndex::new(alloc, medium, trace)?;
    Ok(Some(Indexed {
        bounds: bounds_of(&index),
        bytes: first_bytes(&index),
    }))
}

/// The bounds of line 0 at each moment.
fn bounds_of(index: &TraceIndex<'_>) -> [Bounds; 7]
    requires { length index.now.events ≡ 6 }
{
    [
        bounds_at(index, 0),
        bounds_at(index, 1),
        bounds_at(index, 2),
        bounds_at(index, 3),
        bounds_at(index, 4),
        bounds_at(index, 5),
        bounds_at(index, 6),
    ]
}

fn bounds_at(index: &TraceIndex<'_>, moment: u32) -> Bounds
    requires { moment ≤ length index.now.events }
{
    if index.lines() == 0 {
        return (0, 0);
    }
    (index.stores(0, moment), index.floor(0, moment))
}

/// The first byte of line 0 after each number of stores.
fn first_bytes(index: &TraceIndex<'_>) -> [u8; 4]
    requires { length index.now.events ≡ 6 }
{
    [
        first_byte(index, 0),
        first_byte(index, 1),
        first_byte(index, 2),
        first_byte(index, 3),
    ]
}

fn first_byte(index: &TraceIndex<'_>, number: u32) -> u8
    requires { length index.now.events ≡ 6 }
{
    if index.lines() == 0 || number > index.stores(0, 6) {
        return 0;
    }
    index.line(0, number)[0]
}

/// The index of line 0 of the three stores.
fn index_fenced(rt: &(impl AllocGlobal + Abort)) -> Result<Option<Indexed>, Fail> {
    let mut medium = Medium::zero(rt.alloc(), 512)?;
    medium.write_line(0, &[9; 64]);
    let trace = trace_of(rt, FENCED)?;
    if !has_lines(&medium, &trace) {
        return Ok(None);
    }
    Ok(read_index(rt.alloc(), &medium, &trace)?)
}

#[test]
fn index_of_three_stores(rt: HostRuntime) -> Result<(), Fail> {
    let expected = Indexed {
        bounds: BOUNDS,
        bytes: [9, 1, 2, 3],
    };
    assert_eq!(rt; index_fenced(&rt)?, Some(expected));
    Ok(())
}
