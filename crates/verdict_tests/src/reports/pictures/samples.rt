//! Events, and what their picture is.

use report::{CodePlace, ImageLine, Origin, PlacedEvent};
use store_trace::Event;

/// An operation of hart 1 that stores to two lines and makes one of the stores durable, and a store of hart 2 beside it.
pub(crate) static EVENTS: [PlacedEvent<'static>; 7] = [
    PlacedEvent {
        event: Event::Begin { hart: 1, op: 7 },
        step: 3,
        at: CodePlace {
            pc: 0x1_0008,
            origin: Origin::Line(3),
        },
    },
    PlacedEvent {
        event: Event::Store {
            hart: 1,
            line: 256,
            offset: 0,
            width: 8,
            value: 0x4d,
        },
        step: 7,
        at: CodePlace {
            pc: 0x1_0018,
            origin: Origin::Line(7),
        },
    },
    PlacedEvent {
        event: Event::Clean { hart: 1, line: 256 },
        step: 8,
        at: CodePlace {
            pc: 0x1_001c,
            origin: Origin::Unknown,
        },
    },
    PlacedEvent {
        event: Event::Store {
            hart: 2,
            line: 256,
            offset: 8,
            width: 2,
            value: 0x12_3456,
        },
        step: 9,
        at: CodePlace {
            pc: 0x1_0018,
            origin: Origin::Line(7),
        },
    },
    PlacedEvent {
        event: Event::Fence { hart: 1 },
        step: 10,
        at: CodePlace {
            pc: 0x1_0020,
            origin: Origin::Line(9),
        },
    },
    PlacedEvent {
        event: Event::Store {
            hart: 1,
            line: 1,
            offset: 8,
            width: 8,
            value: 1,
        },
        step: 11,
        at: CodePlace {
            pc: 0x1_0024,
            origin: Origin::Line(10),
        },
    },
    PlacedEvent {
        event: Event::End { hart: 1, op: 7 },
        step: 13,
        at: CodePlace {
            pc: 0x1_002c,
            origin: Origin::Line(12),
        },
    },
];

/// An image that has the store of line 1, and the first one of line 256.
pub(crate) static IMAGE: [ImageLine; 2] = [
    ImageLine { line: 1, stores: 1 },
    ImageLine {
        line: 256,
        stores: 1,
    },
];
