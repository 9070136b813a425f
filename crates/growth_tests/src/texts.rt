//! Sources, objects and trace files.

use crate::ending::{Refused, ended, ready, refusal, repeated};
use crate::samples::FIVE;
use assemble::{AsmCode, assemble};
use program::{LoadFault, Object, TEXT_LIMIT, load};
use std::alloc::Global;
use trace_file::{TraceFile, TraceFileCode};

/// A source, and the text and data of its object.
struct Example {
    source: &'static [u8],
    text: &'static [u8],
    data: &'static [u8],
}

static LI: Example = Example {
    source: b"li a0, 0x12345678\n",
    text: b"\x37\x55\x34\x12\x1b\x05\x85\x67",
    data: b"",
};

static LA: Example = Example {
    source: b"la a0, d\n.data\nd: .byte 1\n",
    text: b"\x17\x05\x0f\0\x13\x05\x05\0",
    data: b"\x01",
};

/// Assembles a source.
fn is_assembled(alloc: Global, example: &Example) -> Result<bool, Refused> {
    match assemble(alloc, example.source) {
        Ok(object) => {
            Ok(object.text_bytes() == example.text && object.data_bytes() == example.data)
        }
        Err(fault) => refusal(matches!(fault.code, AsmCode::Memory)),
    }
}

/// Assembles a source, and again where that was refused.
fn assembled(alloc: Global, example: &Example) -> Result<bool, Refused> {
    match is_assembled(alloc, example) {
        Err(Refused::Call) => repeated(is_assembled(alloc, example)),
        answer => answer,
    }
}

#[test]
fn assemble_a_number(rt: HostRuntime) -> Result<(), Refused> {
    ended(&rt, assembled(rt.alloc(), &LI))
}

#[test]
fn assemble_an_address_of_data(rt: HostRuntime) -> Result<(), Refused> {
    ended(&rt, assembled(rt.alloc(), &LA))
}

fn is_written(alloc: Global, object: &Object) -> Result<bool, Refused> {
    match object.to_bytes(alloc) {
        Ok(bytes) => Ok(bytes.as_slice() == FIVE),
        Err(fault) => refusal(matches!(fault, LoadFault::Memory)),
    }
}

/// Writes an object, and again where that was refused.
fn written(alloc: Global, object: &Object) -> Result<bool, Refused> {
    match is_written(alloc, object) {
        Err(Refused::Call) => repeated(is_written(alloc, object)),
        answer => answer,
    }
}

#[test]
fn object_to_bytes(rt: HostRuntime) -> Result<(), Refused> {
    let object = ready(Object::read(rt.alloc(), FIVE))?;
    ended(&rt, written(rt.alloc(), &object))
}

/// Whether the program's text is the word of the file, and then zeros to the region's end.
fn is_filled(text: &[u8]) -> bool {
    match text.split_at_checked(4) {
        Some((first, rest)) => {
            first == b"\x93\0\x50\0".as_slice()
                && rest.iter().all(|byte| *byte == 0)
                && text.len() == TEXT_LIMIT
        }
        None => false,
    }
}

#[test]
fn load_an_object(rt: HostRuntime) -> Result<(), Refused> {
    let object = ready(Object::read(rt.alloc(), FIVE))?;
    let answer = match load(object) {
        Ok(program) => Ok(is_filled(program.text_bytes())),
        Err(fault) => refusal(matches!(fault, LoadFault::Memory)),
    };
    ended(&rt, answer)
}

/// A trace of two lines of events, one of them with a place.
const TRACE: &[u8] = b"1 h0 at=a store l9+0 w1 0x1\n2 h0 clean l9\nevents 2\n";

fn is_read(alloc: Global) -> Result<bool, Refused> {
    match TraceFile::read(alloc, TRACE) {
        Ok(file) => Ok(file.names() == [9u32].as_slice() && file.events().len() == 2),
        Err(fault) => refusal(fault.code == TraceFileCode::Memory),
    }
}

/// Reads a trace file, and again where that was refused.
fn read(alloc: Global) -> Result<bool, Refused> {
    match is_read(alloc) {
        Err(Refused::Call) => repeated(is_read(alloc)),
        answer => answer,
    }
}

#[test]
fn read_a_trace_file(rt: HostRuntime) -> Result<(), Refused> {
    ended(&rt, read(rt.alloc()))
}
