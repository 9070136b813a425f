//! Loading: which byte of a program stands where.

ghost use Rattle.std.specs.Prelude.{◌≡◌, ◌≤◌, IfOk, MatchResult, length, vec_len};
ghost use Rattle.program.specs.Loading.{IsPlaced, Loads, zero_filled};
ghost use Rattle.program.specs.Sections.{Sections};
ghost use Rattle.program.specs.declared.TheConstants.{DATA_LIMIT};

use crate::TEXT_LIMIT;
use crate::fault::LoadFault;
use crate::object::Object;
use std::alloc::{AllocError, Global};
use std::marker::Model;

/// A program that is ready to run: all of the text region, and the bytes of the data section.
#[derive(Drop)]
pub struct Program {
    text: Vec<u8>,
    static_data: Vec<u8>,
}

impl Model for Program {
    ghost use Rattle.std.specs.Prelude.{◌≡◌, ◌≤◌, length};
    ghost use Rattle.program.specs.Sections.{Sections};
    ghost use Rattle.program.specs.declared.TheConstants.{DATA_LIMIT, TEXT_LIMIT};

    ghost Value = { Sections };

    ghost view = { λ p. record { text = p.text.items; static_data = p.static_data.items } };

    ghost invariant = { λ p. (length p.text.items ≡ TEXT_LIMIT) × (length p.static_data.items ≤ DATA_LIMIT) };
}

impl Program {
    /// The text region from its base on: 65,536 bytes, zeros past the object's text.
    pub fn text_bytes(&self) -> &[u8]
        ensures text { result.now ≡ self.now.text }
        ensures size { length self.now.text ≡ TEXT_LIMIT }
    {
        &self.text
    }

    /// The bytes of the data section from the base of the data region on.
    pub fn data_bytes(&self) -> &[u8]
        ensures static_data { result.now ≡ self.now.static_data }
        ensures size { length self.now.static_data ≤ DATA_LIMIT }
    {
        &self.static_data
    }

    /// Another program with the same bytes.
    pub fn copy(&self, alloc: Global) -> Result<Program, AllocError>
        ensures { IfOk result (λ program. program ≡ self.now) }
    {
        Ok(Program {
            text: Vec::from_slice(alloc, &self.text)?,
            static_data: Vec::from_slice(alloc, &self.static_data)?,
        })
    }
}

/// Where each byte of a loaded program stands: a law, with nothing to run.
///
/// A byte of text stands as far from the base of the text region as from the start of the object's text, and zeros stand
/// in the rest of the region. Of the data region a program holds the object's data alone, from its base on.
pub fn places()
    ensures text { (program object : Sections) → Loads program object → IsPlaced object.text TEXT_LIMIT program.text }
    ensures static_data { (program object : Sections) → Loads program object → program.static_data ≡ object.static_data }
{}

/// Loads an object: its text from the base of the text region on, with zeros in the rest of the region, and its data.
///
/// Only `LoadFault::Memory` is answered, where a growth was refused.
pub fn load(object: Object) -> Result<Program, LoadFault>
    ensures { MatchResult result (λ program. Loads program object) (λ fault. fault ≡ LoadFault.Memory) }
{
    let (text, static_data) = object.into_sections();
    let text = fill_with_zeros(text, TEXT_LIMIT)?;
    Ok(Program { text, static_data })
}

fn fill_with_zeros(mut bytes: Vec<u8>, size: usize) -> Result<Vec<u8>, AllocError>
    requires { vec_len bytes ≤ size }
    ensures items { IfOk result (λ filled. filled.items ≡ zero_filled bytes.items size) }
    ensures len { IfOk result (λ filled. vec_len filled ≡ size) }
{
    bytes.resize(size, 0)?;
    Ok(bytes)
}
