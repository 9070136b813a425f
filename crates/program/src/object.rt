//! An object: the bytes of a text and of a data section, and its file.

ghost use Rattle.std.specs.Prelude.{◌≡◌, ◌≢◌, ℕ, List, IfErr, IfOk, IsErrOf, IsOkUnless};
ghost use Rattle.program.specs.ObjectFile.{IsFirstFault, IsObjectFile};
ghost use Rattle.program.specs.Sections.{AreWithinLimits, Sections};
ghost use Rattle.program.specs.declared.fault.LoadFault.{LoadFault};

use crate::fault::LoadFault;
use crate::file;
use std::alloc::Global;
use std::marker::Model;

/// What the bytes of a file say, they say alone: a law, with nothing to run.
///
/// No two objects have one file, no file has a fault, and no bytes have two faults that are found first.
pub fn one_reading()
    ensures object { (bytes : List ℕ) (object other : Sections) → IsObjectFile bytes object → IsObjectFile bytes other → object ≡ other }
    ensures no_fault { (bytes : List ℕ) (object : Sections) (fault : LoadFault) → IsObjectFile bytes object → ¬ IsFirstFault bytes fault }
    ensures fault { (bytes : List ℕ) (fault other : LoadFault) → IsFirstFault bytes fault → IsFirstFault bytes other → fault ≡ other }
{}

/// The bytes of a text of whole words and of a data section, each within its limit.
#[derive(Drop)]
pub struct Object {
    text: Vec<u8>,
    static_data: Vec<u8>,
}

impl Model for Object {
    ghost Value = { Sections };

    ghost view = { λ o. record { text = o.text.items; static_data = o.static_data.items } };

    ghost invariant = { λ o. AreWithinLimits o.text.items o.static_data.items };
}

impl Object {
    /// The object of these sections.
    pub fn new(text: Vec<u8>, static_data: Vec<u8>) -> Object
        requires { AreWithinLimits text.items static_data.items }
        ensures text { result.text ≡ text.items }
        ensures static_data { result.static_data ≡ static_data.items }
    {
        Object { text, static_data }
    }

    /// Reads the file of an object: `RVXPROG1`, the lengths of text and data as little-endian `u32`, text and data.
    ///
    /// Bytes that are no such file are refused by the first of these faults: `Magic`, of which a short input shows as
    /// much as it has; `Truncated` for the header; `TooLarge`; `TextLength`; `Truncated` for the sections; `Trailing`.
    /// Only a file is refused by `Memory`.
    #[tactic(auto, using(crate::proofs::Files::no_fault))]
    pub fn read(alloc: Global, bytes: &[u8]) -> Result<Object, LoadFault>
        ensures ok { IfOk result (λ object. IsObjectFile bytes.now object) }
        ensures err { IfErr result (λ fault. fault ≢ LoadFault.Memory → IsFirstFault bytes.now fault) }
        ensures memory { IsErrOf result LoadFault.Memory → (object : Sections) × IsObjectFile bytes.now object }

        // The same from the bytes: what is a file is read, and each fault is answered where it is the first.
        ensures file { (object : Sections) → IsObjectFile bytes.now object → IfOk result (λ found. found ≡ object) × IsOkUnless result LoadFault.Memory }
        ensures fault { (fault : LoadFault) → IsFirstFault bytes.now fault → IsErrOf result fault }
    {
        let (text, static_data) = file::sections(bytes)?;
        let text = Vec::from_slice(alloc, text)?;
        let static_data = Vec::from_slice(alloc, static_data)?;
        Ok(Object::new(text, static_data))
    }

    /// The object's file, which `read` reads as this object again.
    pub fn to_bytes(&self, alloc: Global) -> Result<Vec<u8>, LoadFault>
        ensures file { IfOk result (λ bytes. IsObjectFile bytes.items self.now) }
        ensures memory { IsOkUnless result LoadFault.Memory }
    {
        let header = file::header_bytes(self.text.len() as u32, self.static_data.len() as u32);
        let size = header.len() + self.text.len() + self.static_data.len();
        let mut bytes = Vec::with_capacity(alloc, size)?;
        bytes.extend_from_slice(&header)?;
        bytes.extend_from_slice(&self.text)?;
        bytes.extend_from_slice(&self.static_data)?;
        Ok(bytes)
    }

    /// The bytes of the text section.
    pub fn text_bytes(&self) -> &[u8]
        ensures text { result.now ≡ self.now.text }
        ensures limits { AreWithinLimits self.now.text self.now.static_data }
    {
        &self.text
    }

    /// The bytes of the data section.
    pub fn data_bytes(&self) -> &[u8]
        ensures static_data { result.now ≡ self.now.static_data }
        ensures limits { AreWithinLimits self.now.text self.now.static_data }
    {
        &self.static_data
    }

    /// The bytes of both sections, text first.
    pub fn into_sections(self) -> (Vec<u8>, Vec<u8>)
        ensures text { result.0.items ≡ self.text }
        ensures static_data { result.1.items ≡ self.static_data }
        ensures limits { AreWithinLimits self.text self.static_data }
    {
        let Object { text, static_data } = self;
        (text, static_data)
    }
}
