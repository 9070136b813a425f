//! Text and data: the memory of a program that a power cut loses.

ghost use Rattle.std.specs.Prelude.{◌≡◌, ◌≤◌, Some, None, length, IfOk, IfErr, IsOk, OnOk};
ghost use Rattle.line_memory.specs.Memory.{IsWidth, loaded_from, stored_to, fault_of};
ghost use Rattle.line_memory.specs.Regions.{RamView, IsRam, padded, ram_bytes};
ghost use Rattle.line_memory.specs.Places.{IsPlace, IsRefused, IsWithin, address_of};

use crate::bytes::{is_aligned, load_bytes, padded_bytes, store_bytes};
use crate::{DATA_BASE, DATA_SIZE, MediumFault, MemFault, TEXT_BASE, TEXT_SIZE};
use std::alloc::Global;
use std::marker::Model;

/// The text and data regions. Addresses are those of the whole address space.
#[derive(Drop)]
pub struct Ram {
    text: Vec<u8>,
    bytes: Vec<u8>,
}

impl Model for Ram {
    ghost use Rattle.line_memory.specs.Regions.{RamView, IsRam};

    ghost Value = { RamView };

    ghost view = { λ r. record { text = r.text.items; bytes = r.bytes.items } };

    ghost invariant = { λ r. IsRam (record { text = r.text.items; bytes = r.bytes.items }) };
}

/// Where an access to text or data begins, counted in bytes from the base of its region.
#[derive(Clone, Copy, Debug, PartialEq, Eq)]
pub enum RamPlace {
    Text(usize),
    Data(usize),
}

impl Ram {
    /// A program's text and data, with zeros past the bytes given.
    pub fn from_bytes(alloc: Global, text: &[u8], data: &[u8]) -> Result<Ram, MediumFault>
        requires text { length text.now ≤ TEXT_SIZE }
        requires bytes { length «data».now ≤ DATA_SIZE }
        ensures ok { IfOk result (λ ram. ram ≡ record {
          text = padded text.now TEXT_SIZE;
          bytes = padded «data».now DATA_SIZE;
        }) }
        ensures sound { IfOk result (λ ram. IsRam ram) }
        ensures err { IfErr result (λ fault. fault ≡ MediumFault.Memory) }
    {
        let text = padded_bytes(alloc, text, TEXT_SIZE as usize)?;
        let bytes = padded_bytes(alloc, data, DATA_SIZE as usize)?;
        Ok(Ram { text, bytes })
    }

    /// Where an access of `width` bytes at an address begins. Misaligned comes before Outside. A region's size is a multiple
    /// of each width, so the end of an aligned access need not be looked at.
    #[tactic(auto, using(crate::proofs::Accesses::ram_refused, crate::proofs::Accesses::ram_unfaulted))]
    #[inline(always)]
    pub fn place(&self, addr: u64, width: u32) -> Result<RamPlace, MemFault>
        requires { IsWidth width }
        ensures ok { IfOk result (λ found. IsPlace addr width found) }
        ensures no_fault { OnOk result (fault_of (ram_bytes self.now) addr width ≡ None) }
        ensures err { IfErr result (λ fault. fault_of (ram_bytes self.now) addr width ≡ Some fault) }
    {
        let text_end = TEXT_BASE + self.text.len() as u64;
        let data_end = DATA_BASE + self.bytes.len() as u64;
        if !is_aligned(addr, width) {
            Err(MemFault::Misaligned)
        } else if (TEXT_BASE..text_end).contains(&addr) {
            Ok(RamPlace::Text((addr - TEXT_BASE) as usize))
        } else if (DATA_BASE..data_end).contains(&addr) {
            Ok(RamPlace::Data((addr - DATA_BASE) as usize))
        } else {
            Err(MemFault::Outside)
        }
    }

    /// The number of the `width` bytes from a place on.
    #[inline(always)]
    pub fn load_at(&self, place: RamPlace, width: u32) -> u64
        requires width { IsWidth width }
        requires within { IsWithin width place }
        ensures { loaded_from (ram_bytes self.now) (address_of place) width ≡ Some result }
    {
        match place {
            RamPlace::Text(at) => load_bytes(&self.text, at, width as usize),
            RamPlace::Data(at) => load_bytes(&self.bytes, at, width as usize),
        }
    }

    /// Writes the low `width` bytes of `value` from a place on.
    pub fn store_at(&mut self, place: RamPlace, width: u32, value: u64)
        requires width { IsWidth width }
        requires within { IsWithin width place }
        ensures bytes { ram_bytes self.new ≡ stored_to (ram_bytes self.old) (address_of place) width value }
        ensures sound { IsRam self.new }
    {
        match place {
            RamPlace::Text(at) => store_bytes(&mut self.text, at, width as usize, value),
            RamPlace::Data(at) => store_bytes(&mut self.bytes, at, width as usize, value),
        }
    }

    /// The number of the `width` bytes at an address. Misaligned comes before Outside.
    pub fn load(&self, addr: u64, width: u32) -> Result<u64, MemFault>
        requires { IsWidth width }
        ensures ok { IfOk result (λ value. (fault_of (ram_bytes self.now) addr width ≡ None)
            × (loaded_from (ram_bytes self.now) addr width ≡ Some value)) }
        ensures err { IfErr result (λ fault. fault_of (ram_bytes self.now) addr width ≡ Some fault) }
    {
        let place = self.place(addr, width)?;
        Ok(self.load_at(place, width))
    }

    /// Writes the low `width` bytes of `value` at an address. A refused store changes nothing.
    pub fn store(&mut self, addr: u64, width: u32, value: u64) -> Result<(), MemFault>
        requires { IsWidth width }
        ensures ok { IfOk result (λ _. (fault_of (ram_bytes self.old) addr width ≡ None)
            × (ram_bytes self.new ≡ stored_to (ram_bytes self.old) addr width value)) }
        ensures err { IfErr result (λ fault. (fault_of (ram_bytes self.old) addr width ≡ Some fault)
            × (self.new ≡ self.old)) }
        ensures sound { IsOk result → IsRam self.new }
    {
        let place = self.place(addr, width)?;
        self.store_at(place, width, value);
        Ok(())
    }

    /// The byte at an address; None outside of text and data.
    #[tactic(auto, using(crate::proofs::Accesses::none_peeked))]
    pub fn peek(&self, addr: u64) -> Option<u8>
        ensures { result ≡ ram_bytes self.now addr }
    {
        match self.place(addr, 1) {
            Ok(RamPlace::Text(at)) => Some(self.text[at]),
            Ok(RamPlace::Data(at)) => Some(self.bytes[at]),
            Err(_) => None,
        }
    }

    /// The bytes of the whole text region, as they stand.
    pub fn text(&self) -> &[u8]
        ensures value { result.now ≡ self.now.text }
        ensures whole { length result.now ≡ TEXT_SIZE }
        ensures sound { IsRam self.now }
    {
        self.text.as_slice()
    }
}
