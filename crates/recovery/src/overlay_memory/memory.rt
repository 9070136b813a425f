//! Text, data and persistent memory as one flat memory over an image.

ghost use Rattle.std.specs.Prelude.{◌≡◌, ◌*◌, ◌%◌, ◌^◌, ◌<◌, ◌≤◌, ℕ, None, Some, length, slice_get, IfOk, IfErr, OnOk, OnErr};
ghost use Rattle.line_memory.specs.Memory.{IsWidth, fault_of, loaded_from, stored_to};
ghost use Rattle.line_memory.specs.declared.TheConstants.{TEXT_SIZE};
ghost use Rattle.recovery.specs.Held.{IsOver};
ghost use Rattle.line_memory.specs.Places.{IsOutside};
ghost use Rattle.recovery.specs.Regions.{bytes_of};
ghost use Rattle.recovery.specs.Memory.{IsBelow, IsAtStart, IsSame, IsWithin, address_of, memory_of};

use crate::overlay::{Held, Source};
use crate::overlay_memory::region::Region;
use line_memory::{
    DATA_BASE, DATA_SIZE, LINE_SIZE, MediumFault, MemFault, PERSISTENT_BASE, TEXT_BASE, TEXT_SIZE,
};
use program::Program;
use std::alloc::{AllocError, Global};
use std::marker::Model;

/// Where an access begins, counted in bytes from the base of its region.
#[derive(Clone, Copy, Debug, PartialEq, Eq)]
pub enum Place {
    Text(u32),
    Data(u32),
    /// In persistent memory, whose lines are those of an image.
    Image(u32),
}

/// The flat memory of a program over the lines of an image. A call is given the image that it is over: the same one each time,
/// until the memory is set back.
#[derive(Drop)]
pub struct HeldMemory {
    program: Program,
    text: Region,
    bytes: Region,
    image: Held,
}

impl Model for HeldMemory {
    ghost use Rattle.recovery.specs.Memory.{HeldView, IsSound};

    ghost Value = { HeldView };

    ghost view = { λ h. record { program = h.program; text = h.text; bytes = h.bytes; image = h.image } };

    ghost invariant = { λ h. IsSound (record { program = h.program; text = h.text; bytes = h.bytes; image = h.image }) };
}

impl HeldMemory {
    /// The memory of a program over images of so many lines, at its start. The fault is Memory.
    pub fn new(alloc: Global, program: Program, lines: u32) -> Result<HeldMemory, MediumFault>
        ensures program { IfOk result (λ held. held.program ≡ program) }
        ensures start { IfOk result (λ held. IsAtStart held lines) }
        ensures err { IfErr result (λ fault. fault ≡ MediumFault.Memory) }
    {
        let text = Region::new(alloc, program.text_bytes(), TEXT_SIZE as u32)?;
        let bytes = Region::new(alloc, program.data_bytes(), DATA_SIZE as u32)?;
        let image = Held::new(alloc, lines)?;
        Ok(HeldMemory {
            program,
            text,
            bytes,
            image,
        })
    }

    /// The bytes of the text region as they are at the start.
    pub fn starting_text(&self) -> &[u8]
        ensures text { result.now ≡ self.now.program.text }
        ensures size { length result.now ≡ TEXT_SIZE }
    {
        self.program.text_bytes()
    }

    /// Reads the bytes of the text region as they are.
    pub fn read_text(&self, into: &mut [u8])
        requires { length into.old ≡ TEXT_SIZE }
        ensures bytes { (offset : ℕ) → offset < TEXT_SIZE → slice_get into.new offset ≡ bytes_of self.now.text offset }
        ensures count { length into.new ≡ TEXT_SIZE }
    {
        self.text.read(into);
    }

    /// Where an access of `width` bytes at an address begins. Misaligned comes before Outside. A region's size is a multiple of
    /// each width, so the end of an aligned access need not be looked at.
    pub fn place<S: Source>(&self, image: &S, address: u64, width: u32) -> Result<Place, MemFault>
        requires over { IsOver self.now.image (S.medium image.now) }
        requires width { IsWidth width }
        ensures within { IfOk result (λ place. IsWithin self.now width place) }
        ensures address { IfOk result (λ place. address ≡ address_of place) }
        ensures no_fault { OnOk result (fault_of (memory_of self.now (S.medium image.now)) address width ≡ None) }
        ensures low { OnOk result (address < 2 ^ 38) }
        ensures err { IfErr result (λ fault. fault_of (memory_of self.now (S.medium image.now)) address width ≡ Some fault) }
    {
        // a look at the regions, for their sizes to be known
        let _ = &self.text;
        if address % u64::from(width) != 0 {
            return Err(MemFault::Misaligned);
        }
        if address < PERSISTENT_BASE {
            return place_below(address);
        }
        let offset = address - PERSISTENT_BASE;
        if offset >= LINE_SIZE as u64 * u64::from(image.lines()) {
            return Err(MemFault::Outside);
        }
        Ok(Place::Image(offset as u32))
    }

    /// The number of the `width` bytes from a place on.
    pub fn load<S: Source>(&self, image: &S, place: Place, width: u32) -> u64
        requires over { IsOver self.now.image (S.medium image.now) }
        requires width { IsWidth width }
        requires within { IsWithin self.now width place }
        ensures { loaded_from (memory_of self.now (S.medium image.now)) (address_of place) width ≡ Some result }
    {
        match place {
            Place::Text(offset) => self.text.load(offset, width),
            Place::Data(offset) => self.bytes.load(offset, width),
            Place::Image(offset) => self.image.load(image, offset, width),
        }
    }

    /// Writes the low `width` bytes of `value` from a place on. Where memory is refused nothing changes.
    pub fn store<S: Source>(
        &mut self,
        image: &S,
        place: Place,
        width: u32,
        value: u64,
    ) -> Result<(), AllocError>
        requires over { IsOver self.old.image (S.medium image.now) }
        requires width { IsWidth width }
        requires within { IsWithin self.old width place }
        ensures ok { OnOk result (memory_of self.new (S.medium image.now)
            ≡ stored_to (memory_of self.old (S.medium image.now)) (address_of place) width value) }
        ensures over { IsOver self.new.image (S.medium image.now) }
        ensures same { IsSame self.old self.new }
        ensures err { OnErr result (self.new ≡ self.old) }
    {
        match place {
            Place::Text(offset) => self.text.store(offset, width, value),
            Place::Data(offset) => self.bytes.store(offset, width, value),
            Place::Image(offset) => self.image.store(image, offset, width, value),
        }
    }

    /// The byte at an address; None outside the regions.
    pub fn peek<S: Source>(&self, image: &S, address: u64) -> Option<u8>
        requires over { IsOver self.now.image (S.medium image.now) }
        ensures { result ≡ memory_of self.now (S.medium image.now) address }
    {
        match self.place(image, address, 1) {
            Ok(Place::Text(offset)) => Some(self.text.peek(offset)),
            Ok(Place::Data(offset)) => Some(self.bytes.peek(offset)),
            Ok(Place::Image(offset)) => Some(self.image.peek(image, offset)),
            Err(_) => None,
        }
    }

    /// The memory is that at the start again, over any image. No memory is taken.
    pub fn set_back(&mut self)
        ensures start { IsAtStart self.new (length self.old.image) }
        ensures same { IsSame self.old self.new }
    {
        self.text.set_back();
        self.bytes.set_back();
        self.image.set_back();
    }
}

/// Where an aligned access below persistent memory begins.
fn place_below(address: u64) -> Result<Place, MemFault>
    ensures within { IfOk result (λ place. IsBelow place) }
    ensures address { IfOk result (λ place. address ≡ address_of place) }
    ensures low { OnOk result (address < 2 ^ 38) }
    ensures err { IfErr result (λ fault. (fault ≡ MemFault.Outside) × IsOutside address) }
{
    if (TEXT_BASE..TEXT_BASE + TEXT_SIZE).contains(&address) {
        Ok(Place::Text((address - TEXT_BASE) as u32))
    } else if (DATA_BASE..DATA_BASE + DATA_SIZE).contains(&address) {
        Ok(Place::Data((address - DATA_BASE) as u32))
    } else {
        Err(MemFault::Outside)
    }
}
