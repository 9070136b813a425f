//! The labels of a source.

ghost use Rattle.std.specs.Prelude.{◌≡◌, ◌≤◌, ◌^◌, ℕ, List, None, Some, OnOk, if◌then◌else◌};
ghost use Rattle.std.specs.Str.{bytes_eq};

use crate::asm_line::AsmCode;
use std::alloc::{AllocError, Global};
use std::collections::HashMap;

/// The labels that lines define, each with its place.
#[derive(Drop)]
pub struct Labels<'a> {
    places: HashMap<&'a [u8], u32>,
}

impl<'a> Labels<'a> {
    ghost use Rattle.assemble.specs.Appending.{AreNear};
    ghost use Rattle.assemble.specs.Faults.{is_defined};
    ghost use Rattle.assemble.specs.Labels.{noted, place_at, text_of};
    ghost use Rattle.assemble.specs.SourceLines.{distance};

    pub(crate) fn new(alloc: Global) -> Labels<'a>
        ensures { (text : List ℕ) → place_at result text ≡ None }
    {
        Labels {
            places: HashMap::new(alloc),
        }
    }

    /// The place of a label, if a line defines it.
    pub fn place(&self, label: &[u8]) -> Option<u32>
        ensures { result ≡ place_at self.now label.now }
    {
        self.places.get(&label).copied()
    }

    /// The distance in bytes from a place to a label.
    pub(crate) fn distance(&self, place: u32, label: &[u8]) -> Result<i32, AsmCode>
        requires near { place ≤ 2 ^ 21 }
        requires labels_near { AreNear (place_at self.now) }
        ensures { result ≡ distance (place_at self.now) place label.now }
    {
        let value = self.place(label).ok_or(AsmCode::UnknownLabel)?;
        Ok(value as i32 - place as i32)
    }

    /// Whether a line defines the label, if there is one.
    pub(crate) fn has(&self, label: Option<&[u8]>) -> bool
        ensures { result ≡ is_defined (place_at self.now) (text_of label.entry) }
    {
        match label {
            Some(label) => self.place(label).is_some(),
            None => false,
        }
    }

    /// Notes the label of a line at this place, if it has one.
    pub(crate) fn note(&mut self, label: Option<&'a [u8]>, place: u32) -> Result<(), AllocError>
        ensures { OnOk result ((text : List ℕ) → place_at self.new text ≡ noted (text_of label.entry) place (place_at self.old) text) }
    {
        match label {
            Some(label) => self.define(label, place),
            None => Ok(()),
        }
    }

    /// Notes that a label is defined at this place.
    fn define(&mut self, label: &'a [u8], place: u32) -> Result<(), AllocError>
        ensures { OnOk result ((text : List ℕ)
            → place_at self.new text ≡ (if bytes_eq label.entry.now text then Some place else place_at self.old text)) }
    {
        self.places.insert(label, place)?;
        Ok(())
    }
}
