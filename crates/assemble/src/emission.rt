//! The second pass over a source: the bytes of its sections.

ghost use Rattle.asm_lex.specs.Lines.{lines_of};
ghost use Rattle.assemble.specs.Appending.{AreNear};
ghost use Rattle.assemble.specs.Assembly.{AreBytesOf, lines_back, values_of};
ghost use Rattle.assemble.specs.Faults.{IsFirst, NoneHas, early_code, late_code};
ghost use Rattle.assemble.specs.Labels.{place_at};
ghost use Rattle.assemble.specs.declared.TheConstants.{SOURCE_LIMIT};
ghost use Rattle.program.specs.Sections.{AreWithinLimits};
ghost use Rattle.std.specs.Prelude.{◌≡◌, ◌≢◌, ◌≤◌, ℕ, List, length, IfErr, IfOk};

use crate::SOURCE_LIMIT;
use crate::asm_line::{AsmCode, Section, Statement, read_line};
use crate::bytes::append;
use crate::fault::AsmFault;
use crate::labels::Labels;
use crate::position::base;
use asm_lex::next_line;
use std::alloc::Global;

/// The bytes of both sections so far, and the section of the next line.
#[derive(Drop)]
pub(crate) struct Emission {
    pub(crate) section: Section,
    pub(crate) text: Vec<u8>,
    pub(crate) static_data: Vec<u8>,
}

impl Emission {
    ghost use Rattle.assemble.specs.Meanings.{meaning_of, IsInRange};
    ghost use Rattle.asm_lex.specs.declared.asm_names.kinds.Section.TheVariants.{Text};
    ghost use Rattle.assemble.specs.Emission.{Emits, HasRoom, IsEmitted};
    ghost use Rattle.assemble.specs.Faults.{code_of_label};
    ghost use Rattle.assemble.specs.Places.{base_of};
    ghost use Rattle.assemble.specs.Assembly.{bytes_in};
    ghost use Rattle.assemble.specs.Emission.{sections_in};
    ghost use Rattle.std.specs.Prelude.{◌+◌, ◌^◌, ◌∷◌, [], None, Some, OnOk};

    /// Nothing, at the start of a source.
    fn new(alloc: Global) -> Emission
        ensures section { result.section ≡ Text }
        ensures text { result.text.items ≡ [] }
        ensures static_data { result.static_data.items ≡ [] }
    {
        Emission {
            section: Section::Text,
            text: Vec::new(alloc),
            static_data: Vec::new(alloc),
        }
    }

    /// Adds the bytes of the next line, which has no fault but that of a label.
    fn emit_line(&mut self, alloc: Global, labels: &Labels, text: &[u8]) -> Result<(), AsmCode>
        requires room { HasRoom self.old }
        requires labels_near { AreNear (place_at labels.now) }
        ensures ok { OnOk result ((size : ℕ) (earlier : List (List ℕ)) → IsEmitted (place_at labels.now) earlier self.old
            → early_code size earlier text.now ≡ None → IsEmitted (place_at labels.now) (text.now ∷ earlier) self.new) }
        ensures none { OnOk result ((size : ℕ) (earlier : List (List ℕ)) → IsEmitted (place_at labels.now) earlier self.old
            → early_code size earlier text.now ≡ None → late_code (place_at labels.now) earlier text.now ≡ None) }
        ensures err { IfErr result (λ code. code ≢ AsmCode.Memory → (size : ℕ) (earlier : List (List ℕ)) → IsEmitted (place_at labels.now) earlier self.old
            → early_code size earlier text.now ≡ None → late_code (place_at labels.now) earlier text.now ≡ Some code) }
    {
        let line = read_line(alloc, text)?;
        self.emit(labels, &line.statement)
    }

    /// The place of the next line.
    fn place(&self) -> u32
        requires { HasRoom self.now }
        ensures value { result ≡ base_of self.now.section + length (bytes_in self.now.section (sections_in self.now)) }
        ensures near { result ≤ 2 ^ 21 }
    {
        let size = match self.section {
            Section::Text => self.text.len(),
            Section::Data => self.static_data.len(),
        };
        base(self.section) + size as u32
    }

    /// Adds the bytes of a statement.
    fn emit(&mut self, labels: &Labels, statement: &Statement) -> Result<(), AsmCode>
        requires room { HasRoom self.old }
        requires labels_near { AreNear (place_at labels.now) }
        requires in_range { IsInRange (meaning_of statement.now) }
        ensures ok { OnOk result (Emits (place_at labels.now) (meaning_of statement.now) self.old self.new) }
        ensures err { IfErr result (λ code. code ≢ AsmCode.Memory
            → code_of_label (place_at labels.now) (base_of self.old.section + length (bytes_in self.old.section (sections_in self.old))) (meaning_of statement.now) ≡ Some code) }
    {
        let place = self.place();
        match self.section {
            Section::Text => append(&mut self.text, labels, place, statement)?,
            Section::Data => append(&mut self.static_data, labels, place, statement)?,
        }
        if let Statement::Section(section) = statement {
            self.section = *section;
        }
        Ok(())
    }
}

/// The bytes of text and of data, or the first line with a label that is unknown or out of reach.
pub(crate) fn sections_of(
    alloc: Global,
    source: &[u8],
    labels: &Labels,
) -> Result<(Vec<u8>, Vec<u8>), AsmFault>
    requires fits { length source.now ≤ SOURCE_LIMIT }
    requires labels_are { place_at labels.now ≡ values_of source.now }
    requires none { NoneHas (early_code (length source.now)) (lines_back source.now) }
    ensures ok { IfOk result (λ sections. AreBytesOf (values_of source.now) (lines_back source.now) (record { text = sections.0.items; static_data = sections.1.items })) }
    ensures limits { IfOk result (λ sections. AreWithinLimits sections.0.items sections.1.items) }
    ensures err { IfErr result (λ fault. fault.code ≢ AsmCode.Memory → IsFirst (late_code (values_of source.now)) (lines_of source.now) fault) }
{
    let mut emission = Emission::new(alloc);
    let mut rest = source;
    let mut number = 1;
    while let Some((line, after)) = next_line(rest) {
        if let Err(code) = emission.emit_line(alloc, labels, line) {
            return Err(AsmFault { line: number, code });
        }
        number += 1;
        rest = after;
    }
    let Emission {
        text,
        static_data,
        ..
    } = emission;
    Ok((text, static_data))
}
