//! Sections, and the widths of numbers.

ghost use Rattle.asm_lex.specs.Widths.{width_bytes};
ghost use Rattle.std.specs.Prelude.{◌≡◌};

/// A section of the object.
#[derive(Clone, Copy, Debug, PartialEq, Eq)]
pub enum Section {
    Text,
    Data,
}

/// How many bytes each number of a directive takes: `.byte`, `.half`, `.word` or `.dword`.
#[derive(Clone, Copy, Debug, PartialEq, Eq)]
pub enum NumberWidth {
    Byte,
    Half,
    Word,
    Doubleword,
}

impl NumberWidth {
    /// The width in bytes: 1, 2, 4 or 8.
    pub fn bytes(self) -> u32
        ensures { result ≡ width_bytes self }
    {
        match self {
            NumberWidth::Byte => 1,
            NumberWidth::Half => 2,
            NumberWidth::Word => 4,
            NumberWidth::Doubleword => 8,
        }
    }
}
