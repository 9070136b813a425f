//! The two layouts, by one description of what they differ in.

ghost use Rattle.std.specs.Prelude.{◌≡◌, IsTrue};
ghost use Rattle.nova_log.specs.Layouts.{shape_of};

/// How the pages of a volume are laid out.
#[derive(Clone, Copy, Debug, Drop, PartialEq, Eq)]
pub enum Layout {
    /// 63 entries of one line a page, names of up to 32 bytes.
    One,
    /// 31 entries of two lines a page, names of up to 96 bytes.
    Two,
}

/// What the layouts differ in.
#[derive(Clone, Copy, Debug, Drop, PartialEq, Eq)]
pub struct Shape {
    /// What a medium of this layout begins with.
    pub magic: [u8; 8],
    /// The bytes of an entry: one line or two.
    pub entry_size: u64,
    /// The entries of a page, after which its link line stands.
    pub page_entries: u64,
    /// The most bytes of a name.
    pub longest_name: u8,
}

impl Layout {
    /// The description of this layout.
    pub fn shape(self) -> Shape
        ensures { result ≡ shape_of self }
    {
        match self {
            Layout::One => Shape {
                magic: *b"NOVALOG1",
                entry_size: 64,
                page_entries: 63,
                longest_name: 32,
            },
            Layout::Two => Shape {
                magic: *b"NOVALOG2",
                entry_size: 128,
                page_entries: 31,
                longest_name: 96,
            },
        }
    }
}

impl Shape {
    /// Whether two shapes are the same.
    pub(crate) fn equals(&self, other: &Shape) -> bool
        ensures { IsTrue result → (self.now ≡ other.now) }
    {
        self.magic == other.magic
            && self.entry_size == other.entry_size
            && self.page_entries == other.page_entries
            && self.longest_name == other.longest_name
    }
}
