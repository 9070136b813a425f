//! Where lines come from.

ghost use Rattle.std.specs.Prelude.{◌≡◌, ◌<◌, length};
ghost use Rattle.line_memory.specs.Lines.{line_at, IsMedium};

use line_memory::{LINE_SIZE, Medium, PaddedLines};
use verdict::{CutImage, Images};

/// The lines of a medium, which no call changes.
pub trait Source {
    ghost use Rattle.std.specs.Prelude.{ℕ, List};

    /// The medium.
    ghost medium: { Self → List (List ℕ) };

    /// The number of lines.
    fn lines(&self) -> u32
        ensures count { result ≡ length (medium self.now) }
        ensures whole { IsMedium (medium self.now) };

    /// The bytes of a line.
    fn line(&self, line: u32) -> &[u8; LINE_SIZE]
        requires { line < length (medium self.now) }
        ensures value { result.now ≡ line_at (medium self.now) line }
        ensures whole { length result.now ≡ 64 };
}

impl Source for Medium {
    ghost medium = { λ m. m };

    fn lines(&self) -> u32 {
        Medium::lines(self)
    }

    fn line(&self, line: u32) -> &[u8; LINE_SIZE] {
        self.read_line(line)
    }
}

impl Source for PaddedLines {
    ghost medium = { λ m. m };

    fn lines(&self) -> u32 {
        PaddedLines::lines(self)
    }

    fn line(&self, line: u32) -> &[u8; LINE_SIZE] {
        self.read_line(line)
    }
}

impl<I: Images> Source for CutImage<'_, '_, I> {
    ghost medium = { λ i. i };

    fn lines(&self) -> u32 {
        CutImage::lines(self)
    }

    fn line(&self, line: u32) -> &[u8; LINE_SIZE] {
        CutImage::line(self, line)
    }
}
