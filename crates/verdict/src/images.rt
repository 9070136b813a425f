//! Crash images by line, whatever they come from.

/// The images that a power cut may leave. A cut gives each line a number, from the line's lowest to its highest, and so its content.
pub trait Images {
    ghost use Rattle.line_memory.specs.Lines.{IsMedium, line_at};
    ghost use Rattle.std.specs.Prelude.{◌≡◌, ◌<◌, ◌≤◌, ℕ, List, length};

    /// How many lines the medium has.
    ghost lines: { Self → ℕ };

    /// The lowest number of each line.
    ghost low: { Self → ℕ → ℕ };

    /// The highest number of each line.
    ghost high: { Self → ℕ → ℕ };

    /// The image of a cut.
    ghost image: { Self → (ℕ → ℕ) → List (List ℕ) };

    /// How many lines the medium has.
    fn lines(&self) -> u32
        ensures { result ≡ lines self.now };

    /// The lowest number of a line.
    fn lowest(&self, line: u32) -> u32
        requires { line < lines self.now }
        ensures { result ≡ low self.now line };

    /// The highest number of a line.
    fn highest(&self, line: u32) -> u32
        requires { line < lines self.now }
        ensures { result ≡ high self.now line };

    /// The bytes of a line in the image of each cut that gives it this number.
    fn line(&self, line: u32, number: u32) -> &[u8; 64]
        requires line { line < lines self.now }
        requires number { number ≤ high self.now line }
        ensures { (cut : ℕ → ℕ) → cut line ≡ number → result.now ≡ line_at (image self.now cut) line };

    ghost ordered: { (s : Self) (l : ℕ) → low s l ≤ high s l };

    /// The image of each cut, also of one past the bounds, is a medium
    ghost whole: { (s : Self) (cut : ℕ → ℕ) → IsMedium (image s cut) };

    /// of so many lines.
    ghost count: { (s : Self) (cut : ℕ → ℕ) → length (image s cut) ≡ lines s };

    /// A line's number alone decides its bytes.
    ghost by_line: { (s : Self) (cut other : ℕ → ℕ) (l : ℕ) → other l ≡ cut l → line_at (image s other) l ≡ line_at (image s cut) l };
}
