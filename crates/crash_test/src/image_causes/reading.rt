//! The lines that a recovery reads.

ghost use Rattle.crash_test.specs.Told.{IsAsked};

use line_memory::Medium;
use nova_log::{MediumLines, VolumeFault, recover_from};
use std::alloc::{AllocError, Global};

/// A recovery of crash images, of which only the lines that it reads are asked.
pub trait Reader {
    ghost use Rattle.std.specs.Prelude.{ℕ, List, IfOk};

    /// Of this image it reads these lines, in any order, and one maybe more than once.
    ghost reads: { Self → List (List ℕ) → List ℕ → Type 0 };

    /// The lines that it reads of an image.
    ///
    /// # Errors
    /// A growth was refused.
    fn lines_read(&self, alloc: Global, image: &Medium) -> Result<Vec<u32>, AllocError>
        ensures { IfOk result (λ lines. reads self.now image.now lines.items) };
}

/// The recovery of log volumes.
#[derive(Drop)]
pub struct LogReader;

impl Reader for LogReader {
    ghost reads = { λ _ image lines. IsAsked image lines };

    /// In the order in which it asks for them, up to the first fault that it finds.
    fn lines_read(&self, alloc: Global, image: &Medium) -> Result<Vec<u32>, AllocError> {
        let mut source = MediumLines::new(alloc, image);
        match recover_from(alloc, &mut source) {
            Err(VolumeFault::Memory) => Err(AllocError),
            Ok(_) | Err(_) => Vec::from_slice(alloc, source.asked()),
        }
    }
}
