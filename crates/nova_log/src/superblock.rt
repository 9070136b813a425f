//! The first line of a volume.

ghost use Rattle.std.specs.Prelude.{◌≡◌, ◌⊎◌, ◌∷◌, [], Some, None, length, IfErr, IfOk, IsTrue};
ghost use Rattle.nova_log.specs.Questions.{IsStopped, IsThrough};
ghost use Rattle.nova_log.specs.Superblocks.{IsGeometry, geometry_in, geometry_of, layout_of, superblock_fault, superblock_question};

use crate::make::are_counts;
use crate::source::LineSource;
use crate::{Layout, Shape, VolumeFault};
use line_memory::{LINE_SIZE, load_bytes};

/// How a volume is laid out, and its counts.
#[derive(Clone, Copy, Drop)]
pub struct Geometry {
    /// What its layout has of its own.
    pub shape: Shape,
    /// The inodes, 1 to 64.
    pub inodes: u64,
    /// The pages, at least one for each inode and at most 240.
    pub pages: u64,
    /// The journals, 1 to 8.
    pub journals: u64,
}

impl Geometry {
    /// Whether two geometries are the same.
    pub(crate) fn equals(&self, other: &Geometry) -> bool
        ensures { IsTrue result → (self.now ≡ other.now) }
    {
        self.shape.equals(&other.shape)
            && self.inodes == other.inodes
            && self.pages == other.pages
            && self.journals == other.journals
    }
}

/// Asks for the first line.
#[tactic(auto, using(crate::proofs::Questions::through_one, crate::proofs::Questions::stopped_one))]
pub(crate) fn read_superblock<S: LineSource>(source: &mut S) -> Result<Geometry, VolumeFault>
    ensures same { S.medium source.new ≡ S.medium source.old }
    ensures geometry { IfOk result (λ geometry. geometry ≡ geometry_of (S.medium source.old)) }
    ensures sound { IfOk result (λ geometry. IsGeometry geometry (length (S.medium source.old))) }
    ensures ok { IfOk result (λ _. IsThrough (superblock_question (S.medium source.old) ∷ []) (S.asked source.old) (S.asked source.new)) }
    ensures err { IfErr result (λ fault. (fault ≡ VolumeFault.Memory)
        ⊎ IsStopped (superblock_question (S.medium source.old) ∷ []) fault (S.asked source.old) (S.asked source.new)) }
{
    let lines = source.lines();
    let line = source.line(0)?;
    geometry_on(&line, lines)
}

/// What a first line says, on a medium of so many lines.
#[tactic(auto, using(crate::proofs::Superblocks::counts_fit_true, crate::proofs::Superblocks::counts_fit_false, crate::proofs::Chains::shape_is), unfolding(crate::specs::Superblocks::geometry_in, crate::specs::Superblocks::superblock_fault))]
fn geometry_on(line: &[u8; LINE_SIZE], lines: u32) -> Result<Geometry, VolumeFault>
    requires { length line.now ≡ 64 }
    ensures geometry { IfOk result (λ geometry. geometry ≡ geometry_in line.now) }
    ensures sound { IfOk result (λ geometry. IsGeometry geometry lines) }
    ensures ok { IfOk result (λ _. superblock_fault line.now lines ≡ None) }
    ensures err { IfErr result (λ fault. superblock_fault line.now lines ≡ Some fault) }
{
    let Some(layout) = named_layout(line) else {
        return Err(VolumeFault::Magic);
    };
    let geometry = Geometry {
        shape: layout.shape(),
        inodes: load_bytes(line, 8, 8),
        pages: load_bytes(line, 16, 8),
        journals: load_bytes(line, 24, 8),
    };
    if !are_counts(geometry.inodes, geometry.pages, geometry.journals, lines) {
        return Err(VolumeFault::Counts);
    }
    Ok(geometry)
}

/// The layout that a first line's magic names.
fn named_layout(line: &[u8; LINE_SIZE]) -> Option<Layout>
    ensures { result ≡ layout_of line.now }
{
    if line.starts_with(b"NOVALOG1") {
        Some(Layout::One)
    } else if line.starts_with(b"NOVALOG2") {
        Some(Layout::Two)
    } else {
        None
    }
}
