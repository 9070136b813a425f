//! Where the pages of a volume lie, and the most that a volume has.

/// The offset of the first page, in bytes from the start of the medium.
pub(crate) const FIRST_PAGE: u64 = 16_384;
/// The bytes of a page.
pub(crate) const PAGE_SIZE: u64 = 4096;
/// The most inodes of a volume.
pub const MAX_INODES: u32 = 64;
/// The most pages of a volume.
pub const MAX_PAGES: u32 = 240;
/// The most journals of a volume.
pub const MAX_JOURNALS: u32 = 8;
