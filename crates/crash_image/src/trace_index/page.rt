//! Lines of the medium that follow each other.

ghost use Rattle.crash_image.specs.Lines.{FitsLine, unstored};
ghost use Rattle.crash_image.specs.Tables.{HasRaised, HasStored, IsMade, page_lines};
ghost use Rattle.std.specs.Prelude.{◌≡◌, ◌<◌, length, replicate, slice_index_or, IfNone, IfOk, IfSome, OnErr, OnOk};

use crate::trace_index::line::{LineIndex, Stored};
use std::alloc::{AllocError, Global};
use std::marker::Model;

/// How many lines a page has.
pub const PAGE: u32 = 64;

/// As many lines of the medium. They are made when one of them is first stored to or cleaned.
///
/// A contract sees the lines.
#[derive(Drop)]
pub struct Page {
    lines: Vec<LineIndex>,
}

impl Model for Page {
    ghost use Rattle.crash_image.specs.Lines.{LineView};
    ghost use Rattle.crash_image.specs.Tables.{IsMade, page_lines};
    ghost use Rattle.std.specs.Prelude.{List};

    ghost Value = { List LineView };

    ghost view = { λ p. page_lines p.lines.items };

    ghost invariant = { λ p. IsMade p.lines.items };
}

impl Page {
    /// A page of which no line is stored to.
    pub fn new(alloc: Global) -> Page
        ensures { result ≡ replicate 64 unstored }
    {
        Page {
            lines: Vec::new(alloc),
        }
    }

    /// The line at this place, where the page is made.
    #[tactic(auto, using(crate::proofs::Paging::unmade_line, crate::proofs::Paging::made_line))]
    #[inline(always)]
    pub fn line(&self, at: usize) -> Option<&LineIndex>
        requires { at < 64 }
        ensures some { IfSome result (λ line. line.now ≡ slice_index_or self.now at unstored) }
        ensures none { IfNone result (slice_index_or self.now at unstored ≡ unstored) }
    {
        self.lines.get(at)
    }

    /// Adds a store of the line at this place, which started with `start`.
    #[tactic(auto, using(crate::proofs::Paging::made_whole, crate::proofs::Paging::set_whole))]
    pub fn store(
        &mut self,
        alloc: Global,
        at: usize,
        start: &[u8; 64],
        store: Stored,
    ) -> Result<(), AllocError>
        requires place { at < 64 }
        requires fits { FitsLine store }
        ensures stored { OnOk result (HasStored start.now store at self.old self.new) }
        ensures whole { length self.new ≡ 64 }
    {
        make(alloc, &mut self.lines)?;
        self.lines[at].store(start, store)?;
        Ok(())
    }

    /// Raises the floor of the line at this place to at least this one, by the fence of the event at that place.
    #[tactic(auto, using(crate::proofs::Paging::made_whole, crate::proofs::Paging::set_whole))]
    pub fn raise(
        &mut self,
        alloc: Global,
        at: usize,
        event: u32,
        floor: u32,
    ) -> Result<(), AllocError>
        requires place { at < 64 }
        ensures raised { OnOk result (HasRaised event floor at self.old self.new) }
        ensures whole { length self.new ≡ 64 }
    {
        make(alloc, &mut self.lines)?;
        self.lines[at].raise(event, floor)?;
        Ok(())
    }
}

/// Makes the lines of a page, unless they are made.
#[tactic(auto, using(crate::proofs::Paging::empty_page, crate::proofs::Paging::replicate_whole, crate::proofs::Paging::some_whole))]
fn make(alloc: Global, lines: &mut Vec<LineIndex>) -> Result<(), AllocError>
    requires { IsMade lines.old.items }
    ensures same { page_lines lines.new.items ≡ page_lines lines.old.items }
    ensures made { OnOk result (length lines.new.items ≡ 64) }
    ensures err { OnErr result (IsMade lines.new.items) }
{
    if lines.is_empty() {
        *lines = unstored_lines(alloc)?;
    }
    Ok(())
}

fn unstored_lines(alloc: Global) -> Result<Vec<LineIndex>, AllocError>
    ensures { IfOk result (λ made. made.items ≡ replicate 64 unstored) }
{
    let mut made = Vec::with_capacity(alloc, PAGE as usize)?;
    for _line in 0..PAGE {
        made.push(LineIndex::new(alloc))?;
    }
    Ok(made)
}
