//! The lines of the medium, by pages.

ghost use Rattle.crash_image.specs.Lines.{FitsLine, unstored};
ghost use Rattle.crash_image.specs.Tables.{HasRaised, HasStored};
ghost use Rattle.std.specs.Prelude.{◌≡◌, ◌<◌, ◌≤◌, [], length, slice_index_or, All, IfNone, IfOk, IfSome, OnOk};

use crate::trace_index::line::{LineIndex, Stored};
use crate::trace_index::page::{PAGE, Page};
use std::alloc::{AllocError, Global};
use std::marker::Model;

/// The lines of the medium by pages, so that a large medium takes little where few of its lines are stored to or cleaned.
///
/// A contract sees the lines.
#[derive(Drop)]
pub struct LineTable {
    pages: Vec<Page>,
}

impl Model for LineTable {
    ghost use Rattle.crash_image.specs.Lines.{LineView};
    ghost use Rattle.crash_image.specs.Tables.{table_lines};
    ghost use Rattle.std.specs.Prelude.{◌≡◌, List, length};
    ghost use Rattle.std.specs.List.{AllByRecursion};

    ghost Value = { List LineView };

    ghost view = { λ t. table_lines t.pages.items };

    ghost invariant = { λ t. AllByRecursion (λ page. length page ≡ 64) t.pages.items };
}

impl LineTable {
    /// At least so many lines, of which none is stored to.
    pub fn new(alloc: Global, lines: u32) -> Result<LineTable, AllocError>
        ensures size { IfOk result (λ table. lines ≤ length table) }
        ensures stores { IfOk result (λ table. All (λ line. line.stores ≡ []) table) }
        ensures raises { IfOk result (λ table. All (λ line. line.raises ≡ []) table) }
    {
        let count = lines.div_ceil(PAGE);
        let mut pages = Vec::with_capacity(alloc, count as usize)?;
        for _page in 0..count {
            pages.push(Page::new(alloc))?;
        }
        Ok(LineTable { pages })
    }

    /// A line, where its page is made.
    #[inline(always)]
    pub fn line(&self, line: u32) -> Option<&LineIndex>
        requires { line < length self.now }
        ensures some { IfSome result (λ index. index.now ≡ slice_index_or self.now line unstored) }
        ensures none { IfNone result (slice_index_or self.now line unstored ≡ unstored) }
    {
        self.pages[(line / PAGE) as usize].line((line % PAGE) as usize)
    }

    /// Adds a store of the line, which started with `start`.
    pub fn store(
        &mut self,
        alloc: Global,
        line: u32,
        start: &[u8; 64],
        store: Stored,
    ) -> Result<(), AllocError>
        requires line { line < length self.old }
        requires fits { FitsLine store }
        ensures { OnOk result (HasStored start.now store line self.old self.new) }
    {
        self.pages[(line / PAGE) as usize].store(alloc, (line % PAGE) as usize, start, store)?;
        Ok(())
    }

    /// Raises the floor of the line to at least this one, by the fence of the event at that place.
    pub fn raise(
        &mut self,
        alloc: Global,
        line: u32,
        event: u32,
        floor: u32,
    ) -> Result<(), AllocError>
        requires { line < length self.old }
        ensures { OnOk result (HasRaised event floor line self.old self.new) }
    {
        self.pages[(line / PAGE) as usize].raise(alloc, (line % PAGE) as usize, event, floor)?;
        Ok(())
    }
}
