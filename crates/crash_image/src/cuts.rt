//! The cuts of a moment and their images.

ghost use Rattle.crash_image.specs.Bounds.{stored_bounds};
ghost use Rattle.crash_image.specs.Named.{HasLinesOf, IsNameOf, IsNamed, IsTable, cut_over, named_cut, raised as raised_of};
ghost use Rattle.crash_image.specs.LeastCut.{IsLeastCut};
ghost use Rattle.crash_image.specs.View.{HasLines};
ghost use Rattle.crash_image.specs.declared.bounds.LineBounds.{LineBounds as OneLine};
ghost use Rattle.store_trace.specs.Cut.{IsCut, cut_count, cuts, number_in};
ghost use Rattle.store_trace.specs.Image.{image};
ghost use Rattle.text.specs.declared.image_name.name.ImageName.TheVariants as names;
ghost use Rattle.line_memory.specs.Lines.{IsMedium, line_at};
ghost use Rattle.store_trace.specs.History.{at_moment};
ghost use Rattle.std.specs.Prelude.{◌≡◌, ℕ, ◌↔◌, ◌<◌, ◌≤◌, ◌*◌, [], List, length, map, slice_index_or, IfOk, IfSome, IsNone, IsErrOf, IfErr, IsTrue, OnOk};

use crate::ImageFault;
use crate::bounds::{LineBounds, floors, line_bounds, product};
use crate::cut::{fits, number_of, numbered};
use crate::images::imaged;
use crate::line::bytes_after;
use crate::named::{entries_over, number, raised, renumber};
use crate::search::find_least;
use line_memory::Medium;
use std::alloc::Global;
use std::marker::Model;
use store_trace::{Event, Trace};
use text::{Cut, ImageName};

/// The cuts of a moment of a trace, and their images over a starting medium.
///
/// A contract sees the starting lines, and the persistence steps of the moment, the newest first.
#[derive(Drop)]
pub struct Cuts<'a> {
    medium: &'a Medium,
    events: &'a [Event],
    bounds: Vec<LineBounds>,
}

impl<'a> Model for Cuts<'a> {
    ghost use Rattle.std.specs.Prelude.{◌≡◌, ◌≤◌, All, length};
    ghost use Rattle.store_trace.specs.History.{history};
    ghost use Rattle.store_trace.specs.TraceView.{IsEvent};
    ghost use Rattle.crash_image.specs.Bounds.{stored_bounds};
    ghost use Rattle.crash_image.specs.View.{CutsView, HasLines};

    ghost Value = { CutsView };

    ghost view = { λ c. record { start = c.medium.now; steps = history c.events.now } };

    ghost invariant = { λ c. (length c.events.now ≤ 65536) × All IsEvent c.events.now
        × HasLines c.medium.now c.events.now × (c.bounds.items ≡ stored_bounds (history c.events.now)) };
}

impl<'a> Cuts<'a> {
    /// The cuts of the state after the first `moment` events. The medium is the one that the trace started
    /// from. NoSuchMoment exactly past the last event.
    pub fn at(
        alloc: Global,
        medium: &'a Medium,
        trace: &'a Trace,
        moment: u32,
    ) -> Result<Cuts<'a>, ImageFault>
        requires { HasLines medium.now trace.now.events }
        ensures ok { IfOk result (λ cuts. (cuts.start ≡ medium.now)
            × (cuts.steps ≡ at_moment trace.now.events moment)) }
        ensures moment { IsErrOf result ImageFault.NoSuchMoment ↔ (length trace.now.events < moment) }
        ensures cut { ¬ IsErrOf result ImageFault.NotACut }
    {
        let events = trace.events();
        if moment as usize > events.len() {
            return Err(ImageFault::NoSuchMoment);
        }
        let events = &events[..moment as usize];
        let bounds = line_bounds(alloc, events, medium.lines())?;
        Ok(Cuts {
            medium,
            events,
            bounds,
        })
    }

    /// How many cuts there are: the product of how many numbers each stored line can stand at.
    /// None exactly above 65,536.
    #[tactic(auto, using(crate::proofs::Counting::product_stored, crate::proofs::Counting::stored_ordered))]
    pub fn count(&self) -> Option<u32>
        ensures some { IfSome result (λ count. (count ≡ cut_count self.now.steps) × (count ≤ 65536)) }
        ensures none { IsNone result ↔ (65536 < cut_count self.now.steps) }
    {
        product(&self.bounds)
    }

    /// The cut of number `n`, which lies below the count. Cuts are numbered from 0 in lexicographic order,
    /// the lowest line first, so the highest line varies fastest.
    #[tactic(auto, using(crate::proofs::Counting::product_stored, crate::proofs::Counting::stored_ordered, crate::proofs::Numbering::cut_at))]
    pub fn cut(&self, alloc: Global, n: u32) -> Result<Cut, ImageFault>
        requires { n < cut_count self.now.steps }
        ensures ok { IfOk result (λ cut. cut ≡ slice_index_or (cuts self.now.steps) n []) }
        ensures bounds { IfOk result (λ cut. IsCut self.now.steps cut) }
        ensures err { IfErr result (λ fault. fault ≡ ImageFault.Memory) }
    {
        let entries = numbered(alloc, &self.bounds, n)?;
        Ok(Cut::from_entries(entries))
    }

    /// Whether the cut is one of this moment: of just the stored lines, each within its bounds.
    #[tactic(auto, using(crate::proofs::Numbering::cut_from_fits, crate::proofs::Numbering::fits_from_cut))]
    pub fn contains(&self, cut: &Cut) -> bool
        ensures { IsTrue result ↔ IsCut self.now.steps cut.now }
    {
        fits(&self.bounds, cut.entries())
    }

    /// The image of the cut of number `n`, which lies below the count.
    pub fn image(&self, alloc: Global, n: u32) -> Result<Medium, ImageFault>
        requires { n < cut_count self.now.steps }
        ensures ok { IfOk result (λ m.
            m ≡ image self.now.start (number_in (slice_index_or (cuts self.now.steps) n [])) self.now.steps) }
        ensures whole { IfOk result (λ m. IsMedium m) }
        ensures err { IfErr result (λ fault. fault ≡ ImageFault.Memory) }
    {
        let cut = self.cut(alloc, n)?;
        self.image_by(alloc, cut.entries())
    }

    /// The image of the cut. NotACut exactly where it isn't a cut of this moment.
    #[tactic(auto, using(crate::proofs::Numbering::cut_from_fits, crate::proofs::Numbering::fits_from_cut))]
    pub fn image_of(&self, alloc: Global, cut: &Cut) -> Result<Medium, ImageFault>
        ensures ok { IfOk result (λ m. m ≡ image self.now.start (number_in cut.now) self.now.steps) }
        ensures bounds { OnOk result (IsCut self.now.steps cut.now) }
        ensures whole { IfOk result (λ m. IsMedium m) }
        ensures cut { IsErrOf result ImageFault.NotACut ↔ ¬ IsCut self.now.steps cut.now }
        ensures moment { ¬ IsErrOf result ImageFault.NoSuchMoment }
    {
        if !self.contains(cut) {
            return Err(ImageFault::NotACut);
        }
        self.image_by(alloc, cut.entries())
    }

    /// How many lines the starting medium has, and so each image.
    #[tactic(auto, using(crate::proofs::Lined::image_is_medium))]
    pub fn lines(&self) -> u32
        ensures count { result ≡ length self.now.start }
        ensures whole { (numbers : ℕ → ℕ) → IsMedium (image self.now.start numbers self.now.steps) }
    {
        self.medium.lines()
    }

    /// One line of the image of the cut, without the others. [`Cuts::contains`] tells which cuts are of this moment.
    pub fn line(&self, cut: &Cut, line: u32) -> [u8; 64]
        requires there { line < length self.now.start }
        requires cut { IsCut self.now.steps cut.now }
        ensures { result ≡ line_at (image self.now.start (number_in cut.now) self.now.steps) line }
    {
        let number = number_of(cut.entries(), line);
        bytes_after(self.medium.read_line(line), line, number, self.events)
    }

    /// The least cut whose image is `medium`, and None where it is the image of no cut, as a medium with
    /// another number of lines is. Lines are compared, and no image but one is made.
    pub fn find(&self, alloc: Global, medium: &Medium) -> Result<Option<Cut>, ImageFault>
        ensures ok { IfOk result (λ found. IsLeastCut self.now.start self.now.steps medium.now found) }
        ensures err { IfErr result (λ fault. fault ≡ ImageFault.Memory) }
    {
        if medium.lines() != self.medium.lines() {
            return Ok(None);
        }
        let floors = floors(alloc, &self.bounds)?;
        self.find_from(alloc, medium, &floors)
    }

    /// The least cut whose image is `medium`, of as many lines, where these are the floors of the stored lines.
    fn find_from(
        &self,
        alloc: Global,
        medium: &Medium,
        floors: &[(u32, u32)],
    ) -> Result<Option<Cut>, ImageFault>
        requires lines { length medium.now ≡ length self.now.start }
        requires floors { floors.now ≡ map (λ (b : OneLine). (b.line, b.floor)) (stored_bounds self.now.steps) }
        ensures ok { IfOk result (λ found. IsLeastCut self.now.start self.now.steps medium.now found) }
        ensures err { IfErr result (λ fault. fault ≡ ImageFault.Memory) }
    {
        match find_least(alloc, self.medium, medium, self.events, floors)? {
            Some(entries) => Ok(Some(Cut::from_entries(entries))),
            None => Ok(None),
        }
    }

    /// The cut in which each stored line has the number that the table gives it, and its floor where the table has 0 there
    /// or lacks the line.
    pub fn cut_over(&self, alloc: Global, numbers: &[u32]) -> Result<Cut, ImageFault>
        requires { IsTable self.now.steps numbers.now }
        ensures ok { IfOk result (λ cut. cut ≡ cut_over self.now.steps numbers.now) }
        ensures bounds { IfOk result (λ cut. IsCut self.now.steps cut) }
        ensures err { IfErr result (λ fault. fault ≡ ImageFault.Memory) }
    {
        let entries = entries_over(alloc, &self.bounds, numbers)?;
        Ok(Cut::from_entries(entries))
    }

    /// The number of the cut, where there are at most 65,536 cuts.
    pub fn number(&self, cut: &Cut) -> u32
        requires cut { IsCut self.now.steps cut.now }
        requires few { cut_count self.now.steps ≤ 65536 }
        ensures there { result < cut_count self.now.steps }
        ensures cut { cut.now ≡ slice_index_or (cuts self.now.steps) result [] }
    {
        number(&self.bounds, cut.entries())
    }

    /// The lines of the cut that stand above their floor, with their numbers.
    pub fn raised(&self, alloc: Global, cut: &Cut) -> Result<Cut, ImageFault>
        requires { IsCut self.now.steps cut.now }
        ensures ok { IfOk result (λ lines. lines ≡ raised_of self.now.steps cut.now) }
        ensures err { IfErr result (λ fault. fault ≡ ImageFault.Memory) }
    {
        let lines = raised(alloc, &self.bounds, cut.entries())?;
        Ok(Cut::from_entries(lines))
    }

    /// The cut in which these lines have these numbers and the others stand at their floors. NotACut exactly where one of them has no
    /// store, or a number lies outside its line's bounds. Of two numbers of one line the first counts.
    pub fn cut_of_lines(&self, alloc: Global, lines: &Cut) -> Result<Cut, ImageFault>
        ensures ok { IfOk result (λ cut. cut ≡ named_cut self.now.steps lines.now) }
        ensures bounds { IfOk result (λ cut. IsCut self.now.steps cut) }
        ensures lines { OnOk result (HasLinesOf self.now.steps lines.now) }
        ensures cut { IsErrOf result ImageFault.NotACut
            → HasLinesOf self.now.steps lines.now → ¬ IsCut self.now.steps (named_cut self.now.steps lines.now) }
        ensures moment { ¬ IsErrOf result ImageFault.NoSuchMoment }
    {
        let mut entries = floors(alloc, &self.bounds)?;
        if !renumber(&mut entries, lines.entries()) {
            return Err(ImageFault::NotACut);
        }
        let cut = Cut::from_entries(entries);
        if !self.contains(&cut) {
            return Err(ImageFault::NotACut);
        }
        Ok(cut)
    }

    /// The name of the cut: its number where there are at most 65,536 cuts, else its lines above their floor.
    pub fn name(&self, alloc: Global, cut: &Cut) -> Result<ImageName, ImageFault>
        requires { IsCut self.now.steps cut.now }
        ensures ok { IfOk result (λ name. IsNameOf self.now.steps cut.now name) }
        ensures err { IfErr result (λ fault. fault ≡ ImageFault.Memory) }
    {
        match self.count() {
            Some(_) => Ok(ImageName::Number(self.number(cut))),
            None => {
                let lines = self.raised(alloc, cut)?;
                Ok(ImageName::Cut(lines))
            }
        }
    }

    /// The cut of this name. NotACut exactly where no cut of this moment is named so.
    pub fn named(&self, alloc: Global, name: &ImageName) -> Result<Cut, ImageFault>
        ensures ok { IfOk result (λ cut. IsNamed self.now.steps name.now cut) }
        ensures cut { IsErrOf result ImageFault.NotACut
            → (cut : List (ℕ × ℕ)) → ¬ IsNamed self.now.steps name.now cut }
        ensures moment { ¬ IsErrOf result ImageFault.NoSuchMoment }

        // A number is looked at before anything grows: memory is answered only for one that names a cut.
        ensures memory { (n : ℕ) → name.now ≡ names.Number n → IsErrOf result ImageFault.Memory
            → (cut : List (ℕ × ℕ)) × IsNamed self.now.steps (names.Number n) cut }
    {
        match name {
            ImageName::Number(number) => self.cut_of_number(alloc, *number),
            ImageName::Cut(lines) => self.cut_of_lines(alloc, lines),
        }
    }

    /// The cut of number `n`. NotACut exactly where there are over 65,536 cuts, or no more than `n`.
    fn cut_of_number(&self, alloc: Global, n: u32) -> Result<Cut, ImageFault>
        ensures ok { IfOk result (λ cut. IsNamed self.now.steps (names.Number n) cut) }
        ensures cut { IsErrOf result ImageFault.NotACut
            → (cut : List (ℕ × ℕ)) → ¬ IsNamed self.now.steps (names.Number n) cut }
        ensures moment { ¬ IsErrOf result ImageFault.NoSuchMoment }
        ensures memory { IsErrOf result ImageFault.Memory
            → (cut : List (ℕ × ℕ)) × IsNamed self.now.steps (names.Number n) cut }
    {
        match self.count() {
            Some(count) if n < count => self.cut(alloc, n),
            _ => Err(ImageFault::NotACut),
        }
    }

    fn image_by(&self, alloc: Global, entries: &[(u32, u32)]) -> Result<Medium, ImageFault>
        requires { IsCut self.now.steps entries.now }
        ensures ok { IfOk result (λ m. m ≡ image self.now.start (number_in entries.now) self.now.steps) }
        ensures whole { IfOk result (λ m. IsMedium m) }
        ensures err { IfErr result (λ fault. fault ≡ ImageFault.Memory) }
    {
        imaged(alloc, self.medium, self.events, entries)
    }
}
