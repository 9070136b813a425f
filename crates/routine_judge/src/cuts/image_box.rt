//! Boxes of images.

ghost use Rattle.line_memory.specs.Lines.{line_at};
ghost use Rattle.recovery.specs.Boxes.{LiesWithin, alike, contents_of, unlike};
ghost use Rattle.routine_judge.specs.BoxViews.{IsBoxOfMedia, IsRest, first_image};
ghost use Rattle.std.specs.Prelude.{◌≡◌, ◌<◌, List, [], ◌∷◌, All, None, Some, IfOk, IsTrue, OnOk, length, map, replicate, slice_set};

use crate::cuts::contents::{Contents, are_among, split};
use line_memory::{LINE_SIZE, Medium};
use std::alloc::{AllocError, Global};
use std::marker::Model;
use std::slice;
use verdict::Question;

/// A set of images of which each line has one of some contents, whichever the other lines have. No line is without a content.
///
/// A contract sees the contents of each line.
#[derive(Drop)]
pub struct ImageBox<'a> {
    medium: &'a Medium,
    /// The contents of a line where they aren't just that of the medium.
    contents: Vec<Option<Contents>>,
}

impl<'a> Model for ImageBox<'a> {
    ghost use Rattle.routine_judge.specs.BoxViews.{IsBoxOfMedia, spread};
    ghost use Rattle.std.specs.Prelude.{◌≡◌, ℕ, List, length};

    ghost Value = { List (List (List ℕ)) };

    ghost view = { λ b. spread b.medium.now b.contents.items };

    ghost invariant = { λ b. (length b.contents.items ≡ length b.medium.now) × IsBoxOfMedia (spread b.medium.now b.contents.items) };
}

impl<'a> ImageBox<'a> {
    /// The box of a medium alone.
    #[tactic(auto, using(crate::proofs::Boxing::alone_spread, crate::proofs::Boxing::alone_box))]
    pub fn of(alloc: Global, medium: &'a Medium) -> Result<ImageBox<'a>, AllocError>
        ensures { IfOk result (λ images. images ≡ map (λ line. line ∷ []) medium.now) }
    {
        let lines = medium.lines();
        let contents = nothing_put(alloc, lines)?;
        Ok(ImageBox { medium, contents })
    }

    /// The number of lines.
    #[tactic(auto, using(crate::proofs::Boxing::length_spread))]
    pub fn lines(&self) -> u32
        ensures count { result ≡ length self.now }
        ensures whole { IsBoxOfMedia self.now }
    {
        // a look at the contents, for them to be known
        let _ = &self.contents;
        self.medium.lines()
    }

    /// The medium whose lines it has where it was given no others.
    #[tactic(auto, using(crate::proofs::Boxing::length_spread))]
    pub fn medium(&self) -> &'a Medium
        ensures { length result.now ≡ length self.now }
    {
        self.medium
    }

    /// The contents of a line.
    #[tactic(auto, using(crate::proofs::Boxing::spread_put, crate::proofs::Boxing::spread_own, crate::proofs::Boxing::length_spread, crate::proofs::Boxing::some_content, crate::proofs::Boxing::whole_contents))]
    pub fn contents(&self, line: u32) -> &[[u8; LINE_SIZE]]
        requires { line < length self.now }
        ensures value { result.now ≡ contents_of self.now line }
        ensures some { 0 < length result.now }
        ensures whole { All (λ bytes. length bytes ≡ 64) result.now }
    {
        match &self.contents[line as usize] {
            Some(contents) => contents.lines(),
            None => slice::from_ref(self.medium.read_line(line)),
        }
    }

    /// The first content of a line.
    #[tactic(auto, using(crate::proofs::Boxing::first_at))]
    pub fn first(&self, line: u32) -> &[u8; LINE_SIZE]
        requires { line < length self.now }
        ensures value { result.now ≡ line_at (first_image self.now) line }
        ensures whole { length result.now ≡ 64 }
    {
        &self.contents(line)[0]
    }

    /// The same box.
    pub fn copy(&self, alloc: Global) -> Result<ImageBox<'a>, AllocError>
        ensures { IfOk result (λ images. images ≡ self.now) }
    {
        let contents = all_copied(alloc, &self.contents)?;
        Ok(ImageBox {
            medium: self.medium,
            contents,
        })
    }

    /// Gives a line other contents, of which there is one.
    #[tactic(auto, using(crate::proofs::Boxing::spread_set, crate::proofs::Boxing::put_box, crate::proofs::Boxing::length_spread))]
    pub fn put(&mut self, line: u32, contents: Contents)
        requires there { line < length self.old }
        requires some { 0 < length contents }
        ensures { self.new ≡ slice_set self.old line contents }
    {
        // a look at them, for their length to be known
        let _ = contents.lines();
        self.contents[line as usize] = Some(contents);
    }

    /// Keeps the images that have the bytes of a question as the first one has them, and hands out the others, where there is one.
    pub fn split(
        &mut self,
        alloc: Global,
        question: Question,
    ) -> Result<Option<ImageBox<'a>>, AllocError>
        requires { question.line < length self.old }
        ensures kept { OnOk result (self.new ≡ alike self.old (first_image self.old) question) }
        ensures first { OnOk result (first_image self.new ≡ first_image self.old) }
        ensures rest { IfOk result (IsRest (unlike self.old (first_image self.old) question)) }
        ensures count { length self.new ≡ length self.old }
    {
        let first = *self.first(question.line);
        let (same, others) = split(alloc, self.contents(question.line), question.bytes, &first)?;
        if others.lines().is_empty() {
            return Ok(None);
        }
        let mut rest = self.copy(alloc)?;
        rest.put(question.line, others);
        self.put(question.line, same);
        Ok(Some(rest))
    }

    /// Whether each image is one of another box, of as many lines.
    #[tactic(auto, using(crate::proofs::Boxing::within_by_line))]
    pub fn is_within(&self, other: &ImageBox<'_>) -> bool
        requires { length other.now ≡ length self.now }
        ensures { IsTrue result → LiesWithin self.now other.now }
    {
        for line in 0..self.lines() {
            if !are_among(self.contents(line), other.contents(line)) {
                return false;
            }
        }
        true
    }
}

/// So many times nothing.
fn nothing_put(alloc: Global, lines: u32) -> Result<Vec<Option<Contents>>, AllocError>
    ensures { IfOk result (λ table. table.items ≡ replicate lines None) }
{
    let mut table = Vec::with_capacity(alloc, lines as usize)?;
    for _ in 0..lines {
        table.push(None)?;
    }
    Ok(table)
}

fn all_copied(
    alloc: Global,
    table: &[Option<Contents>],
) -> Result<Vec<Option<Contents>>, AllocError>
    ensures { IfOk result (λ copies. copies.items ≡ table.now) }
{
    let mut copies = Vec::with_capacity(alloc, table.len())?;
    for each in table {
        copies.push(copied(alloc, each)?)?;
    }
    Ok(copies)
}

fn copied(alloc: Global, contents: &Option<Contents>) -> Result<Option<Contents>, AllocError>
    ensures { IfOk result (λ copy. copy ≡ contents.now) }
{
    match contents {
        Some(contents) => {
            let copy = contents.copy(alloc)?;
            Ok(Some(copy))
        }
        None => Ok(None),
    }
}
