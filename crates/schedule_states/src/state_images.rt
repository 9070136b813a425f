//! The images that a power cut may leave in a state of a search.

ghost use Rattle.std.specs.Prelude.{◌≡◌, ◌<◌, ◌≤◌, ℕ, length, IfSome, IsTrue};
ghost use Rattle.line_memory.specs.Lines.{IsMedium, line_at};
ghost use Rattle.schedule_states.specs.Images.{AreFair, IsFair, content_of, highest_in, image_in, line_in};
ghost use Rattle.schedule_states.specs.Memories.{MemoryView};

use crate::line_state::{Content, LineState};
use crate::state_memory::StateMemory;
use line_memory::LINE_SIZE;
use std::marker::Model;

/// The most contents of a line beside what loads find.
const MOST_OTHERS: usize = 65_535;

/// The images that a power cut may leave in a state: each line of the medium has one of its contents, by number. Content 0 is what loads find.
#[derive(Drop)]
pub struct StateImages<'a, 'b> {
    memory: StateMemory<'a, 'b>,
}

impl<'a, 'b> Model for StateImages<'a, 'b> {
    ghost use Rattle.line_memory.specs.Lines.{IsMedium};
    ghost use Rattle.schedule_states.specs.Images.{AreFair};
    ghost use Rattle.schedule_states.specs.Memories.{MemoryView};

    ghost Value = { MemoryView };

    ghost view = { λ i. i.memory };

    ghost invariant = { λ i. AreFair i.memory × IsMedium i.memory.start.medium };
}

impl<'a, 'b> StateImages<'a, 'b> {
    /// The images of a state's memory; None where a line has over 65,536 contents.
    #[tactic(auto, using(crate::proofs::Imaging::fair_lines))]
    pub fn new(memory: StateMemory<'a, 'b>) -> Option<StateImages<'a, 'b>>
        ensures { IfSome result (λ images. images ≡ memory.entry) }
    {
        let _ = memory.medium();
        for one in memory.held() {
            if !is_fair(memory.line_state(one.state)) {
                return None;
            }
        }
        Some(StateImages { memory })
    }

    /// How many lines the medium has.
    pub fn lines(&self) -> u32
        ensures { result ≡ length self.now.start.medium }
    {
        self.memory.medium().lines()
    }

    /// The highest number of a content of a line of the medium.
    pub fn highest(&self, line: u32) -> u32
        ensures { result ≡ highest_in self.now line }
    {
        match self.memory.state_of_medium(line) {
            Some(state) => state.others.len() as u32,
            None => 0,
        }
    }

    /// A content of a line of the medium.
    pub fn content(&self, line: u32, number: u32) -> &[u8; LINE_SIZE]
        requires line { line < length self.now.start.medium }
        requires number { number ≤ highest_in self.now line }
        ensures { result.now ≡ content_of (line_at self.now.start.medium line) (line_in self.now line) number }
    {
        let Some(state) = self.memory.state_of_medium(line) else {
            return self.memory.medium().read_line(line);
        };
        match number {
            0 => &state.bytes,
            number => &state.others[number as usize - 1].bytes,
        }
    }

    /// Whatever content each line has, it is a medium.
    #[tactic(auto, using(crate::proofs::Imaging::image_is_medium))]
    pub fn are_media(&self)
        ensures { (k : ℕ → ℕ) → IsMedium (image_in self.now k) }
    {
        // a look at the memory, for what holds of it to be known
        let _ = &self.memory;
    }
}

/// Whether a line has at most so many contents that a number of 32 bits tells them apart.
fn is_fair(state: &LineState) -> bool
    ensures { IsTrue result → IsFair state.now }
{
    if state.others.len() > MOST_OTHERS {
        return false;
    }
    state.bytes();
    for content in &state.others {
        is_whole(content);
    }
    true
}

/// Each content has 64 bytes.
fn is_whole(content: &Content) -> bool
    ensures { length content.now.bytes ≡ 64 }
{
    content.bytes.len() == LINE_SIZE
}
