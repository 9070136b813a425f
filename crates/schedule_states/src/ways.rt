//! Where requests lead from states, by the numbers of states alone, and from which of them one can come to an end.
//!
//! Source: Clarke, Grumberg, Peled, Model Checking, 1999: what is marked back from where it holds is AG EF's inner part.

ghost use Rattle.std.specs.Prelude.{◌≡◌, ◌++◌, ◌∷◌, ◌<◌, ◌≤◌, ◌^◌, ℕ, [], None, Some, false, true, All, length, slice_get, IfSome, OnOk};
ghost use Rattle.schedule_states.specs.Ways.{AreInside, AreKeptMarks, AreMarkedBack, IsMarked, IsMarkedBack, IsOneMarked, IsWay, LeadsOut, unmarked, walked};

use std::alloc::{AllocError, Global};

/// Of each state that was judged, in order, those to which the requests of harts 0 to 7 lead: itself, where a hart makes none. They are kept
/// where it is asked whether each state has a way out.
#[derive(Drop)]
pub struct Ways {
    pub asked: bool,
    pub next: Vec<[u32; 8]>,
}

impl Ways {
    /// Of no state yet.
    pub fn new(alloc: Global, asked: bool) -> Ways
        ensures asked { result.asked ≡ asked }
        ensures none { result.next.items ≡ [] }
    {
        Ways {
            asked,
            next: Vec::new(alloc),
        }
    }

    /// Notes where requests lead from the next state, if it is asked for.
    pub fn note(&mut self, to: [u32; 8]) -> Result<(), AllocError>
        ensures asked { self.new.asked ≡ self.old.asked }
        ensures noted { OnOk result (self.old.asked ≡ true → self.new.next.items ≡ self.old.next.items ++ to ∷ []) }
    {
        if self.asked {
            self.next.push(to)?;
        }
        Ok(())
    }
}

/// The first state from which ways lead to none of those that are marked. All from which they do are marked then.
pub fn first_stuck(next: &[[u32; 8]], marks: &mut [bool]) -> Option<u32>
    requires count { length marks.old ≡ length next.now }
    requires few { length next.now < 2 ^ 32 }
    requires inside { AreInside next.now }
    ensures none { result ≡ None → (n : ℕ) → n < length next.now → LeadsOut next.now marks.old n }
    ensures stuck { IfSome result (λ number. ¬ LeadsOut next.now marks.old number) }
    ensures first { IfSome result (λ number. (n : ℕ) → n < number → LeadsOut next.now marks.old n) }
{
    mark_back(next, marks);
    first_unmarked(marks)
}

/// Marks each state from which ways lead to a marked one.
fn mark_back(next: &[[u32; 8]], marks: &mut [bool])
    requires count { length marks.old ≡ length next.now }
    requires inside { AreInside next.now }
    ensures sound { (n : ℕ) → IsMarked marks.new n → LeadsOut next.now marks.old n }
    ensures kept { AreKeptMarks marks.old marks.new }
    ensures back { AreMarkedBack next.now marks.new }
    ensures count { length marks.new ≡ length marks.old }
{
    // most requests lead to later states, so few passes are needed
    'passes: while mark_pass(next, marks) {}
}

/// Marks states from the last one to the first, and says whether it has marked one. If not, no way leads to a marked state from one that isn't.
fn mark_pass(next: &[[u32; 8]], marks: &mut [bool]) -> bool
    requires count { length marks.old ≡ length next.now }
    requires inside { AreInside next.now }
    ensures sound { (n : ℕ) → IsMarked marks.new n → LeadsOut next.now marks.old n }
    ensures kept { AreKeptMarks marks.old marks.new }
    ensures more { result ≡ true → unmarked marks.new < unmarked marks.old }
    ensures back { result ≡ false → AreMarkedBack next.now marks.new }
    ensures count { length marks.new ≡ length marks.old }
{
    let mut has_marked = false;
    let count = next.len();
    for behind in 0..count {
        if mark_one(next, marks, count - 1 - behind) {
            has_marked = true;
        }
    }
    has_marked
}

/// Marks a state from which a way leads to a marked one, unless it is marked, and says whether it has.
fn mark_one(next: &[[u32; 8]], marks: &mut [bool], number: usize) -> bool
    requires count { length marks.old ≡ length next.now }
    requires inside { AreInside next.now }
    requires there { number < length next.now }
    ensures marked { result ≡ true → IsOneMarked next.now marks.old marks.new number }
    ensures still { result ≡ false → (marks.new ≡ marks.old) × IsMarkedBack next.now marks.old number }
    ensures count { length marks.new ≡ length marks.old }
{
    if marks[number] {
        return false;
    }
    if !leads_to_mark(next, marks, number) {
        return false;
    }
    marks[number] = true;
    true
}

/// Whether a way leads from the state to a marked one.
fn leads_to_mark(next: &[[u32; 8]], marks: &[bool], number: usize) -> bool
    requires count { length marks.now ≡ length next.now }
    requires inside { AreInside next.now }
    requires there { number < length next.now }
    ensures found { result ≡ true → (hart : ℕ) × (m : ℕ) × IsWay next.now number hart m × IsMarked marks.now m }
    ensures none { result ≡ false → (hart m : ℕ) → IsWay next.now number hart m → IsMarked marks.now m → ⊥ }
{
    let to = next[number];
    for hart in 0..8 {
        if marks[to[hart] as usize] {
            return true;
        }
    }
    false
}

/// The first state that isn't marked.
fn first_unmarked(marks: &[bool]) -> Option<u32>
    requires few { length marks.now < 2 ^ 32 }
    ensures none { result ≡ None → (n : ℕ) → n < length marks.now → IsMarked marks.now n }
    ensures unmarked { IfSome result (λ number. slice_get marks.now number ≡ Some false) }
    ensures first { IfSome result (λ number. (n : ℕ) → n < number → IsMarked marks.now n) }
{
    for number in 0..marks.len() {
        if !marks[number] {
            return Some(number as u32);
        }
    }
    None
}

/// The state to which these requests lead from the first one.
pub fn arrives(next: &[[u32; 8]], requests: &[u32]) -> u32
    requires some { 0 < length next.now }
    requires inside { AreInside next.now }
    requires harts { All (λ hart. hart < 8) requests.now }
    ensures { result ≡ walked next.now 0 requests.now }
{
    let mut at = 0;
    for hart in requests {
        at = next[at as usize][*hart as usize];
    }
    at
}
