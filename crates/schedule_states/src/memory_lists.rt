//! Lists of held lines, each by its number.

ghost use Rattle.std.specs.Prelude.{◌≡◌, ◌⊎◌, ◌^◌, ◌++◌, ◌∷◌, ◌<◌, List, Some, [], length, map, slice_get, IfOk, IfSome};
ghost use Rattle.schedule_states.specs.HeldLines.{lists_in};
ghost use Rattle.schedule_states.specs.Numbers.{AreKept};
ghost use Rattle.schedule_states.specs.Sizes.{list_bytes};
ghost use Rattle.schedule_states.specs.declared.held_lines.HeldLine.{HeldLine as AHeldLine};

use crate::held_lines::HeldLine;
use crate::laws::equal_lists_are_same;
use crate::numbers::{Numbers, grown, wide};
use std::alloc::{AllocError, Global};
use std::marker::Model;

/// Lists of held lines, by their numbers. A number stays that of its list. Each stands there once, but for those that a look has found.
#[derive(Drop)]
pub struct MemoryLists<'a> {
    lists: Lists<'a>,
    /// How many lines they hold in all.
    lines: u64,
}

/// Whose the lists are.
#[derive(Drop)]
enum Lists<'a> {
    /// Each once.
    Own(Numbers<'static, Vec<HeldLine>>),
    /// Lent for a look, and those behind them that it has found.
    Lent(&'a Numbers<'static, Vec<HeldLine>>, Vec<Vec<HeldLine>>),
}

impl<'a> Model for MemoryLists<'a> {
    ghost use Rattle.std.specs.Prelude.{◌≡◌, List};
    ghost use Rattle.schedule_states.specs.HeldLines.{lists_in};
    ghost use Rattle.schedule_states.specs.Sizes.{lines_in};
    ghost use Rattle.schedule_states.specs.declared.held_lines.HeldLine.{HeldLine as AHeldLine};

    ghost Value = { List (List AHeldLine) };

    ghost view = { λ m. lists_in m.lists };

    ghost invariant = { λ m. m.lines ≡ lines_in (lists_in m.lists) };
}

impl<'a> MemoryLists<'a> {
    /// None.
    pub fn new(alloc: Global) -> MemoryLists<'a>
        ensures { result ≡ [] }
    {
        MemoryLists {
            lists: Lists::Own(Numbers::new(alloc)),
            lines: 0,
        }
    }

    /// The same lists, lent for a look, which may find further ones; None where they are lent themselves.
    pub fn lent(&self, alloc: Global) -> Option<MemoryLists<'_>>
        ensures { IfSome result (λ lent. lent ≡ self.now) }
    {
        match &self.lists {
            Lists::Own(lists) => Some(MemoryLists {
                lists: Lists::Lent(lists, Vec::new(alloc)),
                lines: self.lines,
            }),
            Lists::Lent(_, _) => None,
        }
    }

    /// How many there are.
    pub fn count(&self) -> usize
        ensures { result ≡ length self.now }
    {
        self.lists.count()
    }

    /// The list of a number.
    pub fn list(&self, number: u32) -> &[HeldLine]
        requires { number < length self.now }
        ensures { slice_get self.now number ≡ Some result.now }
    {
        let at = number as usize;
        let (lists, further) = self.lists.parts();
        let lists = lists.as_slice();
        if at < lists.len() {
            return lists[at].as_slice();
        }
        further[at - lists.len()].as_slice()
    }

    /// The number of a list, which is a new one where it has none yet; a look knows of its own lists the last one alone. Over 2^32 lists count
    /// as out of memory.
    pub fn number_of(&mut self, list: Vec<HeldLine>) -> Result<u32, AllocError>
        ensures kept { AreKept self.old self.new }
        ensures appended { (self.new ≡ self.old) ⊎ (self.new ≡ self.old ++ list.items ∷ []) }
        ensures number { IfOk result (λ number. slice_get self.new number ≡ Some list.items) }
    {
        let lines = grown(self.lines, list.len())?;
        let known = self.lists.count();
        let number = self.lists.number_of(list);
        if self.lists.count() > known {
            self.lines = lines;
        }
        number
    }

    /// How many bytes they hold.
    pub fn bytes(&self) -> u128
        ensures bytes { result ≡ list_bytes self.now }
        ensures few { result < 2 ^ 72 }
    {
        56 * self.count() as u128 + 8 * wide(self.lines)
    }
}

impl<'a> Lists<'a> {
    /// The lists that stand there once, and those behind them that a look has found.
    fn parts(&self) -> (&Numbers<'static, Vec<HeldLine>>, &[Vec<HeldLine>])
        ensures lists { lists_in self.now ≡ map (λ list. list.items) (result.0.now ++ result.1.now) }
        ensures few { length result.1.now < 2 ^ 63 }
    {
        match self {
            Lists::Own(lists) => (lists, &[]),
            Lists::Lent(lists, further) => (*lists, further.as_slice()),
        }
    }

    /// How many there are.
    fn count(&self) -> usize
        ensures { result ≡ length (lists_in self.now) }
    {
        let (lists, further) = self.parts();
        lists.count() + further.len()
    }

    /// The number of a list, which is a new one where it has none yet.
    fn number_of(&mut self, list: Vec<HeldLine>) -> Result<u32, AllocError>
        ensures appended { (lists_in self.new ≡ lists_in self.old) ⊎ (lists_in self.new ≡ lists_in self.old ++ list.items ∷ []) }
        ensures number { IfOk result (λ number. slice_get (lists_in self.new) number ≡ Some list.items) }
    {
        equal_lists_are_same();
        match self {
            Lists::Own(lists) => lists.number_of(list),
            Lists::Lent(lists, further) => number_behind(lists, further, list),
        }
    }
}

/// The number of a list among those that are lent, and else of a further one behind those that a look has found.
fn number_behind(
    lists: &Numbers<'_, Vec<HeldLine>>,
    further: &mut Vec<Vec<HeldLine>>,
    list: Vec<HeldLine>,
) -> Result<u32, AllocError>
    ensures appended { (further.new.items ≡ further.old.items) ⊎ (further.new.items ≡ further.old.items ++ list ∷ []) }
    ensures number { IfOk result (λ number. slice_get (map (λ list. list.items) (lists.now ++ further.new.items)) number ≡ Some list.items) }
{
    equal_lists_are_same();
    if let Some(number) = lists.known(&list) {
        return Ok(number);
    }
    if let Some(place) = last_place(further, &list) {
        return number_at(lists.count() + place);
    }
    let number = number_at(lists.count() + further.len())?;
    further.push(list)?;
    Ok(number)
}

/// The place of a list among those that a look has found, where it is the last one: most requests of a hart's own leave the list as it is.
fn last_place(further: &[Vec<HeldLine>], list: &Vec<HeldLine>) -> Option<usize>
    ensures { IfSome result (λ place. slice_get (map (λ list. list.items) further.now) place ≡ Some list.now.items) }
{
    equal_lists_are_same();
    let place = further.len().checked_sub(1)?;
    if further[place] == *list {
        Some(place)
    } else {
        None
    }
}

/// A place as a number. One past 2^32 counts as out of memory.
fn number_at(place: usize) -> Result<u32, AllocError>
    ensures { IfOk result (λ number. number ≡ place) }
{
    u32::try_from(place).or(Err(AllocError))
}
