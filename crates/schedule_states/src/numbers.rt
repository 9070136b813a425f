//! Values, each once, by its number.

ghost use Rattle.std.specs.Prelude.{◌^◌, ◌<◌, ◌≡◌, ◌⊎◌, ◌+◌, ◌++◌, ◌∷◌, [], length, IfOk, IfSome};
ghost use Rattle.schedule_states.specs.Numbers.{AreKept, HasNumber, values_in};

use indexmap::IndexSet;
use std::alloc::{AllocError, Global};
use std::hash::Hash;
use std::marker::Model;

/// Values, each once, by its number. A number stays that of its value.
#[derive(Drop)]
pub struct Numbers<'a, T: Eq + Hash> {
    values: Table<'a, T>,
}

/// Where the values stand.
#[derive(Drop)]
enum Table<'a, T: Eq + Hash> {
    Own(IndexSet<T>),
    /// Lent for a look: to these no value is added.
    Lent(&'a IndexSet<T>),
}

impl<'a, T: Eq + Hash> Model for Numbers<'a, T> {
    ghost use Rattle.schedule_states.specs.Numbers.{values_in};
    ghost use Rattle.std.specs.Prelude.{List};

    ghost Value = { List T };

    ghost view = { λ n. values_in n.values };
}

impl<'a, T: Eq + Hash + Drop> Numbers<'a, T> {
    /// None.
    pub fn new(alloc: Global) -> Numbers<'a, T>
        ensures { result ≡ [] }
    {
        Numbers {
            values: Table::Own(IndexSet::new(alloc)),
        }
    }

    /// The same values, lent for a look: one that has no number there gets none, as if memory were refused for it.
    pub fn lent(&self) -> Numbers<'_, T>
        ensures { result ≡ self.now }
    {
        Numbers {
            values: Table::Lent(self.values.set()),
        }
    }

    /// The values, by their numbers.
    pub fn as_slice(&self) -> &[T]
        ensures { result.now ≡ self.now }
    {
        self.values.set().as_slice()
    }

    /// The number of a value, if it has one.
    pub fn known(&self, value: &T) -> Option<u32>
        ensures { IfSome result (λ number. HasNumber T.eq self.now number value.now) }
    {
        let number = number_in(self.values.set(), value)?;
        u32::try_from(number).ok()
    }

    /// How many values there are.
    pub fn count(&self) -> usize
        ensures count { result ≡ length self.now }
        ensures few { result < 2 ^ 63 }
    {
        self.values.set().len()
    }

    /// The number of a value, which is a new one where it has none yet. Over 2^32 values count as out of memory.
    pub fn number_of(&mut self, value: T) -> Result<u32, AllocError>
        ensures kept { AreKept self.old self.new }
        ensures appended { (self.new ≡ self.old) ⊎ (self.new ≡ self.old ++ value ∷ []) }
        ensures number { IfOk result (λ number. HasNumber T.eq self.new number value) }
    {
        let number = self.values.number_of(value)?;
        if number > u32::MAX as usize {
            return Err(AllocError);
        }
        Ok(number as u32)
    }
}

impl<'a, T: Eq + Hash + Drop> Table<'a, T> {
    fn set(&self) -> &IndexSet<T>
        ensures { result.now.keys ≡ values_in self.now }
    {
        match self {
            Table::Own(values) => values,
            Table::Lent(values) => values,
        }
    }

    #[tactic(auto, using(crate::proofs::Looking::inserted, crate::proofs::Looking::kept_inserted))]
    fn number_of(&mut self, value: T) -> Result<usize, AllocError>
        ensures kept { AreKept (values_in self.old) (values_in self.new) }
        ensures appended { (values_in self.new ≡ values_in self.old) ⊎ (values_in self.new ≡ values_in self.old ++ value ∷ []) }
        ensures number { IfOk result (λ number. HasNumber T.eq (values_in self.new) number value) }
    {
        match self {
            Table::Own(values) => Ok(values.insert_full(value)?.0),
            Table::Lent(values) => number_in(values, &value).ok_or(AllocError),
        }
    }
}

/// The number that a value has among those of a set.
fn number_in<T: Eq + Hash>(values: &IndexSet<T>, value: &T) -> Option<usize>
    ensures { IfSome result (λ number. HasNumber T.eq values.now.keys number value.now) }
{
    let (number, _found) = values.get_full(value)?;
    Some(number)
}

/// A number, as a wider one.
pub fn wide(number: u64) -> u128
    ensures same { result ≡ number }
    ensures few { result < 2 ^ 64 }
{
    u128::from(number)
}

/// A number that grows by another one. One past 2^64 counts as out of memory.
pub fn grown(number: u64, more: usize) -> Result<u64, AllocError>
    ensures { IfOk result (λ sum. sum ≡ number + more) }
{
    match number.checked_add(more as u64) {
        Some(sum) => Ok(sum),
        None => Err(AllocError),
    }
}
