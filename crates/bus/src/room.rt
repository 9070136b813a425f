//! Room that is made before anything is written.

ghost use Rattle.std.specs.Prelude.{◌≡◌, ◌+◌, ◌≤◌, ◌∷◌, ◌++◌, [], IfErr, OnOk, vec_capacity, vec_len};

use crate::exchange::Exchange;
use machine::{Entry, StepFault};

/// Makes room for one more.
pub(crate) fn make_room<T>(list: &mut Vec<T>) -> Result<(), StepFault>
    ensures items { list.new.items ≡ list.old.items }
    ensures room { OnOk result (vec_len list.new + 1 ≤ vec_capacity list.new) }
    ensures err { IfErr result (λ fault. fault ≡ StepFault.Memory) }
{
    match list.reserve(1) {
        Ok(()) => Ok(()),
        Err(_) => Err(StepFault::Memory),
    }
}

pub(crate) fn add_entry(history: &mut Vec<Entry>, entry: Entry)
    requires { vec_len history.old + 1 ≤ vec_capacity history.old }
    ensures { history.new.items ≡ history.old.items ++ entry ∷ [] }
{
    match history.push(entry) {
        Ok(()) => {}
        Err(_) => unreachable!(),
    }
}

pub(crate) fn add_exchange(exchanges: &mut Vec<Exchange>, exchange: Exchange)
    requires { vec_len exchanges.old + 1 ≤ vec_capacity exchanges.old }
    ensures { exchanges.new.items ≡ exchanges.old.items ++ exchange ∷ [] }
{
    match exchanges.push(exchange) {
        Ok(()) => {}
        Err(_) => unreachable!(),
    }
}
