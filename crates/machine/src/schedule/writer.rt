//! Writing a schedule.

ghost use Rattle.std.specs.Prelude.{◌≡◌, ◌<◌, ◌≤◌, ◌^◌, ◌++◌, IfErr, IfOk, OnOk, string_bytes};
ghost use Rattle.machine.specs.Grammar.{IsSchedule, OnText, hart_steps};
ghost use Rattle.machine.specs.Joined.{Joins, item_text, joined, text_of};
ghost use Rattle.machine.specs.Runs.{Writes, separator};

use crate::schedule::fault::ScheduleFault;
use crate::schedule::items::{Item, Schedule};
use crate::schedule::joining::first_joined;
use crate::schedule::limit::is_within_limit;
use std::alloc::{AllocError, Global};
use std::fmt;

impl fmt::Display for Item {
    ghost use Rattle.std.specs.Prelude.{Some};
    ghost use Rattle.machine.specs.Joined.{item_text};

    ghost output = { λ item. Some (item_text item) };

    fn fmt<W: fmt::Write>(&self, f: &mut fmt::Formatter<W>) -> fmt::Result {
        match *self {
            Item::Steps { hart, count } => write!(f, "h{hart}*{count}"),
            Item::Evict { line } => write!(f, "e{line}"),
        }
    }
}

/// Adds an item at the end of a text, after a space where it isn't the first.
fn push_item(text: &mut String, item: Item) -> Result<(), AllocError>
    ensures { OnOk result (string_bytes text.new
        ≡ string_bytes text.old ++ (separator (string_bytes text.old) ++ item_text item)) }
{
    if !text.is_empty() {
        text.push(' ')?;
    }
    write!(text, "{item}")
}

/// The text of the joined items.
#[tactic(auto, using(crate::proofs::Texts::nothing_written, crate::proofs::Texts::one_more_written, crate::proofs::Texts::all_written))]
fn written(alloc: Global, items: &[Item]) -> Result<String, AllocError>
    requires { hart_steps items.now < 2 ^ 32 }
    ensures { IfOk result (λ text. Writes (string_bytes text) (joined items.now)) }
{
    let mut text = String::new(alloc);
    let mut rest = items;
    while let Some((item, after)) = first_joined(rest) {
        push_item(&mut text, item)?;
        rest = after;
    }
    Ok(text)
}

impl Schedule {
    /// The schedule's text, with neighbouring steps of one hart as one item: `hN*K` or `eL` for each
    /// item, one space between each two and none at the end. Items without steps aren't written.
    /// What is written is read as the joined items, which make the same steps.
    ///
    /// # Errors
    /// Text where the steps of all harts together are more than 4,294,967,295, which no text says.
    /// Memory where a growth is refused.
    #[tactic(auto, using(crate::proofs::Written::read_again, crate::proofs::JoinedLemmas::joining))]
    pub fn write(&self, alloc: Global) -> Result<String, ScheduleFault>
        ensures text { IfOk result (λ text. string_bytes text ≡ text_of (joined self.now)) }
        ensures read { IfOk result (λ text. IsSchedule (string_bytes text) (joined self.now)) }
        ensures joins { Joins self.now (joined self.now) }
        ensures err { IfErr result (OnText (2 ^ 32 ≤ hart_steps self.now)) }
    {
        let items = self.items();
        if !is_within_limit(items) {
            return Err(ScheduleFault::Text);
        }
        Ok(written(alloc, items)?)
    }
}
