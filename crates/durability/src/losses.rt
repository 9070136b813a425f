//! Lost stores as they are found, and the first one of each line.

ghost use Rattle.durability.specs.Causes.{AreFates, IsPast};
ghost use Rattle.durability.specs.Firsts.{AreFirsts, IsLossAt};
ghost use Rattle.std.specs.Prelude.{◌+◌, ◌<◌, ◌≤◌, length};

use crate::cause::Fate;
use crate::cut::Lost;
use store_trace::Event;

/// What is lost at the moment of the event at this place, where it is a store of the hart past its line's floor then.
pub fn late_store(
    events: &[Event],
    fates: &[Fate],
    at: usize,
    hart: u32,
    moment: u32,
) -> Option<Lost>
    requires limit { length events.now ≤ 65536 }
    requires there { at < moment }
    requires moment { moment ≤ length events.now }
    requires fates { AreFates events.now 0 fates.now }
    ensures { IsLossAt events.now moment (IsPast events.now moment hart) (at + 1) result }
{
    let Event::Store { hart: by, line, .. } = events[at] else {
        return None;
    };
    let fate = fates[at];
    if by != hart || !fate.is_open(moment) {
        return None;
    }
    Some(Lost {
        line,
        store: at as u32 + 1,
        cause: fate.cause(moment),
    })
}

/// Leaves the first one of each line, upwards.
pub fn first_of_each_line(lost: &mut Vec<Lost>)
    ensures { AreFirsts lost.old.items lost.new.items }
{
    lost.sort_unstable_by_key(|one| (one.line, one.store));
    lost.dedup_by_key(|one| one.line);
}
