//! Desks whose moments two seats share on one thread.

ghost use Rattle.std.specs.Prelude.{◌≡◌};

use std::test::Fail;
use workers::{CheckDesk, DeskResult, DeskSeat};

/// Whether a claim gives this moment. It is reported where it is `bad`, and the seat has seen this least bad moment then.
fn takes(
    desk: &CheckDesk,
    seat: &mut DeskSeat,
    bad: bool,
    given: Option<u32>,
    seen: Option<u32>,
) -> bool
    requires { seat.old.desk ≡ desk.now.name }
    ensures { seat.new.desk ≡ seat.old.desk }
{
    let claimed = desk.claim(seat);
    if let Some(moment) = claimed {
        desk.report(seat, moment, bad);
    }
    claimed == given && seat.seen() == seen
}

/// Whether this is what a desk says at the end.
fn says(end: DeskResult, given: u32, least_bad: Option<u32>) -> bool {
    end == DeskResult { given, least_bad }
}

#[test]
fn empty_desk(rt: HostRuntime) -> Result<(), Fail> {
    let (desk, mut seats) = CheckDesk::new(rt.alloc(), 0, 2)?;
    let first = takes(&desk, &mut seats[0], true, None, None);
    let second = takes(&desk, &mut seats[1], true, None, None);
    let end = says(desk.close(seats), 0, None);
    assert!(rt; first & second & end);
    Ok(())
}

#[test]
fn desk_of_five(rt: HostRuntime) -> Result<(), Fail> {
    let (desk, mut seats) = CheckDesk::new(rt.alloc(), 5, 2)?;
    let first = takes(&desk, &mut seats[0], false, Some(0), None);
    let next = takes(&desk, &mut seats[0], false, Some(1), None);
    let held = desk.claim(&mut seats[0]);
    let other = takes(&desk, &mut seats[1], false, Some(3), None);
    let last = takes(&desk, &mut seats[1], true, Some(4), None);
    if let Some(moment) = held {
        desk.report(&mut seats[0], moment, true);
    }
    let end = says(desk.close(seats), 5, Some(2));
    assert!(rt; first & next & (held == Some(2)) & other & last & end);
    Ok(())
}

#[test]
fn a_claim_sees_the_least_bad_moment(rt: HostRuntime) -> Result<(), Fail> {
    let (desk, mut seats) = CheckDesk::new(rt.alloc(), 3, 2)?;
    let first = takes(&desk, &mut seats[0], true, Some(0), None);
    let other = takes(&desk, &mut seats[1], true, Some(1), Some(0));
    let last = takes(&desk, &mut seats[1], false, Some(2), Some(0));
    let none = takes(&desk, &mut seats[1], false, None, Some(0));
    let again = takes(&desk, &mut seats[1], false, None, Some(0));
    let end = says(desk.close(seats), 3, Some(0));
    assert!(rt; first & other & last & none & again & end);
    Ok(())
}
