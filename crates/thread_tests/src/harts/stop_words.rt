//! Stop words whose seats raise them and look at them on one thread.

use std::test::*;
use workers::StopWord;

#[test]
fn a_raise_is_seen_by_both(rt: HostRuntime) -> Result<(), Fail> {
    let (word, mut seats) = StopWord::new(rt.alloc(), 2)?;
    assert_eq!(rt; word.look(&mut seats[0]), false);
    word.raise(&mut seats[1]);
    assert_eq!(rt; word.look(&mut seats[1]), true);
    assert_eq!(rt; word.look(&mut seats[0]), true);
    assert_eq!(rt; word.close(seats), true);
    Ok(())
}

#[test]
fn a_word_that_no_seat_raises_stays_down(rt: HostRuntime) -> Result<(), Fail> {
    let (word, mut seats) = StopWord::new(rt.alloc(), 8)?;
    assert_eq!(rt; word.look(&mut seats[7]), false);
    assert_eq!(rt; word.look(&mut seats[0]), false);
    assert_eq!(rt; word.close(seats), false);
    Ok(())
}
