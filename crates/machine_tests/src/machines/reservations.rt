//! What becomes of a reservation after the stores of other harts and after an SC.

use reservation::Reservations;

#[test]
fn another_harts_store_ends_it(rt: HostRuntime) {
    let mut reservations = Reservations::new();
    reservations.reserve(0, 5);
    reservations.stored(1, 5);
    assert!(rt; !reservations.take(0, 5));
    assert!(rt; !reservations.take(0, 5));
}

#[test]
fn sc_in_another_line_ends_it(rt: HostRuntime) {
    let mut reservations = Reservations::new();
    reservations.reserve(0, 5);
    assert!(rt; !reservations.take(0, 6));
    assert!(rt; !reservations.take(0, 5));
}

#[test]
fn store_in_the_next_line_leaves_it(rt: HostRuntime) {
    let mut reservations = Reservations::new();
    reservations.reserve(0, 5);
    reservations.stored(1, 6);
    reservations.stored(0, 5);
    assert!(rt; reservations.take(0, 5));
    assert!(rt; !reservations.take(0, 5));
}
