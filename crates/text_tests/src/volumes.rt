//! Tests of `volume`, `nova_log`, `log_upgrade` and `plan`: logs that grow, volumes made by hand, recovered and upgraded, and plans read. They stand
//! apart, so that those crates aren't proved a second time for them. The crate has tests alone.

mod logs;
mod plans;
mod recovery;
mod upgrades;
mod volumes;
