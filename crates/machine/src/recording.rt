//! What is kept of a run, for those who look at it afterwards.

mod alone;
mod finishing;
mod recorded;
mod recording;
mod run;
mod setup;

pub use alone::record_alone;
pub use recorded::Recorded;
pub use recording::record;
pub use run::Run;
pub use setup::Setup;
