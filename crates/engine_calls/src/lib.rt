// The calls that hand out no action: the events, and the query.
#![tactic(auto)]

mod events;
mod times;

pub use events::{clock, end, start, stop, stop_all};
pub use times::query;
