// What becomes of one service's record: by an event, by each rule, and by settling, which both come to.
#![tactic(auto)]

mod after_event;
mod after_rule;
mod moment;
mod settling;

pub use after_event::{end_record, start_record, stop_record};
pub use after_rule::leave;
