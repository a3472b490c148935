// The rules of the next action, by name. What each means is defined in specs/.
#![tactic(auto)]

// Rules 1 to 8 of paper 01, in its order.
#[derive(Clone, Copy, PartialEq, Eq)]
pub enum Rule {
    Lose,
    Abandon,
    Settle,
    Wake,
    Release,
    Begin,
    End,
    Expire,
}
