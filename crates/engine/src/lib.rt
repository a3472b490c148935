// The calls of the engine, and all that a host needs to make them: the events and the query under this crate's name too, and here the
// fresh state, the next action and a run to quiet; then the types that they take and give, the limits, and the numbers of what they answer. The
// table and the state go by value: a call copies them a few times, and list 24 is judged once in each call, a run too.
#![tactic(auto)]

ghost use Rattle.std.specs.Prelude.{◌≡◌, true, suc, ◌≤◌, set};
ghost use Rattle.service.specs.Limits.{max_services};
ghost use Rattle.service.specs.Numbers.{action_number, action_service};
ghost use Rattle.service.specs.Records.{fresh_state};
ghost use Rattle.rules.specs.WellFormed.{formed};
ghost use Rattle.rules.specs.Calls.{next as nextCall, run as runCall, outcome, stepped_outcome, ran_outcome};
ghost use Rattle.engine.specs.Quiet.{rested_within, Advanced, Room};

use base::overlaps;
use engine_actions::hand_out;
pub use engine_calls::{clock, end, query, start, stop, stop_all};
use engine_choice::{PerRule, Standing, choose};
use engine_records::leave;
use engine_wellformed::is_formed;
pub use service::{
    Action, Answered, Cause, Kind, LAST_CLOCK, MAX_ACTIONS, MAX_SERVICES, Phase, Record, Refusal,
    Settings, Signal, State, Table,
};

// The state that a supervisor begins with.
pub fn fresh() -> State
    ensures { result ≡ fresh_state }
{
    State::fresh()
}

// How many actions were handed out, the last of them, and the state they left. Where all is quiet, the last is that.
#[derive(Clone, Copy)]
pub struct Progress {
    pub last: Action,
    pub count: usize,
    pub state: State,
}

// Writes an action to the place k of a run: its service to the one slice, its number to the other.
// Two slices: paper 01's run "fills two lent number slices, service and action".
fn write_action(k: usize, a: Action, services: &mut [u64], actions: &mut [u64])
    requires { Room (suc k) services.old actions.old }
    ensures services_after { services.new ≡ set services.old k (action_service a) }
    ensures actions_after { actions.new ≡ set actions.old k (action_number a) }
{
    services[k] = a.service();
    actions[k] = a.number();
}

// Hands out actions until all is quiet, but no more than the limit, from a state that has passed list 24. Both passes of a step stand
// here, and the step changes one record in place: a function of its own for a step or a pass would copy table and state each time.
// Two parameters: the host keeps the table, and lends with it the state of the call before (docs/HOST.md, "Calls"; the list of calls of demand 3).
#[tactic(auto, using(crate::proofs::Running::turn_inside))]
fn advance(t: Table, x: State, limit: usize, services: &mut [u64], actions: &mut [u64]) -> Progress
    requires { (formed t x ≡ true) × (t.count ≤ max_services) × Room limit services.old actions.old }
    ensures { Advanced t x limit services.old actions.old result services.new actions.new }
{
    let mut y = x;
    let mut last = Action::Quiet;
    for k in 0..limit {
        let mut st = Standing::none();
        for i in 0..t.count {
            st = st.noted(t.services[i], y.records[i], i);
        }
        let mut f = PerRule::none();
        for j in 0..t.count {
            f = f.fit(y.clock, t.services[j], y.records[j], st, j);
        }
        let Some((rule, s)) = choose(f, t.count) else {
            return Progress {
                last: Action::Quiet,
                count: k,
                state: y,
            };
        };
        let v = t.services[s];
        let r = y.records[s];
        let user = overlaps(v.hard, st.user);
        let q = leave(rule, user, v, y.clock, r);
        last = hand_out(rule, v, r, s);
        y.records[s] = q;
        write_action(k, last, services, actions);
    }
    Progress {
        last,
        count: limit,
        state: y,
    }
}

// The next action.
pub fn next_action(t: Table, x: State) -> Answered<Action>
    ensures { stepped_outcome result ≡ outcome t x nextCall }
{
    if is_formed(t, x) {
        let mut services = [0u64; 1];
        let mut actions = [0u64; 1];
        let z = advance(t, x, 1, &mut services, &mut actions);
        let a = z.last;
        let left = z.state;
        return Answered {
            answer: Ok(a),
            state: left,
        };
    }
    Answered::refused(Refusal::IllFormed, x)
}

// A run to quiet: the services and the actions go to the two lent slices, and the number of actions is given back.
pub fn run_to_quiet(
    t: Table,
    x: State,
    services: &mut [u64],
    actions: &mut [u64],
) -> Answered<usize>
    ensures actions_after { ran_outcome result services.new actions.new ≡ outcome t x (runCall services.old actions.old) }
    ensures result_value { rested_within t result ≡ true }
{
    if is_formed(t, x) {
        let room = 4 * t.count;
        if room <= services.len() {
            // Two tests: must-fail/run_needs_one_room is a wrong program in the second alone.
            if room <= actions.len() {
                let z = advance(t, x, room, services, actions);
                let rest = z.state;
                return Answered {
                    answer: Ok(z.count),
                    state: rest,
                };
            }
            return Answered::refused(Refusal::NoRoom, x);
        }
        return Answered::refused(Refusal::NoRoom, x);
    }
    Answered::refused(Refusal::IllFormed, x)
}
