// What each rule hands out.
#![tactic(auto)]

ghost use Rattle.std.specs.Prelude.{◌≡◌};
ghost use Rattle.rules.specs.Rules.{begun_action, term_action, end_action, expired_action, handed_by};

use rules::Rule;
use service::{Action, Form, Phase, Record, Settings, Signal};

// Rule 6.
fn begun_action(f: Form, s: usize) -> Action
    ensures { result ≡ begun_action f s }
{
    match f {
        Form::Bare => Action::Moved(s),
        Form::Passing | Form::Direct | Form::Delayed => Action::Launch(s),
    }
}

// A process's term signal; moved where it is none.
fn term_action(g: Signal, s: usize) -> Action
    ensures { result ≡ term_action g s }
{
    match g {
        Signal::None => Action::Moved(s),
        _ => Action::Signal(s, g),
    }
}

// Rule 7.
fn end_action(f: Form, g: Signal, s: usize) -> Action
    ensures { result ≡ end_action f g s }
{
    match f {
        Form::Bare => Action::Moved(s),
        Form::Passing => Action::StopCommand(s),
        Form::Direct | Form::Delayed => term_action(g, s),
    }
}

// Rule 8.
fn expired_action(p: Phase, s: usize) -> Action
    ensures { result ≡ expired_action p s }
{
    if p == Phase::Starting {
        return Action::Signal(s, Signal::Int);
    }
    Action::Signal(s, Signal::Kill)
}

// What the rule hands out for the service s.
// A match: each rule of paper 01 has a case, as `handed_by` of the definitions, and a table of functions would only hide which.
pub fn hand_out(k: Rule, v: Settings, r: Record, s: usize) -> Action
    ensures { result ≡ handed_by k v r s }
{
    match k {
        Rule::Lose | Rule::Abandon | Rule::Settle | Rule::Wake | Rule::Release => Action::Moved(s),
        Rule::Begin => begun_action(v.form(), s),
        Rule::End => end_action(v.form(), v.signal, s),
        Rule::Expire => expired_action(r.phase, s),
    }
}
