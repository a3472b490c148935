// A scenario that is played, line by line.
use crate::listing::{first_places, put_services, put_state, put_table};
use crate::writing::{put_reply, put_run};
use load_lent::Lent;
use load_text::part;
use plain::{COUNTS, Counts, Event, event, load, next_action, query, run_to_quiet};
use plain_encoding::{ALL, Numbers};
use scenario_lines::{Command, Verb, read_line};
use scenario_replies::{
    bad_reply, event_reply, load_reply, next_reply, ok_reply, query_reply, refused_reply,
};
use scenario_services::{Given, bare};
use scenario_setting::set;
use std::io;
use std::io::Write;

// How many places a run may be lent, for the services and for the actions.
const PLACES: usize = 256;

// How many bytes a load may be lent for the tokens.
const TOKENS: usize = 65536;

// What was given so far, how many services the loaded set has, where one is loaded, and the numbers and the tokens that it was loaded to.
#[derive(Drop)]
pub(crate) struct Player {
    given: Given,
    loaded: Option<u64>,
    table: Numbers,
    state: Numbers,
    counts: Counts,
    tokens: [u8; TOKENS],
}

impl Player {
    pub(crate) fn new() -> Player {
        Player {
            given: Given::nothing(),
            loaded: None,
            table: [0; ALL],
            state: [0; ALL],
            counts: [0; COUNTS],
            tokens: [0; TOKENS],
        }
    }

    // Loads what was given so far, in the way of a line, and puts the loaded services and the answer.
    fn load(&mut self, out: &mut impl Write, command: Command, line: &[u8]) -> io::Result<()> {
        self.given.take_positions(command, bare(line));
        let given = &self.given;
        let lent = Lent {
            bytes: part(&given.buffer, 0, given.bytes),
            ends: given.lent_positions(command),
        };
        let tokens = &mut self.tokens[..];
        let room = (command.first as usize).min(TOKENS);
        let loaded = load(
            lent.bytes,
            lent.ends,
            &mut tokens[..room],
            &mut self.table,
            &mut self.state,
            &mut self.counts,
        );
        self.loaded = loaded.ok();
        let services = first_places(&self.table, self.loaded.unwrap_or(0));
        put_services(out, services, lent)?;
        put_reply(out, load_reply(loaded))
    }

    // Makes a run that is lent as many places as the line says, or all.
    fn run(&mut self, out: &mut impl Write, command: Command) -> io::Result<()> {
        let mut services = [0u64; PLACES];
        let mut actions = [0u64; PLACES];
        let (a, b) = match command.verb {
            Verb::RunIn => (command.first as usize, command.last as usize),
            _ => (PLACES, PLACES),
        };
        let run = run_to_quiet(
            &self.table,
            &mut self.state,
            &mut services[..a.min(PLACES)],
            &mut actions[..b.min(PLACES)],
        );
        match run {
            Ok(count) => put_run(out, count, &services, &actions),
            Err(refusal) => put_reply(out, refused_reply(refusal)),
        }
    }

    fn event(&mut self, out: &mut impl Write, e: Event) -> io::Result<()> {
        put_reply(out, event_reply(event(&self.table, &mut self.state, e)))
    }

    // Obeys a line of this number, which is lent with its newline, and puts its answer.
    pub(crate) fn obey(
        &mut self,
        out: &mut impl Write,
        number: u64,
        line: &[u8],
    ) -> io::Result<()> {
        let Some(command) = read_line(bare(line), 0 < self.given.begun, self.loaded.is_some())
        else {
            return put_reply(out, bad_reply(number));
        };
        let n = command.first;
        let s = n as usize;
        // A match: each verb has a call of its own, and is met once for each line.
        match command.verb {
            Verb::Nothing => Ok(()),
            Verb::Begin | Verb::AddLine | Verb::AddPiece => {
                self.given.take_line(command.verb, line);
                Ok(())
            }
            Verb::Load | Verb::LoadNone | Verb::LoadAt => self.load(out, command, line),
            Verb::Show => {
                // As many services as were loaded, whatever the table's count was set to.
                let services = first_places(&self.table, self.loaded.unwrap_or(0));
                put_table(out, services, &self.counts, &self.tokens)
            }
            Verb::State => {
                let records = first_places(&self.state, self.table[0]);
                put_state(out, self.state[0], records)
            }
            Verb::Next => {
                let next = next_action(&self.table, &mut self.state);
                put_reply(out, next_reply(next))
            }
            Verb::Run | Verb::RunIn => self.run(out, command),
            Verb::Query => put_reply(out, query_reply(query(&self.table, &self.state))),
            Verb::Start => self.event(out, Event::Start(s)),
            Verb::Stop => self.event(out, Event::Stop(s)),
            Verb::StopAll => self.event(out, Event::StopAll),
            Verb::End => self.event(out, Event::End(s, command.last == 1)),
            Verb::Clock => self.event(out, Event::Clock(n)),
            Verb::SetClock | Verb::SetRecord(_) | Verb::SetCount | Verb::SetTable(_) => {
                set(&mut self.table, &mut self.state, command);
                put_reply(out, ok_reply())
            }
        }
    }
}
