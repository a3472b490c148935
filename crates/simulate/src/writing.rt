// An answer, and the actions of a run, put into the output.
use crate::filling::{put_line, put_text};
use scenario_replies::{Reply, Text, action_signal, action_text};
use std::io;
use std::io::Write;

pub(crate) fn put_reply(out: &mut impl Write, reply: Reply) -> io::Result<()> {
    put_line(out, reply.text, &reply.numbers)
}

// A run's line: how many actions there were, and each of them after a separator.
// Two slices with a count: `run_to_quiet` of plain writes services and actions so.
pub(crate) fn put_run(
    out: &mut impl Write,
    count: u64,
    services: &[u64],
    actions: &[u64],
) -> io::Result<()> {
    put_text(out, Text::RunCount, &[count])?;
    for (&service, &action) in services.iter().zip(actions).take(count as usize) {
        out.write_all(b"; ")?;
        put_text(out, action_text(action), &[service, action_signal(action)])?;
    }
    out.write_all(b"\n")
}
