// Runs the project's leaves. A line of standard input is a name and words of sixteen hexadecimal digits; for each line
// it writes one: the call's number, and the words of its result where that is 0. A line that it cannot read is answered
// by `?`.
//
// A new leaf is a function in the module of its crate and a name in `line::call`.
#![tactic(auto)]

mod arithmetic;
mod codings;
mod draws;
mod input;
mod line;
mod model;
mod normal;
mod output;
mod records;
mod reply;
mod runs;

fn main(rt: HostRuntime) {
    let mut answers = input::Answers::new(rt);
    pieces::read_lines(rt, &mut answers, u64::MAX);
}
