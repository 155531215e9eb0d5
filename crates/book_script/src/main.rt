// The book program on a long script: every command, every refusal that a line can meet (1, 2, 3, 5, 6, 7, 8, 9, 10; letters
// make no kind that is refused with 4, and no book outgrows the lists of 11), lines that are none, document 01's specimens A
// to G, K and L and the one that is only run, marked tags that move and do not count, a full store, and a line longer than
// one read, the last line without a line feed. What it must write is what the independent implementation prints for it
// (tests/differential, program interpreter); the refusals and specimens among its lines are checked by hand against
// document 01 and document 02, CR 4.
#![tactic(auto)]

use std::process::ExitCode;

fn main(rt: HostRuntime) -> ExitCode {
    terminal::status(&rt, terminal::run(&mut rt.stdin(), &mut rt.stdout()))
}
