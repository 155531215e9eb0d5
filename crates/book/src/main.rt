// The book program (document 01, "The book program"). Its stored run is the case that document 01 prints.
#![tactic(auto)]

use std::process::ExitCode;

fn main(rt: HostRuntime) -> ExitCode {
    terminal::status(&rt, terminal::run(&mut rt.stdin(), &mut rt.stdout()))
}
