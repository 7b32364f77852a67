//! The program: plays a script from standard input, or runs threads.
#![tactic(auto)]

use am_cli::{Reporter, run_words};
use am_recall::Recalling;
use std::process::ExitCode;

fn main(rt: HostRuntime) -> ExitCode {
    let mut reader = Recalling::new(rt.alloc(), rt.stdin());
    let mut reporter = Reporter::new(&rt, rt.stderr());
    let status = run_words(
        &rt,
        rt.alloc(),
        std::env::args(&rt),
        &mut reader,
        &mut rt.stdout(),
        &mut rt.stderr(),
        &mut reporter,
    );
    ExitCode::from(status)
}
