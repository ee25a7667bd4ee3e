//! og_cases: runs the cases of the files that its words name, each in many ways, and those of the files behind the
//! word `--once` once.
#![tactic(auto)]

use og_io::StdSink;
use og_trials::carry_out;
use std::process::ExitCode;

fn main(rt: HostRuntime) -> ExitCode {
    let mut out = StdSink::new(rt.stdout());
    ExitCode::from(carry_out(&rt, &mut out))
}
