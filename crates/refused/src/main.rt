//! The program `refused`: runs the rows that go on when they run out of memory, and prints `rows ok` or the first that
//! was wrong. `tools/refuse` makes each of its allocations fail in turn.
#![tactic(auto)]

use bench_rows::run_scarce_rows;
use std::io;
use std::process::ExitCode;

fn main(rt: HostRuntime) -> ExitCode {
    let rows = run_scarce_rows(rt.alloc());
    let status = rows.report(&mut io::writer(&rt));
    ExitCode::from(status)
}
