//! `dnw` shows whole messages, makes queries, lists zone files, and computes the sums of DNSSEC: `dnw_commands` has its commands.
#![tactic(auto)]

use dnw_commands::run;
use std::io;
use std::io::IsTerminal;
use std::process::ExitCode;

fn main(rt: HostRuntime) -> ExitCode {
    let is_terminal = rt.stderr().is_terminal();
    let status = run(
        &rt,
        &mut rt.reader(),
        io::writer(&rt),
        rt.stderr(),
        rt.stderr(),
        is_terminal,
    );
    ExitCode::from(status)
}
