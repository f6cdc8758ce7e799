//! Scenarios are run.

use crate::edits::{
    EDITS, LABELS, LOWER_EDITS, READINGS, run_edits, run_labels, run_lower_edits, run_readings,
};
use crate::reverse;
use crate::scenarios::{SCENARIOS, Scenario};
use crate::script_run::run_script;
use crate::scripts::SCRIPTS;
use crate::show::{show_bytes, show_call, show_encoder};
use crate::step::take;
use crate::texts::{LEXED, TIMES, run_lexed, run_time};
use dns_names_wire::encoder::BinEncoder;
use std::alloc::Global;
use std::io;
use std::io::Write;

/// The scenarios that are calls of their own, and neither steps nor texts.
const CALLS: &[&str] = &[LABELS, EDITS, LOWER_EDITS, READINGS, reverse::NAME];

/// Runs the scenario or the script of this name, or under the name `all` each one after a line with its name. Returns
/// whether there is one.
pub(crate) fn run_named<W: Write>(alloc: Global, name: &[u8], out: &mut W) -> io::Result<bool> {
    let all = name == b"all".as_slice();
    let mut found = all;
    for scenario in SCENARIOS {
        if all || name == scenario.name.as_bytes() {
            found = true;
            show_head(out, all, scenario.name)?;
            run_scenario(alloc, scenario, out)?;
        }
    }
    for script in SCRIPTS {
        if all || name == script.name.as_bytes() {
            found = true;
            show_head(out, all, script.name)?;
            run_script(alloc, script, out)?;
        }
    }
    for text in LEXED {
        if all || name == text.name.as_bytes() {
            found = true;
            show_head(out, all, text.name)?;
            run_lexed(alloc, text, out)?;
        }
    }
    for text in TIMES {
        if all || name == text.name.as_bytes() {
            found = true;
            show_head(out, all, text.name)?;
            run_time(alloc, text, out)?;
        }
    }
    for calls in CALLS {
        if all || name == calls.as_bytes() {
            found = true;
            show_head(out, all, calls)?;
            run_calls(alloc, calls, out)?;
        }
    }
    Ok(found)
}

/// Makes the calls of the scenario of this name.
fn run_calls<W: Write>(alloc: Global, name: &str, out: &mut W) -> io::Result<()> {
    match name {
        LABELS => run_labels(alloc, out),
        EDITS => run_edits(alloc, out),
        LOWER_EDITS => run_lower_edits(alloc, out),
        READINGS => run_readings(alloc, out),
        _ => reverse::run_reverse(alloc, out),
    }
}

/// Writes the line before a scenario, if all are run.
fn show_head<W: Write>(out: &mut W, all: bool, name: &str) -> io::Result<()> {
    if all {
        writeln!(out, "== {name}")?;
    }
    Ok(())
}

/// Makes each call on an encoder over no bytes, and in the end shows the buffer that the encoder leaves.
fn run_scenario<W: Write>(alloc: Global, scenario: &Scenario, out: &mut W) -> io::Result<()> {
    let mut bytes = Vec::new(alloc);
    let mut encoder = BinEncoder::new(&mut bytes);
    let mut place = None;
    for step in scenario.steps {
        let answer = take(alloc, *step, &mut encoder, &mut place);
        show_call(out, *step, &answer)?;
        show_encoder(out, &mut encoder, scenario.watched)?;
    }
    drop(encoder);
    write!(out, "left: ")?;
    show_bytes(out, bytes.as_slice())?;
    writeln!(out, "")
}
