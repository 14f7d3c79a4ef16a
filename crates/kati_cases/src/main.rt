//! Runs the cases over memory, and prints a line for each. docs/DEVELOPING.md says how a case is written.
#![tactic(auto)]

mod case;
mod running;
mod text;

use anyhow::Result;
use case::Case;
use running::run;
use std::alloc::Global;
use std::fs;
use std::io::{Read, Write};

/// The files of cases, without their ending.
const FILES: [&str; 28] = [
    "worked",
    "lines_and_terms",
    "lines_and_comments",
    "kinds_of_lines",
    "define",
    "macros_and_functions",
    "macros_and_expansion",
    "levels",
    "functions",
    "foreach_call_eval",
    "directives_and_command_line",
    "conditionals_and_include",
    "rules_and_graph",
    "rule_lines",
    "book_suffix_rules_patterns",
    "pattern_rules",
    "search",
    "graph_goals_default_goal",
    "recipes",
    "command_line",
    "groups",
    "group_rulings",
    "ninja_text",
    "ninja_reader",
    "outputs",
    "hostile",
    "depth",
    "porting",
];

fn main(rt: HostRuntime) -> Result<()> {
    let mut report = Vec::new(rt.alloc());
    for name in FILES {
        report.extend_from_slice(name.as_bytes())?;
        report.extend_from_slice(b"\n")?;
        let text = text_of(&rt, name)?;
        run_cases(rt.alloc(), text.as_slice(), &mut report)?;
    }
    rt.stdout().write_all(report.as_slice())?;
    Ok(())
}

fn text_of(rt: &HostRuntime, name: &str) -> Result<Vec<u8>> {
    let mut path = String::from_str(rt.alloc(), name)?;
    path.push_str(".cases")?;
    let mut text = Vec::new(rt.alloc());
    fs::open(rt, path.as_str())?.read_to_end(&mut text)?;
    Ok(text)
}

fn run_cases(alloc: Global, text: &[u8], report: &mut Vec<u8>) -> Result<()> {
    let mut case = Case::new(alloc, b"");
    for line in text.split(|byte| *byte == b'\n') {
        match line.strip_prefix(b"case ") {
            Some(name) => {
                finish(alloc, &mut case, report)?;
                case = Case::new(alloc, name);
            }
            None => case.add(line)?,
        }
    }
    finish(alloc, &mut case, report)
}

// Runs a case and puts out its line.
fn finish(alloc: Global, case: &mut Case, report: &mut Vec<u8>) -> Result<()> {
    if case.name.is_empty() {
        return Ok(());
    }
    report.extend_from_slice(b"  ")?;
    if case.is_of_host {
        report.extend_from_slice(b"host: ")?;
    } else {
        put_outcome(run(alloc, case)?, report)?;
    }
    report.extend_from_slice(case.name)?;
    report.extend_from_slice(b"\n")?;
    Ok(())
}

fn put_outcome(wrong: &[u8], report: &mut Vec<u8>) -> Result<()> {
    if wrong.is_empty() {
        report.extend_from_slice(b"passed: ")?;
    } else {
        report.extend_from_slice(b"FAILED by its ")?;
        report.extend_from_slice(wrong)?;
        report.extend_from_slice(b": ")?;
    }
    Ok(())
}
