//! Repeats calls on large inputs, for the scripts under tools/.
//!
//! `measure body N TIMES` decodes and encodes a body of N instructions TIMES times, and prints its
//! length, or the refusal where it is too long.
//! `measure regions N REGIONS STEP TIMES` makes a body of about N instructions and so many regions, and
//! does a step TIMES times: `nothing`, `heights`, `boundaries` (with heights), `control` (the rules on
//! regions) or `tree` (with those rules). It prints what the step counts.
//! `measure signatures FILE...` reads all signatures of assemblies, and prints those that are refused
//! and how many there are.
#![tactic(auto)]

mod body;
mod regions;
mod signatures;

use body::repeat;
use cil_base::Fault;
use regions::{Step, repeat_step};
use signatures::{Counts, scan_file};
use std::process::ExitCode;
use std::{env, io};

/// The words behind the program's name.
fn words_of(rt: &HostRuntime) -> io::Result<Vec<String>> {
    let mut words = Vec::new(rt.alloc());
    for word in env::args(rt)?.skip(1) {
        words.push(word)?;
    }
    Ok(words)
}

/// Measures bodies, and prints how long one is; status 1 where it is refused. None where something
/// fails.
fn measure_body(rt: &HostRuntime, instrs: &str, times: &str) -> Option<u8> {
    let instrs = instrs.parse::<u32>().ok()?;
    let times = times.parse::<u32>().ok()?;
    match repeat(rt.alloc(), instrs, times) {
        Ok(None) | Err(Fault::Memory(_)) => None,
        Ok(Some(len)) => {
            println!(rt; "body: {instrs} instructions, {len} bytes, {times} times").ok()?;
            Some(0)
        }
        Err(Fault::Refused(refusal)) => {
            println!(rt; "refused: {} at {}", refusal.rule, refusal.at).ok()?;
            Some(1)
        }
    }
}

fn step_of(word: &str) -> Option<Step> {
    match word {
        "nothing" => Some(Step::Nothing),
        "heights" => Some(Step::Heights),
        "boundaries" => Some(Step::Boundaries),
        "control" => Some(Step::Control),
        "tree" => Some(Step::Tree),
        _ => None,
    }
}

/// Measures a step on a body with regions, and prints what it counts; status 1 where the body is
/// refused. None where something fails.
fn measure_regions(
    rt: &HostRuntime,
    instrs: &str,
    regions: &str,
    step: &str,
    times: &str,
) -> Option<u8> {
    let instrs = instrs.parse::<u32>().ok()?;
    let regions = regions.parse::<u32>().ok()?;
    let times = times.parse::<u32>().ok()?;
    match repeat_step(rt.alloc(), instrs, regions, step_of(step)?, times) {
        Ok(None) | Err(Fault::Memory(_)) => None,
        Ok(Some(count)) => {
            println!(rt;
                "regions: {instrs} instructions, {regions} regions, {step}: {count}"
            ).ok()?;
            Some(0)
        }
        Err(Fault::Refused(refusal)) => {
            println!(rt; "refused: {} at {}", refusal.rule, refusal.at).ok()?;
            Some(1)
        }
    }
}

/// Reads the signatures of assemblies. None where something can't be printed.
fn scan_files(rt: &HostRuntime, names: &[String]) -> Option<u8> {
    let mut counts = Counts::default();
    for name in names {
        scan_file(rt, name.as_str(), &mut counts).ok()?;
    }
    let Counts {
        files,
        unread,
        blobs,
        refused,
    } = counts;
    println!(rt;
        "signatures: {files} files, {unread} not read, {blobs} blobs, {refused} refused"
    ).ok()?;
    Some(0)
}

fn run(rt: &HostRuntime, words: &[String]) -> Option<u8> {
    match words {
        [command, names @ ..] if command.as_str() == "signatures" => scan_files(rt, names),
        [command, instrs, times] if command.as_str() == "body" => {
            measure_body(rt, instrs.as_str(), times.as_str())
        }
        [command, instrs, regions, step, times] if command.as_str() == "regions" => {
            measure_regions(
                rt,
                instrs.as_str(),
                regions.as_str(),
                step.as_str(),
                times.as_str(),
            )
        }
        _ => None,
    }
}

fn main(rt: HostRuntime) -> ExitCode {
    match words_of(&rt) {
        Err(_) => ExitCode::from(2),
        Ok(words) => match run(&rt, words.as_slice()) {
            Some(status) => ExitCode::from(status),
            None => ExitCode::from(2),
        },
    }
}
