// The lines and the status of a run.

ghost use Rattle.std.specs.Prelude.{◌≡◌, ◌++◌, OnOk};
ghost use Rattle.std.specs.List.{flat_map};
ghost use Rattle.run_lines.specs.Results.{outcome_status, result_status, result_text, trace_text};
ghost use Rattle.run_texts.specs.Printed.{outcome_text};

use cil_base::Bytes;
use cil_model::{Outcome, RunResult, TraceItem};
use run_texts::{print_item, print_outcome};
use std::alloc::AllocError;

fn put(out: &mut Bytes, text: &[u8]) -> Result<(), AllocError>
    ensures { OnOk result (out.new ≡ out.old ++ text.now) }
{
    for byte in text {
        out.push(*byte)?;
    }
    Ok(())
}

fn push_trace(out: &mut Bytes, trace: &[TraceItem]) -> Result<(), AllocError>
    ensures { OnOk result (out.new ≡ out.old ++ trace_text trace.now) }
{
    for item in trace {
        print_item(out, item)?;
    }
    Ok(())
}

fn push_ended(out: &mut Bytes, trace: &[TraceItem], outcome: &Outcome) -> Result<(), AllocError>
    ensures { OnOk result (out.new ≡ out.old ++ (trace_text trace.now ++ outcome_text outcome.now)) }
{
    push_trace(out, trace)?;
    print_outcome(out, outcome)?;
    Ok(())
}

fn push_cut(out: &mut Bytes, trace: &[TraceItem], last: &[u8]) -> Result<(), AllocError>
    ensures { OnOk result (out.new ≡ out.old ++ (trace_text trace.now ++ last.now)) }
{
    push_trace(out, trace)?;
    put(out, last)?;
    Ok(())
}

/// Appends the lines of a run: one for each call that left the program, and one for how the run ended. After want of memory `out` has
/// something of them.
pub fn push_result(out: &mut Bytes, run: &RunResult) -> Result<(), AllocError>
    ensures { OnOk result (out.new ≡ out.old ++ result_text run.now) }
{
    match run {
        RunResult::Ended { outcome, trace, .. } => push_ended(out, trace.as_slice(), outcome),
        RunResult::OutOfSteps { trace } => push_cut(out, trace.as_slice(), b"steps\n"),
        RunResult::HeapFull { trace } => push_cut(out, trace.as_slice(), b"heap 16777216\n"),
        RunResult::FramesFull { trace } => push_cut(out, trace.as_slice(), b"frames 1048576\n"),
    }
}

fn outcome_status(outcome: &Outcome) -> u8
    ensures { result ≡ outcome_status outcome.now }
{
    match outcome {
        Outcome::Return(_) => 0,
        Outcome::Thrown { .. } => 7,
        Outcome::Stuck => 8,
    }
}

/// The status of a run: 0 where it returned, 7 where an exception was not caught, 8 where it was stuck, 6 where its steps were too few, and 9
/// where the heap or the frames were full.
pub fn status_of(run: &RunResult) -> u8
    ensures { result ≡ result_status run.now }
{
    match run {
        RunResult::Ended { outcome, .. } => outcome_status(outcome),
        RunResult::OutOfSteps { .. } => 6,
        RunResult::HeapFull { .. } => 9,
        RunResult::FramesFull { .. } => 9,
    }
}
