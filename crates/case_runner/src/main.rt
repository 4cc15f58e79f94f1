//! Plays the cases that stand on standard input, case files one behind another, each behind a line
//! `file NAME`, and prints what differs for each that fails, and at its end how many passed and how
//! many failed. Its status is 0 only where none failed and one passed at least.
#![tactic(auto)]

mod cutting;
mod faulting;
mod holding;
mod judging;
mod playing;
mod showing;
mod tally;
mod text;

use judging::judge;
use showing::bad_line;
use std::alloc::Global;
use std::io::{self, Write};
use std::process::ExitCode;
use std::sync::Wait;
use std::thread::Threads;
use std::time;
use tally::Tally;
use text::{BadLine, Case, Sheet, read_cases};

fn tell_bad_lines<W: Write>(
    out: &mut W,
    alloc: Global,
    lines: &[BadLine],
    tally: &mut Tally,
) -> io::Result<()> {
    for line in lines {
        out.write_all(&bad_line(alloc, line)?)?;
        tally.count(false);
    }
    Ok(())
}

fn play_case<R: Threads + Wait + time::Clock + Copy + Send + 'static, W: Write>(
    rt: &R,
    out: &mut W,
    alloc: Global,
    case: &Case,
    tally: &mut Tally,
) -> io::Result<()> {
    let failure = judge(rt, alloc, case)?;
    tally.count(failure.is_none());
    match &failure {
        Some(line) => out.write_all(line),
        None => Ok(()),
    }
}

fn play_sheet<R: Threads + Wait + time::Clock + Copy + Send + 'static, W: Write>(
    rt: &R,
    out: &mut W,
    alloc: Global,
    sheet: &Sheet,
) -> io::Result<Tally> {
    let mut tally = Tally {
        passed: 0,
        failed: 0,
    };
    tell_bad_lines(out, alloc, &sheet.bad_lines, &mut tally)?;
    for case in &sheet.cases {
        play_case(rt, out, alloc, case, &mut tally)?;
    }
    Ok(tally)
}

fn main(rt: HostRuntime) -> io::Result<ExitCode> {
    let text = io::read_to_string(rt.alloc(), rt.reader())?;
    let sheet = read_cases(rt.alloc(), &text)?;
    let tally = play_sheet(&rt, &mut io::writer(&rt), rt.alloc(), &sheet)?;
    let (passed, failed) = (tally.passed, tally.failed);
    println!(rt; "{passed} passed, {failed} failed")?;
    Ok(if tally.is_good() {
        ExitCode::SUCCESS
    } else {
        ExitCode::FAILURE
    })
}
