// The program tawqeru: judges its words, reads the trace, and prints the sheet, the plan, the curve or the refusal.
use crate::asked::{Asked, asked_by};
use crate::input::read_text;
use curve::CURVE_HEADER;
use sheet::{HEADER, PLAN_HEADER};
use std::process::ExitCode;
use std::{env, fmt, io};
use trace::{Plain, ReplayFault};
use workspace::Recording;

const USAGE: &str = "usage: tawqeru [FILE] [K H | curve]
       tawqeru --help
Prints the sheet of the trace in FILE, or on standard input: the fetches of
LRU, FIFO, CLOCK and MIN with 1, 2, 3, 4, 8 and 64 frames. With K and H it
prints the plan for K frames (1 to 64) by a schedule on H (1 to K): the fewest
fetches on H frames, the ceiling that none of the three exceeds on K, and the
fetches of each on K. With the word curve it prints the fetches of LRU with
each number of frames from 1 to 64. A refused trace or plan gives the line
refused,NUMBER,LINE,FIELD, with status 0, and the refusal in words on standard
error. Wrong words end with status 1.
A number names no file, nor does curve: give such files as ./4 and ./curve.";

// A refusal's line, and beside it, on standard error, the refusal in plain words. The line is the answer: it stands as well where
// standard error takes nothing.
pub fn print_refused(rt: &HostRuntime, fault: ReplayFault) -> io::Result<()> {
    rt.println(fault)?;
    let _ = rt.eprintln(Plain(fault));
    Ok(())
}

// A header and the lines below it, or the refusal.
fn print_lines<T: fmt::Display + Drop, const N: usize>(
    rt: &HostRuntime,
    header: &str,
    lines: Result<[T; N], ReplayFault>,
) -> io::Result<()> {
    match lines {
        Ok(lines) => {
            rt.println(header)?;
            for line in &lines {
                rt.println(line)?;
            }
            Ok(())
        }
        Err(fault) => print_refused(rt, fault),
    }
}

// The trace is read only once the words are judged.
fn answer(rt: &HostRuntime, words: &[String]) -> anyhow::Result<ExitCode> {
    match asked_by(words) {
        Asked::Help => rt.println(USAGE)?,
        Asked::Misused(misuse) => {
            eprintln!(rt; "tawqeru: {misuse}\n{USAGE}")?;
            return Ok(ExitCode::FAILURE);
        }
        Asked::Sheet { file } => {
            let mut recording = Recording::new(rt.alloc(), read_text(rt, file)?)?;
            print_lines(rt, HEADER, recording.sheet())?;
        }
        Asked::Plan {
            file,
            frames,
            smaller,
        } => {
            let mut recording = Recording::new(rt.alloc(), read_text(rt, file)?)?;
            let plan = recording.plan(frames, smaller);
            print_lines(rt, PLAN_HEADER, plan.map(|line| [line]))?;
        }
        Asked::Curve { file } => {
            let mut recording = Recording::new(rt.alloc(), read_text(rt, file)?)?;
            print_lines(rt, CURVE_HEADER, recording.curve())?;
        }
    }
    Ok(ExitCode::SUCCESS)
}

// The words behind the program's own name.
pub fn words_of(rt: &HostRuntime) -> anyhow::Result<Vec<String>> {
    let mut words = env::args(rt)?;
    let _ = words.next();
    Ok(words.collect(rt.alloc())?)
}

fn run(rt: &HostRuntime) -> anyhow::Result<ExitCode> {
    answer(rt, &words_of(rt)?)
}

pub fn tawqeru(rt: &HostRuntime) -> io::Result<ExitCode> {
    match run(rt) {
        Ok(status) => Ok(status),
        Err(error) => {
            eprintln!(rt; "tawqeru: {error:#}")?;
            Ok(ExitCode::FAILURE)
        }
    }
}
