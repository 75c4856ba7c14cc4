// The program recipe_week: judges its words, reads the trace, and takes it through the week, or prints why it is refused.
use crate::run::run_week;
use base::{MAX_TOUCHES, VolumeKey};
use planner::{print_refused, read_text, words_of};
use sheet::{HEADER, Row, sheet_of_trace};
use std::io;
use std::process::ExitCode;
use trace::{ReplayFault, read_trace};
use workspace::Workspace;

const USAGE: &str = "usage: recipe_week [FILE]
       recipe_week --help
Takes the trace in FILE, or on standard input, through a recipe's week: the
record, the sheet, the plan for 4 frames by a schedule on 2, the run of six
tasks through a cache of 4 frames by LRU, and the end.
A refused trace gives the line refused,NUMBER,LINE,FIELD, with status 0, and
the refusal in words on standard error. Wrong words end with status 1.";

fn print_sheet(rt: &HostRuntime, rows: &[Row; 6]) -> io::Result<()> {
    println!(rt; "Tuesday: the sheet")?;
    println!(rt; "  {HEADER}")?;
    for row in rows {
        println!(rt; "  {row}")?;
    }
    Ok(())
}

// The week up to a refusal, if there is one.
fn print_week(rt: &HostRuntime, text: &[u8]) -> anyhow::Result<Result<(), ReplayFault>> {
    let heap = rt.alloc();
    let mut keys = vec![in heap; VolumeKey::new(0, 0); MAX_TOUCHES]?;
    let mut workspace = Workspace::new(heap)?;
    let rows = match sheet_of_trace(text, &mut keys, &mut workspace.lists()) {
        Ok(rows) => rows,
        Err(fault) => return Ok(Err(fault)),
    };
    let touches = match read_trace(text, &mut keys) {
        Ok(touches) => touches,
        Err(fault) => return Ok(Err(fault)),
    };
    println!(rt; "Monday: a trace of {} bytes", text.len())?;
    print_sheet(rt, &rows)?;
    Ok(run_week(rt, &keys[..touches])?.map_err(ReplayFault::from))
}

// The file's name, if there is one, or what is wrong with the words.
fn file_in(words: &[String]) -> Result<Option<&str>, &'static str> {
    match words {
        [] => Ok(None),
        [word, ..] if word.starts_with('-') => Err("there is no such option"),
        [file] => Ok(Some(file)),
        _ => Err("there are more words than a file"),
    }
}

fn run(rt: &HostRuntime) -> anyhow::Result<ExitCode> {
    let words = words_of(rt)?;
    if words.first().is_some_and(|word| word.as_str() == "--help") {
        rt.println(USAGE)?;
        return Ok(ExitCode::SUCCESS);
    }
    let file = match file_in(&words) {
        Ok(file) => file,
        Err(misuse) => {
            eprintln!(rt; "recipe_week: {misuse}\n{USAGE}")?;
            return Ok(ExitCode::FAILURE);
        }
    };
    if let Err(fault) = print_week(rt, &read_text(rt, file)?)? {
        print_refused(rt, fault)?;
    }
    Ok(ExitCode::SUCCESS)
}

pub fn recipe_week(rt: &HostRuntime) -> io::Result<ExitCode> {
    match run(rt) {
        Ok(status) => Ok(status),
        Err(error) => {
            eprintln!(rt; "recipe_week: {error:#}")?;
            Ok(ExitCode::FAILURE)
        }
    }
}
