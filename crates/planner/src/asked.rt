// What the words of a command line ask for. A number never names a file, and neither does the word `curve`: what a word means does not
// depend on which files are there.
use std::fmt;

#[derive(Clone, Copy)]
pub enum Asked<'a> {
    Help,
    Sheet {
        file: Option<&'a str>,
    },
    Plan {
        file: Option<&'a str>,
        frames: usize,
        smaller: usize,
    },
    Curve {
        file: Option<&'a str>,
    },
    Misused(Misuse),
}

#[derive(Clone, Copy)]
pub enum Misuse {
    NoSuchOption,
    Numbers,
    NumberAsFile,
    CurveAsFile,
    MoreWords,
}

impl fmt::Display for Misuse {
    fn fmt<W: fmt::Write>(&self, f: &mut fmt::Formatter<W>) -> fmt::Result {
        f.write_str(match self {
            Misuse::NoSuchOption => "there is no such option",
            Misuse::Numbers => "K and H are two numbers, given both or neither",
            Misuse::NumberAsFile => "a number names no file; a file 4 is given as ./4",
            Misuse::CurveAsFile =>
                "curve is the last word, and names no file; a file curve is given as ./curve",
            Misuse::MoreWords => "there are more words than a file and two numbers",
        })
    }
}

// A word of decimal digits alone is a number. One that is larger than any that a plan takes may stand for each such.
fn number_in(word: &str) -> Option<usize> {
    if word.is_empty() || !word.bytes().all(|byte| byte.is_ascii_digit()) {
        return None;
    }
    Some(word.parse().unwrap_or(usize::MAX))
}

const CURVE: &str = "curve";

// The sheet of the trace in a file.
fn sheet_asked(file: &str) -> Asked<'_> {
    if number_in(file).is_some() {
        return Asked::Misused(Misuse::Numbers);
    }
    Asked::Sheet { file: Some(file) }
}

fn curve_asked(file: &str) -> Asked<'_> {
    if number_in(file).is_some() {
        return Asked::Misused(Misuse::NumberAsFile);
    }
    Asked::Curve { file: Some(file) }
}

fn plan_asked<'a>(file: Option<&'a str>, frames: &str, smaller: &str) -> Asked<'a> {
    match (number_in(frames), number_in(smaller)) {
        (Some(frames), Some(smaller)) => Asked::Plan {
            file,
            frames,
            smaller,
        },
        _ => Asked::Misused(Misuse::Numbers),
    }
}

pub fn asked_by(words: &[String]) -> Asked<'_> {
    match words {
        [] => Asked::Sheet { file: None },
        [word, ..] if word.as_str() == "--help" => Asked::Help,
        [word, ..] if word.starts_with('-') => Asked::Misused(Misuse::NoSuchOption),
        [word] if word.as_str() == CURVE => Asked::Curve { file: None },
        [word, ..] if word.as_str() == CURVE => Asked::Misused(Misuse::CurveAsFile),
        [_, word, _, ..] if word.as_str() == CURVE => Asked::Misused(Misuse::CurveAsFile),
        [file] => sheet_asked(file),
        [file, word] if word.as_str() == CURVE => curve_asked(file),
        [frames, smaller] => plan_asked(None, frames, smaller),
        [word, _, _] if number_in(word).is_some() => Asked::Misused(Misuse::NumberAsFile),
        [file, frames, smaller] => plan_asked(Some(file), frames, smaller),
        _ => Asked::Misused(Misuse::MoreWords),
    }
}
