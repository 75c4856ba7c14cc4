// The text of a trace, from a file or from standard input.
use anyhow::Context;
use std::alloc::Global;
use std::fs::File;
use std::io::{self, Read};
use workspace::MAX_INPUT_BYTES;

// As much as shows that a trace is too long.
fn read_up_to_limit<R: Read + Drop>(heap: Global, reader: R) -> io::Result<Vec<u8>> {
    let mut text = Vec::new(heap);
    reader.take(MAX_INPUT_BYTES).read_to_end(&mut text)?;
    Ok(text)
}

pub fn read_text(rt: &HostRuntime, file: Option<&str>) -> anyhow::Result<Vec<u8>> {
    match file {
        Some(name) => {
            let file = File::open(rt, name).context(format_args!("{name}"))?;
            Ok(read_up_to_limit(rt.alloc(), file).context(format_args!("{name}"))?)
        }
        None => Ok(read_up_to_limit(rt.alloc(), rt.reader()).context("standard input")?),
    }
}
