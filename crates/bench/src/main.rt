// The program that the benchmarks measure: turns through the cache, or rounds over the touches of a trace on standard input. The arguments
// are the number of turns or rounds, and their kind.
#![tactic(auto)]

mod kind;
mod touches;
mod turns;

use anyhow::anyhow;
use kind::Kind;
use std::env;

fn arguments(rt: &HostRuntime) -> anyhow::Result<(u32, Kind)> {
    let mut args = env::args(rt)?;
    let _ = args.next();
    let (Some(number), Some(kind)) = (args.next(), args.next()) else {
        return Err(anyhow!("give the number of turns or rounds, and their kind"));
    };
    Ok((
        number.as_str().parse::<u32>()?,
        kind.as_str().parse::<Kind>()?,
    ))
}

fn main(rt: HostRuntime) -> anyhow::Result<()> {
    match arguments(&rt)? {
        (number, Kind::Turns(kind)) => turns::print_turns(&rt, number, kind),
        (number, Kind::Rounds(kind)) => touches::print_rounds(&rt, number, kind),
    }
}
