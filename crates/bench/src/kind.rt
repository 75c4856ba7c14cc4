// What is measured, by its names on the command line.
use std::str::FromStr;
use thiserror::Error;

// Turns through the cache.
#[derive(Clone, Copy)]
pub enum TurnKind {
    // Reads of as many sectors as there are frames: once they are held, every turn is a hit.
    Hit,
    // Reads of twice as many sectors: every turn fetches and, once the frames are full, puts a clean sector out.
    Clean,
    // Writes of the same: every turn fetches and puts a dirty sector out.
    Dirty,
}

// Rounds over the touches of a trace, each of which counts what LRU fetches on every number of frames.
#[derive(Clone, Copy)]
pub enum RoundKind {
    // One call that writes the curve.
    Curve,
    // A replay for each number of frames.
    Replays,
}

#[derive(Clone, Copy)]
pub enum Kind {
    Turns(TurnKind),
    Rounds(RoundKind),
}

#[derive(Debug, Drop, Error)]
#[error("the kind is hit, clean, dirty, curve or replays")]
pub struct UnknownKind;

impl FromStr for Kind {
    type Err = UnknownKind;

    fn from_str(name: &str) -> Result<Kind, UnknownKind> {
        match name {
            "hit" => Ok(Kind::Turns(TurnKind::Hit)),
            "clean" => Ok(Kind::Turns(TurnKind::Clean)),
            "dirty" => Ok(Kind::Turns(TurnKind::Dirty)),
            "curve" => Ok(Kind::Rounds(RoundKind::Curve)),
            "replays" => Ok(Kind::Rounds(RoundKind::Replays)),
            _ => Err(UnknownKind),
        }
    }
}
