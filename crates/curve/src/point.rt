// One line of the curve.
ghost use Rattle.std.specs.Prelude.{◌≡◌, Some, map};
ghost use Rattle.std.specs.List.{range_with_len};
ghost use Rattle.base.specs.declared.limits.TheConstants.{MAX_FRAMES};
ghost use Rattle.curve.specs.Points.{point_frames, point_fetches, shown_point};

use base::MAX_FRAMES;
use std::fmt;

#[derive(Clone, Copy, PartialEq, Eq, Debug)]
pub struct Point {
    pub frames: u8,
    pub lru: u64,
}

// The names of its numbers, in the order in which they are printed.
pub const CURVE_HEADER: &str = "frames,LRU";

impl fmt::Display for Point {
    ghost output = { λ point. Some (shown_point point) };

    fn fmt<W: fmt::Write>(&self, f: &mut fmt::Formatter<W>) -> fmt::Result {
        write!(f, "{},{}", self.frames, self.lru)
    }
}

// The points of the fetches on one frame and more.
pub(crate) fn points_at(fetches: &[u64; MAX_FRAMES]) -> [Point; MAX_FRAMES]
    ensures frames { map point_frames result ≡ range_with_len 1 MAX_FRAMES }
    ensures fetches { map point_fetches result ≡ fetches.now }
{
    let mut points = [Point { frames: 0, lru: 0 }; MAX_FRAMES];
    for (place, lru) in fetches.iter().enumerate() {
        points[place] = Point {
            frames: place as u8 + 1,
            lru: *lru,
        };
    }
    points
}
