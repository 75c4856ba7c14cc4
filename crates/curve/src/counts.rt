// The fetches on each number of frames, from the distances: a touch is a fetch on as many frames as its distance, and on fewer.
ghost use Rattle.std.specs.Prelude.{◌≡◌, ◌≤◌, All, length};
ghost use Rattle.base.specs.declared.limits.TheConstants.{MAX_FRAMES, MAX_TOUCHES};
ghost use Rattle.curve.specs.Distances.{far_counts};

use base::MAX_FRAMES;

pub fn count_fetches(distances: &[u8]) -> [u64; MAX_FRAMES]
    requires few { length distances.now ≤ MAX_TOUCHES }
    requires most { All (λ d. d ≤ MAX_FRAMES) distances.now }
    ensures { result ≡ far_counts distances.now }
{
    let mut counts = [0; MAX_FRAMES];
    for distance in distances {
        // A touch at distance 0 is a hit on every number of frames.
        if let Some(place) = (*distance as usize).checked_sub(1) {
            counts[place] += 1;
        }
    }
    for place in (1..MAX_FRAMES).rev() {
        counts[place - 1] += counts[place];
    }
    counts
}
