// Places in a ring, numbered from 0: the first follows the last.
ghost use Rattle.std.specs.Prelude.{◌≡◌, ◌<◌};
ghost use Rattle.base.specs.Rings.{onward};

// The place that follows one of `size` places.
pub fn next_in_ring(size: usize, place: usize) -> usize
    requires { place < size }
    ensures { result ≡ onward size place }
{
    let next = place + 1;
    if next < size { next } else { 0 }
}
