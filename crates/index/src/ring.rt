// Steps between the places of a ring.
ghost use Rattle.std.specs.Prelude.{◌≡◌, ◌<◌};
ghost use Rattle.index.specs.Places.{steps as distance};

// How many steps upward lead from one place to another.
pub fn steps(places: usize, from: usize, to: usize) -> usize
    requires { (from < places) × (to < places) }
    ensures { result ≡ distance places from to }
{
    if from <= to {
        to - from
    } else {
        places - from + to
    }
}
