// A disk over an image that the caller lends, with a list of the sectors that are dead.
use crate::tallies::Tallies;

mod calls;

#[derive(Drop)]
pub struct ImageDisk<'a> {
    image: &'a mut [u8],
    dead: &'a [u32],
    tallies: Tallies,
}
