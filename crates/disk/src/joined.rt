// Two disks of any kind as one: the second's sectors stand behind the first's.
use crate::tallies::Tallies;

mod calls;

#[derive(Drop)]
pub struct JoinedDisk<A, B> {
    first: A,
    second: B,
    tallies: Tallies,
}
