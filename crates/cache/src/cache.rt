// A started cache: the disk below, the policy, the places in memory, the fetches since start, and the cache's own tallies.
use crate::store::Store;
use disk::Tallies;

mod calls;
mod places;

pub struct Cache<D, P> {
    pub(crate) below: D,
    pub(crate) policy: P,
    pub(crate) store: Store,
    pub(crate) fetched: u64,
    pub(crate) tallies: Tallies,
}
