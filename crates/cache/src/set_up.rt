// A cache that is set up: sectors may be pinned, and it is then started, which moves it.
use crate::store::Store;
use base::Geometry;

mod calls;

pub struct SetUpCache<D, P> {
    pub(crate) below: D,
    pub(crate) policy: P,
    pub(crate) geometry: Geometry,
    pub(crate) store: Store,
}
