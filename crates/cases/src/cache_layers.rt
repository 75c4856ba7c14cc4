// A cache over a cache over a join of two images.
ghost use Rattle.cache.specs.Reading.{Safe};
ghost use Rattle.cache.specs.SetUp.{Ready};

use crate::cache_helpers::run;
use crate::disk_helpers::*;
use crate::helpers::check_eq;
use base::Geometry;
use cache::{Cache, SetUpCache};
use disk::{Disk, ImageDisk, JoinedDisk};
use policy::{Lru, Policy};
use std::test::Fail;

fn check_calls<D: Disk, P: Policy>(cache: &mut Cache<D, P>) -> Result<(), Fail>
    requires { Safe D.Disk P.Policy cache.old }
    ensures { Safe D.Disk P.Policy cache.new }
{
    check_eq(write_of::<512, Cache<D, P>>(cache, 0, 50), Ok(()))?;
    check_eq(write_of::<512, Cache<D, P>>(cache, 1, 51), Ok(()))?;
    check_eq(write_of::<512, Cache<D, P>>(cache, 3, 53), Ok(()))?;
    check_eq(read_of::<512, Cache<D, P>>(cache, 0), (Ok(()), Some(50)))?;
    check_eq(cache.fetches(), 4)
}

// Makes the calls of a cache over this one; answers also F of this one before its end.
fn run_both<D: Disk, P: Policy + Drop>(
    inner: SetUpCache<D, P>,
    outer: Geometry,
    setting: P::Setting,
) -> (D, Result<(), Fail>, u64)
    requires { Ready D.Disk P.Policy inner }
    ensures { D.Disk.sound result.0 }
{
    let (cache, slip) = inner.start();
    let outer = SetUpCache::<Cache<D, P>, P>::new(outer, cache, setting);
    let (cache, checked) = run(outer, check_calls::<Cache<D, P>, P>);
    let fetches = cache.fetches();
    (cache.end(slip), checked, fetches)
}

#[test]
fn writes_reach_the_images(rt: HostRuntime) -> Result<(), Fail> {
    let outer = Geometry::new(1, 0)?;
    let inner = Geometry::new(2, 0)?;
    let mut one = image_of(rt.alloc(), 1024)?;
    let mut two = image_of(rt.alloc(), 1024)?;
    let disk = JoinedDisk::new(ImageDisk::new(&mut one, &[]), ImageDisk::new(&mut two, &[]));
    let inner = SetUpCache::<JoinedDisk<ImageDisk<'_>, ImageDisk<'_>>, Lru>::new(inner, disk, ());
    let (disk, checked, fetches) = run_both(inner, outer, ());
    drop(disk);
    checked?;
    check_eq(fetches, 6)?;
    check_bytes(&one, &[50, 51])?;
    check_bytes(&two, &[10, 53])
}
