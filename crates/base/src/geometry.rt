// How many frames and pin places a cache has. The bounds stand in the type, so no value outside them exists,
// and what is made from a geometry refuses nothing.
ghost use Rattle.std.specs.Prelude.{◌≤◌};
ghost use Rattle.base.specs.declared.limits.TheConstants.{MAX_FRAMES, MAX_PINS};

mod calls;

#[derive(Clone, Copy, PartialEq, Eq, Debug)]
pub struct Geometry {
    frames: u8,
    pins: u8,
    ghost some: { 1 ≤ frames },
    ghost most: { frames ≤ MAX_FRAMES },
    ghost few: { pins ≤ MAX_PINS },
}
