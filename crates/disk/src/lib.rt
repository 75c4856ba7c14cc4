// Disks of every kind, by one meaning.
#![tactic(auto)]

mod disk;
mod image;
mod joined;
mod serve;
mod tallies;
mod turn;

pub use disk::Disk;
pub use image::ImageDisk;
pub use joined::JoinedDisk;
pub use serve::serve_turns;
pub use tallies::Tallies;
pub use turn::{Request, Turn};
