//! Shapes rounded out to whole numbers: discs to octagons, clips and frames to polygons with whole corners. What is
//! made holds each whole point that it has to.
#![tactic(auto)]

ghost use Rattle.round_out.specs.Growth.{RoundingLaws};

mod body;
mod clips;
mod disc;
mod frames;
mod octagon;
mod parts;

pub use body::body_poly;
pub use clips::{clip_v_max, clip_v_min, clip_x_max, clip_x_min};
pub use disc::{body_octagon, disc_number};
pub use frames::{FrameNumbers, frame_numbers, frame_poly};
pub use octagon::octagon_at;
pub use parts::{part_between, slow_part};

/// Clips and frames reach past what they are made of by less than the factor of the coordinate that is rounded.
pub fn rounding_is_bounded()
    ensures { RoundingLaws }
{}

#[cfg(test)]
mod clip_tests;
#[cfg(test)]
mod frame_tests;
#[cfg(test)]
mod position_clip_rows;
#[cfg(test)]
mod speed_clip_rows;
#[cfg(test)]
mod table_tests;
#[cfg(test)]
mod test_points;
