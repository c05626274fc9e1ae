//! The lines of a report. Each call appends exactly its line to a sink: words of ASCII, one blank between two, and a line
//! feed; a number is decimal, without leading zeros, with `-` where it is negative. The sink has to be able to take the
//! whole line, and what it could take beside the line it still can. No call takes memory. Texts that aren't reports can be
//! made in the same buffer.
#![tactic(auto)]

mod ego_line;
mod line_buffer;
mod set_lines;
mod summary;
mod writers;

pub use ego_line::EgoLine;
pub use line_buffer::LineBuffer;
pub use set_lines::SetLines;
pub use spot_terms::{End, Mode, MoverLine};
pub use summary::{Summary, write_summary};
pub use writers::{
    write_count, write_disc, write_ego, write_end, write_fixed, write_head, write_lane, write_late,
    write_mover, write_occ, write_time,
};

#[cfg(test)]
mod tests;
