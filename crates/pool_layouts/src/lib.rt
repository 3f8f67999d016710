//! Layouts of faces, their serial texts, and their pictures.
#![tactic(auto)]

mod drafter;
mod extents;
mod frames;
mod ink;
mod latex;
mod laws;
mod laying;
mod lists;
mod picture;
mod places;
mod serial;
mod steps;

pub use drafter::Drafter;
pub use latex::write_latex;
pub use laws::{
    base_row_is_within, characters_take_one_column, latex_tells_the_face, one_line_is_the_text,
    rows_are_as_wide, serial_text_reads,
};
pub use laying::layout_of;
pub use picture::{rows, write_row};
pub use serial::write_serial;
