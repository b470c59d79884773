//! Lines and numbers of plain text, read and written.
#![tactic(auto)]

mod blanks;
mod cuts;
mod file_names;
mod laws;
mod line_reader;
mod stop;
mod units;
mod units_text;
mod whole_numbers;
mod wide_numbers;

pub use blanks::{is_blank_byte, trim};
pub use cuts::{cut_at, cut_at_blank};
pub use file_names::is_file_name;
pub use laws::{
    joined_lines, joined_lines_with_returns, last_line_without_end, leading_zeros, printed_units,
    spelled_lines,
};
pub use line_reader::{Line, LineReader, lines, without_return};
pub use sdc_base::NumberFault;
pub use stop::Stop;
pub use units::read_units;
pub use units_text::print_units;
pub use whole_numbers::number_in;
pub use wide_numbers::wide_number_in;
