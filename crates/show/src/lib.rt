// The steps of a run as a text: each is listed before it is made, by `.._on` on a sheet, such as the page of standard output, by the other
// public function into any writer.
#![tactic(auto)]

mod due;
mod front;
pub mod hardened_steps;
mod limit;
mod line_text;
mod line_writer;
mod row_text;
pub mod source_steps;
