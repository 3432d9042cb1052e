// The map of a function as an SVG picture, element by element (docs/PROGRAMS.md, "The map"). What draws is there twice: `.._on`
// draws on a sheet, such as the page of standard output, the other into any writer, whose first error it answers.
#![tactic(auto)]

pub mod column;
pub mod frame;
pub mod function;
mod label;
mod runs;
