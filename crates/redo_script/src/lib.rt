//! Scripts as the program reads and makes them: the script of a text or its first bad line, the group that a line logs,
//! and the script of a seed.
#![tactic(auto)]

mod cut;
mod draws;
mod fault;
mod fit;
mod generator;
mod group;
mod laws;
mod line;
mod number;
mod operation;
mod parsing;
mod printing;
mod unfit;

pub use draws::Draws;
pub use fault::ScriptFault;
pub use fit::{judge, judge_line};
pub use generator::{generate, generate_lines};
pub use group::group_of;
pub use laws::{
    generated_lines_are_ranged, generated_script_reads_back, printed_line_reads_back,
    printed_operation_reads_back, printed_script_reads_back,
};
pub use model_script::{Item, Items, Script, ScriptLine};
pub use number::number_up_to;
pub use parsing::parse;
pub use printing::{push_init, push_line, push_number, push_string};
pub use unfit::Unfit;
