//! What a script is: which text is one and what its lines say, how a line is printed, which script a seed generates,
//! the group that a line logs, and what of a script doesn't fit a store. What the words of a call of the program ask for:
//! the seven commands, their options, and what isn't a command. Nothing runs here.
#![tactic(auto)]

mod asked;
mod item;
mod laws;
mod misfit;
mod script;
mod words;

pub use asked::{Asked, Command, Drive};
pub use item::{Item, Items};
pub use laws::{
    fit_as_facts, fitting_archive, fitting_script, fitting_text, read_lines_are_ranged,
    unfit_is_misfit,
};
pub use misfit::{MARGIN, MAX_USERS, Misfit, Quantity};
pub use script::{Script, ScriptLine};
pub use words::{
    DEFAULT_TURNS, Expected, Given, MAX_FOLLOWERS, MAX_GENERATED, MAX_TURNS, MAX_WORKERS, Name,
    Word,
};
