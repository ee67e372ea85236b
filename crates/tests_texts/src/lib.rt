//! The tests of the texts: the edge for text, scripts, reports and fault lines, and the words of a call.
#![tactic(auto, using(model_base::proofs::ShapeLimits::default_page_size))]

#[cfg(test)]
mod commands;
#[cfg(test)]
mod edge;
#[cfg(test)]
mod fault_lines;
#[cfg(test)]
mod generated;
#[cfg(test)]
mod misfits;
#[cfg(test)]
mod no_commands;
#[cfg(test)]
mod printed;
#[cfg(test)]
mod reports;
#[cfg(test)]
mod rows;
#[cfg(test)]
mod scripts;
