//! The tests of `lab`: what a call prints, and its status. The texts themselves stand here; clauses name them by definitions alone.
#![tactic(auto, using(model_base::proofs::ShapeLimits::default_page_size))]

#[cfg(test)]
mod answers;
#[cfg(test)]
mod archived;
#[cfg(test)]
mod calls;
#[cfg(test)]
mod devices;
#[cfg(test)]
mod failures;
#[cfg(test)]
mod files;
#[cfg(test)]
mod followers;
#[cfg(test)]
mod formats;
#[cfg(test)]
mod invalid_disk;
#[cfg(test)]
mod logs;
#[cfg(test)]
mod own_writes;
#[cfg(test)]
mod premises;
#[cfg(test)]
mod rounds;
#[cfg(test)]
mod silent_disk;
#[cfg(test)]
mod stops;
#[cfg(test)]
mod stores;
#[cfg(test)]
mod summaries;
#[cfg(test)]
mod tables;
#[cfg(test)]
mod threads;
#[cfg(test)]
mod torn;
#[cfg(test)]
mod turns;
#[cfg(test)]
mod worn_disk;
