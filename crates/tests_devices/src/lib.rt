//! Tests of the devices, of the two parts over them, of the words, and of the actors of the log.
#![tactic(auto)]

#[cfg(test)]
mod actors;
#[cfg(test)]
mod calls;
#[cfg(test)]
mod counted_files;
#[cfg(test)]
mod data;
#[cfg(test)]
mod files;
#[cfg(test)]
mod followers;
#[cfg(test)]
mod images;
#[cfg(test)]
mod logs;
#[cfg(test)]
mod memdisk;
#[cfg(test)]
mod parts;
#[cfg(test)]
mod words;
