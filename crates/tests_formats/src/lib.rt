//! The tests of the formats: checksums, numbers, lsns, groups, blocks, headers and pages, and pages and lists of them in memory.
#![tactic(auto, using(model_base::proofs::ShapeLimits::default_page_size))]

#[cfg(test)]
mod apply;
#[cfg(test)]
mod block;
#[cfg(test)]
mod crc;
#[cfg(test)]
mod flushlist;
#[cfg(test)]
mod groups;
#[cfg(test)]
mod header;
#[cfg(test)]
mod lsn;
#[cfg(test)]
mod num;
#[cfg(test)]
mod page;
#[cfg(test)]
mod record;
#[cfg(test)]
mod table;
