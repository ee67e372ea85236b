// How a run is laid out.

/// How a run is laid out: with the log alone or with its pages, whether it is archived, and how many followers it has.
#[derive(Clone, Copy)]
pub struct Plan {
    pub log_only: bool,
    pub archive: bool,
    pub followers: u64,
}
