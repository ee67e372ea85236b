// What a call of the program asks for.

/// How the lines of a script are run.
#[derive(Clone, Copy, Debug, PartialEq, Eq)]
pub struct Drive {
    /// The seed of the turns.
    pub seed: u64,
    /// The greatest number of turns.
    pub max: u64,
    /// Whether threads take the turns; the seed and the number of turns aren't used then.
    pub threads: bool,
    /// Whether users, writer and flusher run alone: no page changes and no checkpoint is taken.
    pub log_only: bool,
    /// Whether users write for themselves: neither a writer nor a flusher runs then.
    pub own_writes: bool,
    /// How many followers read the log back while it runs.
    pub followers: u32,
    /// Whether the run is archived.
    pub archive: bool,
}

/// One of the seven commands, with its options.
#[derive(Clone, Copy, Debug, PartialEq, Eq)]
pub enum Command {
    /// Formats both devices.
    Format {
        /// How many bytes a page has.
        page_size: u32,
        pages: u32,
        space: u32,
        log_blocks: u32,
    },
    /// Runs the script of the source.
    Run {
        drive: Drive,
    },
    /// Runs the script, crashes both devices, and reads the store.
    Crash {
        drive: Drive,
        /// How many calls the log device takes until it fails each later one; none: it fails none.
        stop_log: Option<u64>,
        /// The same of the data device.
        stop_data: Option<u64>,
        /// Which sector writes outlive the crash: the i-th does where bit `i mod 64` is 1.
        pick: u64,
        /// How many workers apply the groups of the log.
        workers: u32,
    },
    /// Reads the store and prints its pages.
    Recover {
        /// How many workers apply the groups of the log.
        workers: u32,
    },
    /// Reads the store and prints its header, blocks, groups and records.
    Dump {
        /// Whether it says why the blocks end where they do.
        why: bool,
    },
    /// Restores the pages of an archived run, and prints them.
    Restore {
        /// Exactly the groups that end at or below this lsn are applied.
        to: u64,
    },
    /// Prints a script; where `run` is asked runs it and prints a summary.
    Gen {
        seed: u64,
        users: u32,
        groups: u64,
        run: bool,
        /// The greatest number of turns of the run.
        max: u64,
    },
}

/// What the words of a call ask for.
#[derive(Clone, Copy, Debug, PartialEq, Eq)]
pub struct Asked {
    pub command: Command,
    /// Whether the devices are the files `redo.log`, `redo.data` and `redo.archive`.
    pub files: bool,
}
