// What a file is supposed to hold before its first call.
ghost use Rattle.std.specs.Prelude.{ℕ, List, []};

/// The bytes of a file as it is opened, which no code reads. What is proved over any `S: Contents` is proved for all
/// bytes.
pub trait Contents: Drop {
    ghost bytes: { List ℕ };
}

/// For a program to name: a function over any contents is called with this.
#[derive(Drop)]
pub struct Unread;

impl Contents for Unread {
    ghost bytes = { [] };
}
