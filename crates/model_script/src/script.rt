// The lines of a script.
use crate::Items;
use std::marker::Model;

/// One line of a script: one mini-transaction of a user.
#[derive(Debug, Drop)]
pub struct ScriptLine {
    /// The number of the user that runs it.
    pub user: u32,
    /// When its commit is answered, as InnoDB's innodb_flush_log_at_trx_commit: 1 once flushed, 2 once written, 0 at
    /// once.
    pub mode: u32,
    pub items: Items,
}

/// The lines of a script that aren't skipped, in order. Contracts see it as the list of them.
#[derive(Debug, Drop)]
pub struct Script(pub Vec<ScriptLine>);

impl Model for Script {
    ghost use Rattle.std.specs.Prelude.{List};
    ghost use Rattle.model_script.specs.declared.script.ScriptLine.{ScriptLine};

    ghost Value = { List ScriptLine };

    ghost view = { λ script. script.0.items };
}
