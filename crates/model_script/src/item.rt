// The operations of a script line.
use model_base::Bytes;
use std::marker::Model;

/// One operation: a redo record without its space id.
#[derive(Debug, Drop)]
pub enum Item {
    /// Writes a number of `width` bytes.
    Num {
        width: u32,
        page: u32,
        offset: u32,
        value: u64,
    },
    /// Writes a string of bytes.
    Text {
        page: u32,
        offset: u32,
        bytes: Bytes,
    },
    /// Sets all user bytes of the page to 0.
    Init {
        page: u32,
    },
}

/// The operations of a line, in order. Contracts see it as the list of them.
#[derive(Debug, Drop)]
pub struct Items(pub Vec<Item>);

impl Model for Items {
    ghost use Rattle.std.specs.Prelude.{List};
    ghost use Rattle.model_script.specs.declared.item.Item.{Item};

    ghost Value = { List Item };

    ghost view = { λ items. items.0.items };
}
