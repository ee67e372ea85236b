// How a writer begins, and the checkpointer at the flush lists.
ghost use Rattle.std.specs.Prelude.{◌≡◌};

use model_base::Shape;
use redo_logactors::Writer;
use redo_pageactors::Checkpointer;
use redo_words::{Answer, Lent, Op, Word};
use std::test::Fail;

#[test]
fn a_writer_begins(rt: HostRuntime) -> Result<(), Fail> {
    let writer = Writer::new(rt.alloc(), &Shape::default_shape(), 8_204)?;
    let lends_nothing_yet = match writer.lent() {
        Lent::Blocks { bytes, firsts } => bytes.is_empty() && firsts.is_empty(),
        _ => false,
    };
    assert!(rt; lends_nothing_yet && writer.next() == Op::Load(Word::Wtail));
    Ok(())
}

/// The checkpointer once it has asked the first list, of which the page that entered first did so at 40,000: its candidate is
/// 16,384 below that. CTAIL is 60,000, and free.
fn after_the_first_list() -> Checkpointer
    ensures { result.to ≡ 23616 }
{
    let mut checkpointer = Checkpointer::new(8_204, 1, 1);
    checkpointer.took(Answer::Old(120_000));
    checkpointer.took(Answer::Taken(Some(40_000)));
    checkpointer
}

#[test]
fn a_list_bounds_the_candidate(rt: HostRuntime) {
    let next = after_the_first_list().next();
    assert!(rt; next == Op::GiveList(0));
}
