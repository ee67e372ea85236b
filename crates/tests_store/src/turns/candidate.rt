// The checkpointer by itself.
use redo_flushlist::FlushList;
use redo_pageactors::Checkpointer;
use redo_words::Answer::{Old, Taken};
use redo_words::{Op, Word};
use std::test::Fail;

/// A page that entered a flush list at 40,000 bounds the candidate by 23,616, also where one that entered it later has an
/// earlier change. The checkpoint is that of its block. CTAIL and FLUSHED are 60,000.
#[test]
fn the_first_page_of_a_list_bounds_the_checkpoint(rt: HostRuntime) -> Result<(), Fail> {
    let mut list = FlushList::new(rt.alloc(), 64)?;
    list.add(3, 40_000);
    list.add(7, 24_000);
    let mut checkpointer = Checkpointer::new(8204, 1, 1);
    checkpointer.took(Old(120_000));
    checkpointer.took(Taken(list.oldest_end()));
    for _ in 0..6 {
        checkpointer.took(Taken(None));
    }
    for (answer, next) in [
        (Taken(None), Op::Load(Word::Flushed)),
        (Old(60_000), Op::TakeDevice),
        (Taken(None), Op::Checkpoint(23_552)),
    ] {
        checkpointer.took(answer);
        assert_eq!(rt; checkpointer.next(), next);
    }
    Ok(())
}
