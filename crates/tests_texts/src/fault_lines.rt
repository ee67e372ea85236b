// Faults: the exit status and the line of each.
use model_archive::RestoreRefusal;
use model_script::{Misfit, Quantity};
use model_store::Refusal;
use redo_report::{FAULT_ROOM, Fault, fault_text, status_of};

const PAGE: Misfit = Misfit {
    quantity: Quantity::Page,
    number: 9,
};

const STORE: Misfit = Misfit {
    quantity: Quantity::Store,
    number: 294_912,
};

const ARCHIVE: Misfit = Misfit {
    quantity: Quantity::Archive,
    number: 34_816,
};

#[test]
fn fault_lines(rt: HostRuntime) {
    for (fault, status, line) in [
        (Fault::Memory, 1, "fault memory\n"),
        (Fault::Words, 2, "fault words\n"),
        (Fault::Script(1), 3, "fault script line 1\n"),
        (Fault::Source, 4, "fault source\n"),
        (Fault::Sink, 5, ""),
        (Fault::LogDevice, 6, "fault log device\n"),
        (Fault::DataDevice, 7, "fault data device\n"),
        (
            Fault::Store(Refusal::NotFormatted),
            8,
            "fault store unformatted\n",
        ),
        (
            Fault::Store(Refusal::BadRecord(8204)),
            8,
            "fault store record 8204\n",
        ),
        (
            Fault::Store(Refusal::PageAhead(5, 9000)),
            8,
            "fault store ahead 5 9000\n",
        ),
        (Fault::Turns(6, 1), 9, "fault turns 6 user 1\n"),
        (Fault::Fit(PAGE), 10, "fault fit page 9\n"),
        (Fault::Fit(STORE), 10, "fault fit store 294912\n"),
        (
            Fault::Store(Refusal::SmallLog(2048)),
            10,
            "fault fit log 2048\n",
        ),
        (Fault::Fit(ARCHIVE), 10, "fault fit archive 34816\n"),
        (
            Fault::Archive(RestoreRefusal::To(8211)),
            10,
            "fault fit to 8211\n",
        ),
        (Fault::ArchiveDevice, 11, "fault archive device\n"),
        (
            Fault::Archive(RestoreRefusal::Missing),
            12,
            "fault archive none\n",
        ),
        (
            Fault::Archive(RestoreRefusal::Page(7)),
            12,
            "fault archive page 7\n",
        ),
        (
            Fault::Archive(RestoreRefusal::Block(8704)),
            12,
            "fault archive block 8704\n",
        ),
        (
            Fault::Archive(RestoreRefusal::Record(8204)),
            12,
            "fault archive record 8204\n",
        ),
    ] {
        let mut out = [255; FAULT_ROOM];
        let end = fault_text(fault, &mut out);
        assert!(rt;
            status_of(fault) == status && &out[..end] == line.as_bytes(),
            "{line}"
        );
    }
}
