// Checksums, and sectors that end with theirs.
use redo_crc::sector::{field_u16, field_u32, field_u64, is_sealed, put, seal};
use redo_crc::{Crc, crc32c};

// Texts with their checksums, as the standard has them.
const KNOWN: [(&[u8], u32); 5] = [
    (b"123456789", 0xE306_9283),
    (
        &[
            0, 1, 2, 3, 4, 5, 6, 7, 8, 9, 10, 11, 12, 13, 14, 15, 16, 17, 18, 19, 20, 21, 22, 23,
            24, 25, 26, 27, 28, 29, 30, 31,
        ],
        0x46DD_794E,
    ),
    (&[0; 32], 0x8A91_36AA),
    (&[0xFF; 32], 0x62A8_AB43),
    (b"", 0),
];

#[test]
fn known_checksums(rt: HostRuntime) {
    for (text, want) in KNOWN {
        assert_eq!(rt; crc32c(text), want, "{text:?}");
    }
}

#[test]
fn known_checksums_in_parts(rt: HostRuntime) {
    for (text, want) in KNOWN {
        for cut in 0..=text.len() {
            let mut crc = Crc::new();
            crc.update(&text[..cut]);
            crc.update(&text[cut..]);
            assert_eq!(rt; crc.value(), want, "{text:?} cut at {cut}");
        }
    }
}

#[test]
fn a_sealed_sector(rt: HostRuntime) {
    let mut sector = [0xFF; 512];
    let at = put(&mut sector, 0, b"redo");
    assert_eq!(rt; put(&mut sector, at, b"lab"), 7);
    assert_eq!(rt; field_u16(&sector, 0), 0x7265);
    assert_eq!(rt; field_u32(&sector, 3), 0x6F6C_6162);
    assert_eq!(rt; field_u64(&sector, 0), 0x7265_646F_6C61_62FF);
    assert!(rt; !is_sealed(&sector));
    seal(&mut sector, 7);
    assert_eq!(rt; &sector[..8], b"redolab\0".as_slice());
    assert_eq!(rt; &sector[508..], [0xD2, 0x7C, 0x68, 0x5E].as_slice());
    assert!(rt; is_sealed(&sector));
    sector[100] = 1;
    assert!(rt; !is_sealed(&sector));
}
