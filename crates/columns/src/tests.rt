use crate::bitmap::{Stretch, next_stretch};

// The stretch from `start` up to `end`.
fn found(start: u64, end: u64) -> Option<Stretch> {
    Some(Stretch { start, end })
}

#[test]
fn stretches_of_bitmaps(rt: HostRuntime) {
    assert_eq!(rt; next_stretch(&[], 0, 0), None);
    assert_eq!(rt; next_stretch(&[0, 0], 16, 0), None);
    // full bytes, and a run across two
    assert_eq!(rt; next_stretch(&[255, 255], 16, 0), found(0, 16));
    assert_eq!(rt; next_stretch(&[0xf8, 0x07], 16, 0), found(3, 11));
    // spare bits are set, and do not count
    assert_eq!(rt; next_stretch(&[0xf1], 5, 0), found(0, 1));
    assert_eq!(rt; next_stretch(&[0xf1], 5, 1), found(4, 5));
    assert_eq!(rt; next_stretch(&[0xf1], 5, 5), None);
    // the last run goes to the end
    let bits = &[0x2c, 0x80];
    assert_eq!(rt; next_stretch(bits, 16, 0), found(2, 4));
    assert_eq!(rt; next_stretch(bits, 16, 4), found(5, 6));
    assert_eq!(rt; next_stretch(bits, 16, 6), found(15, 16));
}
