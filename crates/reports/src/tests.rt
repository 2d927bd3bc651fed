//! What a report leaves of the buffer that it is written into. The texts of reports are those of the crate `cases`.

use fault::{Cause, Fault, Layer};
use planning::report_on;

/// Plan S under fixed priority with loaded blocks.
const INPUT: [u8; 64] = [
    0x46, 0x2d, 0x4c, 0x0a, 0x11, 0x04, 0x00, 0x00, 0x10, 0x00, 0x06, 0x00, 0x00, 0x60, 0x00, 0x02,
    0x09, 0x00, 0x00, 0x00, 0x00, 0x00, 0x00, 0x00, 0x00, 0x00, 0x06, 0x00, 0x00, 0x00, 0x00, 0x00,
    0x00, 0x00, 0x00, 0x00, 0x00, 0x00, 0x00, 0x0c, 0x00, 0x00, 0xc0, 0x00, 0x05, 0x05, 0x00, 0x06,
    0x00, 0x00, 0x00, 0x00, 0x00, 0x00, 0x00, 0x06, 0x00, 0x00, 0x00, 0x00, 0x00, 0x00, 0x00, 0x00,
];

/// The refusal of a buffer that is too short for the report.
fn too_short() -> Fault {
    Fault::new(Layer::Run, Cause::BufferTooShort)
}

#[test]
fn a_report_leaves_the_rest_of_its_buffer(rt: HostRuntime) {
    let mut out = [0xaa; 40];
    assert_eq!(rt; report_on(&INPUT, &mut out[0..29]), Err(too_short()));
    assert_eq!(rt; report_on(&INPUT, &mut out[0..0]), Err(too_short()));
    assert!(rt; out == [0xaa; 40]);
    assert_eq!(rt; report_on(&INPUT, &mut out[0..30]), Ok(30));
    assert!(rt; out.starts_with(b"HOLDS 13 1 0\n0 2 2 0\n1 1 12 3\n"));
    assert_eq!(rt; report_on(&INPUT, &mut out), Ok(30));
    assert!(rt; out[30..40] == [0xaa; 10]);
}

#[test]
fn a_refusal_wants_room_as_well(rt: HostRuntime) {
    let mut out = [0xaa; 40];
    assert_eq!(rt; report_on(b"", &mut out[0..16]), Err(too_short()));
    assert!(rt; out == [0xaa; 40]);
    assert_eq!(rt; report_on(b"", &mut out), Ok(17));
    assert!(rt; out.starts_with(b"REFUSED O 16 - 0\n"));
    assert!(rt; out[17..40] == [0xaa; 23]);
}
