use pb_wire::{Field, FieldValue, WireFault, fields, fields_at};
use std::test::Fail;

/// A field of each wire type, the first with a number that is written longer than it needs.
const BYTES: [u8; 22] = [
    0x08, 0x96, 0x81, 0x00, 0x11, 1, 0, 0, 0, 0, 0, 0, 0x80, 0x1A, 2, 0x41, 0x42, 0x25, 0, 0, 0, 1,
];

#[test]
fn cuts_each_wire_type(rt: HostRuntime) -> Result<(), Fail> {
    let found = fields_at(rt.alloc(), 100, &BYTES)?;
    let wanted = [
        Field {
            number: 1,
            at: 100,
            value: FieldValue::Varint(150),
        },
        Field {
            number: 2,
            at: 104,
            value: FieldValue::Eight((1 << 63) + 1),
        },
        Field {
            number: 3,
            at: 113,
            value: FieldValue::Bytes { from: 115, to: 117 },
        },
        Field {
            number: 4,
            at: 117,
            value: FieldValue::Four(1 << 24),
        },
    ];
    assert_eq!(rt; found.as_slice(), wanted.as_slice());
    Ok(())
}

#[test]
fn drops_bits_above_the_64th(rt: HostRuntime) -> Result<(), Fail> {
    let bytes = [0x08, 255, 255, 255, 255, 255, 255, 255, 255, 255, 127];
    let found = fields(rt.alloc(), &bytes)?;
    assert_eq!(rt; found.len(), 1);
    assert_eq!(rt; found[0].value, FieldValue::Varint(u64::MAX));
    Ok(())
}

#[test]
fn finds_the_first_fault(rt: HostRuntime) {
    let cases: [(&[u8], WireFault); 14] = [
        (&[0x80], WireFault::Cut { at: 0 }),
        (&[0x08], WireFault::Cut { at: 0 }),
        (&[0x08, 0x01, 0x08, 0x80], WireFault::Cut { at: 2 }),
        (&[0x09, 1, 2, 3, 4, 5, 6, 7], WireFault::Cut { at: 0 }),
        (&[0x0D, 1, 2, 3], WireFault::Cut { at: 0 }),
        (&[0x0A, 2, 1], WireFault::Cut { at: 0 }),
        (&[0x0A, 0x80], WireFault::Cut { at: 0 }),
        (&[0x00, 0x00], WireFault::ZeroField { at: 0 }),
        (&[0x03, 0x00], WireFault::ZeroField { at: 0 }),
        (&[0x0B], WireFault::Group { at: 0 }),
        (&[0x0C], WireFault::Group { at: 0 }),
        (&[0x08, 0x01, 0x0E], WireFault::Group { at: 2 }),
        (&[0x0F, 0x00], WireFault::Group { at: 0 }),
        (&[255; 10], WireFault::LongVarint { at: 0 }),
    ];
    for (bytes, fault) in cases {
        match fields(rt.alloc(), bytes) {
            Ok(_) => assert!(rt; false),
            Err(found) => assert_eq!(rt; found, fault),
        }
    }
}
