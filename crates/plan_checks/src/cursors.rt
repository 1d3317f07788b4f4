use otp_base::Memory;
use otp_model::{Cursor, Value};
use paging::{cursor_text, fits_text, read_cursor};
use std::alloc::Global;
use std::test::Fail;

/// Texts of cursors, with their numbers.
const CURSORS: [(&str, Cursor); 2] = [
    (
        "v1-0-1714982400-1714984200-2-341900",
        Cursor {
            commit: 0,
            value: Value {
                departure: 1_714_982_400,
                arrival: 1_714_984_200,
                rides: 2,
                cost: 341_900,
            },
        },
    ),
    (
        "v1-999999999999999999-0-999999999999999999-999999999-0",
        Cursor {
            commit: 999_999_999_999_999_999,
            value: Value {
                departure: 0,
                arrival: 999_999_999_999_999_999,
                rides: 999_999_999,
                cost: 0,
            },
        },
    ),
];

/// Texts that are no cursor.
const OTHERS: [&str; 20] = [
    "",
    "v1",
    "v1-",
    "v1-0-1-2-3",
    "v1-0-1-2-3-",
    "v1-0-1-2-3-4-",
    "v1-0-1-2-3-4-5",
    "v2-0-1-2-3-4",
    "V1-0-1-2-3-4",
    "0-1-2-3-4",
    "v1-00-1-2-3-4",
    "v1-0-01-2-3-4",
    "v1-0-1-2-3-04",
    "v1-+0-1-2-3-4",
    "v1-0--1-2-3-4",
    "v1-0-1-2-3-4 ",
    "v1-0-1-2-3-x",
    "v1-0-1-2-1234567890-4",
    "v1-1234567890123456789-1-2-3-4",
    "v1-0-1-2-3-1234567890123456789",
];

fn others() -> &'static [&'static str] {
    &OTHERS
}

/// Whether the text is that of the cursor, and is read as it.
fn is_text_of(alloc: Global, text: &str, cursor: &Cursor) -> Result<bool, Memory> {
    if !fits_text(cursor) {
        return Ok(false);
    }
    let written = cursor_text(alloc, cursor)?;
    Ok(written.as_str() == text && read_cursor(text) == Some(*cursor))
}

#[test]
fn reads_and_writes_cursors(rt: HostRuntime) -> Result<(), Fail> {
    let alloc = rt.alloc();
    for (text, cursor) in &CURSORS {
        assert!(rt; is_text_of(alloc, text, cursor)?, "{text}");
    }
    for text in others() {
        assert!(rt; read_cursor(text).is_none(), "{text}");
    }
    Ok(())
}
