ghost use Rattle.std.specs.Prelude.{IsTrue};
ghost use Rattle.std.specs.List.{All};
ghost use Rattle.lane_kernels.specs.Columns.{IsCoordinate};

use super::{any_covers, first_at_least, plain, within};

const EDGE: i64 = 1_099_511_627_776;

// The widest column of a case: lengths up to it have whole groups, up to two blocks of `within`, and rests of every size.
const PLACES: usize = 140;

// What a call of `within` asks of a column, as a test at run time.
fn are_coordinates(column: &[i64]) -> bool
    ensures { IsTrue result → All IsCoordinate column.now }
{
    for place in 0..column.len() {
        if column[place] < -EDGE || column[place] > EDGE {
            return false;
        }
    }
    true
}

// The marks round (`middle`, `middle`), and true at each place past the columns.
fn marks(xs: &[i64], ys: &[i64], middle: i64, reach: u32, by_lanes: bool) -> [bool; PLACES] {
    let mut out = [true; PLACES];
    let count = xs.len();
    if count != ys.len() || count > PLACES || reach > 5_000_000 || middle < -EDGE || middle > EDGE {
        return out;
    }
    if !are_coordinates(xs) || !are_coordinates(ys) {
        return out;
    }
    if by_lanes {
        within(xs, ys, middle, middle, i64::from(reach), &mut out[..count]);
    } else {
        plain::within(xs, ys, middle, middle, i64::from(reach), &mut out[..count]);
    }
    out
}

#[test]
fn answers_the_worked_cases(rt: HostRuntime) {
    let marked = marks(&[0, 3, 4], &[0, 4, 4], 0, 5, true);
    assert!(rt; marked[0] && marked[1] && !marked[2]);
    assert_eq!(rt; first_at_least(&[5, 7, 7], 7), 1);
    assert_eq!(rt; first_at_least(&[5, 7, 7], 8), 3);
    assert!(rt; !any_covers(&[5], &[2], 5, 1));
    assert!(rt; any_covers(&[5], &[2], 5, 2));
}

// The entries neither rise nor fall, and each answer lies in some column inside a group, at its ends and in the rest.
#[test]
fn agrees_with_the_plain_loops_at_every_length(rt: HostRuntime) {
    let mut xs = [0; PLACES];
    let mut ys = [0; PLACES];
    for place in 0..PLACES {
        xs[place] = (place * 7 % 41) as i64 - 20;
        ys[place] = (place * 11 % 43) as i64 - 21;
    }
    for length in 0..=PLACES {
        let (front, back) = (&xs[..length], &ys[..length]);
        for t in -21..22 {
            assert_eq!(rt;
                first_at_least(front, t),
                plain::first_at_least(front, t),
                "{length} {t}"
            );
            assert_eq!(rt;
                any_covers(front, back, t, t.wrapping_neg()),
                plain::any_covers(front, back, t, t.wrapping_neg()),
                "{length} {t}"
            );
        }
        for reach in 0..32 {
            assert!(rt;
                marks(front, back, 0, reach, true) == marks(front, back, 0, reach, false),
                "{length} {reach}"
            );
        }
    }
}

#[test]
fn reads_the_ends_of_the_ranges(rt: HostRuntime) {
    let low = [i64::MIN; 9];
    let high = [i64::MAX; 9];
    assert_eq!(rt; first_at_least(&low, i64::MIN), 0);
    assert_eq!(rt; first_at_least(&low, i64::MIN + 1), 9);
    assert_eq!(rt; first_at_least(&high, i64::MAX), 0);
    assert_eq!(rt; first_at_least(&[], i64::MIN), 0);
    assert!(rt; any_covers(&low, &low, i64::MIN, i64::MIN));
    assert!(rt; !any_covers(&high, &low, i64::MAX - 1, i64::MAX));
    assert!(rt; any_covers(&high, &high, i64::MAX, i64::MAX));
    // 3,000,000 and 4,000,000 are the sides of a right triangle whose third is 5,000,000.
    let middle = EDGE - 4_000_000;
    let xs = [
        EDGE,
        EDGE,
        -EDGE,
        middle - 5_000_000,
        middle,
        middle,
        EDGE,
        middle,
        EDGE,
    ];
    let ys = [
        middle - 3_000_000,
        middle - 3_000_001,
        middle,
        middle,
        -EDGE,
        middle,
        EDGE,
        EDGE,
        middle + 3_000_000,
    ];
    let marked = marks(&xs, &ys, middle, 5_000_000, true);
    assert_eq!(rt;
        &marked[..9],
        [true, false, false, true, false, true, false, true, true].as_slice()
    );
    assert_eq!(rt;
        &marks(&[-EDGE; 9], &[-EDGE; 9], EDGE, 5_000_000, true)[..9],
        [false; 9].as_slice()
    );
    assert_eq!(rt;
        &marks(&[EDGE; 9], &[EDGE; 9], EDGE, 0, true)[..9],
        [true; 9].as_slice()
    );
}
