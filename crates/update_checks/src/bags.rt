use label_bags::{Bag, Label};
use std::test::Fail;

#[test]
fn keeps_the_best(rt: HostRuntime) -> Result<(), Fail> {
    let mut bag = Bag::new(rt.alloc());
    for (number, time, penalty, comes, kept) in [
        (0usize, 100, 50, true, 1),
        // As early and as dear, later, dearer.
        (1, 100, 50, false, 1),
        (2, 101, 50, false, 1),
        (3, 100, 51, false, 1),
        // Later and cheaper; earlier and dearer.
        (4, 120, 30, true, 2),
        (5, 90, 60, true, 3),
        // It covers the first and the one that came with 30.
        (6, 100, -20, true, 2),
        // It covers all.
        (7, -5, -20, true, 1),
    ] {
        let label = Label {
            time,
            penalty,
            number,
        };
        assert_eq!(rt; bag.covers(time, penalty), !comes, "before {number}");
        assert_eq!(rt; bag.insert(label)?, comes, "at {number}");
        assert_eq!(rt; bag.labels().len(), kept, "behind {number}");
        assert!(rt; bag.covers(time, penalty));
    }
    assert!(rt; bag.labels().iter().all(|label| label.number == 7));
    assert!(rt; !bag.covers(-6, 100));
    Ok(())
}
