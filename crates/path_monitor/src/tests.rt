use super::*;
use chain_model::{Form, Path, PathKind, Sort, Typed, Value};
use std::test::Fail;

fn truth() -> Typed {
    Typed {
        sort: Sort::Bool,
        form: Form::Lit(Value::Bool(true)),
    }
}

fn path(kind: PathKind) -> Path {
    Path {
        kind,
        first: truth(),
        second: truth(),
    }
}

/// Path formulas, pairs, and what is said of the last of them, by the meaning of bounded until.
#[test]
fn a_monitor_tells_as_soon_as_its_pairs_settle_the_formula(rt: HostRuntime) {
    let cases: [(PathKind, &[(bool, bool)], Step); 14] = [
        (PathKind::Next, &[(true, true)], Step::More),
        (PathKind::Next, &[(true, true), (true, false)], Step::False),
        (PathKind::Next, &[(false, false), (false, true)], Step::True),
        (PathKind::Finally(0), &[(true, false)], Step::False),
        (
            PathKind::Finally(2),
            &[(true, false), (true, false)],
            Step::More,
        ),
        (
            PathKind::Finally(2),
            &[(true, false), (true, true)],
            Step::True,
        ),
        (
            PathKind::Finally(1),
            &[(true, false), (true, false)],
            Step::False,
        ),
        (
            PathKind::Globally(2),
            &[(true, true), (true, true)],
            Step::More,
        ),
        (
            PathKind::Globally(1),
            &[(true, true), (true, true)],
            Step::True,
        ),
        (
            PathKind::Globally(9),
            &[(true, true), (true, false)],
            Step::False,
        ),
        (
            PathKind::Until(9),
            &[(true, false), (false, false)],
            Step::False,
        ),
        (
            PathKind::Until(9),
            &[(true, false), (false, true)],
            Step::True,
        ),
        (
            PathKind::Until(1),
            &[(true, false), (true, false)],
            Step::False,
        ),
        (
            PathKind::Until(2),
            &[(true, false), (true, false)],
            Step::More,
        ),
    ];
    for (kind, pairs, want) in cases {
        let mut monitor = Monitor::new(&path(kind));
        let mut said = Step::More;
        for (first, second) in pairs {
            said = monitor.see(*first, *second);
        }
        assert_eq!(rt; said, want);
    }
}

/// `F<=1` in two lanes: the first reaches the second formula at once, the other never does.
#[test]
fn masks_tell_of_the_lanes_that_are_left(rt: HostRuntime) {
    let mut monitor = MaskMonitor::new(&path(PathKind::Finally(1)), 3);
    assert_eq!(rt; monitor.see(3, 1), (1, 0));
    assert_eq!(rt; monitor.left(), 2);
    assert_eq!(rt; monitor.see(3, 0), (0, 2));
    assert_eq!(rt; monitor.left(), 0);
    let mut until = MaskMonitor::new(&path(PathKind::Until(5)), 15);
    until.take_off(3);
    assert_eq!(rt; until.see(0b1011, 0b1000), (0, 0b0100));
    assert_eq!(rt; until.left(), 0b0011);
}
