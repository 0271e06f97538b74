//! Lines of refusals of settings.

use super::refusals::tells;
use super::*;
use run_goal::SettingsFault;
use smc_num::{Frac, read};
use std::test::Fail;

/// The fault of settings of this number in the table, with two fractions.
fn settings_fault(number: u32, a: Frac, b: Frac) -> SettingsFault {
    match number {
        700 => SettingsFault::Theta(a),
        701 => SettingsFault::Delta(a),
        702 => SettingsFault::ErrorOutside { alpha: a, beta: b },
        703 => SettingsFault::ErrorSum { alpha: a, beta: b },
        _ => SettingsFault::Denominator(a.num()),
    }
}

/// A number of the table, two fractions, and the line.
static SETTINGS: [(u32, &str, &str, &str); 9] = [
    (700, "2", "0", "refused 700: theta 2\n"),
    (700, "-1/2", "0", "refused 700: theta -1/2\n"),
    (700, "-3", "0", "refused 700: theta -3\n"),
    (700, "1.5", "0", "refused 700: theta 3/2\n"),
    (701, "0", "0", "refused 701: delta 0\n"),
    (701, "-0.01", "0", "refused 701: delta -1/100\n"),
    (702, "1", "1/100", "refused 702: errors 1 1/100\n"),
    (703, "1/2", "1/2", "refused 703: errors 1/2 1/2\n"),
    (
        704,
        "2147483649",
        "0",
        "refused 704: denominator 2147483649\n",
    ),
];

#[test]
fn settings_are_refused_by_their_numbers(rt: HostRuntime) -> Result<(), Fail> {
    for (number, a, b, line) in SETTINGS {
        let fault = settings_fault(number, read(a.as_bytes())?, read(b.as_bytes())?);
        assert!(rt;
            tells(rt.alloc(), Reason::Settings(fault), number, 7, line)?,
            "{line}"
        );
    }
    let plan = Reason::Settings(SettingsFault::Plan { n: 10, c: 11 });
    assert!(rt; tells(rt.alloc(), plan, 705, 7, "refused 705: plan 10,11\n")?);
    Ok(())
}
