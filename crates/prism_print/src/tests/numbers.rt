//! Numbers, printed by hand.

use super::print_text;
use std::test::Fail;

/// Numbers as they are written, and as they are printed.
static NUMBERS: [(&str, &str); 21] = [
    ("0", "0"),
    ("7", "7"),
    ("007", "7"),
    ("4611686018427387903", "4611686018427387903"),
    ("0.5", "0.5"),
    (".25", "0.25"),
    ("12.5e-3", "0.0125"),
    ("1e3", "1000.0"),
    ("2E0", "2.0"),
    ("5e+1", "50.0"),
    ("0.0001", "0.0001"),
    ("1.10", "1.1"),
    ("0.30e1", "3.0"),
    ("0.0", "0.0"),
    ("0e99", "0.0"),
    ("3.75", "3.75"),
    ("10.01", "10.01"),
    ("1e-18", "0.000000000000000001"),
    ("4611686018427387903e-18", "4.611686018427387903"),
    ("0.000976562500", "0.0009765625"),
    ("4e18", "4000000000000000000.0"),
];

#[test]
fn numbers_have_as_few_decimals_as_are_exact(rt: HostRuntime) -> Result<(), Fail> {
    let alloc = rt.alloc();
    for (written, printed) in NUMBERS {
        let text = format!(in alloc; "dtmc const double c={written};")?;
        let form = format!(in alloc; "dtmc\nconst double c = {printed};\n")?;
        let mut out = Vec::new(alloc);
        if text.len() < 65_536 {
            print_text(alloc, text.as_bytes(), &mut out)?;
        }
        assert!(rt; out.as_slice() == form.as_bytes(), "{written}");
    }
    Ok(())
}
