//! Plain tests of variables.

ghost use Rattle.std.specs.Prelude.{◌≡◌, pos, if◌then◌else◌};
ghost use Rattle.std.specs.List.{list_all, list_any, count_by};
ghost use Rattle.guard_code.specs.Tests.{number_in, test_holds};

/// A test of one variable or of two, each by its number.
#[derive(Clone, Copy, Debug, PartialEq, Eq)]
pub enum Test {
    /// From the first number to the second.
    Within(u32, i64, i64),
    /// Any number but this.
    Other(u32, i64),
    /// `x = y`
    Same(u32, u32),
    /// `x != y`
    Different(u32, u32),
    /// `x < y`
    Below(u32, u32),
    /// `x <= y`
    AtMost(u32, u32),
}

/// The value of a variable, by its number.
#[inline(always)]
pub fn number_in(state: &[i64], variable: u32) -> i64
    ensures { result ≡ number_in state.now variable }
{
    match state.get(variable as usize) {
        Some(number) => *number,
        None => 0,
    }
}

/// Whether a test holds in a state.
#[inline(always)]
pub fn test_holds(state: &[i64], test: &Test) -> bool
    ensures { result ≡ test_holds state.now test.now }
{
    match test {
        Test::Within(x, lo, hi) => {
            let number = number_in(state, *x);
            *lo <= number && number <= *hi
        }
        Test::Other(x, c) => number_in(state, *x) != *c,
        Test::Same(x, y) => number_in(state, *x) == number_in(state, *y),
        Test::Different(x, y) => number_in(state, *x) != number_in(state, *y),
        Test::Below(x, y) => number_in(state, *x) < number_in(state, *y),
        Test::AtMost(x, y) => number_in(state, *x) <= number_in(state, *y),
    }
}

/// One of two whole numbers, by a test.
#[inline(always)]
pub fn number_by(state: &[i64], test: &Test, first: i64, second: i64) -> i64
    ensures { result ≡ (if test_holds state.now test.now then first else second) }
{
    if test_holds(state, test) {
        first
    } else {
        second
    }
}

/// Whether every test holds in a state.
#[inline(always)]
pub fn all_hold(state: &[i64], tests: &[Test]) -> bool
    ensures { result ≡ list_all (test_holds state.now) tests.now }
{
    for test in tests {
        if !test_holds(state, test) {
            return false;
        }
    }
    true
}

/// Whether some test holds in a state.
#[inline(always)]
pub fn some_holds(state: &[i64], tests: &[Test]) -> bool
    ensures { result ≡ list_any (test_holds state.now) tests.now }
{
    for test in tests {
        if test_holds(state, test) {
            return true;
        }
    }
    false
}

/// How many of some tests hold in a state.
#[inline(always)]
pub fn count_holding(state: &[i64], tests: &[Test]) -> i64
    ensures { result ≡ pos (count_by (test_holds state.now) tests.now) }
{
    let mut count = 0;
    for test in tests {
        count += i64::from(test_holds(state, test));
    }
    count
}
