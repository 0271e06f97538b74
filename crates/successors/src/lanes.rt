//! Which commands are enabled, by the bits of a lane.

ghost use Rattle.std.specs.Prelude.{◌≡◌, ◌<◌, ◌≤◌, ◌/◌, ◌%◌, Some, filter, length, slice_get};
ghost use Rattle.successors.specs.Enabled.{is_enabled};

/// Whether the command of a number is enabled.
#[inline(always)]
pub fn is_enabled(enabled: &[u8], lane: u32, number: u32) -> bool
    requires { lane < 8 }
    ensures { result ≡ is_enabled lane enabled.now number }
{
    match enabled.get(number as usize) {
        Some(byte) => (*byte >> lane) & 1 == 1,
        None => false,
    }
}

/// How many of these commands are enabled.
#[inline(always)]
pub fn count_enabled(enabled: &[u8], lane: u32, numbers: &[u32]) -> u64
    requires { lane < 8 }
    ensures value { result ≡ length (filter (is_enabled lane enabled.now) numbers.now) }
    ensures within { result ≤ length numbers.now }
{
    let mut count: u64 = 0;
    for number in numbers {
        count += u64::from(is_enabled(enabled, lane, *number));
    }
    count
}

/// How many of these commands are enabled, and the first of them where there is one.
#[inline(always)]
pub fn first_enabled(enabled: &[u8], lane: u32, numbers: &[u32]) -> (u64, Option<u32>)
    requires { lane < 8 }
    ensures count { result.0 ≡ length (filter (is_enabled lane enabled.now) numbers.now) }
    ensures first { result.1 ≡ slice_get (filter (is_enabled lane enabled.now) numbers.now) 0 }
{
    for (index, number) in numbers.iter().enumerate() {
        if is_enabled(enabled, lane, *number) {
            let others = count_enabled(enabled, lane, &numbers[index + 1..]);
            return (1 + others, Some(*number));
        }
    }
    (0, None)
}

/// The enabled command of this index among these.
pub fn nth_enabled(enabled: &[u8], lane: u32, numbers: &[u32], index: u64) -> u32
    requires lane { lane < 8 }
    requires there { index < length (filter (is_enabled lane enabled.now) numbers.now) }
    ensures { slice_get (filter (is_enabled lane enabled.now) numbers.now) index ≡ Some result }
{
    let mut left = index;
    for number in numbers {
        if is_enabled(enabled, lane, *number) {
            if left == 0 {
                return *number;
            }
            left -= 1;
        }
    }
    unreachable!()
}

/// The last digit of a number, as one of the enabled commands among these, and the number without it.
#[inline(always)]
pub fn digit_of(enabled: &[u8], lane: u32, numbers: &[u32], number: u64) -> (u32, u64)
    requires lane { lane < 8 }
    requires some { 0 < length (filter (is_enabled lane enabled.now) numbers.now) }
    ensures command { slice_get (filter (is_enabled lane enabled.now) numbers.now)
        (number % length (filter (is_enabled lane enabled.now) numbers.now)) ≡ Some result.0 }
    ensures left { result.1 ≡ number / length (filter (is_enabled lane enabled.now) numbers.now) }
{
    let count = count_enabled(enabled, lane, numbers);
    if count == 1 {
        return (nth_enabled(enabled, lane, numbers, 0), number);
    }
    (
        nth_enabled(enabled, lane, numbers, number % count),
        number / count,
    )
}
