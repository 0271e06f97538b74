//! States in one row of values.

ghost use Rattle.std.specs.Prelude.{◌≡◌, ◌*◌, length, slice_get};
ghost use Rattle.std.specs.Option.{option_map};
ghost use Rattle.state_table.specs.Table.{states_of};

/// The state of a number, where there are so many of so many values each.
#[inline(always)]
pub(crate) fn state_at(words: &[i64], width: usize, count: usize, number: u32) -> Option<&[i64]>
    requires { length words.now ≡ count * width }
    ensures { option_map (λ state. state.now) result ≡ slice_get (states_of width count words.now) number }
{
    let number = number as usize;
    if number < count {
        let start = number * width;
        Some(&words[start..start + width])
    } else {
        None
    }
}
