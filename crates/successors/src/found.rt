//! What is found of the enabled commands while their guards are evaluated.

ghost use Rattle.std.specs.Prelude.{ℕ, List, [], ◌∷◌, ◌++◌, if◌then◌else◌};
ghost use Rattle.successors.specs.Enabled.{IsFound};

/// What is found of the enabled commands.
#[derive(Clone, Copy, Debug, PartialEq, Eq)]
pub enum Found {
    /// There is none.
    Nothing,
    /// There is one alone: its number.
    One(u32),
    /// Nothing more is said of them.
    Several,
}

/// What is found of enabled commands and of a further one, where that is enabled too.
#[inline(always)]
pub fn found_with(found: Found, number: u32, enabled: bool) -> Found
    ensures { (numbers : List ℕ) → IsFound found numbers
        → IsFound result (numbers ++ (if enabled then number ∷ [] else [])) }
{
    if !enabled {
        return found;
    }
    match found {
        Found::Nothing => Found::One(number),
        Found::One(_) => Found::Several,
        Found::Several => Found::Several,
    }
}
