ghost use Rattle.std.specs.Prelude.{◌≡◌, ◌+◌, ◌*◌, ◌<◌, ◌≤◌, ◌^◌, min, length, Some, IfOk, slice_get, flat_map};
ghost use Rattle.chain_model.specs.Choices.{combinations};

use sqlite_items::Items;
use std::alloc::{AllocError, Global};

/// One more than the most choices that a state may have.
const TOO_MANY: u64 = (1 << 48) + 1;

/// A product, up to one more than the most choices.
fn capped_product(a: u64, b: u64) -> u64
    ensures { result ≡ min (a * b) (2 ^ 48 + 1) }
{
    a.saturating_mul(b).min(TOO_MANY)
}

/// How many lists there are with one item of each of these, up to one more than the most choices.
pub fn count(lists: &[Items<u32>]) -> u64
    ensures { result ≡ min (length (combinations lists.now)) (2 ^ 48 + 1) }
{
    let mut product = 1;
    for list in lists {
        product = capped_product(product, list.len() as u64);
    }
    product
}

/// The list of this number among those with one item of each of these.
pub fn nth_combination(
    alloc: Global,
    lists: &[Items<u32>],
    number: u64,
) -> Result<Items<u32>, AllocError>
    requires there { number < length (combinations lists.now) }
    requires few { length (combinations lists.now) ≤ 2 ^ 48 }
    ensures { IfOk result (λ list. slice_get (combinations lists.now) number ≡ Some list) }
{
    let mut left = number;
    let mut chosen = Items::new(alloc);
    for place in 0..lists.len() {
        let (_, others) = lists.split_at(place + 1);
        let below = count(others);
        let item = lists[place].as_slice()[(left / below) as usize];
        left %= below;
        match chosen.push(item) {
            Ok(()) => {}
            Err(error) => return Err(error),
        }
    }
    Ok(chosen)
}
