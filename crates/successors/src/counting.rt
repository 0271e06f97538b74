//! How many choices actions have.

ghost use Rattle.std.specs.Prelude.{◌≡◌, ◌+◌, ◌*◌, ◌<◌, ◌≤◌, ◌^◌, min, length, flat_map};
ghost use Rattle.successors.specs.Enabled.{is_enabled};
ghost use Rattle.successors.specs.Partition.{joint_lists};

use crate::lanes::count_enabled;
use sqlite_items::Items;

/// One more than the most choices that a state may have.
pub const TOO_MANY: u64 = (1 << 48) + 1;

/// A product, up to one more than the most choices.
#[inline(always)]
pub fn capped_product(a: u64, b: u64) -> u64
    ensures { result ≡ min (a * b) (2 ^ 48 + 1) }
{
    a.saturating_mul(b).min(TOO_MANY)
}

/// How many choices an action has, up to one more than the most.
pub fn count_joint(enabled: &[u8], lane: u32, lists: &[Items<u32>]) -> u64
    requires { lane < 8 }
    ensures { result ≡ min (length (joint_lists (is_enabled lane enabled.now) lists.now)) (2 ^ 48 + 1) }
{
    let mut product = 1;
    for list in lists {
        let count = count_enabled(enabled, lane, list.as_slice());
        product = capped_product(product, count);
    }
    product
}

/// How many choices actions have, up to one more than the most.
pub fn count_actions(enabled: &[u8], lane: u32, actions: &[Items<Items<u32>>]) -> u64
    requires { lane < 8 }
    ensures { result ≡ min (length (flat_map (joint_lists (is_enabled lane enabled.now)) actions.now)) (2 ^ 48 + 1) }
{
    let mut total: u64 = 0;
    for lists in actions {
        total = (total + count_joint(enabled, lane, lists.as_slice())).min(TOO_MANY);
    }
    total
}
