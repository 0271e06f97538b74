//! Sums that count tests: each part is 1 where a test holds, and else 0.

ghost use Rattle.std.specs.Prelude.{IfOk, IfSome};
ghost use Rattle.guard_code.specs.Joins.{IsCounted, AreCounted, IsCountOf};

use crate::kinds::all_sums;
use crate::nodes::Node;
use crate::plain_tests::Test;
use chain_model::Op;
use sqlite_items::Items;
use std::alloc::{AllocError, Global};

/// The most parts of a sum that counts tests.
const MOST_PARTS: usize = 65_536;

/// The test that a part of a sum counts.
fn counted_test(part: &Node) -> Option<Test>
    ensures { IfSome result (λ test. IsCounted test part.now) }
{
    match part {
        Node::PlainIf(test, first, second) => {
            if *first == 1 && *second == 0 {
                Some(*test)
            } else {
                None
            }
        }
        _ => None,
    }
}

/// The tests that the parts of a sum count, where all do.
fn counted_tests(alloc: Global, parts: &[Node]) -> Result<Option<Items<Test>>, AllocError>
    ensures { IfOk result (λ found. IfSome found (λ tests. AreCounted tests parts.now)) }
{
    let mut tests = Items::new(alloc);
    for part in parts {
        match counted_test(part) {
            Some(test) => tests.push(test)?,
            None => return Ok(None),
        }
    }
    Ok(Some(tests))
}

/// The tests that a chain counts.
pub fn tests_of_count(
    alloc: Global,
    parts: &[Node],
    ops: &[Op],
) -> Result<Option<Items<Test>>, AllocError>
    ensures { IfOk result (λ found. IfSome found (λ tests. IsCountOf tests parts.now ops.now)) }
{
    if parts.len() != ops.len() + 1 {
        return Ok(None);
    }
    if parts.len() > MOST_PARTS {
        return Ok(None);
    }
    if !all_sums(ops) {
        return Ok(None);
    }
    counted_tests(alloc, parts)
}
