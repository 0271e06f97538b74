//! `make`: a ring of stations, checked.

use super::*;
use std::test::Fail;

/// The whole answer for a ring of so many stations, whose text has so many bytes: fifteen successes.
fn answer(alloc: Global, stations: u32, bytes: u32, seed: u64) -> Result<String, AllocError> {
    format!(in alloc;
        "stations: {stations}\nmodel bytes: {bytes}\nresult: accepted\nsamples: 15\nsuccesses: 15\nfailures: 0\nclaim: at least\ntest: wald p0 11/20 p1 9/20 alpha 1/20 beta 1/20\nlimit: 10000\nseed: {seed}\nlongest run of true: 15\nbatches of 1000: 0 full, least 0, most 0\n"
    )
}

/// Words of `make` with the stations, the length of the text and the seed.
static RINGS: [(&str, u32, u32, u64); 5] = [
    ("make|--stations=3", 3, 307, 1),
    ("make|--stations|3|--seed|1|--workers|64", 3, 307, 1),
    ("make", 9, 703, 1),
    ("make|--stations=63", 63, 4601, 1),
    ("make|--workers=2|--stations=63", 63, 4601, 1),
];

#[test]
fn a_ring_comes_to_rest_in_time(rt: HostRuntime) -> Result<(), Fail> {
    for (words, stations, bytes, seed) in RINGS {
        let written = answer(rt.alloc(), stations, bytes, seed)?;
        assert!(rt; is_answer(&rt, words, "", 0, written.as_str())?, "{words}");
    }
    Ok(())
}
