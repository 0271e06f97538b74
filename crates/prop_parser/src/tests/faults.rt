//! Texts that are refused, with the places that the rules give.

use super::answer;
use std::test::Fail;

/// Texts, and where the first wrong token of each stands.
static WRONG: [(&str, u32); 42] = [
    ("", 0),
    (" // P", 0),
    ("P", 1),
    ("P ", 1),
    ("x", 0),
    ("dtmc", 0),
    ("P=? [ X x ]", 1),
    ("P>=", 3),
    ("P>= [ X x ]", 4),
    ("P>=0.9", 6),
    ("P>=0.9<1 [ X x ]", 6),
    ("P>=(0.9 [ X x ]", 8),
    ("P>=0.9 ( X x )", 7),
    ("P>=0.9 [ ]", 9),
    ("P>=0.9 [ X ]", 11),
    ("P>=0.9 [ X X x ]", 11),
    ("P>=0.9 [ (X x) ]", 10),
    ("P>=0.9 [ X a+ ]", 14),
    ("P>=0.9 [ X a?b ]", 15),
    ("P>=0.9 [ X a?b?c:d:e ]", 14),
    ("P>=0.9 [ X min(a) ]", 16),
    // times
    ("P>=0.9 [ F x=1 ]", 11),
    ("P>=0.9 [ F[2,3] x=1 ]", 10),
    ("P>=0.9 [ F>=1 x=1 ]", 10),
    ("P>=0.9 [ F<= ]", 13),
    ("P>=0.9 [ F<=() x=1 ]", 13),
    ("P>=0.9 [ F<=(1 x=1 ]", 15),
    ("P>=0.9 [ F<=\"lab\" x=1 ]", 12),
    ("P>=0.9 [ F<=1.5 x=1 ]", 12),
    ("P>=0.9 [ F<=-1 x=1 ]", 12),
    ("P>=0.9 [ F<=k+1 x=1 ]", 13),
    ("P>=0.9 [ F<=floor(3) x=1 ]", 21),
    ("P>=0.9 [ F<=1 ]", 14),
    ("P>=0.9 [ F<=1 G<=1 x ]", 14),
    // an until
    ("P>=0.9 [ x=1 ]", 13),
    ("P>=0.9 [ x U y ]", 13),
    ("P>=0.9 [ x U<=1 ]", 16),
    ("P>=0.9 [ x U<=1 y U<=1 z ]", 18),
    // the end
    ("P>=0.9 [ F<=1 x=1", 17),
    ("P>=0.9 [ X x ] ;", 15),
    ("P>=0.9 [ X x ] ]", 15),
    // the grammar is asked before chains of arrows
    ("P>=0.9 [ X a=>b=>c ] ;", 21),
];

#[test]
fn a_property_is_refused_at_its_first_wrong_token(rt: HostRuntime) -> Result<(), Fail> {
    for (text, at) in WRONG.iter() {
        let got = answer(rt.alloc(), text.as_bytes())?;
        let want = format!(in rt.alloc(); "not in the grammar at {at}")?;
        assert_eq!(rt; got.as_slice(), want.as_bytes(), "{text}");
    }
    Ok(())
}

/// Texts, and why each is refused.
static REFUSED: [(&str, &str); 16] = [
    ("P>=0.9 [ x=0 W<=0 x=2 ]", "unsupported W at 13"),
    ("P>=0.9 [ x=1 R[0,2] x=0 ]", "unsupported R at 13"),
    ("S>=0.9 [ x ]", "unsupported S at 0"),
    ("Pmax=? [ X x ]", "unsupported Pmax at 0"),
    ("P>=0.9 [ F<=log (x=1) ]", "unsupported log at 12"),
    ("P>=0.9 [ X round(x)=1 ]", "unsupported round at 11"),
    // a rewards block is passed over, though no property has one
    ("P>=0.5 [ X rewards ctmc ]", "not in the grammar at 11"),
    ("rewards ctmc endrewards ctmc", "unsupported ctmc at 24"),
    // words are refused before the grammar is asked
    ("; ctmc", "unsupported ctmc at 2"),
    // the second arrow of a chain
    ("P>=0.9 [ X a=>b=>c ]", "unsupported => at 15"),
    ("P>=(a=>b=>c) [ X x ]", "unsupported => at 8"),
    ("P>=0.9 [ F<=(a=>b=>c) x ]", "unsupported => at 17"),
    ("P>=0.9 [ a=>b=>c U<=1 d ]", "unsupported => at 13"),
    ("P>=0.9 [ a U<=1 b=>c=>d ]", "unsupported => at 20"),
    // the first in the text, which is not of the outermost chain
    ("P>=0.9 [ X a=>(b=>c=>d)=>e ]", "unsupported => at 19"),
    // a property reads no rewards block, so chains inside one are not in the grammar
    ("rewards a=>b=>c", "not in the grammar at 0"),
];

#[test]
fn a_word_or_an_arrow_is_refused_at_its_place(rt: HostRuntime) -> Result<(), Fail> {
    for (text, want) in REFUSED.iter() {
        let got = answer(rt.alloc(), text.as_bytes())?;
        assert_eq!(rt; got.as_slice(), want.as_bytes(), "{text}");
    }
    Ok(())
}
