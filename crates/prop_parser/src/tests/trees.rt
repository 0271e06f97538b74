//! Properties, parsed by hand by the grammar.

use super::answer;
use std::test::Fail;

/// Texts, and what each is as a property: an expression is shown by the number of its nodes.
static PROPERTIES: [(&str, &str); 30] = [
    ("P>=0.9 [ F<=1 x=1 ]", "P>=1 [ F<=1 3 ]"),
    ("P<=0.1 [ F<10 x=5 ]", "P<=1 [ F<1 3 ]"),
    ("P>1/2 [ G<=5 true ]", "P>3 [ G<=1 1 ]"),
    ("P<p+q-r [ X x=1 ]", "P<4 [ X 3 ]"),
    ("P>=0.9 [ x=0 U<=3 !x ]", "P>=1 [ 3 U<=1 2 ]"),
    ("P>=0.9[F<=1x=1]", "P>=1 [ F<=1 3 ]"),
    ("P // bound\n>=0.9 [\tX\r\n x ] // end", "P>=1 [ X 1 ]"),
    // all that follows the time is its state formula
    ("P>=0.1 [ F<=20 s=7 & d=6 ]", "P>=1 [ F<=1 7 ]"),
    ("P>=0.9 [ a U<=1 b<=2 ]", "P>=1 [ 1 U<=1 3 ]"),
    ("P>=0.9 [ a<=2 U<1 b ]", "P>=1 [ 3 U<1 1 ]"),
    ("P>=0.9 [ G<5 a=>b ]", "P>=1 [ G<1 3 ]"),
    ("P>=0.9 [ X a?b:c?d:e ]", "P>=1 [ X 7 ]"),
    ("P>=0.9 [ x<2 & y>=1 U<(2*k) !done ]", "P>=1 [ 7 U<4 2 ]"),
    // the bound is a sum
    ("P>=-(-1) [ X true ]", "P>=4 [ X 1 ]"),
    ("P>=(a<b) [ X true ]", "P>=4 [ X 1 ]"),
    ("P>=min(p,q) [ X max(a,b,c) ]", "P>=3 [ X 4 ]"),
    ("P>=floor(p) [ X ceil(x) ]", "P>=2 [ X 2 ]"),
    // labels may stand in each expression, and the parentheses of a time are a node
    ("P>=0.9 [ F<=N \"goal\" ]", "P>=1 [ F<=1 1 ]"),
    ("P>=\"lab\" [ F<=1 \"init\" ]", "P>=1 [ F<=1 1 ]"),
    ("P>=0.9 [ F<=(\"lab\") x ]", "P>=1 [ F<=2 1 ]"),
    ("P>=0.9 [ F<=((1)) x ]", "P>=1 [ F<=3 1 ]"),
    // names of functions are names where no `(` follows, and as times
    ("P>=0.9 [ F<=floor (x=1) ]", "P>=1 [ F<=1 4 ]"),
    ("P>=0.9 [ F<=pow x=1 ]", "P>=1 [ F<=1 3 ]"),
    ("P>=mod [ G<=1 F1 ]", "P>=1 [ G<=1 1 ]"),
    ("P>=log [ F<=round x ]", "P>=1 [ F<=1 1 ]"),
    // two arrows that are not of one chain
    ("P>=0.9 [ a=>b U<=1 c=>d ]", "P>=1 [ 3 U<=1 3 ]"),
    ("P>=0.9 [ G<=5 (a=>b)=>c ]", "P>=1 [ G<=1 6 ]"),
    ("P>=0.9 [ X a=>b?c=>d:e=>f ]", "P>=1 [ X 10 ]"),
    ("P>=0.9 [ G<=(a=>b) c=>d ]", "P>=1 [ G<=4 3 ]"),
    ("P>=0.9 [ X (a=>b)&(c=>d) ]", "P>=1 [ X 9 ]"),
];

#[test]
fn properties_are_parsed_by_their_grammar(rt: HostRuntime) -> Result<(), Fail> {
    for (text, want) in PROPERTIES.iter() {
        let got = answer(rt.alloc(), text.as_bytes())?;
        assert_eq!(rt; got.as_slice(), want.as_bytes(), "{text}");
    }
    Ok(())
}
