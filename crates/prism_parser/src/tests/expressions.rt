//! Expressions, worked out by hand from the grammar.

use super::expression_of;
use std::test::Fail;

/// Texts, the index of the token from which on an expression is parsed, and the tree of the longest one with the index
/// of the token after it, or why the tokens are refused.
static EXPRESSIONS: [(&str, u32, &str); 81] = [
    // the tree shows how operators bind
    ("7", 0, "7 1"),
    ("0.50", 0, "~1/2 1"),
    ("2E2", 0, "~200/1 1"),
    ("true", 0, "true 1"),
    ("false", 0, "false 1"),
    ("x", 0, "x 1"),
    ("\"goal\"", 0, "\"goal\" 1"),
    ("(x)", 0, "(x) 3"),
    ("((x))", 0, "((x)) 5"),
    ("-x", 0, "-{x} 2"),
    ("--x", 0, "-{-{x}} 3"),
    ("a-b", 0, "{a-b} 3"),
    ("a- -b", 0, "{a--{b}} 4"),
    ("a+b-c", 0, "{a+b-c} 5"),
    ("a*b/c", 0, "{a*b/c} 5"),
    ("a+b*c", 0, "{a+{b*c}} 5"),
    ("a*b+c", 0, "{{a*b}+c} 5"),
    ("-a*b", 0, "{-{a}*b} 4"),
    ("a<b+c", 0, "{a<{b+c}} 5"),
    ("a<b<=c", 0, "{a<b<=c} 5"),
    ("a>b>=c", 0, "{a>b>=c} 5"),
    ("a=b<c", 0, "{a={b<c}} 5"),
    ("a=b!=c", 0, "{a=b!=c} 5"),
    ("!a=b", 0, "!{{a=b}} 4"),
    ("!!a", 0, "!{!{a}} 3"),
    ("!a&b", 0, "{!{a}&b} 4"),
    ("a&b|c&d", 0, "{{a&b}|{c&d}} 7"),
    ("a|b<=>c|d", 0, "{{a|b}<=>{c|d}} 7"),
    ("a<=>b<=>c", 0, "{a<=>b<=>c} 5"),
    ("a=>b<=>c", 0, "{a=>{b<=>c}} 5"),
    ("a=>b", 0, "{a=>b} 3"),
    ("a?b:c", 0, "{a?b:c} 5"),
    ("a ? b : c ? d : e", 0, "{a?b:{c?d:e}} 9"),
    ("a=>b?c:d", 0, "{{a=>b}?c:d} 7"),
    ("a?(b?c:d):e", 0, "{a?({b?c:d}):e} 11"),
    ("(a=>b)=>c", 0, "{({a=>b})=>c} 7"),
    ("min(a,b)", 0, "min{a,b} 6"),
    ("max(a,b,c)", 0, "max{a,b,c} 8"),
    ("floor(a/2)", 0, "floor{{a/2}} 6"),
    ("ceil(0.5)", 0, "ceil{~1/2} 4"),
    ("pow(2,k)", 0, "pow{2,k} 6"),
    ("mod(i,n)+1", 0, "{mod{i,n}+1} 8"),
    ("floor+1", 0, "{floor+1} 3"),
    ("a+b)", 0, "{a+b} 3"),
    ("a b", 0, "a 1"),
    ("a+;", 0, "a 1"),
    ("a?b;", 0, "a 1"),
    ("floor(1,2)", 0, "floor 1"),
    ("a=>b;c=>d=>e", 0, "{a=>b} 3"),
    ("log+round", 0, "{log+round} 3"),
    // no expression begins here, or a token is refused
    ("", 0, "not in the grammar at 0"),
    (";", 0, "not in the grammar at 0"),
    ("(a", 0, "not in the grammar at 2"),
    ("(a;", 0, "not in the grammar at 2"),
    ("()", 0, "not in the grammar at 1"),
    ("-", 0, "not in the grammar at 1"),
    ("!!", 0, "not in the grammar at 2"),
    ("(a+)", 0, "not in the grammar at 3"),
    ("(a?b)", 0, "not in the grammar at 4"),
    ("(a?b?c:d:e)", 0, "not in the grammar at 4"),
    ("min(a)", 0, "not in the grammar at 5"),
    ("min a", 0, "not in the grammar at 4"),
    ("max(a,)", 0, "not in the grammar at 6"),
    ("(floor(1,2))", 0, "not in the grammar at 8"),
    ("(pow(1))", 0, "not in the grammar at 6"),
    ("(pow(1,2,3))", 0, "not in the grammar at 8"),
    ("a=>b=>c", 0, "unsupported => at 4"),
    ("(a=>b=>c)=>d", 0, "unsupported => at 5"),
    ("a=>(b=>c=>d)=>e", 0, "unsupported => at 8"),
    ("a=>b&(c=>d)|e=>f", 0, "unsupported => at 13"),
    ("ctmc", 0, "unsupported ctmc at 0"),
    ("a+S", 0, "unsupported S at 2"),
    ("log(x)", 0, "unsupported log at 0"),
    ("a;round (x)", 0, "unsupported round at 2"),
    // from a later token on
    ("const a=b+c;", 3, "{b+c} 6"),
    ("const a=b+c;", 4, "not in the grammar at 9"),
    ("const a=(b+;", 3, "not in the grammar at 11"),
    ("const a=(b+", 3, "not in the grammar at 11"),
    ("const a=b", 4, "not in the grammar at 9"),
    ("ctmc a=log(b)", 3, "unsupported log at 7"),
    ("a=>b=>c=>d", 2, "unsupported => at 7"),
];

#[test]
fn an_expression_is_the_longest_from_its_token_on(rt: HostRuntime) -> Result<(), Fail> {
    for (text, at, want) in EXPRESSIONS.iter() {
        let got = expression_of(rt.alloc(), text, *at)?;
        assert_eq!(rt; got.as_slice(), want.as_bytes(), "{text} from {at}");
    }
    Ok(())
}
