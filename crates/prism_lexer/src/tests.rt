use super::*;
use prism_syntax::{Kind, Token, spelling};
use std::alloc::{AllocError, Global};
use std::test::Fail;

/// Appends the places of a token and what it is.
fn show(alloc: Global, out: &mut Vec<u8>, token: &Token) -> Result<(), AllocError> {
    let from = token.from;
    let to = token.to;
    let places = format!(in alloc; "{from}-{to} ")?;
    out.extend_from_slice(places.as_bytes())?;
    match &token.kind {
        Kind::Name(text) => {
            out.extend_from_slice(b"name ")?;
            out.extend_from_slice(text.bytes())
        }
        Kind::Quoted(text) => {
            out.extend_from_slice(b"quoted ")?;
            out.extend_from_slice(text.bytes())
        }
        Kind::Whole(value) => {
            let (num, den) = (value.num(), value.den());
            let number = format!(in alloc; "whole {num}/{den}")?;
            out.extend_from_slice(number.as_bytes())
        }
        Kind::Real(value) => {
            let (num, den) = (value.num(), value.den());
            let number = format!(in alloc; "real {num}/{den}")?;
            out.extend_from_slice(number.as_bytes())
        }
        fixed => {
            out.extend_from_slice(b"fixed ")?;
            out.extend_from_slice(spelling(fixed).unwrap_or(b"?"))
        }
    }
}

/// The tokens of a text with their places, or why there are none.
fn shown(alloc: Global, text: &[u8]) -> Result<Vec<u8>, AllocError> {
    let mut out = Vec::new(alloc);
    if text.len() > 1_048_576 {
        return Ok(out);
    }
    match tokens(alloc, text) {
        Ok(found) => {
            for token in &found {
                if !out.is_empty() {
                    out.extend_from_slice(b"; ")?;
                }
                show(alloc, &mut out, token)?;
            }
        }
        Err(fault) => {
            let line = format!(in alloc; "{fault}")?;
            out.extend_from_slice(line.as_bytes())?;
        }
    }
    Ok(out)
}

#[test]
fn texts_are_cut_into_their_longest_tokens(rt: HostRuntime) -> Result<(), Fail> {
    let cases: [(&[u8], &[u8]); 63] = [
        (b"", b""),
        (b" \t\r\n\x0c", b""),
        (b"0..3", b"0-1 whole 0/1; 1-3 fixed ..; 3-4 whole 3/1"),
        (b"0...5", b"0-1 whole 0/1; 1-3 fixed ..; 3-5 real 1/2"),
        (b"1.", b"bad byte at 1"),
        (b"1e+", b"0-1 whole 1/1; 1-2 name e; 2-3 fixed +"),
        (b"1.5e-3", b"0-6 real 3/2000"),
        (b".5", b"0-2 real 1/2"),
        (b".", b"bad byte at 0"),
        (b"...", b"bad byte at 2"),
        (b"<=>", b"0-3 fixed <=>"),
        (b"=>", b"0-2 fixed =>"),
        (b"<=", b"0-2 fixed <="),
        (b"<=x", b"0-2 fixed <=; 2-3 name x"),
        (b"<=-", b"0-2 fixed <=; 2-3 fixed -"),
        (b"->-", b"0-2 fixed ->; 2-3 fixed -"),
        (b"!!=", b"0-1 fixed !; 1-3 fixed !="),
        (b"\"init\"", b"0-6 quoted init"),
        (b"\"a b\"", b"bad byte at 0"),
        (b"\"dtmc\"", b"0-6 quoted dtmc"),
        (b"\"\"", b"bad byte at 0"),
        (b"\"x", b"bad byte at 0"),
        (b"\"1\"", b"bad byte at 0"),
        (b"dtmc //rest", b"0-4 fixed dtmc"),
        (b"// a\r; b\n;", b"9-10 fixed ;"),
        (b";//\n//\n;", b"0-1 fixed ;; 7-8 fixed ;"),
        (
            b"a/b/ /c",
            b"0-1 name a; 1-2 fixed /; 2-3 name b; 3-4 fixed /; 5-6 fixed /; 6-7 name c",
        ),
        (
            b"x'=1",
            b"0-1 name x; 1-2 fixed '; 2-3 fixed =; 3-4 whole 1/1",
        ),
        (b"_a1 9z", b"0-3 name _a1; 4-5 whole 9/1; 5-6 name z"),
        (
            b"dtmcs dtmc Dtmc",
            b"0-5 name dtmcs; 6-10 fixed dtmc; 11-15 name Dtmc",
        ),
        (
            b"floor(x)",
            b"0-5 name floor; 5-6 fixed (; 6-7 name x; 7-8 fixed )",
        ),
        (b"a#", b"bad byte at 1"),
        (b"dtmc #", b"bad byte at 5"),
        (b"\x80", b"bad byte at 0"),
        (b"4611686018427387903", b"0-19 whole 4611686018427387903/1"),
        (b"4611686018427387904", b"number too wide at 0"),
        (b"1e18", b"0-4 real 1000000000000000000/1"),
        (b"1e-18", b"0-5 real 1/1000000000000000000"),
        (b"1e-19", b"number too wide at 0"),
        (b"100000000000000000000", b"number too wide at 0"),
        (b"0e99999", b"0-7 real 0/1"),
        (b"0e-99999999999999999999", b"0-23 real 0/1"),
        (b"1e99999999999999999999", b"number too wide at 0"),
        (b"1e-99999999999999999999", b"number too wide at 0"),
        (b"0.000000000000000001", b"0-20 real 1/1000000000000000000"),
        (b"0.0000000000000000001", b"number too wide at 0"),
        (b"46116860184273879e2", b"0-19 real 4611686018427387900/1"),
        (b"46116860184273880e2", b"number too wide at 0"),
        (b"4611686018427387904.5", b"number too wide at 0"),
        (b"1e", b"0-1 whole 1/1; 1-2 name e"),
        (
            b"1E+2e-1",
            b"0-4 real 100/1; 4-5 name e; 5-6 fixed -; 6-7 whole 1/1",
        ),
        (b"0.50", b"0-4 real 1/2"),
        (
            b"46116860184273879.03",
            b"0-20 real 4611686018427387903/100",
        ),
        (b"1.0000000000000000001", b"number too wide at 0"),
        (b"1.0000000000000000000", b"0-21 real 1/1"),
        (b"2E2", b"0-3 real 200/1"),
        (b"1e5e3", b"0-3 real 100000/1; 3-5 name e3"),
        (b"1.5.2", b"0-3 real 3/2; 3-5 real 1/5"),
        (b"00012", b"0-5 whole 12/1"),
        (
            b"const int a=4611686018427387904;",
            b"number too wide at 12",
        ),
        (b"x \n 5e400 #", b"number too wide at 4"),
        (
            b"P>=0.9 [ F<=1 x=1 ]",
            b"0-1 fixed P; 1-3 fixed >=; 3-6 real 9/10; 7-8 fixed [; 9-10 fixed F; 10-12 fixed <=; 12-13 whole 1/1; 14-15 name x; 15-16 fixed =; 16-17 whole 1/1; 18-19 fixed ]",
        ),
        (
            b"endrewardsx endrewards",
            b"0-11 name endrewardsx; 12-22 fixed endrewards",
        ),
    ];
    for (text, want) in cases {
        let got = shown(rt.alloc(), text)?;
        assert_eq!(rt; got.as_slice(), want, "{text:?}");
    }
    Ok(())
}

#[test]
fn so_many_tokens_are_read_and_no_more(rt: HostRuntime) -> Result<(), Fail> {
    let alloc = rt.alloc();
    let most = vec![in alloc; b';'; 262_144]?;
    assert_eq!(rt; tokens(alloc, most.as_slice())?.len(), 262_144);
    let cases: [(&[u8], &[u8]); 5] = [
        (b";", b"too many tokens"),
        (b"#", b"bad byte at 262144"),
        (b"\"a b\"", b"bad byte at 262144"),
        (b" // ;", b""),
        (b" 1e400", b"too many tokens"),
    ];
    for (more, want) in cases {
        let mut text = vec![in alloc; b';'; 262_144]?;
        text.extend_from_slice(more)?;
        let bytes = text.as_slice();
        assert!(rt; bytes.len() < 1_048_576);
        match tokens(alloc, bytes) {
            Ok(found) => assert_eq!(rt; (found.len(), want.len()), (262_144, 0)),
            Err(fault) => {
                let line = format!(in alloc; "{fault}")?;
                assert_eq!(rt; line.as_bytes(), want);
            }
        }
    }
    Ok(())
}

#[test]
fn a_long_exponent_takes_no_long_time(rt: HostRuntime) -> Result<(), Fail> {
    let alloc = rt.alloc();
    let mut text = Vec::new(alloc);
    text.extend_from_slice(b"0e-")?;
    let digits = vec![in alloc; b'9'; 1_000_000]?;
    text.extend_from_slice(digits.as_slice())?;
    let bytes = text.as_slice();
    assert!(rt; bytes.len() < 1_048_576);
    assert_eq!(rt; tokens(alloc, bytes)?.len(), 1);
    Ok(())
}
