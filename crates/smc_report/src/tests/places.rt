//! Lines of refusals that tell a place in a text, from the table of their numbers.

use super::refusals::tells;
use super::*;
use prism_lexer::LexFault;
use prism_parser::ParseFault;
use smc_num::Text;
use std::alloc::{AllocError, Global};
use std::test::Fail;

/// The fault of a text of this number in the table, at a place.
fn lex_fault(number: u32, at: u32) -> LexFault {
    match number {
        510 => LexFault::BadByte { at },
        511 => LexFault::NumberTooWide { at },
        _ => LexFault::TooMany,
    }
}

/// The fault of tokens of this number in the table, at a place.
fn parse_fault(alloc: Global, number: u32, word: &str, at: u32) -> Result<ParseFault, AllocError> {
    match number {
        520 => Ok(ParseFault::Unsupported {
            word: Text::from_bytes(alloc, word.as_bytes())?,
            at,
        }),
        521 => Ok(ParseFault::TooDeep { at }),
        _ => Ok(ParseFault::NotInGrammar { at }),
    }
}

/// A number of the table, a word, a place, and the lines for the model and for the property.
static PLACES: [(u32, &str, u32, &str, &str); 9] = [
    (
        510,
        "",
        5,
        "refused 510: bad byte at 5\n",
        "refused 610: bad byte at 5\n",
    ),
    (
        511,
        "",
        17,
        "refused 511: number too wide at 17\n",
        "refused 611: number too wide at 17\n",
    ),
    (
        512,
        "",
        0,
        "refused 512: too many tokens\n",
        "refused 612: too many tokens\n",
    ),
    (
        520,
        "ctmc",
        0,
        "refused 520: unsupported ctmc at 0\n",
        "refused 620: unsupported ctmc at 0\n",
    ),
    (
        520,
        "=>",
        30,
        "refused 520: unsupported => at 30\n",
        "refused 620: unsupported => at 30\n",
    ),
    (
        521,
        "",
        81,
        "refused 521: too deep at 81\n",
        "refused 621: too deep at 81\n",
    ),
    (
        522,
        "",
        0,
        "refused 522: not in the grammar at 0\n",
        "refused 622: not in the grammar at 0\n",
    ),
    (
        522,
        "",
        11,
        "refused 522: not in the grammar at 11\n",
        "refused 622: not in the grammar at 11\n",
    ),
    (
        522,
        "",
        1_048_576,
        "refused 522: not in the grammar at 1048576\n",
        "refused 622: not in the grammar at 1048576\n",
    ),
];

/// The reason of this number below 520, or from there on, for one of the texts.
fn placed(
    alloc: Global,
    subject: Subject,
    number: u32,
    word: &str,
    at: u32,
) -> Result<Reason, AllocError> {
    if number < 520 {
        return Ok(Reason::Lex(subject, lex_fault(number, at)));
    }
    Ok(Reason::Parse(subject, parse_fault(alloc, number, word, at)?))
}

#[test]
fn a_text_is_refused_at_a_place(rt: HostRuntime) -> Result<(), Fail> {
    for (number, word, at, model, property) in PLACES {
        let reason = placed(rt.alloc(), Subject::Model, number, word, at)?;
        assert!(rt; tells(rt.alloc(), reason, number, 5, model)?, "{model}");
        let reason = placed(rt.alloc(), Subject::Property, number, word, at)?;
        assert!(rt;
            tells(rt.alloc(), reason, number + 100, 6, property)?,
            "{property}"
        );
    }
    Ok(())
}
