use super::*;
use chain_model::{Sort, Value};
use smc_num::Frac;
use std::alloc::{AllocError, Global};
use std::test::Fail;

/// Words, with a bar between each two.
fn words(alloc: Global, text: &str) -> Result<Vec<String>, AllocError> {
    let mut words = Vec::new(alloc);
    for word in text.split('|') {
        words.push(String::from_str(alloc, word)?)?;
    }
    Ok(words)
}

/// A number as `num/den`.
fn number(alloc: Global, number: &Frac) -> Result<String, AllocError> {
    let (num, den) = (number.num(), number.den());
    format!(in alloc; "{num}/{den}")
}

/// The sorts and values of constants, each behind its name.
fn constants(alloc: Global, given: &[chain_model::Given]) -> Result<String, AllocError> {
    let mut all = String::new(alloc);
    for constant in given {
        let name = String::from_utf8_lossy(alloc, constant.name.bytes())?;
        let value = match constant.value {
            Value::Bool(holds) => format!(in alloc; "{holds}")?,
            Value::Num(value) => number(alloc, &value)?,
        };
        let sort = match constant.sort {
            Sort::Int => "int",
            Sort::Double => "double",
            Sort::Bool => "bool",
        };
        all = format!(in alloc; "{all} {sort} {name}={value}")?;
    }
    Ok(all)
}

/// Settings in one line.
fn line(alloc: Global, settings: &Settings) -> Result<String, AllocError> {
    match settings {
        Settings::Check {
            model,
            property,
            given,
            seed,
            test,
            limit,
            workers,
        } => {
            let given = constants(alloc, given.as_slice())?;
            let test = match test {
                TestWords::Plan { n, c } => format!(in alloc; "plan {n},{c}")?,
                TestWords::Wald { delta, alpha, beta } => {
                    let (delta, alpha, beta) = (
                        number(alloc, delta)?,
                        number(alloc, alpha)?,
                        number(alloc, beta)?,
                    );
                    format!(in alloc; "wald {delta} {alpha} {beta}")?
                }
            };
            let (model, property) = (model.as_str(), property.as_str());
            format!(in alloc; "check {model} {property}{given} {seed} {test} {limit} {workers}")
        }
        Settings::Trace {
            model,
            given,
            seed,
            index,
            steps,
        } => {
            let given = constants(alloc, given.as_slice())?;
            let model = model.as_str();
            format!(in alloc; "trace {model}{given} {seed} {index} {steps}")
        }
        Settings::Expand { model } => {
            let model = model.as_str();
            format!(in alloc; "expand {model}")
        }
        Settings::Make {
            stations,
            seed,
            workers,
        } => format!(in alloc; "make {stations} {seed} {workers}"),
        Settings::Help => String::from_str(alloc, "help"),
    }
}

/// Whether the words give these settings.
fn gives(alloc: Global, text: &str, want: &str) -> Result<bool, Fail> {
    let words = words(alloc, text)?;
    let read = settings(alloc, words.as_slice())?;
    let told = line(alloc, &read)?;
    Ok(told.as_str() == want)
}

/// Whether the words are refused.
fn refuses(alloc: Global, text: &str) -> Result<bool, AllocError> {
    let words = words(alloc, text)?;
    Ok(matches!(settings(alloc, words.as_slice()), Err(Usage::Words)))
}

/// Whether the words of a check with these options are refused.
fn refuses_options(alloc: Global, options: &str) -> Result<bool, AllocError> {
    let text = format!(in alloc; "check|--model=m|--property=p|{options}")?;
    refuses(alloc, text.as_str())
}

/// Words, and their settings in a line.
static SETTINGS: [(&str, &str); 35] = [
    (
        "check|--model=m|--property=p",
        "check m p 1 wald 1/100 1/100 1/100 1000000 1",
    ),
    (
        "check|--property|p|--model|m",
        "check m p 1 wald 1/100 1/100 1/100 1000000 1",
    ),
    (
        "check|--property=P>=1/2 [ F<=1 x=1 ]|--model|a b",
        "check a b P>=1/2 [ F<=1 x=1 ] 1 wald 1/100 1/100 1/100 1000000 1",
    ),
    (
        "check|--model=m|--property=p|--seed=0",
        "check m p 0 wald 1/100 1/100 1/100 1000000 1",
    ),
    (
        "check|--model=m|--property=p|--seed|18446744073709551615",
        "check m p 18446744073709551615 wald 1/100 1/100 1/100 1000000 1",
    ),
    (
        "check|--seed=00000000000000000258|--model=m|--property=p",
        "check m p 258 wald 1/100 1/100 1/100 1000000 1",
    ),
    (
        "check|--model=m|--property=p|--limit=1",
        "check m p 1 wald 1/100 1/100 1/100 1 1",
    ),
    (
        "check|--model=m|--property=p|--limit|268435456",
        "check m p 1 wald 1/100 1/100 1/100 268435456 1",
    ),
    (
        "check|--model=m|--property=p|--workers=1",
        "check m p 1 wald 1/100 1/100 1/100 1000000 1",
    ),
    (
        "check|--model=m|--property=p|--workers|64",
        "check m p 1 wald 1/100 1/100 1/100 1000000 64",
    ),
    (
        "check|--model=m|--property=p|--plan|10,7",
        "check m p 1 plan 10,7 1000000 1",
    ),
    (
        "check|--model=m|--property=p|--plan=0,0",
        "check m p 1 plan 0,0 1000000 1",
    ),
    (
        "check|--model=m|--property=p|--plan=007,268435456",
        "check m p 1 plan 7,268435456 1000000 1",
    ),
    (
        "check|--model=m|--property=p|--plan=268435456,9",
        "check m p 1 plan 268435456,9 1000000 1",
    ),
    (
        "check|--model=m|--property=p|--delta=1/20",
        "check m p 1 wald 1/20 1/100 1/100 1000000 1",
    ),
    (
        "check|--model=m|--property=p|--alpha|0.05",
        "check m p 1 wald 1/100 1/20 1/100 1000000 1",
    ),
    (
        "check|--model=m|--property=p|--beta=5e-2",
        "check m p 1 wald 1/100 1/100 1/20 1000000 1",
    ),
    (
        "check|--model=m|--property=p|--beta=2/8|--alpha=.5|--delta=3",
        "check m p 1 wald 3/1 1/2 1/4 1000000 1",
    ),
    (
        "check|--model=m|--property=p|--const=K=3",
        "check m p int K=3/1 1 wald 1/100 1/100 1/100 1000000 1",
    ),
    (
        "check|--model=m|--property=p|--const|K=-3",
        "check m p int K=-3/1 1 wald 1/100 1/100 1/100 1000000 1",
    ),
    (
        "check|--model=m|--property=p|--const=_a1=3.0",
        "check m p double _a1=3/1 1 wald 1/100 1/100 1/100 1000000 1",
    ),
    (
        "trace|--model=m|--const=K=1e2,L=-.5,M=true,K=false",
        "trace m double K=100/1 double L=-1/2 bool M=true bool K=false 1 0 10",
    ),
    (
        "trace|--model=m|--const=K=4611686018427387903",
        "trace m int K=4611686018427387903/1 1 0 10",
    ),
    ("trace|--model|m", "trace m 1 0 10"),
    ("trace|--steps=0|--model=m", "trace m 1 0 0"),
    (
        "trace|--model=m|--steps|10000|--seed|2",
        "trace m 2 0 10000",
    ),
    (
        "trace|--model=m|--index=18446744073709551615",
        "trace m 1 18446744073709551615 10",
    ),
    ("trace|--model=m|--index=0", "trace m 1 0 10"),
    ("help", "help"),
    ("expand|--model=m", "expand m"),
    ("expand|--model|a b", "expand a b"),
    ("make", "make 9 1 1"),
    ("make|--stations=3", "make 3 1 1"),
    (
        "make|--workers=64|--stations|63|--seed=18446744073709551615",
        "make 63 18446744073709551615 64",
    ),
    ("make|--stations=05", "make 5 1 1"),
];

#[test]
fn words_of_the_form_give_their_settings(rt: HostRuntime) -> Result<(), Fail> {
    for (text, want) in SETTINGS {
        assert!(rt; gives(rt.alloc(), text, want)?, "{text}");
    }
    Ok(())
}

/// Words that are no command with its options.
static COMMANDS: [&str; 34] = [
    "",
    "Check|--model=m|--property=p",
    "--model=m|--property=p",
    "help|help",
    "help|--model=m",
    "check",
    "check|--property=p",
    "check|--model=m",
    "trace",
    "trace|--seed=1",
    "trace|--model=m|--property=p",
    "trace|--model=m|--plan=1,0",
    "trace|--model=m|--limit=1",
    "trace|--model=m|--workers=1",
    "trace|--model=m|--steps=10001",
    "trace|--model=m|--steps=-1",
    "trace|--model=m|--index=18446744073709551616",
    "trace|--model=m|m",
    "expand",
    "expand|--model=m|--const=K=1",
    "expand|--model=m|--property=p",
    "expand|--model=m|--seed=1",
    "expand|--model=m|--model=m",
    "make|3",
    "make|--stations=4",
    "make|--stations=1",
    "make|--stations=2",
    "make|--stations=64",
    "make|--stations=65",
    "make|--stations=three",
    "make|--workers=65",
    "make|--model=m",
    "make|--limit=1",
    "make|--const=K=1",
];

#[test]
fn words_outside_the_form_give_nothing(rt: HostRuntime) -> Result<(), Fail> {
    assert!(rt; matches!(settings(rt.alloc(), &[]), Err(Usage::Words)));
    for text in COMMANDS {
        assert!(rt; refuses(rt.alloc(), text)?, "{text}");
    }
    Ok(())
}

/// Words after a check's that are no options.
static OPTIONS: [&str; 16] = [
    "check",
    "seed=1",
    "-seed=1",
    "--",
    "--=1",
    "--seed",
    "--seed=",
    "--seed|",
    "--seed=-1",
    "--seed|-1",
    "--seed|--limit=1",
    "--Seed=1",
    "--see=1",
    "--seeds=1",
    "--index=1",
    "--steps=1",
];

#[test]
fn options_outside_the_form_give_nothing(rt: HostRuntime) -> Result<(), Fail> {
    for text in OPTIONS {
        assert!(rt; refuses_options(rt.alloc(), text)?, "{text}");
    }
    Ok(())
}

/// Options of a check that aren't known, stand twice or have a value outside their range.
static VALUES: [&str; 16] = [
    "--speed|1",
    "--seed=1|--seed=1",
    "--seed|1|--seed=1",
    "--model=m",
    "--property|p",
    "--const=K=1|--const=L=1",
    "--seed=18446744073709551616",
    "--seed=000000000000000000001",
    "--seed=+5",
    "--seed=0x5",
    "--seed= 5",
    "--limit=0",
    "--limit=268435457",
    "--workers=0",
    "--workers=65",
    "--plan=10",
];

#[test]
fn values_outside_their_range_give_nothing(rt: HostRuntime) -> Result<(), Fail> {
    for text in VALUES {
        assert!(rt; refuses_options(rt.alloc(), text)?, "{text}");
    }
    Ok(())
}

/// Options of a check that are no test of a run.
static TESTS: [&str; 13] = [
    "--plan=10,7,1",
    "--plan=,7",
    "--plan=10,",
    "--plan=10, 7",
    "--plan=268435457,1",
    "--plan=1,268435457",
    "--plan=10,7|--delta=1/100",
    "--plan=10,7|--alpha|1/100",
    "--beta=1/100|--plan=10,7",
    "--delta=1/0",
    "--alpha=x",
    "--beta=1e400",
    "--delta=-1/100",
];

#[test]
fn tests_outside_the_form_give_nothing(rt: HostRuntime) -> Result<(), Fail> {
    for text in TESTS {
        assert!(rt; refuses_options(rt.alloc(), text)?, "{text}");
    }
    Ok(())
}

/// Options of a check that are no constants.
static CONSTANTS: [&str; 19] = [
    "--const=K",
    "--const==1",
    "--const=K=",
    "--const=K=1,",
    "--const=,K=1",
    "--const=K=1,,L=1",
    "--const=K=1/2",
    "--const=K=--1",
    "--const=K=+1",
    "--const=K=-true",
    "--const=K=TRUE",
    "--const=K=x",
    "--const=K=1 ",
    "--const= K=1",
    "--const=1K=1",
    "--const=K-L=1",
    "--const=int=1",
    "--const=K=4611686018427387904",
    "--const=K=1e400",
];

#[test]
fn constants_outside_the_form_give_nothing(rt: HostRuntime) -> Result<(), Fail> {
    for text in CONSTANTS {
        assert!(rt; refuses_options(rt.alloc(), text)?, "{text}");
    }
    Ok(())
}

#[test]
fn a_text_is_handed_on_without_a_copy_and_a_refusal_speaks_to_a_person(
    rt: HostRuntime,
) -> Result<(), Fail> {
    let argument = Argument::new(rt.alloc(), "chain.pm")?;
    assert_eq!(rt; argument.as_bytes(), b"chain.pm".as_slice());
    assert_eq!(rt; argument.into_string().as_str(), "chain.pm");
    one_settings();
    let told = Usage::Words.to_string(rt.alloc())?;
    assert_eq!(rt;
        told.as_str(),
        "the words are no known command with its options"
    );
    let told = Usage::OutOfMemory(AllocError).to_string(rt.alloc())?;
    assert_eq!(rt; told.as_str(), "out of memory");
    Ok(())
}
