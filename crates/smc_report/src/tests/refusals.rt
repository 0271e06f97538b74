//! Lines of refusals, from the table of their numbers: those without a place or a name.

use super::*;
use const_eval::ConstFault;
use module_expand::ExpandFault;
use prism_lexer::LexFault;
use prism_parser::ParseFault;
use std::alloc::{AllocError, Global};
use std::test::Fail;
use typecheck::TypeFault;

/// Whether a reason is a refusal with this number, this status and this line.
pub(super) fn tells(
    alloc: Global,
    reason: Reason,
    number: u32,
    status: u8,
    line: &str,
) -> Result<bool, AllocError> {
    let told = Refusal::new(reason)?;
    let text = refusal(alloc, &told)?;
    Ok(told.number() == number && told.status() == status && text.as_slice() == line.as_bytes())
}

#[test]
fn words_a_read_and_long_texts_are_refused_by_fixed_lines(rt: HostRuntime) -> Result<(), Fail> {
    let alloc = rt.alloc();
    assert!(rt; tells(alloc, Reason::Usage, 300, 3, "refused 300: usage\n")?);
    assert!(rt;
        tells(
            alloc,
            Reason::ReadFault,
            400,
            4,
            "refused 400: read fault\n"
        )?
    );
    let model = Reason::TooLong(Subject::Model);
    assert!(rt; tells(alloc, model, 500, 5, "refused 500: model too long\n")?);
    let property = Reason::TooLong(Subject::Property);
    assert!(rt; tells(alloc, property, 600, 6, "refused 600: property too long\n")?);
    Ok(())
}

#[test]
fn a_refusal_tells_its_reason(rt: HostRuntime) -> Result<(), Fail> {
    let told = Refusal::new(Reason::TooLong(Subject::Property))?;
    assert!(rt; matches!(told.reason(), Reason::TooLong(Subject::Property)));
    Ok(())
}

#[test]
fn want_of_memory_is_no_refusal(rt: HostRuntime) -> Result<(), Fail> {
    let subject = Subject::Model;
    let reasons = [
        Reason::Lex(subject, LexFault::OutOfMemory(AllocError)),
        Reason::Parse(subject, ParseFault::OutOfMemory(AllocError)),
        Reason::Expand(subject, ExpandFault::OutOfMemory(AllocError)),
        Reason::Const(ConstFault::OutOfMemory(AllocError)),
        Reason::Type(subject, TypeFault::OutOfMemory(AllocError)),
    ];
    for reason in reasons {
        assert!(rt; Refusal::new(reason).is_err());
    }
    Ok(())
}
