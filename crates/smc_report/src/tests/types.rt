//! Lines of refusals by sorts, ranges and writes, from the table of their numbers.

use super::refusals::tells;
use super::*;
use smc_num::{NumFault, Text};
use std::alloc::{AllocError, Global};
use std::test::Fail;
use typecheck::{Item, TypeFault};

/// The fault of types of this number in the table, with a name.
fn type_fault(alloc: Global, number: u32, name: &str) -> Result<TypeFault, AllocError> {
    let name = Text::from_bytes(alloc, name.as_bytes())?;
    Ok(match number {
        550 => TypeFault::UnknownName { name },
        552 => TypeFault::BadRange { name },
        553 => TypeFault::InitOutside { name },
        554 => TypeFault::ForeignWrite { name },
        555 => TypeFault::GlobalInSync { name },
        556 => TypeFault::WrittenTwice { name },
        557 => TypeFault::TooLarge,
        559 => TypeFault::UnknownLabel { name },
        _ => TypeFault::BadHorizon,
    })
}

/// A number of the table, a name, and the lines for the model and for the property.
static TYPES: [(u32, &str, &str, &str); 9] = [
    (
        550,
        "q",
        "refused 550: unknown name q\n",
        "refused 650: unknown name q\n",
    ),
    (
        552,
        "x",
        "refused 552: bad range x\n",
        "refused 652: bad range x\n",
    ),
    (
        553,
        "x",
        "refused 553: initial value outside x\n",
        "refused 653: initial value outside x\n",
    ),
    (
        554,
        "x",
        "refused 554: foreign write x\n",
        "refused 654: foreign write x\n",
    ),
    (
        555,
        "g",
        "refused 555: global in a labelled command g\n",
        "refused 655: global in a labelled command g\n",
    ),
    (
        556,
        "x",
        "refused 556: written twice x\n",
        "refused 656: written twice x\n",
    ),
    (
        557,
        "",
        "refused 557: too large\n",
        "refused 657: too large\n",
    ),
    (
        559,
        "lab",
        "refused 559: unknown label lab\n",
        "refused 659: unknown label lab\n",
    ),
    (
        560,
        "",
        "refused 560: bad horizon\n",
        "refused 660: bad horizon\n",
    ),
];

#[test]
fn a_text_without_type_is_refused_by_a_name(rt: HostRuntime) -> Result<(), Fail> {
    for (number, name, model, property) in TYPES {
        let reason = Reason::Type(Subject::Model, type_fault(rt.alloc(), number, name)?);
        assert!(rt; tells(rt.alloc(), reason, number, 5, model)?, "{model}");
        let reason = Reason::Type(Subject::Property, type_fault(rt.alloc(), number, name)?);
        assert!(rt;
            tells(rt.alloc(), reason, number + 100, 6, property)?,
            "{property}"
        );
    }
    Ok(())
}

/// An item, the fault of a number, and the lines of the model or the property for a wrong type and for no number.
static ITEMS: [(Subject, Item, NumFault, &str, &str); 4] = [
    (
        Subject::Model,
        Item::Variable(0),
        NumFault::ZeroDivisor,
        "refused 551: wrong type in variable 0\n",
        "refused 558: zero divisor in variable 0\n",
    ),
    (
        Subject::Model,
        Item::Command(4095),
        NumFault::OutsideDomain,
        "refused 551: wrong type in command 4095\n",
        "refused 558: outside the domain in command 4095\n",
    ),
    (
        Subject::Model,
        Item::Label(3),
        NumFault::OutOfLimit,
        "refused 551: wrong type in label 3\n",
        "refused 558: out of limit in label 3\n",
    ),
    (
        Subject::Property,
        Item::Property,
        NumFault::OutOfLimit,
        "refused 651: wrong type in property\n",
        "refused 658: out of limit in property\n",
    ),
];

#[test]
fn a_text_without_type_is_refused_by_an_item(rt: HostRuntime) -> Result<(), Fail> {
    for (subject, item, fault, wrong, bad) in ITEMS {
        let (hundreds, status) = match subject {
            Subject::Model => (500, 5),
            Subject::Property => (600, 6),
        };
        let reason = Reason::Type(subject, TypeFault::WrongType { item });
        assert!(rt;
            tells(rt.alloc(), reason, hundreds + 51, status, wrong)?,
            "{wrong}"
        );
        let reason = Reason::Type(subject, TypeFault::BadNumber { item, fault });
        assert!(rt;
            tells(rt.alloc(), reason, hundreds + 58, status, bad)?,
            "{bad}"
        );
    }
    Ok(())
}
