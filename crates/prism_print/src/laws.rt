ghost use Rattle.prism_print.specs.Reading.{AllReadBack, AllStayShort};

/// Law: the printed form of a flat text that comes from a text reads back to the same flat text.
pub fn reading_back()
    ensures { AllReadBack }
{}

/// Law: a printed form has no chain of arrows that is refused, where the text had none.
pub fn short_chains()
    ensures { AllStayShort }
{}
