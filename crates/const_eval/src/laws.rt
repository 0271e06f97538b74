ghost use Rattle.std.specs.Prelude.{◌≡◌, List};
ghost use Rattle.prism_syntax.specs.declared.models.ConstText.{ConstText};
ghost use Rattle.chain_model.specs.declared.constants.Given.{Given};
ghost use Rattle.prism_names.specs.First.{Name};
ghost use Rattle.const_eval.specs.declared.consts.Constant.{Constant};
ghost use Rattle.const_eval.specs.declared.fault.ConstFault.{ConstFault};
ghost use Rattle.const_eval.specs.Keeping.{KeepsSorts};
ghost use Rattle.const_eval.specs.Constants.{AreConsts, HaveOneResult, given_to};
ghost use Rattle.const_eval.specs.Refusals.{HasOneRefusal, IsRefused};

/// Law: where no constant reaches itself there is one list of results at most.
pub fn one_result()
    ensures { HaveOneResult }
{}

/// Law: constants that nothing refuses have one list of values at most.
pub fn one_values()
    ensures { (consts : List ConstText) (given : List Given) (known others : List (Name × Constant))
        → ((fault : ConstFault) → ¬ IsRefused consts given fault)
        → AreConsts consts (given_to given) known → AreConsts consts (given_to given) others → known ≡ others }
{}

/// Law: constants are refused with one fault at most.
pub fn one_refusal()
    ensures { HasOneRefusal }
{}

/// Law: where names stand for values of their sorts, the value of an expression is of the expression's sort.
pub fn value_of_sort()
    ensures { KeepsSorts }
{}
