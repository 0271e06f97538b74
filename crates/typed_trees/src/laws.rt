ghost use Rattle.std.specs.Prelude.{◌≡◌, List, Option, Some};
ghost use Rattle.chain_model.specs.declared.chain.Var.{Var};
ghost use Rattle.chain_model.specs.declared.expressions.Labels.{Labels};
ghost use Rattle.chain_model.specs.declared.expressions.Typed.{Typed};
ghost use Rattle.prism_syntax.specs.declared.expressions.Expr.{Expr};
ghost use Rattle.prism_names.specs.First.{Name};
ghost use Rattle.typed_trees.specs.Trees.{tree_of, AreWellTyped};
ghost use Rattle.chain_model.specs.Typing.{IsTyped};

/// The typed tree of an expression is well typed, where what its names and labels stand for is.
pub fn trees_are_well_typed()
    ensures { (vars : List Var) (allowed : Labels) (names labels : Name → Option Typed) → AreWellTyped vars allowed names → AreWellTyped vars allowed labels
        → (expr : Expr) (tree : Typed) → tree_of names labels expr ≡ Some tree → IsTyped vars allowed tree }
{}
