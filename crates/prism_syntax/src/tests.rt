use super::*;
use indexmap::IndexMap;
use smc_num::{Frac, Text};
use sqlite_items::{Boxed, Items};
use std::alloc::{AllocError, Global};
use std::test::Fail;

fn name(alloc: Global, text: &[u8]) -> Result<Expr, AllocError> {
    Ok(Expr::Name(Text::from_bytes(alloc, text)?))
}

fn choice(alloc: Global, test: Expr, first: Expr, second: Expr) -> Result<Expr, AllocError> {
    Ok(Expr::If(
        Boxed::new(alloc, test)?,
        Boxed::new(alloc, first)?,
        Boxed::new(alloc, second)?,
    ))
}

fn pair(alloc: Global, first: Expr, second: Expr) -> Result<Items<Expr>, AllocError> {
    let mut parts = Items::new(alloc);
    parts.push(first)?;
    parts.push(second)?;
    Ok(parts)
}

/// `a ? b : c ? d : e`
fn conditional(alloc: Global) -> Result<Expr, AllocError> {
    let last = choice(
        alloc,
        name(alloc, b"c")?,
        name(alloc, b"d")?,
        name(alloc, b"e")?,
    )?;
    choice(alloc, name(alloc, b"a")?, name(alloc, b"b")?, last)
}

/// `!x=y`
fn negation(alloc: Global) -> Result<Expr, AllocError> {
    let mut operators = Items::new(alloc);
    operators.push(Op::Eq)?;
    let operands = pair(alloc, name(alloc, b"x")?, name(alloc, b"y")?)?;
    let equality = Expr::Level(operands, operators);
    Ok(Expr::Not(Boxed::new(alloc, equality)?))
}

/// `-(min(one, "p"))`
fn opposite(alloc: Global, one: Frac) -> Result<Expr, AllocError> {
    let label = Expr::Quoted(Text::from_bytes(alloc, b"p")?);
    let parts = pair(alloc, Expr::Whole(one), label)?;
    let paren = Expr::Paren(Boxed::new(alloc, Expr::Call(Func::Min, parts))?);
    Ok(Expr::Minus(Boxed::new(alloc, paren)?))
}

#[test]
fn trees_have_a_node_for_each_part(rt: HostRuntime) -> Result<(), Fail> {
    let alloc = rt.alloc();
    assert_eq!(rt; nodes(&conditional(alloc)?), 7);
    assert_eq!(rt; nodes(&negation(alloc)?), 4);
    assert_eq!(rt; nodes(&opposite(alloc, Frac::new(1, 1)?)?), 5);
    Ok(())
}

/// The tree of the deepest text that the limits allow: `x` behind 64 times 64 `!`, 64 `-` and `(`, in
/// the last branch of 1,024 conditionals.
fn deepest(alloc: Global) -> Result<Expr, AllocError> {
    let mut tree = name(alloc, b"x")?;
    for _ in 0..64 {
        tree = Expr::Paren(Boxed::new(alloc, tree)?);
        for _ in 0..64 {
            tree = Expr::Minus(Boxed::new(alloc, tree)?);
        }
        for _ in 0..64 {
            tree = Expr::Not(Boxed::new(alloc, tree)?);
        }
    }
    for _ in 0..1_024 {
        tree = choice(alloc, name(alloc, b"a")?, name(alloc, b"b")?, tree)?;
    }
    Ok(tree)
}

/// The tree with `(y)` for each use of `x`.
fn with_y_for_x(alloc: Global, tree: &Expr) -> Result<Expr, AllocError> {
    let mut table = IndexMap::new(alloc);
    let paren = Expr::Paren(Boxed::new(alloc, name(alloc, b"y")?)?);
    table.insert(Text::from_bytes(alloc, b"x")?, paren)?;
    tree.replace(alloc, &table)
}

#[test]
fn the_deepest_tree_is_copied_counted_replaced_and_let_go(rt: HostRuntime) -> Result<(), Fail> {
    let alloc = rt.alloc();
    let tree = deepest(alloc)?;
    let again = tree.copy(alloc)?;
    let replaced = with_y_for_x(alloc, &again)?;
    assert_eq!(rt; nodes(&tree), 11_329);
    assert_eq!(rt; nodes(&replaced), 11_330);
    assert_eq!(rt; depth_of_parens(&replaced), 65);
    Ok(())
}

/// A list of one item.
fn one<T: Drop>(alloc: Global, item: T) -> Result<Items<T>, AllocError> {
    let mut items = Items::new(alloc);
    items.push(item)?;
    Ok(items)
}

/// `x`
fn x(alloc: Global) -> Result<Text, AllocError> {
    Text::from_bytes(alloc, b"x")
}

/// `x:(x'=x)`
fn branch(alloc: Global) -> Result<Branch, AllocError> {
    let weight = Some(name(alloc, b"x")?);
    let set = (x(alloc)?, name(alloc, b"x")?);
    Ok(Branch {
        weight,
        sets: one(alloc, set)?,
    })
}

/// `[x] x -> x:(x'=x);`
fn command(alloc: Global) -> Result<Command, AllocError> {
    let branches = one(alloc, branch(alloc)?)?;
    Ok(Command {
        action: Some(x(alloc)?),
        guard: name(alloc, b"x")?,
        branches,
    })
}

/// `x:[x..x];`
fn variable(alloc: Global) -> Result<Variable, AllocError> {
    let range = (name(alloc, b"x")?, name(alloc, b"x")?);
    Ok(Variable {
        name: x(alloc)?,
        range: Some(range),
        init: None,
    })
}

/// `module x x:[x..x]; [x] x -> x:(x'=x); endmodule`
fn module(alloc: Global) -> Result<Module, AllocError> {
    let vars = one(alloc, variable(alloc)?)?;
    let commands = one(alloc, command(alloc)?)?;
    Ok(Module::Written {
        name: x(alloc)?,
        vars,
        commands,
    })
}

/// A model of this module.
fn model(alloc: Global, module: Module) -> Result<ModelText, AllocError> {
    Ok(ModelText {
        consts: Items::new(alloc),
        globals: Items::new(alloc),
        formulas: Items::new(alloc),
        modules: one(alloc, module)?,
        labels: Items::new(alloc),
    })
}

#[test]
fn a_model_is_copied(rt: HostRuntime) -> Result<(), Fail> {
    let tree = model(rt.alloc(), module(rt.alloc())?)?;
    let again = tree.copy(rt.alloc())?;
    assert_eq!(rt; again.modules.as_slice().len(), 1);
    Ok(())
}

/// Whether a kind that may have been found is this one.
fn is_found(found: Option<Kind>, kind: Kind) -> bool {
    found == Some(kind)
}

#[test]
fn words_are_found_by_their_spelling(rt: HostRuntime) {
    assert!(rt; is_found(word(b"dtmc"), Kind::Dtmc));
    assert!(rt; is_found(word(b"endobservables"), Kind::EndObservables));
    assert!(rt; is_found(word(b"U"), Kind::U));
    for text in [b"u".as_slice(), b"dtmcs", b"floor"] {
        assert!(rt; word(text).is_none());
    }
}

#[test]
fn symbols_are_found_by_their_spelling(rt: HostRuntime) {
    assert!(rt; is_found(symbol(b"<=>"), Kind::Equivalent));
    assert!(rt; is_found(symbol(b"<=x"), Kind::LessEqual));
    assert!(rt; is_found(symbol(b"<-"), Kind::Less));
    assert!(rt; is_found(symbol(b"..5"), Kind::Dots));
    for text in [b".5".as_slice(), b"#", b""] {
        assert!(rt; symbol(text).is_none());
    }
    assert_eq!(rt; spelling(&Kind::Arrow), Some(b"->".as_slice()));
}

#[test]
fn words_are_refused_by_name(rt: HostRuntime) {
    let refused = [Kind::Ctmc, Kind::W, Kind::R, Kind::EndInit, Kind::Rmin];
    for kind in &refused {
        assert!(rt; is_refused(kind), "{kind:?}");
    }
    let known = [Kind::Dtmc, Kind::U, Kind::Rewards, Kind::Global, Kind::X];
    for kind in &known {
        assert!(rt; !is_refused(kind), "{kind:?}");
    }
}

#[test]
fn tokens_have_their_places_in_the_grammar(rt: HostRuntime) -> Result<(), Fail> {
    let alloc = rt.alloc();
    assert_eq!(rt; Precedence::Sum.operator(&Kind::Dash), Some(Op::Sub));
    assert_eq!(rt; Precedence::Product.operator(&Kind::Dash), None);
    assert_eq!(rt; Precedence::Relation.inner(), Precedence::Sum);
    assert!(rt; Precedence::Unary.is_sign(&Kind::Dash));
    assert!(rt; Precedence::Equality.is_chain() && !Precedence::Negation.is_chain());
    assert!(rt; Precedence::Negation.is_prefix() && !Precedence::Conditional.is_prefix());
    assert_eq!(rt; function(&Kind::Max), Some(Func::Max));
    assert_eq!(rt;
        function(&Kind::Name(Text::from_bytes(alloc, b"ceil")?)),
        Some(Func::Ceil)
    );
    assert_eq!(rt; Op::Iff.token(), Kind::Equivalent);
    assert_eq!(rt; Func::Pow.spelling(), b"pow".as_slice());
    assert!(rt; takes(Func::Min, 3) && takes(Func::Pow, 1) && !takes(Func::Floor, 1));
    Ok(())
}
