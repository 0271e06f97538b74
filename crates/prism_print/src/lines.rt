ghost use Rattle.std.specs.Prelude.{◌≡◌, ◌++◌, [], codes, OnOk};
ghost use Rattle.std.specs.Option.{option_map_or};
ghost use Rattle.prism_syntax.specs.declared.tokens.Kind.TheVariants as k;
ghost use Rattle.prism_print.specs.Pieces.{spelled, text_of};
ghost use Rattle.prism_print.specs.Layout.{spaced, expression};
ghost use Rattle.prism_print.specs.Printed.{sort_token, const_line, range, variable_line, global_line, formula_line, label_line};

use crate::expressions::{append_expression, append_quoted};
use prism_syntax::{ConstText, Expr, Named, SortWord, Variable};
use std::alloc::AllocError;

/// Appends the line of a constant.
#[tactic(auto, unfolding(prism_syntax::specs::Spelling::spelling_of), using(crate::proofs::TextLemmas::text_append))]
pub(crate) fn append_const(text: &mut Vec<u8>, constant: &ConstText) -> Result<(), AllocError>
    ensures { OnOk result (text.new.items ≡ text.old.items ++ text_of (const_line constant.now)) }
{
    text.extend_from_slice(b"const ")?;
    append_sort(text, constant.sort)?;
    text.extend_from_slice(b" ")?;
    text.extend_from_slice(constant.name.bytes())?;
    append_optional(text, b" = ", &constant.value)?;
    text.extend_from_slice(b";\n")
}

/// Appends the word of a sort.
#[tactic(auto, unfolding(prism_syntax::specs::Spelling::spelling_of))]
fn append_sort(text: &mut Vec<u8>, sort: SortWord) -> Result<(), AllocError>
    ensures { OnOk result (text.new.items ≡ text.old.items ++ spelled (sort_token sort)) }
{
    match sort {
        SortWord::Int => text.extend_from_slice(b"int"),
        SortWord::Double => text.extend_from_slice(b"double"),
        SortWord::Bool => text.extend_from_slice(b"bool"),
    }
}

/// Appends an expression after some bytes, where there is one.
fn append_optional(text: &mut Vec<u8>, lead: &[u8], expr: &Option<Expr>) -> Result<(), AllocError>
    ensures { OnOk result (text.new.items ≡ text.old.items
        ++ option_map_or (λ x. lead.now ++ text_of (expression x)) expr.now []) }
{
    match expr {
        Some(expr) => {
            text.extend_from_slice(lead)?;
            append_expression(text, expr)
        }
        None => Ok(()),
    }
}

/// Appends the line of a global variable.
#[tactic(auto, unfolding(prism_syntax::specs::Spelling::spelling_of))]
pub(crate) fn append_global(text: &mut Vec<u8>, variable: &Variable) -> Result<(), AllocError>
    ensures { OnOk result (text.new.items ≡ text.old.items ++ text_of (global_line variable.now)) }
{
    text.extend_from_slice(b"global ")?;
    append_variable(text, variable)
}

/// Appends the line of a variable.
#[tactic(auto, unfolding(prism_syntax::specs::Spelling::spelling_of), using(crate::proofs::TextLemmas::text_append))]
pub(crate) fn append_variable(text: &mut Vec<u8>, variable: &Variable) -> Result<(), AllocError>
    ensures { OnOk result (text.new.items ≡ text.old.items ++ text_of (variable_line variable.now)) }
{
    text.extend_from_slice(variable.name.bytes())?;
    text.extend_from_slice(b" : ")?;
    append_range(text, &variable.range)?;
    append_optional(text, b" init ", &variable.init)?;
    text.extend_from_slice(b";\n")
}

/// Appends a range, or `bool` where there is none.
#[tactic(auto, unfolding(prism_syntax::specs::Spelling::spelling_of), using(crate::proofs::TextLemmas::text_append))]
fn append_range(text: &mut Vec<u8>, bounds: &Option<(Expr, Expr)>) -> Result<(), AllocError>
    ensures { OnOk result (text.new.items ≡ text.old.items ++ text_of (range bounds.now)) }
{
    let Some((low, high)) = bounds else {
        return text.extend_from_slice(b"bool");
    };
    text.extend_from_slice(b"[")?;
    append_expression(text, low)?;
    text.extend_from_slice(b"..")?;
    append_expression(text, high)?;
    text.extend_from_slice(b"]")
}

/// Appends the line of a formula.
#[tactic(auto, unfolding(prism_syntax::specs::Spelling::spelling_of), using(crate::proofs::TextLemmas::text_append))]
pub(crate) fn append_formula(text: &mut Vec<u8>, formula: &Named) -> Result<(), AllocError>
    ensures { OnOk result (text.new.items ≡ text.old.items ++ text_of (formula_line formula.now)) }
{
    text.extend_from_slice(b"formula ")?;
    text.extend_from_slice(formula.name.bytes())?;
    append_body(text, &formula.body)
}

/// Appends the line of a label.
#[tactic(auto, unfolding(prism_syntax::specs::Spelling::spelling_of), using(crate::proofs::TextLemmas::text_append))]
pub(crate) fn append_label(text: &mut Vec<u8>, label: &Named) -> Result<(), AllocError>
    ensures { OnOk result (text.new.items ≡ text.old.items ++ text_of (label_line label.now)) }
{
    text.extend_from_slice(b"label ")?;
    append_quoted(text, label.name.bytes())?;
    append_body(text, &label.body)
}

/// Appends what a formula or a label stands for, and the end of the line.
fn append_body(text: &mut Vec<u8>, body: &Expr) -> Result<(), AllocError>
    ensures { OnOk result (text.new.items ≡ text.old.items
        ++ (codes " = " ++ (text_of (expression body.now) ++ codes ";\n"))) }
{
    text.extend_from_slice(b" = ")?;
    append_expression(text, body)?;
    text.extend_from_slice(b";\n")
}
