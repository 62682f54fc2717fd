ghost use Rattle.std.specs.Prelude.{◌≡◌};
ghost use Rattle.txs_values.specs.View.{ty_of};
ghost use Rattle.txs_typing.specs.Elaborates as elaborates;
ghost use Rattle.txs_typing.specs.Answer.{want_of};
ghost use Rattle.txs_typing.specs.inner.Parts as parts;

use txs_syntax::{Ast, Op};
use txs_values::Ty;

/// The type that an operator needs on both sides, but for `==` and `<>`.
pub fn operand(op: Op) -> Option<Ty>
    ensures { want_of result ≡ parts.operand op }
{
    match op {
        Op::Or | Op::And => Some(Ty::Bool),
        Op::Equal | Op::Different => None,
        Op::Join => Some(Ty::Text),
        Op::Less | Op::AtMost | Op::More | Op::AtLeast => Some(Ty::Int),
        Op::Plus | Op::Minus | Op::Times | Op::Divide | Op::Remainder => Some(Ty::Int),
    }
}

/// The type of what an operator gives.
pub fn outcome(op: Op) -> Ty
    ensures { ty_of result ≡ parts.outcome op }
{
    match op {
        Op::Or | Op::And | Op::Equal | Op::Different => Ty::Bool,
        Op::Less | Op::AtMost | Op::More | Op::AtLeast => Ty::Bool,
        Op::Join => Ty::Text,
        Op::Plus | Op::Minus | Op::Times | Op::Divide | Op::Remainder => Ty::Int,
    }
}

/// Whether a tree can be typed from outside alone.
pub fn from_outside(tree: &Ast) -> bool
    ensures { result ≡ elaborates.from_outside tree.now }
{
    match tree {
        Ast::Call { name, .. } => name.text.as_str() == "fromString",
        Ast::Group { inner, .. } => from_outside(inner.get()),
        Ast::If { yes, .. } => from_outside(yes.get()),
        Ast::Let { body, .. } => from_outside(body.get()),
        Ast::Number { .. } | Ast::Text { .. } | Ast::Name(_) => false,
        Ast::Negate { .. } | Ast::Binary { .. } => false,
    }
}

/// Whether the right side of a comparison is typed first.
pub fn right_first(left: &Ast, right: &Ast) -> bool
    ensures { result ≡ elaborates.right_first left.now right.now }
{
    from_outside(left) && !from_outside(right)
}
