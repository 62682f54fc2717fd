use txs_terms::Expr;
use txs_values::Ty;

/// An expression with its type.
#[derive(Drop)]
pub struct Typed {
    pub expr: Expr,
    pub ty: Ty,
}
