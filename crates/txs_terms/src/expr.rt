ghost use Rattle.std.specs.Prelude.{◌≡◌, IfOk};

use sqlite_items::Items;
use std::alloc::Global;
use txs_values::{NoMemory, Shared, SharedItems, Text, Ty, Value, copy_value};

/// An operator on one value.
#[derive(Clone, Copy, Debug)]
pub enum Unary {
    Negate,
    Not,
    /// `toString`.
    ToText,
    /// `fromString`, to a value of this type.
    FromText(Ty),
    /// `len`: how many characters a text has.
    Length,
    /// The test of a constructor.
    IsMadeBy(u32),
    /// The selector of a constructor's field.
    Select { constructor: u32, field: u32 },
}

/// An operator on two values, both of which are evaluated. `==` stands apart, as `Expr::Equal`.
#[derive(Clone, Copy, Debug, PartialEq, Eq)]
pub enum Binary {
    Plus,
    Minus,
    Times,
    Divide,
    Remainder,
    Concat,
    Differ,
    LessThan,
    AtMost,
    MoreThan,
    AtLeast,
    /// `at`: the character at an index of a text.
    CharAt,
}

/// An expression. Slot 0 is the outermost variable around it, and local 0 the outermost name of a LET in it.
#[cycle(expr)]
#[derive(Debug, Drop)]
pub enum Expr {
    Value(Value),
    Slot(u32),
    Local(u32),
    Constant(u32),
    One(Unary, Shared<Expr>),
    Two(Binary, Shared<Expr>, Shared<Expr>),
    Equal(Shared<Expr>, Shared<Expr>),
    And(Shared<Expr>, Shared<Expr>),
    Or(Shared<Expr>, Shared<Expr>),
    If(Shared<Expr>, Shared<Expr>, Shared<Expr>),
    /// A function of the file with its arguments.
    Call(u32, SharedExprs),
    /// A constructor with its fields, one at least.
    Build(u32, SharedExprs),
    /// Names for values in an expression, each of which is a local in the bindings after it too.
    Let(SharedBindings, Shared<Expr>),
}

/// A name, which is printed, with the expression that it is bound to.
#[cycle(expr)]
#[derive(Debug, Drop)]
pub struct Binding {
    pub name: Text,
    pub value: Expr,
}

/// The bindings of a LET, in order.
pub type Bindings = Items<Binding>;

/// The bindings of a LET with several owners.
pub type SharedBindings = SharedItems<Binding>;

/// Several expressions, in order.
pub type Exprs = Items<Expr>;

/// Several expressions with several owners.
pub type SharedExprs = SharedItems<Expr>;

/// A copy of an expression, which shares what is below it.
pub fn copy_expr(alloc: Global, expr: &Expr) -> Result<Expr, NoMemory>
    ensures { IfOk result (λ e. e ≡ expr.now) }
{
    match expr {
        Expr::Value(value) => Ok(Expr::Value(copy_value(alloc, value)?)),
        Expr::Slot(slot) => Ok(Expr::Slot(*slot)),
        Expr::Local(local) => Ok(Expr::Local(*local)),
        Expr::Constant(constant) => Ok(Expr::Constant(*constant)),
        Expr::One(operator, a) => Ok(Expr::One(*operator, a.share()?)),
        Expr::Two(operator, a, b) => {
            let a = a.share()?;
            Ok(Expr::Two(*operator, a, b.share()?))
        }
        Expr::Equal(a, b) => {
            let a = a.share()?;
            Ok(Expr::Equal(a, b.share()?))
        }
        Expr::And(a, b) => {
            let a = a.share()?;
            Ok(Expr::And(a, b.share()?))
        }
        Expr::Or(a, b) => {
            let a = a.share()?;
            Ok(Expr::Or(a, b.share()?))
        }
        Expr::If(c, a, b) => {
            let c = c.share()?;
            let a = a.share()?;
            Ok(Expr::If(c, a, b.share()?))
        }
        Expr::Call(function, args) => Ok(Expr::Call(*function, args.share()?)),
        Expr::Build(constructor, fields) => Ok(Expr::Build(*constructor, fields.share()?)),
        Expr::Let(bindings, body) => {
            let bindings = bindings.share()?;
            Ok(Expr::Let(bindings, body.share()?))
        }
    }
}

/// A copy of each.
pub fn copy_exprs(alloc: Global, exprs: &[Expr]) -> Result<Exprs, NoMemory>
    ensures { IfOk result (λ es. es ≡ exprs.now) }
{
    let mut copies = Items::new(alloc);
    for expr in exprs {
        copies.push(copy_expr(alloc, expr)?)?;
    }
    Ok(copies)
}
