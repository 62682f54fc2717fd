use sqlite_items::{Boxed, Items};
use txs_values::Text;

/// A name, and the byte of the text at which it begins.
#[derive(Debug, Drop)]
pub struct Name {
    pub at: usize,
    pub text: Text,
}

/// An operator with an operand on each side.
#[derive(Clone, Copy, Debug, Drop)]
pub enum Op {
    Or,
    And,
    Equal,
    Different,
    Less,
    AtMost,
    More,
    AtLeast,
    Join,
    Plus,
    Minus,
    Times,
    Divide,
    Remainder,
}

/// An expression; `at` is the byte of the text at which its first token begins. That of an operator's is the left operand's. A name of a LET is seen in the bindings after it and in the body.
#[cycle(ast)]
#[derive(Debug, Drop)]
pub enum Ast {
    Number {
        at: usize,
        value: i128,
    },
    Text {
        at: usize,
        text: Text,
    },
    Name(Name),
    Call {
        name: Name,
        arguments: Items<Ast>,
    },
    Negate {
        at: usize,
        operand: Boxed<Ast>,
    },
    Binary {
        op: Op,
        left: Boxed<Ast>,
        right: Boxed<Ast>,
    },
    /// An expression in parentheses.
    Group {
        at: usize,
        inner: Boxed<Ast>,
    },
    If {
        at: usize,
        condition: Boxed<Ast>,
        yes: Boxed<Ast>,
        no: Boxed<Ast>,
    },
    Let {
        at: usize,
        bindings: Items<Binding>,
        body: Boxed<Ast>,
    },
}

/// A name of a LET, with the expression that it is bound to.
#[cycle(ast)]
#[derive(Debug, Drop)]
pub struct Binding {
    pub name: Name,
    pub value: Ast,
}
