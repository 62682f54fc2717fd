use crate::refusal::Refusal;
use std::alloc::{AllocError, Global};
use std::fmt::Write;
use txs_case::push_line;
use txs_lexer::lex;
use txs_parse_expr::{ParseFault, parse_expr};
use txs_syntax::{Ast, Name, Op};

/// The tree that a text has from a token on, and the number of the token after it.
pub fn tree(alloc: Global, from: u64, depth: u64, text: &[u8]) -> Result<String, Refusal> {
    let tokens = lex(alloc, text)?;
    let from = from as usize;
    let Ok(depth) = u32::try_from(depth) else {
        return Err(Refusal::Unread);
    };
    if from > tokens.len() {
        return Err(Refusal::Unread);
    }
    let (tree, next) = parse_expr(alloc, &tokens, from, text.len(), depth)?;
    Ok(tree_lines(alloc, &tree, next)?)
}

fn tree_lines(alloc: Global, tree: &Ast, next: usize) -> Result<String, AllocError> {
    let mut line = String::from_str(alloc, "tree ")?;
    push_tree(&mut line, tree)?;
    let mut out = String::new(alloc);
    push_line(&mut out, line.as_bytes())?;
    writeln!(out, "next {next}")?;
    Ok(out)
}

/// The tree that is the whole of a text.
pub fn tree_of(alloc: Global, text: &[u8]) -> Result<Ast, Refusal> {
    let tokens = lex(alloc, text)?;
    let (tree, next) = parse_expr(alloc, &tokens, 0, text.len(), 0)?;
    match tokens.get(next) {
        Some(token) => Err(Refusal::Tree(ParseFault::Unexpected { at: token.from })),
        None => Ok(tree),
    }
}

fn spelled(op: Op) -> &'static str {
    match op {
        Op::Or => "\\/",
        Op::And => "/\\",
        Op::Equal => "==",
        Op::Different => "<>",
        Op::Less => "<",
        Op::AtMost => "<=",
        Op::More => ">",
        Op::AtLeast => ">=",
        Op::Join => "++",
        Op::Plus => "+",
        Op::Minus => "-",
        Op::Times => "*",
        Op::Divide => "/",
        Op::Remainder => "%",
    }
}

/// A text, and the place at which it begins.
fn push_at(out: &mut String, text: &str, at: usize) -> Result<(), AllocError> {
    out.push_str(text)?;
    write!(out, "@{at}")
}

fn push_name(out: &mut String, name: &Name) -> Result<(), AllocError> {
    push_at(out, name.text.as_str(), name.at)
}

/// The tree with each place: `(a@0 - b@4)`, `-@0(a@2)`, `[@0 a@2]` for one in parentheses.
fn push_tree(out: &mut String, tree: &Ast) -> Result<(), AllocError> {
    match tree {
        Ast::Number { at, value } => write!(out, "{value}@{at}"),
        Ast::Text { at, text } => {
            out.push('"')?;
            out.push_str(text.as_str())?;
            push_at(out, "\"", *at)
        }
        Ast::Name(name) => push_name(out, name),
        Ast::Call { name, arguments } => {
            push_name(out, name)?;
            out.push('(')?;
            for argument in arguments.as_slice() {
                push_tree(out, argument)?;
                out.push(';')?;
            }
            out.push(')')
        }
        Ast::Negate { at, operand } => {
            push_at(out, "-", *at)?;
            out.push('(')?;
            push_tree(out, operand.get())?;
            out.push(')')
        }
        Ast::Binary { op, left, right } => {
            out.push('(')?;
            push_tree(out, left.get())?;
            out.push(' ')?;
            out.push_str(spelled(*op))?;
            out.push(' ')?;
            push_tree(out, right.get())?;
            out.push(')')
        }
        Ast::Group { at, inner } => {
            push_at(out, "[", *at)?;
            out.push(' ')?;
            push_tree(out, inner.get())?;
            out.push(']')
        }
        Ast::If {
            at,
            condition,
            yes,
            no,
        } => {
            push_at(out, "IF", *at)?;
            out.push('(')?;
            push_tree(out, condition.get())?;
            out.push_str(", ")?;
            push_tree(out, yes.get())?;
            out.push_str(", ")?;
            push_tree(out, no.get())?;
            out.push(')')
        }
        Ast::Let { at, bindings, body } => {
            for binding in bindings.as_slice() {
                push_at(out, "LET", *at)?;
                out.push('(')?;
                push_name(out, &binding.name)?;
                out.push_str(" = ")?;
                push_tree(out, &binding.value)?;
                out.push_str(", ")?;
            }
            push_tree(out, body.get())?;
            for _ in bindings.as_slice() {
                out.push(')')?;
            }
            Ok(())
        }
    }
}
