ghost use Rattle.std.specs.Prelude.{◌≡◌, ◌<◌, ◌≤◌, ◌+◌, ◌-◌, suc, drop, length, IfOk, OnOk};
ghost use Rattle.txs_syntax.specs.declared.ast.Ast.TheVariants as tree;
ghost use Rattle.txs_syntax.specs.Grammar.{OneTree};
ghost use Rattle.txs_parse_expr.specs.Answer.{IsExact};
ghost use Rattle.txs_parse_expr.specs.Reader as reader;
ghost use Rattle.txs_parse_expr.specs.Reader.{readers};
ghost use Rattle.txs_parse_expr.specs.View.{Says};

use crate::fault::{ParseFault, Stop, fault_of};
use crate::sign::{Strength, sign_at};
use crate::token::{has_symbol, has_word, minus_at, too_deep};
use crate::tree::{
    binary, call_of, choice, group, let_of, name_at, negate, number, quoted, variable,
};
use sqlite_items::{Boxed, Items};
use std::alloc::Global;
use txs_lexer::symbol::{CLOSE, COMMA, IS, OPEN, SEMICOLON};
use txs_lexer::word::{ELSE, FI, IF, IN, LET, NI, THEN};
use txs_lexer::{Kind, Token, Tokens};
use txs_syntax::{Ast, Binding};
use txs_values::Text;

/// The depth that no token may have.
const LIMIT: u32 = 501;

/// Expr, from the token numbered `at`, where `left` more constructs may be open.
#[cycle(expr)]
fn expr(alloc: Global, tokens: &[Token], at: usize, left: u32) -> Result<(Boxed<Ast>, usize), Stop>
    ensures value { Says tokens.now result ((readers left).expr (drop at tokens.now)) }
    ensures room { OnOk result (0 < left) }
    ensures forward { IfOk result (λ p. at < p.1) }
    ensures within { IfOk result (λ p. p.1 ≤ length tokens.now) }
{
    let (a, next) = conj(alloc, tokens, at, left)?;
    match sign_at(Strength::Or, tokens, next) {
        None => Ok((a, next)),
        Some(op) => {
            let (b, end) = expr(alloc, tokens, next + 1, left - 1)?;
            Ok((binary(alloc, op, a, b)?, end))
        }
    }
}

/// And
#[cycle(expr)]
fn conj(alloc: Global, tokens: &[Token], at: usize, left: u32) -> Result<(Boxed<Ast>, usize), Stop>
    ensures value { Says tokens.now result ((readers left).conj (drop at tokens.now)) }
    ensures room { OnOk result (0 < left) }
    ensures forward { IfOk result (λ p. at < p.1) }
    ensures within { IfOk result (λ p. p.1 ≤ length tokens.now) }
{
    let (a, next) = cmp(alloc, tokens, at, left)?;
    match sign_at(Strength::And, tokens, next) {
        None => Ok((a, next)),
        Some(op) => {
            let (b, end) = conj(alloc, tokens, next + 1, left - 1)?;
            Ok((binary(alloc, op, a, b)?, end))
        }
    }
}

/// Cmp
#[cycle(expr)]
fn cmp(alloc: Global, tokens: &[Token], at: usize, left: u32) -> Result<(Boxed<Ast>, usize), Stop>
    ensures value { Says tokens.now result ((readers left).cmp (drop at tokens.now)) }
    ensures room { OnOk result (0 < left) }
    ensures forward { IfOk result (λ p. at < p.1) }
    ensures within { IfOk result (λ p. p.1 ≤ length tokens.now) }
{
    let (a, next) = cat(alloc, tokens, at, left)?;
    match sign_at(Strength::Compare, tokens, next) {
        None => Ok((a, next)),
        Some(op) => {
            let (b, end) = cat(alloc, tokens, next + 1, left - 1)?;
            Ok((binary(alloc, op, a, b)?, end))
        }
    }
}

/// Cat
#[cycle(expr)]
fn cat(alloc: Global, tokens: &[Token], at: usize, left: u32) -> Result<(Boxed<Ast>, usize), Stop>
    ensures value { Says tokens.now result ((readers left).cat (drop at tokens.now)) }
    ensures room { OnOk result (0 < left) }
    ensures forward { IfOk result (λ p. at < p.1) }
    ensures within { IfOk result (λ p. p.1 ≤ length tokens.now) }
{
    let (a, next) = sum(alloc, tokens, at, left)?;
    match sign_at(Strength::Join, tokens, next) {
        None => Ok((a, next)),
        Some(op) => {
            let (b, end) = cat(alloc, tokens, next + 1, left - 1)?;
            Ok((binary(alloc, op, a, b)?, end))
        }
    }
}

/// Sum
#[cycle(expr)]
fn sum(alloc: Global, tokens: &[Token], at: usize, left: u32) -> Result<(Boxed<Ast>, usize), Stop>
    ensures value { Says tokens.now result ((readers left).sum (drop at tokens.now)) }
    ensures room { OnOk result (0 < left) }
    ensures forward { IfOk result (λ p. at < p.1) }
    ensures within { IfOk result (λ p. p.1 ≤ length tokens.now) }
{
    let (mut a, mut next) = prod(alloc, tokens, at, left)?;
    let mut room = left;
    while let Some(op) = sign_at(Strength::Sum, tokens, next) {
        room -= 1;
        let (b, end) = prod(alloc, tokens, next + 1, room)?;
        a = binary(alloc, op, a, b)?;
        next = end;
    }
    Ok((a, next))
}

/// Prod
#[cycle(expr)]
fn prod(alloc: Global, tokens: &[Token], at: usize, left: u32) -> Result<(Boxed<Ast>, usize), Stop>
    ensures value { Says tokens.now result ((readers left).prod (drop at tokens.now)) }
    ensures room { OnOk result (0 < left) }
    ensures forward { IfOk result (λ p. at < p.1) }
    ensures within { IfOk result (λ p. p.1 ≤ length tokens.now) }
{
    let (mut a, mut next) = un(alloc, tokens, at, left)?;
    let mut room = left;
    while let Some(op) = sign_at(Strength::Product, tokens, next) {
        room -= 1;
        let (b, end) = un(alloc, tokens, next + 1, room)?;
        a = binary(alloc, op, a, b)?;
        next = end;
    }
    Ok((a, next))
}

/// Un
#[cycle(expr)]
fn un(alloc: Global, tokens: &[Token], at: usize, left: u32) -> Result<(Boxed<Ast>, usize), Stop>
    ensures value { Says tokens.now result ((readers left).un (drop at tokens.now)) }
    ensures room { OnOk result (0 < left) }
    ensures forward { IfOk result (λ p. at < p.1) }
    ensures within { IfOk result (λ p. p.1 ≤ length tokens.now) }
{
    if left == 0 {
        return Err(too_deep(tokens, at));
    }
    match minus_at(tokens, at) {
        None => prim(alloc, tokens, at, left),
        Some(offset) => {
            let (a, next) = un(alloc, tokens, at + 1, left - 1)?;
            Ok((negate(alloc, offset, a)?, next))
        }
    }
}

/// Prim
#[cycle(expr)]
fn prim(alloc: Global, tokens: &[Token], at: usize, left: u32) -> Result<(Boxed<Ast>, usize), Stop>
    requires { 0 < left }
    ensures value { Says tokens.now result (reader.prim_at (readers (left - 1)) (drop at tokens.now)) }
    ensures forward { IfOk result (λ p. at < p.1) }
    ensures within { IfOk result (λ p. p.1 ≤ length tokens.now) }
{
    let Some(token) = tokens.get(at) else {
        return Err(Stop::Unexpected(at));
    };
    match &token.kind {
        Kind::Number(value) => Ok((number(alloc, token.from, *value)?, at + 1)),
        Kind::Quoted(text) => Ok((quoted(alloc, token.from, text)?, at + 1)),
        Kind::Name(text) => named(alloc, tokens, at + 1, left, token.from, text),
        Kind::Symbol(symbol) => {
            if *symbol == OPEN {
                bracket(alloc, tokens, at + 1, left, token.from)
            } else {
                Err(Stop::Unexpected(at))
            }
        }
        Kind::Word(word) => {
            if *word == IF {
                choose(alloc, tokens, at + 1, left, token.from)
            } else if *word == LET {
                lets(alloc, tokens, at + 1, left, token.from)
            } else {
                Err(Stop::Unexpected(at))
            }
        }
    }
}

/// An expression and its parenthesis.
#[cycle(expr)]
fn bracket(
    alloc: Global,
    tokens: &[Token],
    at: usize,
    left: u32,
    offset: usize,
) -> Result<(Boxed<Ast>, usize), Stop>
    requires { 0 < left }
    ensures value { Says tokens.now result (reader.group_at (readers (left - 1)) offset (drop at tokens.now)) }
    ensures forward { IfOk result (λ p. at < p.1) }
    ensures within { IfOk result (λ p. p.1 ≤ length tokens.now) }
{
    let (e, next) = expr(alloc, tokens, at, left - 1)?;
    if !has_symbol(tokens, next, CLOSE) {
        return Err(Stop::Unexpected(next));
    }
    Ok((group(alloc, offset, e)?, next + 1))
}

/// What follows IF.
#[cycle(expr)]
fn choose(
    alloc: Global,
    tokens: &[Token],
    at: usize,
    left: u32,
    offset: usize,
) -> Result<(Boxed<Ast>, usize), Stop>
    requires { 0 < left }
    ensures value { Says tokens.now result (reader.if_at (readers (left - 1)) offset (drop at tokens.now)) }
    ensures forward { IfOk result (λ p. at < p.1) }
    ensures within { IfOk result (λ p. p.1 ≤ length tokens.now) }
{
    let (c, next) = expr(alloc, tokens, at, left - 1)?;
    if !has_word(tokens, next, THEN) {
        return Err(Stop::Unexpected(next));
    }
    let (a, next) = expr(alloc, tokens, next + 1, left - 1)?;
    if !has_word(tokens, next, ELSE) {
        return Err(Stop::Unexpected(next));
    }
    let (b, next) = expr(alloc, tokens, next + 1, left - 1)?;
    if !has_word(tokens, next, FI) {
        return Err(Stop::Unexpected(next));
    }
    Ok((choice(alloc, offset, c, a, b)?, next + 1))
}

/// A name or a call, after the name.
#[cycle(expr)]
fn named(
    alloc: Global,
    tokens: &[Token],
    at: usize,
    left: u32,
    offset: usize,
    text: &Text,
) -> Result<(Boxed<Ast>, usize), Stop>
    requires room { 0 < left }
    requires within_tokens { at ≤ length tokens.now }
    ensures value { Says tokens.now result (reader.on (reader.is_symbol OPEN) (drop at tokens.now) (reader.call_at (readers (left - 1)) (record { at = offset; text = text.now }))
        (reader.ok (tree.Name (record { at = offset; text = text.now })) (drop at tokens.now))) }
    ensures forward { IfOk result (λ p. at ≤ p.1) }
    ensures within { IfOk result (λ p. p.1 ≤ length tokens.now) }
{
    if !has_symbol(tokens, at, OPEN) {
        return Ok((variable(alloc, offset, text)?, at));
    }
    call(alloc, tokens, at + 1, left, offset, text)
}

/// A call, after its parenthesis.
#[cycle(expr)]
fn call(
    alloc: Global,
    tokens: &[Token],
    at: usize,
    left: u32,
    offset: usize,
    text: &Text,
) -> Result<(Boxed<Ast>, usize), Stop>
    requires { 0 < left }
    ensures value { Says tokens.now result (reader.call_at (readers (left - 1)) (record { at = offset; text = text.now }) (drop at tokens.now)) }
    ensures forward { IfOk result (λ p. at < p.1) }
    ensures within { IfOk result (λ p. p.1 ≤ length tokens.now) }
{
    if has_symbol(tokens, at, CLOSE) {
        if left == 1 {
            return Err(Stop::Deep(at));
        }
        return Ok((call_of(alloc, offset, text, Items::new(alloc))?, at + 1));
    }
    let (arguments, next) = arguments(alloc, tokens, at, left - 1)?;
    if !has_symbol(tokens, next, CLOSE) {
        return Err(Stop::Unexpected(next));
    }
    Ok((call_of(alloc, offset, text, arguments)?, next + 1))
}

/// Expr { "," Expr }
#[cycle(expr)]
fn arguments(
    alloc: Global,
    tokens: &[Token],
    at: usize,
    left: u32,
) -> Result<(Items<Ast>, usize), Stop>
    ensures value { Says tokens.now result (reader.many (readers left).expr 42 (suc (length (drop at tokens.now))) (drop at tokens.now)) }
    ensures forward { IfOk result (λ p. at < p.1) }
    ensures within { IfOk result (λ p. p.1 ≤ length tokens.now) }
{
    let mut items = Items::new(alloc);
    let mut next = at;
    loop {
        let (e, end) = expr(alloc, tokens, next, left)?;
        items.push(e.into_inner())?;
        if !has_symbol(tokens, end, COMMA) {
            return Ok((items, end));
        }
        next = end + 1;
    }
}

/// What follows LET.
#[cycle(expr)]
fn lets(
    alloc: Global,
    tokens: &[Token],
    at: usize,
    left: u32,
    offset: usize,
) -> Result<(Boxed<Ast>, usize), Stop>
    requires { 0 < left }
    ensures value { Says tokens.now result (reader.let_at (readers (left - 1)) offset (drop at tokens.now)) }
    ensures forward { IfOk result (λ p. at < p.1) }
    ensures within { IfOk result (λ p. p.1 ≤ length tokens.now) }
{
    let (list, next) = binds(alloc, tokens, at, left - 1)?;
    if !has_word(tokens, next, IN) {
        return Err(Stop::Unexpected(next));
    }
    let (e, next) = expr(alloc, tokens, next + 1, left - 1)?;
    if !has_word(tokens, next, NI) {
        return Err(Stop::Unexpected(next));
    }
    Ok((let_of(alloc, offset, list, e)?, next + 1))
}

/// Bind { ";" Bind }
#[cycle(expr)]
fn binds(
    alloc: Global,
    tokens: &[Token],
    at: usize,
    left: u32,
) -> Result<(Items<Binding>, usize), Stop>
    ensures value { Says tokens.now result (reader.many (reader.bind_at (readers left)) 43 (suc (length (drop at tokens.now))) (drop at tokens.now)) }
    ensures forward { IfOk result (λ p. at < p.1) }
    ensures within { IfOk result (λ p. p.1 ≤ length tokens.now) }
{
    let mut list = Items::new(alloc);
    let mut next = at;
    loop {
        let (bind, end) = bind(alloc, tokens, next, left)?;
        list.push(bind)?;
        if !has_symbol(tokens, end, SEMICOLON) {
            return Ok((list, end));
        }
        next = end + 1;
    }
}

/// Bind
#[cycle(expr)]
fn bind(alloc: Global, tokens: &[Token], at: usize, left: u32) -> Result<(Binding, usize), Stop>
    ensures value { Says tokens.now result (reader.bind_at (readers left) (drop at tokens.now)) }
    ensures forward { IfOk result (λ p. at < p.1) }
    ensures within { IfOk result (λ p. p.1 ≤ length tokens.now) }
{
    let Some(token) = tokens.get(at) else {
        return Err(Stop::Unexpected(at));
    };
    match &token.kind {
        Kind::Name(text) => bind_value(alloc, tokens, at, left, token.from, text),
        Kind::Word(_) => Err(Stop::Unexpected(at)),
        Kind::Number(_) => Err(Stop::Unexpected(at)),
        Kind::Quoted(_) => Err(Stop::Unexpected(at)),
        Kind::Symbol(_) => Err(Stop::Unexpected(at)),
    }
}

/// A bind whose name stands there, if one more construct may be open.
#[cycle(expr)]
fn bind_value(
    alloc: Global,
    tokens: &[Token],
    at: usize,
    left: u32,
    offset: usize,
    text: &Text,
) -> Result<(Binding, usize), Stop>
    requires { at < length tokens.now }
    ensures value { Says tokens.now result (reader.where_room (readers left).is_full (drop at tokens.now) (reader.value_at (readers left) (record { at = offset; text = text.now }) (drop (at + 1) tokens.now))) }
    ensures forward { IfOk result (λ p. at < p.1) }
    ensures within { IfOk result (λ p. p.1 ≤ length tokens.now) }
{
    if left == 0 {
        return Err(Stop::Deep(at));
    }
    value(alloc, tokens, at + 1, left, offset, text)
}

/// A bind, after its name.
#[cycle(expr)]
fn value(
    alloc: Global,
    tokens: &[Token],
    at: usize,
    left: u32,
    offset: usize,
    text: &Text,
) -> Result<(Binding, usize), Stop>
    ensures value { Says tokens.now result (reader.value_at (readers left) (record { at = offset; text = text.now }) (drop at tokens.now)) }
    ensures forward { IfOk result (λ p. at < p.1) }
    ensures within { IfOk result (λ p. p.1 ≤ length tokens.now) }
{
    if !has_symbol(tokens, at, IS) {
        return Err(Stop::Unexpected(at));
    }
    let (e, next) = expr(alloc, tokens, at + 1, left)?;
    let name = name_at(alloc, offset, text)?;
    let bind = Binding {
        name,
        value: e.into_inner(),
    };
    Ok((bind, next))
}

/// The longest run of tokens, from the one with the number `from` on, with which the tokens of some expression begin: where it is itself an expression, that one and the number of the token after it. Else `Unexpected` is at the token after the run, or at `len`, the length of the text, where no token is left. `depth` is the depth at the first token; `Deep` is at the first token of the run whose depth is more than 500, and goes before the other answers.
pub fn parse_expr(
    alloc: Global,
    tokens: &Tokens,
    from: usize,
    len: usize,
    depth: u32,
) -> Result<(Ast, usize), ParseFault>
    requires { from ≤ length tokens.now }
    ensures exact { IsExact tokens.now from len depth result }
{
    let tokens = tokens.as_slice();
    match expr(alloc, tokens, from, LIMIT.saturating_sub(depth)) {
        Ok((tree, next)) => Ok((tree.into_inner(), next)),
        Err(stop) => Err(fault_of(tokens, len, stop)),
    }
}

/// No tokens spell two expressions.
pub fn one_tree()
    ensures { OneTree }
{}
