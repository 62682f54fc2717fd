use sqlite_items::Items;
use std::alloc::Global;
use txs_case::CaseFault;
use txs_lexer::symbol::{
    BAR, BRACE_CLOSES, BRACE_OPENS, CLOSE, COMMA, DEFINES, HAS_TYPE, OPEN, SEMICOLON,
};
use txs_lexer::word::{CONSTDEF, ENDDEF, FUNCDEF, TYPEDEF};
use txs_lexer::{Kind, LexFault, Tokens, lex};
use txs_parse_expr::{ParseFault, parse_expr};
use txs_syntax::{Ast, ConDef, Decl, DeclList, Def, File, Name};

/// Reads the tokens of a text from the front.
#[derive(Drop)]
struct Reader<'a> {
    alloc: Global,
    tokens: &'a Tokens,
    text: &'a [u8],
    next: usize,
}

fn tokens_of(alloc: Global, text: &[u8]) -> Result<Tokens, CaseFault> {
    match lex(alloc, text) {
        Ok(tokens) => Ok(tokens),
        Err(LexFault::NoMemory) => Err(CaseFault::NoMemory),
        Err(_) => Err(CaseFault::Form),
    }
}

impl<'a> Reader<'a> {
    fn new(alloc: Global, tokens: &'a Tokens, text: &'a [u8]) -> Reader<'a> {
        Reader {
            alloc,
            tokens,
            text,
            next: 0,
        }
    }

    fn is_at_end(&self) -> bool {
        self.next >= self.tokens.len()
    }

    fn skip(&mut self) {
        self.next = self.next.saturating_add(1);
    }

    /// Whether the symbol stands here; it is taken then.
    fn takes(&mut self, symbol: u32) -> bool {
        let found = match self.tokens.get(self.next) {
            Some(token) => match token.kind {
                Kind::Symbol(found) => found == symbol,
                _ => false,
            },
            None => false,
        };
        if found {
            self.skip();
        }
        found
    }

    fn symbol(&mut self, symbol: u32) -> Result<(), CaseFault> {
        if self.takes(symbol) {
            Ok(())
        } else {
            Err(CaseFault::Form)
        }
    }

    /// The reserved word that stands here, which is taken.
    fn word(&mut self) -> Result<u32, CaseFault> {
        let Some(token) = self.tokens.get(self.next) else {
            return Err(CaseFault::Form);
        };
        match token.kind {
            Kind::Word(word) => {
                self.skip();
                Ok(word)
            }
            _ => Err(CaseFault::Form),
        }
    }

    fn end(&mut self) -> Result<(), CaseFault> {
        if self.word()? == ENDDEF {
            Ok(())
        } else {
            Err(CaseFault::Form)
        }
    }

    fn name(&mut self) -> Result<Name, CaseFault> {
        let Some(token) = self.tokens.get(self.next) else {
            return Err(CaseFault::Form);
        };
        match &token.kind {
            Kind::Name(text) => {
                let text = text.copy(self.alloc)?;
                let at = token.from;
                self.skip();
                Ok(Name { at, text })
            }
            _ => Err(CaseFault::Form),
        }
    }

    fn expression(&mut self) -> Result<Ast, CaseFault> {
        if self.next > self.tokens.len() {
            return Err(CaseFault::Form);
        }
        match parse_expr(self.alloc, self.tokens, self.next, self.text.len(), 0) {
            Ok((tree, next)) => {
                self.next = next;
                Ok(tree)
            }
            Err(ParseFault::NoMemory) => Err(CaseFault::NoMemory),
            Err(_) => Err(CaseFault::Form),
        }
    }

    /// Names with a type.
    fn decl(&mut self) -> Result<Decl, CaseFault> {
        let mut names = Items::new(self.alloc);
        for _ in 0..self.tokens.len() {
            names.push(self.name()?)?;
            if !self.takes(COMMA) {
                break;
            }
        }
        self.symbol(HAS_TYPE)?;
        let ty = self.name()?;
        Ok(Decl { names, ty })
    }

    fn decls(&mut self) -> Result<DeclList, CaseFault> {
        let mut decls = Items::new(self.alloc);
        for _ in 0..self.tokens.len() {
            decls.push(self.decl()?)?;
            if !self.takes(SEMICOLON) {
                break;
            }
        }
        Ok(DeclList { decls })
    }

    fn constructor(&mut self) -> Result<ConDef, CaseFault> {
        let name = self.name()?;
        if !self.takes(BRACE_OPENS) {
            let decls = Items::new(self.alloc);
            return Ok(ConDef {
                name,
                fields: DeclList { decls },
            });
        }
        let fields = self.decls()?;
        self.symbol(BRACE_CLOSES)?;
        Ok(ConDef { name, fields })
    }

    fn constructors(&mut self) -> Result<Items<ConDef>, CaseFault> {
        let mut constructors = Items::new(self.alloc);
        for _ in 0..self.tokens.len() {
            constructors.push(self.constructor()?)?;
            if !self.takes(BAR) {
                break;
            }
        }
        Ok(constructors)
    }

    /// A type, after its word.
    fn type_def(&mut self) -> Result<Def, CaseFault> {
        let name = self.name()?;
        self.symbol(DEFINES)?;
        let constructors = self.constructors()?;
        Ok(Def::TypeDef { name, constructors })
    }

    fn params(&mut self) -> Result<DeclList, CaseFault> {
        self.symbol(OPEN)?;
        if self.takes(CLOSE) {
            let decls = Items::new(self.alloc);
            return Ok(DeclList { decls });
        }
        let params = self.decls()?;
        self.symbol(CLOSE)?;
        Ok(params)
    }

    /// A type, and the body of that type.
    fn typed_body(&mut self) -> Result<(Name, Ast), CaseFault> {
        self.symbol(HAS_TYPE)?;
        let ty = self.name()?;
        self.symbol(DEFINES)?;
        Ok((ty, self.expression()?))
    }

    /// A function, after its word.
    fn function_def(&mut self) -> Result<Def, CaseFault> {
        let name = self.name()?;
        let params = self.params()?;
        let (result, body) = self.typed_body()?;
        Ok(Def::FuncDef {
            name,
            params,
            result,
            body,
        })
    }

    /// A constant, after its word.
    fn constant_def(&mut self) -> Result<Def, CaseFault> {
        let name = self.name()?;
        let (ty, body) = self.typed_body()?;
        Ok(Def::ConstDef { name, ty, body })
    }

    fn definition(&mut self) -> Result<Def, CaseFault> {
        let def = match self.word()? {
            TYPEDEF => self.type_def()?,
            FUNCDEF => self.function_def()?,
            CONSTDEF => self.constant_def()?,
            _ => return Err(CaseFault::Form),
        };
        self.end()?;
        Ok(def)
    }

    fn file(&mut self) -> Result<File, CaseFault> {
        let mut defs = Items::new(self.alloc);
        for _ in 0..self.tokens.len() {
            if self.is_at_end() {
                break;
            }
            defs.push(self.definition()?)?;
        }
        Ok(File { defs })
    }

    /// What was read, where nothing is left.
    fn whole<T: Drop>(&self, read: T) -> Result<T, CaseFault> {
        if self.is_at_end() {
            Ok(read)
        } else {
            Err(CaseFault::Form)
        }
    }
}

/// The declarations that a text lists; of an empty one none.
pub fn declarations_of(alloc: Global, text: &[u8]) -> Result<DeclList, CaseFault> {
    let tokens = tokens_of(alloc, text)?;
    let mut reader = Reader::new(alloc, &tokens, text);
    if tokens.is_empty() {
        let decls = Items::new(alloc);
        return Ok(DeclList { decls });
    }
    let decls = reader.decls()?;
    reader.whole(decls)
}

/// The definitions of types, functions and constants that a text lists.
pub fn file_of(alloc: Global, text: &[u8]) -> Result<File, CaseFault> {
    let tokens = tokens_of(alloc, text)?;
    let mut reader = Reader::new(alloc, &tokens, text);
    let file = reader.file()?;
    reader.whole(file)
}
