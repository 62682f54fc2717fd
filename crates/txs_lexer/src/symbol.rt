//! The symbols by their numbers, the places in the list of docs/LANGUAGE.md.

/// `::=`
pub const DEFINES: u32 = 0;

/// `>->`
pub const THEN_GO: u32 = 1;

/// `>>>`
pub const ENABLES: u32 = 2;

/// `[>>`
pub const DISABLES: u32 = 3;

/// `[><`
pub const INTERRUPTS: u32 = 4;

/// `|||`
pub const INTERLEAVES: u32 = 5;

/// `||`
pub const SYNCHRONISES: u32 = 6;

/// `|[`
pub const SYNC_OPENS: u32 = 7;

/// `]|`
pub const SYNC_CLOSES: u32 = 8;

/// `##`
pub const CHOICE: u32 = 9;

/// `[[`
pub const GUARD_OPENS: u32 = 10;

/// `]]`
pub const GUARD_CLOSES: u32 = 11;

/// `=>>`
pub const GUARDS: u32 = 12;

/// `->`
pub const ARROW: u32 = 13;

/// `<-`
pub const BACK_ARROW: u32 = 14;

/// `::`
pub const HAS_TYPE: u32 = 15;

/// `:=`
pub const BECOMES: u32 = 16;

/// `==`
pub const EQUAL: u32 = 17;

/// `<>`
pub const DIFFERENT: u32 = 18;

/// `<=`
pub const AT_MOST: u32 = 19;

/// `>=`
pub const AT_LEAST: u32 = 20;

/// `<`
pub const LESS: u32 = 21;

/// `>`
pub const MORE: u32 = 22;

/// `++`
pub const JOIN: u32 = 23;

/// `+`
pub const PLUS: u32 = 24;

/// `-`
pub const MINUS: u32 = 25;

/// `*`
pub const TIMES: u32 = 26;

/// `/`
pub const DIVIDE: u32 = 27;

/// `%`
pub const REMAINDER: u32 = 28;

/// `/\`
pub const AND: u32 = 29;

/// `\/`
pub const OR: u32 = 30;

/// `=`
pub const IS: u32 = 31;

/// `!`
pub const OFFERS: u32 = 32;

/// `?`
pub const TAKES: u32 = 33;

/// `|`
pub const BAR: u32 = 34;

/// `#`
pub const HASH: u32 = 35;

/// `(`
pub const OPEN: u32 = 36;

/// `)`
pub const CLOSE: u32 = 37;

/// `[`
pub const BRACKET_OPENS: u32 = 38;

/// `]`
pub const BRACKET_CLOSES: u32 = 39;

/// `{`
pub const BRACE_OPENS: u32 = 40;

/// `}`
pub const BRACE_CLOSES: u32 = 41;

/// `,`
pub const COMMA: u32 = 42;

/// `;`
pub const SEMICOLON: u32 = 43;
