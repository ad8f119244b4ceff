//! The places of the symbols. The definitions have the same names, in small letters, in `specs/SymbolPlaces.antt`.

/// `<->`
pub const LEFT_RIGHT_ARROW: u32 = 0;

/// `|+|`
pub const MULTISET_BAR: u32 = 1;

/// `<-`
pub const LEFT_ARROW: u32 = 2;

/// `->`
pub const RIGHT_ARROW: u32 = 3;

/// `<~`
pub const LEFT_TILDE: u32 = 4;

/// `~>`
pub const RIGHT_TILDE: u32 = 5;

/// `<>`
pub const NOT_EQUAL: u32 = 6;

/// `<=`
pub const LESS_OR_EQUAL: u32 = 7;

/// `>=`
pub const GREATER_OR_EQUAL: u32 = 8;

/// `||`
pub const DOUBLE_BAR: u32 = 9;

/// `::`
pub const DOUBLE_COLON: u32 = 10;

/// `-`
pub const MINUS: u32 = 11;

/// `~`
pub const TILDE: u32 = 12;

/// `<`
pub const LESS: u32 = 13;

/// `>`
pub const GREATER: u32 = 14;

/// `=`
pub const EQUAL: u32 = 15;

/// `+`
pub const PLUS: u32 = 16;

/// `*`
pub const STAR: u32 = 17;

/// `/`
pub const SLASH: u32 = 18;

/// `%`
pub const PERCENT: u32 = 19;

/// `(`
pub const OPENING: u32 = 20;

/// `)`
pub const CLOSING: u32 = 21;

/// `[`
pub const OPENING_BRACKET: u32 = 22;

/// `]`
pub const CLOSING_BRACKET: u32 = 23;

/// `{`
pub const OPENING_BRACE: u32 = 24;

/// `}`
pub const CLOSING_BRACE: u32 = 25;

/// `,`
pub const COMMA: u32 = 26;

/// `:`
pub const COLON: u32 = 27;

/// `.`
pub const DOT: u32 = 28;

/// `&`
pub const AMPERSAND: u32 = 29;

/// `|`
pub const BAR: u32 = 30;

/// `!`
pub const BANG: u32 = 31;

/// `?`
pub const QUESTION: u32 = 32;

/// `;`
pub const SEMICOLON: u32 = 33;
