//! The signs, each by its place in the list of signs.

/// `{`
pub const OPEN_BRACE: u8 = 0;

/// `}`
pub const CLOSE_BRACE: u8 = 1;

/// `[`
pub const OPEN_BRACKET: u8 = 2;

/// `]`
pub const CLOSE_BRACKET: u8 = 3;

/// `(`
pub const OPEN_PARENTHESIS: u8 = 4;

/// `)`
pub const CLOSE_PARENTHESIS: u8 = 5;

/// `,`
pub const COMMA: u8 = 6;

/// `;`
pub const SEMICOLON: u8 = 7;

/// `:`
pub const COLON: u8 = 8;

/// `.`
pub const DOT: u8 = 9;

/// `=`
pub const EQUALS: u8 = 10;

/// `:=`
pub const ASSIGN: u8 = 11;

/// `==`
pub const EQUAL: u8 = 12;

/// `!=`
pub const DIFFERS: u8 = 13;

/// `<`
pub const LESS: u8 = 14;

/// `<=`
pub const AT_MOST: u8 = 15;

/// `>`
pub const MORE: u8 = 16;

/// `>=`
pub const AT_LEAST: u8 = 17;

/// `+`
pub const PLUS: u8 = 18;

/// `-`
pub const MINUS: u8 = 19;

/// `*`
pub const STAR: u8 = 20;

/// `/`
pub const SLASH: u8 = 21;

/// `->`
pub const ARROW: u8 = 22;

/// `!`
pub const EXCLAMATION: u8 = 23;

/// `?`
pub const QUESTION: u8 = 24;

/// `&`
pub const AMPERSAND: u8 = 25;

/// `:=:`
pub const TIE: u8 = 26;
