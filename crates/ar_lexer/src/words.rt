//! The reserved words, each by its place in the list of reserved words.

/// `and`
pub const AND: u8 = 0;

/// `as`
pub const AS: u8 = 1;

/// `assertion`
pub const ASSERTION: u8 = 2;

/// `block`
pub const BLOCK: u8 = 3;

/// `Boolean`
pub const BOOLEAN: u8 = 4;

/// `case`
pub const CASE: u8 = 5;

/// `class`
pub const CLASS: u8 = 6;

/// `clones`
pub const CLONES: u8 = 7;

/// `count`
pub const COUNT: u8 = 8;

/// `default`
pub const DEFAULT: u8 = 9;

/// `domain`
pub const DOMAIN: u8 = 10;

/// `else`
pub const ELSE: u8 = 11;

/// `embeds`
pub const EMBEDS: u8 = 12;

/// `end`
pub const END: u8 = 13;

/// `event`
pub const EVENT: u8 = 14;

/// `extends`
pub const EXTENDS: u8 = 15;

/// `false`
pub const FALSE: u8 = 16;

/// `hide`
pub const HIDE: u8 = 17;

/// `if`
pub const IF: u8 = 18;

/// `init`
pub const INIT: u8 = 19;

/// `Integer`
pub const INTEGER: u8 = 20;

/// `main`
pub const MAIN: u8 = 21;

/// `max`
pub const MAX: u8 = 22;

/// `min`
pub const MIN: u8 = 23;

/// `not`
pub const NOT: u8 = 24;

/// `observer`
pub const OBSERVER: u8 = 25;

/// `or`
pub const OR: u8 = 26;

/// `owner`
pub const OWNER: u8 = 27;

/// `parameter`
pub const PARAMETER: u8 = 28;

/// `Real`
pub const REAL: u8 = 29;

/// `reset`
pub const RESET: u8 = 30;

/// `skip`
pub const SKIP: u8 = 31;

/// `switch`
pub const SWITCH: u8 = 32;

/// `then`
pub const THEN: u8 = 33;

/// `transition`
pub const TRANSITION: u8 = 34;

/// `true`
pub const TRUE: u8 = 35;
