//! Units and their members.

use crate::expressions::RawExpr;
use crate::instructions::Instr;
use crate::paths::Path;
use ar_base::{NameId, Place, Span};

/// The type of a declaration and where it stands.
#[derive(Clone, Copy)]
pub struct TypeName {
    /// What it is.
    pub form: TypeForm,
    /// The place of its word.
    pub at: Place,
}

/// What a type is.
#[derive(Clone, Copy)]
pub enum TypeForm {
    /// `Boolean`
    Boolean,
    /// `Integer`
    Integer,
    /// A name: that of a domain, or of a class.
    Named(NameId),
}

/// A word of the target of a setting.
#[derive(Clone, Copy)]
pub enum Word {
    /// A name.
    Name(NameId),
    /// `init`
    Init,
    /// `reset`
    Reset,
}

/// A setting of a declaration: `WORD.WORD = EXPR`.
#[derive(Drop)]
pub struct Setting {
    /// The words before `=`, at least one.
    pub target: Vec<Word>,
    /// The place of its first word.
    pub at: Place,
    /// The value that is set.
    pub value: RawExpr,
}

/// A part of a synchronisation.
#[derive(Drop)]
pub struct Part {
    /// Whether the part must take part, as `!PATH`; a part `?PATH` may.
    pub must: bool,
    /// The event.
    pub event: Path,
}

/// A class, or a block with its body.
#[cycle(unit)]
#[derive(Drop)]
pub struct Unit {
    /// Its name.
    pub name: NameId,
    /// The place of its name.
    pub at: Place,
    /// Its members in the order of the text.
    pub members: Vec<Member>,
}

/// A member of a unit. Each event, hidden path, transition and instruction of an assertion is one of its own.
/// The place behind a name is where the name stands.
#[cycle(unit)]
#[derive(Drop)]
pub enum Member {
    /// `extends NAME;`
    Extends(NameId, Place),
    /// A declaration of variables, or of instances of a class: `TYPE NAME, NAME (SETTINGS);`
    Declare(TypeName, Vec<(NameId, Place)>, Vec<Setting>),
    /// `block NAME .. end`
    Block(Unit),
    /// `clones PATH as NAME;`
    Clones(Path, NameId, Place),
    /// `embeds PATH as NAME;`
    Embeds(Path, NameId, Place),
    /// `parameter TYPE NAME = EXPR;`
    Parameter(TypeName, NameId, Place, RawExpr),
    /// `parameter Real NAME = ..;`, whose value is kept unread: its span is from the first token of the value to
    /// the last.
    Kept(NameId, Place, Span),
    /// `event NAME` with its attribute, where it has one, kept unread: its span is from the first token between
    /// the brackets to the last, and from 0 to 0 for `()`.
    Event(NameId, Place, Option<Span>),
    /// `observer TYPE NAME = EXPR;`
    Observer(TypeName, NameId, Place, RawExpr),
    /// `hide PATH;`
    Hide(Path),
    /// A transition of one unit: `NAME: EXPR -> INSTR`
    Local(NameId, Place, RawExpr, Instr),
    /// A transition of several events: `NAME: PART & PART;`
    Sync(NameId, Place, Vec<Part>),
    /// An instruction of an assertion.
    Assert(Instr),
}
