//! The laws of readings.

ghost use Rattle.std.specs.Prelude.{◌≡◌, ◌⊎◌, ℕ, ℤ, List};
ghost use Rattle.ar_lexer.specs.Tokens.{AreTokens, IsFirstFault};
ghost use Rattle.ar_lexer.specs.declared.token.LexFault.{LexFault};
ghost use Rattle.ar_lexer.specs.declared.token.Token.{Token};
ghost use Rattle.ar_syntax.specs.declared.expressions.RawExpr.{RawExpr};
ghost use Rattle.ar_syntax.specs.declared.expressions.RawForm.{out-RawForm};
ghost use Rattle.ar_syntax.specs.declared.expressions.RawForm.TheVariants.{Whole};
ghost use Rattle.ar_syntax.specs.declared.instructions.Instr.{Instr, out-Instr};
ghost use Rattle.ar_syntax.specs.declared.items.Item.{Item};
ghost use Rattle.ar_syntax.specs.declared.items.Model.{Model};
ghost use Rattle.ar_syntax.specs.declared.members.Member.{Member, out-Member};
ghost use Rattle.parser_laws.specs.Expressions.{SameExpr, SameInstr};
ghost use Rattle.parser_laws.specs.Keeps.{TreesKeep};
ghost use Rattle.parser_laws.specs.Members.{SameMember};
ghost use Rattle.parser_laws.specs.Models.{HasOneTree, SameItem, SameModel};
ghost use Rattle.parser_laws.specs.Opened.{SameForm, SameStep, SameKind};
ghost use Rattle.parser_laws.specs.Opened.{SameItemForm, SameModelForm};

/// However often a text is read, it has one list of tokens and one tree.
///
/// - `one_tree`: Each text has at most one tree: two readings have the same items, names, places and spans.
/// - `cut`, `tokens`, `fault`, `apart`: Each text has a list of tokens or a first fault, just one of the two and
///   never both.
/// - `trees_keep`: Each name of a text's tree has a number in the tree's table, and no list of the tree has
///   more items than the text has bytes.
pub fn one_reading()
    ensures one_tree { (bytes : List ℕ) → HasOneTree bytes }
    ensures cut { (text : List ℕ) → ((ts : List Token) × AreTokens text ts)
        ⊎ ((f : LexFault) × IsFirstFault text f) }
    ensures tokens { (text : List ℕ) (ts us : List Token)
        → AreTokens text ts → AreTokens text us → ts ≡ us }
    ensures fault { (text : List ℕ) (f g : LexFault)
        → IsFirstFault text f → IsFirstFault text g → f ≡ g }
    ensures apart { (text : List ℕ) (ts : List Token) (f : LexFault)
        → AreTokens text ts → IsFirstFault text f → ⊥ }
    ensures trees_keep { (bytes : List ℕ) → TreesKeep bytes }
{}

/// Agreement by address, and by outermost forms.
///
/// - `place`, `span`, `number`: Expressions that agree stand in one place and take the same bytes, and where
///   both are whole numbers, they are the same number.
/// - `closed_form`, `closed_step`, `closed_kind`, `closed_item`, `closed_model`: Expressions in one place whose
///   forms agree, and other trees whose forms agree, agree at every depth.
pub fn agreement_closes()
    ensures place { (e f : RawExpr) → SameExpr e f → e.at ≡ f.at }
    ensures span { (e f : RawExpr) → SameExpr e f → e.span ≡ f.span }
    ensures number { (e f : RawExpr) (n m : ℤ)
        → SameExpr e f → e.form ≡ Whole n → f.form ≡ Whole m → n ≡ m }
    ensures closed_form { (e f : RawExpr) → e.at ≡ f.at → e.span ≡ f.span
        → SameForm (out-RawForm e.form) (out-RawForm f.form) → SameExpr e f }
    ensures closed_step { (i j : Instr) → SameStep (out-Instr i) (out-Instr j) → SameInstr i j }
    ensures closed_kind { (m n : Member) → SameKind (out-Member m) (out-Member n) → SameMember m n }
    ensures closed_item { (x y : Item) → SameItemForm x y → SameItem x y }
    ensures closed_model { (m n : Model) → SameModelForm m n → SameModel m n }
{}

/// Trees that agree have outermost forms of one kind, whose parts agree: the trees inside at every
/// depth, lists item by item, and names, places, numbers and words are equal.
pub fn agreement_opens()
    ensures form { (e f : RawExpr) → SameExpr e f
        → SameForm (out-RawForm e.form) (out-RawForm f.form) }
    ensures step { (i j : Instr) → SameInstr i j → SameStep (out-Instr i) (out-Instr j) }
    ensures kind { (m n : Member) → SameMember m n → SameKind (out-Member m) (out-Member n) }
    ensures item { (x y : Item) → SameItem x y → SameItemForm x y }
    ensures model { (m n : Model) → SameModel m n → SameModelForm m n }
{}
