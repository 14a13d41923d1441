//! The values that words write.

ghost use Rattle.std.specs.Prelude.{◌≡◌, ◌<◌, ◌^◌, ℕ, ℤ, List, length, MatchOption, IfSome, IfNone, FitsSigned};
ghost use Rattle.std.specs.Fmt.{signed_decimal};
ghost use Rattle.std.specs.Int.{w64};
ghost use Rattle.domains.specs.declared.Value.{Value as AnyValue};
ghost use Rattle.typed_expr.specs.declared.expr.ValueKind.TheVariants as kind;
ghost use Rattle.job_inputs.specs.Wanting.{WritesValue, Wants};

use ar_base::Text;
use domains::Value;
use itoa::Buffer;
use typed_expr::ValueKind;

/// The value of the kind that the word writes; without a word, the truth value true.
pub(crate) fn value_of(symbols: &[Text], kind: ValueKind, word: &Option<Text>) -> Option<Value>
    requires { length symbols.now < 2 ^ 32 }
    ensures { MatchOption result ((v : AnyValue) → Wants symbols.now word.now kind v → ⊥)
        (λ v. Wants symbols.now word.now kind v) }
{
    match word {
        Some(text) => written(symbols, kind, text.as_str()),
        None => match kind {
            ValueKind::Truth => Some(Value::Truth(true)),
            ValueKind::Whole => None,
            ValueKind::Symbol => None,
        },
    }
}

// The value of the kind that the word writes.
fn written(symbols: &[Text], kind: ValueKind, word: &str) -> Option<Value>
    requires { length symbols.now < 2 ^ 32 }
    ensures { MatchOption result ((v : AnyValue) → WritesValue symbols.now word.now kind v → ⊥)
        (λ v. WritesValue symbols.now word.now kind v) }
{
    match kind {
        ValueKind::Truth => truth(word),
        ValueKind::Whole => whole(word),
        ValueKind::Symbol => symbol(symbols, word),
    }
}

// The truth value that the word writes.
fn truth(word: &str) -> Option<Value>
    ensures { (symbols : List (List ℕ))
        → MatchOption result ((v : AnyValue) → WritesValue symbols word.now kind.Truth v → ⊥)
        (λ v. WritesValue symbols word.now kind.Truth v) }
{
    match word {
        "true" => Some(Value::Truth(true)),
        "false" => Some(Value::Truth(false)),
        _ => None,
    }
}

// The whole number that the word writes.
fn whole(word: &str) -> Option<Value>
    ensures { (symbols : List (List ℕ))
        → MatchOption result ((v : AnyValue) → WritesValue symbols word.now kind.Whole v → ⊥)
        (λ v. WritesValue symbols word.now kind.Whole v) }
{
    match word {
        "-0" => Some(Value::Whole(0)),
        _ => Some(Value::Whole(number(word)?)),
    }
}

// The number that the word writes without leading zeros.
fn number(word: &str) -> Option<i64>
    ensures found { IfSome result (λ n. FitsSigned w64 n × (word.now ≡ signed_decimal n)) }
    ensures none { IfNone result ((n : ℤ) → FitsSigned w64 n → word.now ≡ signed_decimal n → ⊥) }
{
    let Ok(n) = word.parse::<i64>() else {
        return None;
    };
    let mut buffer = Buffer::new();
    if buffer.format(n) == word {
        Some(n)
    } else {
        None
    }
}

// The symbol that the word names.
fn symbol(symbols: &[Text], word: &str) -> Option<Value>
    requires { length symbols.now < 2 ^ 32 }
    ensures { MatchOption result ((v : AnyValue) → WritesValue symbols.now word.now kind.Symbol v → ⊥)
        (λ v. WritesValue symbols.now word.now kind.Symbol v) }
{
    for place in 0..symbols.len() {
        if symbols[place].as_str() == word {
            return Some(Value::Symbol(place as u32));
        }
    }
    None
}
