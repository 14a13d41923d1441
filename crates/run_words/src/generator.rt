//! The generator of example models.

ghost use Rattle.std.specs.Prelude.{◌≡◌, ◌≤◌, ◌+◌, ◌-◌, ◌*◌, ◌<◌, ◌++◌, IfOk, OnOk, decimal};
ghost use Rattle.ar_base.specs.Texts.{line};
ghost use Rattle.run_words.specs.Generator.{component, flow, generated, link, pair_works, pairs, up_to, works};

use ar_base::Memory;
use itoa::Buffer;
use std::alloc::Global;

// The domains, the two classes, and the head of the block.
const CLASSES: &str = "\
domain S {OK, KO}
domain L {GOOD, WORN, DEAD}
class Short
  S m (init = OK);
  Boolean up (reset = false);
  event fail;
  transition fail: m == OK -> m := KO;
  assertion up := m == OK;
end
class Long
  L m (init = GOOD);
  Boolean up (reset = false);
  event wear, fail;
  transition wear: m == GOOD -> m := WORN; fail: m == WORN -> m := DEAD;
  assertion up := m != DEAD;
end
block Make
";

/// The text of a model with `number` components, from 1 to 200.
///
/// Odd components fail in one event and even ones in two. Two neighbours make a pair, which works where one of them does, and the observer
/// `lost` is true where some pair does not work. So the model has one cut for each pair.
pub fn make_text(alloc: Global, number: u32) -> Result<Vec<u8>, Memory>
    requires at_least { 1 ≤ number }
    requires at_most { number ≤ 200 }
    ensures { IfOk result (λ text. text.items ≡ generated number) }
{
    let mut text = Vec::new(alloc);
    put(&mut text, CLASSES)?;
    put_components(&mut text, number)?;
    put_flows(&mut text, pairs(number))?;
    // The observer names the last flow.
    put(&mut text, "  observer Boolean lost = not f")?;
    put_number(&mut text, pairs(number))?;
    put(&mut text, ";\n")?;
    put(&mut text, "  assertion\n")?;
    put(&mut text, "    f1 := ")?;
    put_pair_works(&mut text, number, 1)?;
    put(&mut text, ";\n")?;
    put_links(&mut text, number)?;
    put(&mut text, "end\n")?;
    Ok(text)
}

// How many pairs so many components make.
fn pairs(number: u32) -> u32
    requires { number ≤ 200 }
    ensures { result ≡ pairs number }
{
    number.div_ceil(2)
}

// Puts a piece behind the text.
fn put(text: &mut Vec<u8>, piece: &str) -> Result<(), Memory>
    ensures { OnOk result (text.new.items ≡ text.old.items ++ piece.now) }
{
    text.extend_from_slice(piece.as_bytes())?;
    Ok(())
}

// Puts a number behind the text.
fn put_number(text: &mut Vec<u8>, number: u32) -> Result<(), Memory>
    ensures { OnOk result (text.new.items ≡ text.old.items ++ decimal number) }
{
    let mut buffer = Buffer::new();
    put(text, buffer.format(number))
}

// Puts the components: a short one for each odd number, a long one for each even number.
fn put_components(text: &mut Vec<u8>, number: u32) -> Result<(), Memory>
    requires { number ≤ 200 }
    ensures { OnOk result (text.new.items ≡ text.old.items ++ up_to component number) }
{
    for i in 0..number {
        let class = if i % 2 == 0 { "  Short c" } else { "  Long c" };
        put(text, class)?;
        put_number(text, i + 1)?;
        put(text, ";\n")?;
    }
    Ok(())
}

// Puts the flows.
fn put_flows(text: &mut Vec<u8>, count: u32) -> Result<(), Memory>
    requires { count ≤ 200 }
    ensures { OnOk result (text.new.items ≡ text.old.items ++ up_to flow count) }
{
    for j in 0..count {
        put(text, "  Boolean f")?;
        put_number(text, j + 1)?;
        put(text, " (reset = false);\n")?;
    }
    Ok(())
}

// Puts that a component works.
fn put_works(text: &mut Vec<u8>, i: u32) -> Result<(), Memory>
    ensures { OnOk result (text.new.items ≡ text.old.items ++ works i) }
{
    put(text, "c")?;
    put_number(text, i)?;
    put(text, ".up")
}

// Puts that one of the components of a pair works.
fn put_pair_works(text: &mut Vec<u8>, number: u32, j: u32) -> Result<(), Memory>
    requires at_least { 1 ≤ j }
    requires at_most { j ≤ 200 }
    ensures { OnOk result (text.new.items ≡ text.old.items ++ pair_works number j) }
{
    put_works(text, 2 * j - 1)?;
    if 2 * j > number {
        return Ok(());
    }
    put(text, " or ")?;
    put_works(text, 2 * j)
}

// Puts what the later flows are.
fn put_links(text: &mut Vec<u8>, number: u32) -> Result<(), Memory>
    requires at_least { 1 ≤ number }
    requires at_most { number ≤ 200 }
    ensures { OnOk result (text.new.items ≡ text.old.items
        ++ up_to (link number) (pairs number - 1)) }
{
    for j in 0..pairs(number) - 1 {
        let flow = j + 1;
        put(text, "    f")?;
        put_number(text, flow + 1)?;
        put(text, " := f")?;
        put_number(text, flow)?;
        put(text, " and (")?;
        put_pair_works(text, number, flow + 1)?;
        put(text, ");\n")?;
    }
    Ok(())
}
