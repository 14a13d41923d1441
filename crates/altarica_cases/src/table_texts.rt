//! Texts of tables of gates, which the program writes and does not read, and where other texts go wrong.

ghost use Rattle.std.specs.Prelude.{◌≤◌, IsTrue, length};
ghost use Rattle.ar_base.specs.Lists.{AreDifferent};

use crate::no_memory;
use ar_base::{Memory, Text};
use aralia_text::{AraliaFault, read};
use std::alloc::Global;
use std::io;

/// The names of events, and a text over them: a table, texts that go wrong in the line of a gate, and texts that go
/// wrong in the two last lines.
const CASES: [(&[&str], &str); 18] = [
    (
        &["die", "wear"],
        "g1 := e.wear & -e.die;\ng2 := -e.wear | g1;\nconflict := false;\ntop := e.die;\n",
    ),
    (&["die", "wear"], ""),
    (&["a"], "g1 :=  e.a & e.a;\n"),
    (&["a"], "g2 := e.a & e.a;\n"),
    (&["a"], "g1 := e.a & e.a;\ng2 := g1 & g2;\n"),
    (&["a"], "g1 := e.a & e.a;\ng2 := g01 & g1;\n"),
    (&["a"], "g1 := e.a;\n"),
    (&["a"], "g1 := e.a & e.a | e.a;\n"),
    (&["a"], "g1 := true & e.a;\n"),
    (&[], "g1 := e.a & e.a;\n"),
    (&["pump", "pipe"], "conflict := e.pumq;\n"),
    (&["ab"], "conflict := e.a;\n"),
    (&["a b"], "conflict := e.a b;\n"),
    (&[], "conflict := -true;\n"),
    (&["a"], "conflict := -true;\n"),
    (&["a"], "conflict := true;\ntop := tr"),
    (&["a"], "conflict := true;\ntop := false;\n\n"),
    (&["a"], ""),
];

/// Reads a text of a table, and texts of none, and prints of each how many gates it tells, or where it goes wrong.
pub(crate) fn run_table_texts(rt: &HostRuntime) -> io::Result<()> {
    for (events, text) in &CASES {
        let texts = texts_of(rt.alloc(), events)?;
        if text.len() > 1000 || !are_different(&texts) {
            continue;
        }
        match read(rt.alloc(), text.as_bytes(), &texts) {
            Ok(table) => println!(rt; "table text of {} gates", table.gates.len())?,
            Err(AraliaFault::Syntax(at)) => {
                println!(rt; "table text wrong at {}:{}", at.line, at.column)?
            }
            Err(AraliaFault::Memory) => return Err(no_memory(Memory {})),
        }
    }
    Ok(())
}

fn texts_of(alloc: Global, events: &[&str]) -> io::Result<Vec<Text>> {
    let mut texts = Vec::new(alloc);
    for event in events {
        texts.push(Text::new(String::from_str(alloc, event)?))?;
    }
    Ok(texts)
}

// Whether the texts are at most two, and two are not the same.
fn are_different(texts: &[Text]) -> bool
    ensures different { IsTrue result → AreDifferent texts.now }
    ensures few { IsTrue result → length texts.now ≤ 2 }
{
    if texts.len() == 2 {
        return texts[0].as_str() != texts[1].as_str();
    }
    texts.len() < 2
}
