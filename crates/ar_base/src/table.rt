//! The table of names.

ghost use Rattle.std.specs.Prelude.{◌≡◌, ◌^◌, ◌-◌, ◌<◌, ◌≤◌, ℕ, List, Some, [], length, IfOk, IfSome, IfNone, OnOk, OnErr, if◌then◌else◌};
ghost use Rattle.std.specs.HashMap.{get_by_text};
ghost use Rattle.std.specs.Str.{bytes_eq};
ghost use Rattle.ar_base.specs.Lists.{Stands, HasNo, AreDifferent};
ghost use Rattle.ar_base.specs.Texts.{Interns};

use crate::{Memory, NameId};
use std::alloc::Global;
use std::collections::HashMap;
use std::marker::Model;
use std::str::from_utf8;

/// A table of different texts in the order of their first use, seen as the list of their bytes: the
/// number of a name is its text's place in the table.
#[derive(Drop)]
pub struct Names {
    texts: Vec<String>,
    numbers: HashMap<String, u32>,
}

impl Model for Names {
    ghost use Rattle.std.specs.Prelude.{ℕ, ◌<◌, ◌^◌, List, length};
    ghost use Rattle.std.specs.HashMap.{get_by_text};
    ghost use Rattle.ar_base.specs.TextsInside.{bytes_of_all, AreUtf8, NumbersTexts};

    ghost Value = { List (List ℕ) };

    ghost view = { λ t. bytes_of_all t.texts.items };

    ghost invariant = { λ t. (length t.texts.items < 2 ^ 32) × AreUtf8 (bytes_of_all t.texts.items) × NumbersTexts (bytes_of_all t.texts.items) (get_by_text t.numbers) };
}

impl Names {
    /// An empty table. Takes no memory.
    pub fn new(alloc: Global) -> Names
        ensures { result ≡ [] }
    {
        Names {
            texts: Vec::new(alloc),
            numbers: HashMap::new(alloc),
        }
    }

    /// The number of a text: a known text keeps its own, and a new one gets the next. After a
    /// refusal the table is as it was.
    pub fn intern(&mut self, text: &str) -> Result<NameId, Memory>
        requires { length self.old < 2 ^ 32 - 1 }
        ensures number { IfOk result (λ name. Stands self.new name.n text.now) }
        ensures texts { IfOk result (λ _. Interns self.old text.now self.new) }
        ensures err { OnErr result (self.new ≡ self.old) }
        ensures different { AreDifferent self.new }
    {
        if let Some(name) = self.find(text) {
            return Ok(name);
        }
        let alloc = *self.texts.allocator();
        let number = self.texts.len() as u32;
        self.texts.push(String::from_str(alloc, text)?)?;
        match enter(alloc, &mut self.numbers, text, number) {
            Ok(()) => Ok(NameId::new(number)),
            Err(fault) => {
                self.texts.pop();
                Err(fault)
            }
        }
    }

    /// The number of a text, or None exactly where the table lacks it. Takes no memory.
    pub fn find(&self, text: &str) -> Option<NameId>
        ensures found { IfSome result (λ name. Stands self.now name.n text.now) }
        ensures absent { IfNone result (HasNo self.now (λ t. t ≡ text.now)) }
        ensures different { AreDifferent self.now }
    {
        let number = self.numbers.get(text)?;
        Some(NameId::new(*number))
    }

    /// The number of the text with these bytes, or None exactly where the table lacks it; bytes that
    /// are not UTF-8 are no text of any table. Takes no memory.
    pub fn find_bytes(&self, bytes: &[u8]) -> Option<NameId>
        ensures found { IfSome result (λ name. Stands self.now name.n bytes.now) }
        ensures absent { IfNone result (HasNo self.now (λ t. t ≡ bytes.now)) }
        ensures different { AreDifferent self.now }
    {
        let _ = &self.texts;
        match from_utf8(bytes) {
            Ok(text) => self.find(text),
            Err(_) => None,
        }
    }

    /// The text of a number, or None exactly past the end of the table. Takes no memory.
    pub fn get(&self, name: NameId) -> Option<&str>
        ensures text { IfSome result (λ text. Stands self.now name.n text.now) }
        ensures past { IfNone result (length self.now ≤ name.n) }
    {
        let text = self.texts.get(name.n as usize)?;
        Some(text.as_str())
    }

    /// The text of a number of the table. Takes no memory.
    pub fn text(&self, name: NameId) -> &str
        requires { name.n < length self.now }
        ensures text { Stands self.now name.n result.now }
        ensures different { AreDifferent self.now }
    {
        self.texts[name.n as usize].as_str()
    }
}

/// Puts a number under a text. After a refusal the numbers are as they were.
fn enter(
    alloc: Global,
    numbers: &mut HashMap<String, u32>,
    text: &str,
    number: u32,
) -> Result<(), Memory>
    ensures entered { OnOk result ((other : List ℕ) → get_by_text numbers.new other
        ≡ (if bytes_eq text.now other then Some number else get_by_text numbers.old other)) }
    ensures err { OnErr result (numbers.new.entries ≡ numbers.old.entries) }
{
    let owned = String::from_str(alloc, text)?;
    numbers.insert(owned, number)?;
    Ok(())
}
