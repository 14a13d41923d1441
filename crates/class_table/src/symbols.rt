//! Symbols, numbered in the order of their first appearance in declarations of domains.

ghost use Rattle.std.specs.Prelude.{◌≡◌, ◌∷◌, [], map, IfOk};
ghost use Rattle.std.specs.HashMap.{get};
ghost use Rattle.ar_base.specs.Lists.{Along, Stands};
ghost use Rattle.ar_base.specs.declared.places.Place.{Place};
ghost use Rattle.class_table.specs.Declaring.{symbols_in, DomainType};
ghost use Rattle.class_table.specs.TablesInside.{IsTypeOf};
ghost use Rattle.class_table.specs.Symbols.{AreNumberedSymbols, UsesMore, names_of_symbols};

use crate::tables::TypeBody;
use ar_base::{Memory, NameId, Place};
use ar_syntax::DomainBody;
use domains::Domain;
use std::alloc::Global;
use std::collections::HashMap;

/// The symbols so far, and the number of each by its name.
#[derive(Drop)]
pub(crate) struct Symbols {
    pub list: Vec<NameId>,
    numbers: HashMap<u32, u32>,
}

impl Symbols {
    /// No symbols yet. Takes no memory.
    pub(crate) fn new(alloc: Global) -> Symbols
        ensures numbered { AreNumberedSymbols result }
        ensures list { names_of_symbols result ≡ [] }
    {
        Symbols {
            list: Vec::new(alloc),
            numbers: HashMap::new(alloc),
        }
    }

    // The number of a symbol: its own, or the next one where it is new.
    fn number(&mut self, name: NameId) -> Result<u32, Memory>
        requires { AreNumberedSymbols self.old }
        ensures { IfOk result (λ n. UsesMore (name.n ∷ []) self.old self.new
            × Stands (names_of_symbols self.new) n name.n) }
    {
        match self.numbers.get(&name.n).copied() {
            Some(number) => Ok(number),
            None => {
                let number = self.list.len() as u32;
                self.numbers.insert(name.n, number)?;
                self.list.push(name)?;
                Ok(number)
            }
        }
    }

    // The numbers of the symbols of a declaration.
    fn numbers(&mut self, alloc: Global, names: &[(NameId, Place)]) -> Result<Vec<u32>, Memory>
        requires { AreNumberedSymbols self.old }
        ensures { IfOk result (λ numbers. UsesMore (map (λ n. n.0.n) names.now) self.old self.new
            × Along (λ n k. Stands (names_of_symbols self.new) k n.0.n) names.now numbers.items) }
    {
        let mut numbers = Vec::new(alloc);
        for (name, _) in names {
            numbers.push(self.number(*name)?)?;
        }
        Ok(numbers)
    }

    /// The type that a declaration of a domain declares.
    pub(crate) fn domain(&mut self, alloc: Global, body: &DomainBody) -> Result<TypeBody, Memory>
        requires { AreNumberedSymbols self.old }
        ensures { IfOk result (λ t. UsesMore (symbols_in body.now) self.old self.new
            × IsTypeOf (names_of_symbols self.new) (DomainType body.now) t) }
    {
        match body {
            DomainBody::Range(low, high) => Ok(TypeBody::Domain(Domain::Range(*low, *high))),
            DomainBody::Symbols(names) => {
                let numbers = self.numbers(alloc, names)?;
                Ok(TypeBody::Domain(Domain::Symbols(numbers)))
            }
        }
    }
}
