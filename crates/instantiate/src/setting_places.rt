//! Where settings are, by their declarations and targets.

ghost use Rattle.std.specs.Prelude.{◌≡◌, ◌+◌, ◌∷◌, map, OnOk, IfOk};
ghost use Rattle.class_table.specs.Members.{own_at};
ghost use Rattle.class_table.specs.TablesInside.{HoldsDeclared, site_of};
ghost use Rattle.hierarchy.specs.Models.{RootedModel};
ghost use Rattle.hierarchy.specs.Units.{UnitPath};
ghost use Rattle.hierarchy.specs.Settings.{target_word_of, settings_at};
ghost use Rattle.unit_rules.specs.Repeats.{code_of};
ghost use Rattle.instantiate.specs.SettingPlaces.{SetsAt, AddsSettings, TellsFirst, TellsSettings};

use ar_base::{BodyId, Memory};
use ar_syntax::{Setting, Word};
use class_table::{Classes, Owned};
use std::alloc::Global;
use std::collections::HashMap;
use unit_rules::{settings_of, word_code};

/// The place of the first setting of each target, by the numbers of the declaration's body, of its place there, and of
/// the target's words.
#[derive(Drop)]
pub struct SettingPlaces {
    places: HashMap<Vec<u64>, usize>,
}

// The numbers of a declaration and of a target's words.
fn key_of(alloc: Global, body: u64, member: u64, words: &[Word]) -> Result<Vec<u64>, Memory>
    ensures { IfOk result (λ key. key.items
        ≡ body ∷ member ∷ map code_of (map target_word_of words.now)) }
{
    let mut key = Vec::new(alloc);
    key.push(body)?;
    key.push(member)?;
    for word in words {
        key.push(word_code(*word))?;
    }
    Ok(key)
}

impl SettingPlaces {
    /// The places of the settings of a table.
    pub fn new(alloc: Global, classes: &Classes) -> Result<SettingPlaces, Memory>
        ensures { (m : RootedModel) → HoldsDeclared m.declared classes.now
            → IfOk result (TellsSettings m) }
    {
        let mut places = SettingPlaces {
            places: HashMap::new(alloc),
        };
        for (place, body) in classes.bodies.iter().enumerate() {
            places.add_body(alloc, place, &body.own)?;
        }
        Ok(places)
    }

    // Adds the settings of the declarations of a body.
    fn add_body(&mut self, alloc: Global, body: usize, own: &[Owned]) -> Result<(), Memory>
        ensures { (m : RootedModel) → own_at m.declared body ≡ own.now
            → TellsFirst m body 0 self.old → OnOk result (TellsFirst m (body + 1) 0 self.new) }
    {
        for (place, owned) in own.iter().enumerate() {
            self.add_settings(alloc, body, place, settings_of(owned))?;
        }
        Ok(())
    }

    // Adds the settings of a declaration, the last one first, so that of those with one target the first is kept.
    fn add_settings(
        &mut self,
        alloc: Global,
        body: usize,
        member: usize,
        settings: &[Setting],
    ) -> Result<(), Memory>
        ensures { OnOk result (AddsSettings (record { body = body; place = member }) 0 settings.now
            self.old self.new) }
    {
        let mut place = settings.len();
        while place > 0 {
            place -= 1;
            let key = key_of(alloc, body as u64, member as u64, &settings[place].target)?;
            self.places.insert(key, place)?;
        }
        Ok(())
    }

    /// The place of the first setting that sets the target, in the declaration at a site.
    pub(crate) fn find(
        &self,
        alloc: Global,
        site: (BodyId, u32),
        target: &[Word],
    ) -> Result<Option<usize>, Memory>
        ensures { (m : RootedModel) (u : UnitPath) → TellsSettings m self.now
            → IfOk result (SetsAt u (site_of site) (settings_at m (site_of site))
            (map target_word_of target.now)) }
    {
        let key = key_of(alloc, u64::from(site.0.n), u64::from(site.1), target)?;
        Ok(self.places.get(&key).copied())
    }
}
