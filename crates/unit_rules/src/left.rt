//! How many settings of each declaration are to be tested once the first wrong ones are found.

ghost use Rattle.std.specs.Prelude.{◌≡◌, ◌≤◌, None, length, OnOk};
ghost use Rattle.class_table.specs.Earliest.{IsEarlierOf};
ghost use Rattle.class_table.specs.TablesInside.{site_of};
ghost use Rattle.hierarchy.specs.Models.{RootedModel};
ghost use Rattle.hierarchy.specs.Settings.{settings_at};
ghost use Rattle.unit_rules.specs.ToTest.{NoneBeforeFrom, KnowsLeft, AreToTest};

use ar_base::{BodyId, Memory, Place};
use ar_syntax::Setting;
use class_table::earliest::earliest;
use std::alloc::Global;
use std::collections::HashMap;

/// The earliest wrong setting that was found, and for each declaration whose settings were tested in
/// a unit how many of them may stand before it. So the settings of one declaration, which holds in
/// many units, are not tested in all of them behind the first wrong one.
#[derive(Drop)]
pub(crate) struct WrongSearch {
    /// Where the earliest wrong setting stands.
    pub found: Option<Place>,
    /// How many settings are to be tested, by the body of the declaration and its place there.
    pub left: HashMap<(u32, u32), usize>,
}

// How many of these settings there are up to the last one that stands before the place found.
fn count_before(settings: &[Setting], found: Option<Place>) -> usize
    ensures { NoneBeforeFrom settings.now result found }
{
    let Some(place) = found else {
        return settings.len();
    };
    let mut count = settings.len();
    while count > 0 && !settings[count - 1].at.is_before(place) {
        count -= 1;
    }
    count
}

impl WrongSearch {
    /// Nothing was tested. Takes no memory.
    pub(crate) fn new(alloc: Global) -> WrongSearch
        ensures found { result.found ≡ None }
        ensures left { (m : RootedModel) → KnowsLeft m result }
    {
        WrongSearch {
            found: None,
            left: HashMap::new(alloc),
        }
    }

    /// Those of the settings of a declaration that are to be tested. Takes no memory.
    pub(crate) fn to_test<'a>(&self, site: (BodyId, u32), settings: &'a [Setting]) -> &'a [Setting]
        ensures { (m : RootedModel) → KnowsLeft m self.now → settings.now ≡ settings_at m (site_of site)
            → AreToTest settings.now self.now.found result.now }
    {
        let Some(count) = self.left.get(&(site.0.n, site.1)) else {
            return settings;
        };
        if *count < settings.len() {
            &settings[..*count]
        } else {
            settings
        }
    }

    /// Adds the earliest wrong one of the settings that were to be tested.
    pub(crate) fn add(
        &mut self,
        site: (BodyId, u32),
        tested: &[Setting],
        wrong: Option<Place>,
    ) -> Result<(), Memory>
        ensures found { OnOk result (IsEarlierOf self.old.found wrong self.new.found) }
        ensures left { (m : RootedModel) → KnowsLeft m self.old
            → AreToTest (settings_at m (site_of site)) self.old.found tested.now
            → OnOk result (KnowsLeft m self.new) }
    {
        self.found = earliest(self.found, wrong);
        let count = count_before(tested, self.found);
        self.left.insert((site.0.n, site.1), count)?;
        Ok(())
    }
}
