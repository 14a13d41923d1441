//! Which member of a body gives which name.

ghost use Rattle.std.specs.Prelude.{◌≡◌, ◌∷◌, [], ◌↔◌, true, map, OnOk, IfOk};
ghost use Rattle.class_table.specs.Declaring.{Declared};
ghost use Rattle.class_table.specs.TablesInside.{site_of};
ghost use Rattle.class_table.specs.Earliest.{IsEarliest};
ghost use Rattle.class_table.specs.Names.{name_and_place};
ghost use Rattle.class_table.specs.Repeating.{IsNamed};
ghost use Rattle.class_table.specs.Retested.{IsNameTaken, AddsGivenName, AddsGiven, KnowsGiven, MayGive, member_names_at, names_of_site};
ghost use Rattle.class_table.specs.Shown.{Shows, AreMembersListed};

use crate::earliest::earliest;
use crate::giving::meet_site;
use crate::tables::Body;
use crate::types::TypeKinds;
use ar_base::{BodyId, Memory, NameId, Place};
use std::alloc::Global;
use std::collections::{HashMap, HashSet};

/// Which members give a name.
#[derive(Clone, Copy)]
enum Giver {
    /// Only the one of this body and place.
    Only(BodyId, u32),
    /// Maybe several.
    Several,
}

// Whether the member at the site may be one of these.
fn may_give(giver: Option<Giver>, site: (BodyId, u32)) -> bool
    ensures { (result ≡ true) ↔ MayGive giver (site_of site) }
{
    match giver {
        None => false,
        Some(Giver::Only(body, place)) => body.n == site.0.n && place == site.1,
        Some(Giver::Several) => true,
    }
}

/// The names that members give, by the body and the place of the member, and for each name which
/// members give it.
#[derive(Drop)]
pub(crate) struct Given {
    names: HashSet<((u32, u32), u32)>,
    givers: HashMap<u32, Giver>,
}

impl Given {
    /// The names that the members of these bodies give where they stand.
    pub(crate) fn new(alloc: Global, bodies: &[Body], types: &TypeKinds) -> Result<Given, Memory>
        ensures { (d : Declared) → Shows d bodies.now types.now → AreMembersListed d bodies.now
            → IfOk result (KnowsGiven d) }
    {
        let mut given = Given {
            names: HashSet::new(alloc),
            givers: HashMap::new(alloc),
        };
        for body in bodies {
            let own = body.all.len().saturating_sub(body.own.len());
            given.add_sites(alloc, bodies, types, &body.all[own..])?;
        }
        Ok(given)
    }

    // Adds the names that the members at these sites give.
    fn add_sites(
        &mut self,
        alloc: Global,
        bodies: &[Body],
        types: &TypeKinds,
        sites: &[(BodyId, u32)],
    ) -> Result<(), Memory>
        ensures { (d : Declared) → Shows d bodies.now types.now
            → OnOk result (AddsGiven d (map site_of sites.now) self.old self.new) }
    {
        for site in sites {
            let mut names = Vec::new(alloc);
            meet_site(&mut names, bodies, types, *site)?;
            self.add_all(*site, &names)?;
        }
        Ok(())
    }

    // Adds names that the member at a site gives.
    fn add_all(&mut self, site: (BodyId, u32), list: &[(NameId, Place)]) -> Result<(), Memory>
        ensures { (d : Declared) → names_of_site d (site_of site) ≡ map name_and_place list.now
            → OnOk result (AddsGiven d (site_of site ∷ []) self.old self.new) }
    {
        for (name, _) in list {
            self.add(site, *name)?;
        }
        Ok(())
    }

    // Adds one name that the member at a site gives.
    fn add(&mut self, site: (BodyId, u32), name: NameId) -> Result<(), Memory>
        ensures { OnOk result (AddsGivenName (site_of site) name.n self.old self.new) }
    {
        let giver = match self.givers.get(&name.n) {
            None => Giver::Only(site.0, site.1),
            Some(_) => Giver::Several,
        };
        self.givers.insert(name.n, giver)?;
        self.names.insert(((site.0.n, site.1), name.n))?;
        Ok(())
    }

    // Whether a member at one of these sites gives the name. Takes no memory.
    fn has(&self, sites: &[(BodyId, u32)], name: NameId) -> bool
        ensures { (d : Declared) → KnowsGiven d self.now
            → (result ≡ true) ↔ IsNamed (member_names_at d (map site_of sites.now)) name.n }
    {
        let giver = self.givers.get(&name.n).copied();
        for site in sites {
            if may_give(giver, *site) && self.names.contains(&((site.0.n, site.1), name.n)) {
                return true;
            }
        }
        false
    }

    /// The earliest place of a name of the list that a member at one of these sites gives. Takes no
    /// memory.
    pub(crate) fn first_taken(
        &self,
        sites: &[(BodyId, u32)],
        list: &[(NameId, Place)],
    ) -> Option<Place>
        ensures { (d : Declared) → KnowsGiven d self.now
            → IsEarliest (IsNameTaken (member_names_at d (map site_of sites.now)) (map name_and_place list.now))
            result }
    {
        let mut found = None;
        for (name, at) in list {
            if self.has(sites, *name) {
                found = earliest(found, Some(*at));
            }
        }
        found
    }
}
