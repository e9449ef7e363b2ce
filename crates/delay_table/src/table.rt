ghost use Rattle.std.specs.Prelude.{◌≡◌, ◌<◌, ◌^◌, ◌++◌, ◌∷◌, [], ℕ, List, length, map};
ghost use Rattle.std.specs.Prelude.{Some, IfOk, MatchOption, slice_get, slice_set};
ghost use Rattle.delay_table.specs.Table.{IsRising, IsDelayed, IsLowest, NoneIsPending, AreListed};
ghost use Rattle.delay_table.specs.Table.{idle_table, with_place, without};
ghost use Rattle.delay_table.specs.declared.place.Place.TheVariants.{Idle, Delayed, Listed, Done};

use crate::order::strike;
use crate::place::Place;
use crate::search::{first_pending, place_of};
use byte_path::Bytes;
use std::alloc::{AllocError, Global};
use std::marker::Model;

/// The names of a driver's paths, the state of each, and the order in which the driver listed them. A contract sees the
/// names, their places, and the places that are listed, in order of listing.
#[derive(Drop)]
pub struct DelayTable {
    names: Vec<Bytes>,
    places: Vec<Place>,
    // the places that were listed, in order; those before `delivered` are done
    order: Vec<u32>,
    delivered: usize,
    // no place below it is delayed or listed
    lowest: usize,
}

impl Model for DelayTable {
    ghost use Rattle.delay_table.specs.Table.{Table};
    ghost use Rattle.delay_table.specs.Fields.{IsKept, turns_of};
    ghost use Rattle.std.specs.Prelude.{vec_capacity};

    ghost Value = { Table };

    ghost view = { λ t. record {
      names = t.names.items;
      places = t.places.items;
      turns = turns_of t.delivered t.order.items;
    } };

    ghost invariant = { λ t. IsKept t.names.items t.places.items
        t.order.items (vec_capacity t.order) t.delivered t.lowest };
}

impl DelayTable {
    /// A table of these names, each of them idle. It takes all memory here: no other call can run out of memory.
    pub fn reserve(alloc: Global, names: Vec<Bytes>) -> Result<DelayTable, AllocError>
        requires rising { IsRising names.items }
        requires few { length names.items < 2 ^ 32 }
        ensures { IfOk result (λ t. t ≡ idle_table names.items) }
    {
        let mut places = Vec::with_capacity(alloc, names.len())?;
        for _ in 0..names.len() {
            places.push_reserved(Place::Idle);
        }
        let order = Vec::with_capacity(alloc, names.len())?;
        Ok(DelayTable {
            names,
            places,
            order,
            delivered: 0,
            lowest: 0,
        })
    }

    /// No name has two places.
    #[tactic(auto, using(crate::proofs::Names::one_place))]
    pub fn names_differ(&self)
        ensures { (name : List ℕ) (p q : ℕ) → slice_get (self.now).names p ≡ Some name
            → slice_get (self.now).names q ≡ Some name → q ≡ p }
    {
        let _ = &self.names;
    }

    /// The driver delayed the name of this place.
    pub fn delay(&mut self, place: u32)
        requires idle { slice_get (self.old).places place ≡ Some Idle }
        ensures { self.new ≡ with_place place Delayed self.old }
    {
        let place = place as usize;
        self.places[place] = Place::Delayed;
        self.lowest = self.lowest.min(place);
    }

    /// The driver listed the name: returns its place, which is now listed, after those that were listed before. `None`
    /// comes exactly if no delayed place has this name.
    pub fn list(&mut self, name: &[u8]) -> Option<u32>
        ensures { MatchOption result
            (((p : ℕ) → ¬ (IsDelayed name.now self.old p)) × (self.new ≡ self.old))
            (λ p. IsDelayed name.now self.old p × (self.new
            ≡ record (with_place p Listed self.old) { turns = (self.old).turns ++ p ∷ [] })) }
    {
        let place = place_of(&self.names, name)?;
        if !self.places[place].is_delayed() {
            return None;
        }
        self.places[place] = Place::Listed;
        self.order.push_reserved(place as u32);
        Some(place as u32)
    }

    /// The places that are listed, in order of listing.
    pub fn listed(&self) -> &[u32]
        ensures turns { result.now ≡ (self.now).turns }
        ensures each { AreListed self.now }
    {
        &self.order[self.delivered..]
    }

    /// The first listed place, which is now done. `None` comes exactly if none is listed.
    pub fn deliver(&mut self) -> Option<u32>
        ensures { MatchOption result
            (((self.old).turns ≡ []) × (self.new ≡ self.old))
            (λ p. (rest : List ℕ) × ((self.old).turns ≡ p ∷ rest)
            × (self.new ≡ record (with_place p Done self.old) { turns = rest })) }
    {
        let place = *self.order.get(self.delivered)?;
        self.delivered += 1;
        self.places[place as usize] = Place::Done;
        Some(place)
    }

    /// The lowest place that is delayed or listed, which is now done. `None` comes exactly if there is none. A caller
    /// that delivers the listed ones first pays only for the places that it skips.
    pub fn rest(&mut self) -> Option<u32>
        ensures { MatchOption result
            (NoneIsPending self.old × (self.new ≡ self.old))
            (λ p. IsLowest self.old p × (self.new
            ≡ record (with_place p Done self.old) { turns = without p (self.old).turns })) }
    {
        self.lowest = first_pending(&self.places, self.lowest);
        let place = *self.places.get(self.lowest)?;
        strike(
            &mut self.order,
            self.delivered,
            self.lowest as u32,
            place.is_listed(),
        );
        self.places[self.lowest] = Place::Done;
        Some(self.lowest as u32)
    }
}
