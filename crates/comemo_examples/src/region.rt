//! A tracked value that borrows three others, its parts, and a function of it.
ghost use Rattle.std.specs.Prelude.{◌≡◌, false, max, refl};
ghost use Rattle.std.proofs.Common.{rules};

use crate::{Town, TownCall};
use comemo::internal::CallMap;
use comemo::{Call, Fault, Function, Part, Recorder, Run, Track, View};
use std::alloc::{AllocError, Global};

/// Which town of a region: a part of it.
#[derive(Clone, Copy, Drop, Debug, PartialEq, Eq, Hash)]
pub enum Place {
    /// The town on the coast.
    Coast,
    /// The town by the river.
    River,
    /// The town on the hill.
    Hill,
}

/// What can be asked of a region: of one of its towns, what can be asked of a town.
#[derive(Clone, Copy, Drop, Debug, PartialEq, Eq, Hash)]
pub struct RegionCall {
    /// The town.
    pub place: Place,
    /// What is asked of it.
    pub call: TownCall,
}

impl Call for RegionCall {
    ghost is_write = { λ _. false };

    ghost touches = { λ _ _. false };

    ghost laws = { Prim.search rules };

    fn is_mutable(&self) -> bool {
        false
    }

    fn touches(&self, _read: &RegionCall) -> bool {
        false
    }
}

/// Three borrowed towns. Their answers are its answers. No read allocates or fails.
#[derive(Drop)]
pub struct Region<'a> {
    /// The town on the coast.
    pub coast: &'a Town,
    /// The town by the river.
    pub river: &'a Town,
    /// The town on the hill.
    pub hill: &'a Town,
}

impl<'a> Region<'a> {
    ghost use Rattle.comemo_examples.specs.Regions.{town_of};

    /// One of the towns.
    pub fn town(&self, place: Place) -> &'a Town
        ensures { result.now ≡ town_of place self.now }
    {
        match place {
            Place::Coast => self.coast,
            Place::River => self.river,
            Place::Hill => self.hill,
        }
    }
}

impl<'a> Track for Region<'a> {
    type Call = RegionCall;

    type Answer = u64;

    ghost use Rattle.comemo_examples.specs.Towns.{asked};
    ghost use Rattle.comemo_examples.specs.Regions.{town_of};
    ghost use Rattle.comemo_examples.specs.RegionLaws.{each_alike};

    ghost answers = { λ s of. let town = town_of of.place s in
        asked town.people town.degrees of.call };

    ghost alike = { each_alike };

    fn ask(&self, of: &RegionCall) -> Result<u64, AllocError> {
        self.town(of.place).ask(&of.call)
    }
}

/// A town of a region is asked as the region, of its place.
impl CallMap for Place {
    type From = TownCall;

    type To = RegionCall;

    type FromAnswer = u64;

    type ToAnswer = u64;

    ghost maps = { λ place call. record { place = place; call = call } };

    ghost maps_answer = { λ _ answer. answer };

    ghost same_kind = { λ _ _. refl };

    ghost same_touch = { λ _ _ _. refl };

    ghost apart = { Prim.search rules };

    ghost answers_apart = { λ _ _ _. refl };

    fn map(&self, call: TownCall) -> RegionCall {
        RegionCall { place: *self, call }
    }

    fn map_answer(&self, answer: u64) -> u64 {
        answer
    }
}

impl<'b> Part<Region<'b>, Town> for Place {
    ghost use Rattle.comemo_examples.specs.Regions.{town_of};

    ghost part = { town_of };

    ghost agrees = { λ _ _ _. refl };

    fn view<'a>(&self, region: &'a Region<'b>, alloc: Global) -> View<'a, Town> {
        region.town(*self).view(alloc)
    }
}

/// How warm the warmest town of a region is, in degrees.
///
/// Asks each town for its degrees, in this order: coast, river, hill.
pub struct Warmest;

impl Function for Warmest {
    type Call = RegionCall;

    type Key = ();

    type Answer = u64;

    type Out = u64;

    ghost use Rattle.comemo_examples.specs.declared.town.TownCall.TheVariants.{Degrees};
    ghost use Rattle.comemo_examples.specs.declared.region.Place.TheVariants.{Coast, River, Hill};
    ghost use Rattle.comemo_examples.specs.Regions.{of};

    ghost means = { λ _ m out.
        out ≡ max (m (of Coast Degrees))
        (max (m (of River Degrees)) (m (of Hill Degrees))) };

    ghost laws = { Prim.search rules };
}

impl<'a> Run<Region<'a>, ()> for Warmest {
    fn run(_: &(), region: &mut Recorder<'_, Region<'a>>, _: &mut ()) -> Result<u64, Fault> {
        let coast = region.ask_part(Place::Coast, TownCall::Degrees)?;
        let river = region.ask_part(Place::River, TownCall::Degrees)?;
        let hill = region.ask_part(Place::Hill, TownCall::Degrees)?;
        Ok(coast.max(river.max(hill)))
    }
}
