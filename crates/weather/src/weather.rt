//! The weather, as a tracked value.
ghost use Rattle.std.specs.Prelude.{false};
ghost use Rattle.std.proofs.Common.{rules};

use comemo::{Call, Track};
use std::alloc::AllocError;

/// What can be asked of the weather.
#[derive(Clone, Copy, Drop, Debug, PartialEq, Eq, Hash)]
pub enum WeatherCall {
    /// How many degrees it has.
    Degrees,
    /// How fast the wind is.
    Wind,
}

impl Call for WeatherCall {
    ghost is_write = { λ _. false };

    ghost touches = { λ _ _. false };

    ghost laws = { Prim.search rules };

    fn is_mutable(&self) -> bool {
        false
    }

    fn touches(&self, _read: &WeatherCall) -> bool {
        false
    }
}

/// The weather.
#[derive(Drop)]
pub struct Weather {
    /// How many degrees it has.
    pub degrees: u64,
    /// How fast the wind is.
    pub wind: u64,
}

impl Track for Weather {
    type Call = WeatherCall;

    type Answer = u64;

    ghost use Rattle.weather.specs.Weathers.{answer};

    ghost answers = { λ s call. answer s.degrees s.wind call };

    ghost alike = { λ s x y h. Prim.search rules };

    fn ask(&self, call: &WeatherCall) -> Result<u64, AllocError> {
        match call {
            WeatherCall::Degrees => Ok(self.degrees),
            WeatherCall::Wind => Ok(self.wind),
        }
    }
}
