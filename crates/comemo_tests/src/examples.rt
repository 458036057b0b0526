//! The examples of the first pages of `comemo_track` and `comemo`.
ghost use Rattle.std.specs.Prelude.{◌≡◌};
ghost use Rattle.std.proofs.Common.{rules};

use comemo::{CacheData, Constraint, Fault, Function, How, Recorder, Run, Track, memoized};
use comemo_examples::{Town, TownCall};
use std::test::Fail;

#[test]
fn a_recording_holds_until_an_answer_changes(rt: HostRuntime) -> Result<(), Fail> {
    let mut town = Town {
        people: 900,
        degrees: 21,
    };
    let mut recording = Constraint::new(rt.alloc());
    let degrees = town
        .track(rt.alloc())
        .ask(TownCall::Degrees, &mut recording)?;
    assert_eq!(rt; degrees, 21);
    town.people = 1000;
    assert!(rt; recording.validate(&town)?);
    town.degrees = 4;
    assert!(rt; !recording.validate(&town)?);
    Ok(())
}

/// How warm a town is.
pub struct Warmth;

impl Function for Warmth {
    type Key = ();

    type Call = TownCall;

    type Answer = u64;

    type Out = u64;

    ghost use Rattle.comemo_examples.specs.declared.town.TownCall.TheVariants.{Degrees};

    ghost means = { λ _ m out. out ≡ m Degrees };

    ghost laws = { Prim.search rules };
}

impl Run<Town, ()> for Warmth {
    fn run(_: &(), town: &mut Recorder<'_, Town>, _: &mut ()) -> Result<u64, Fault> {
        let degrees = town.ask(TownCall::Degrees)?;
        Ok(degrees)
    }
}

#[test]
fn a_town_that_grows_is_as_warm(rt: HostRuntime) -> Result<(), Fail> {
    let alloc = rt.alloc();
    let mut cache: CacheData<Warmth> = CacheData::new(alloc);
    let calls = [
        (900, 21, How::Stored),
        (1000, 21, How::Hit),
        (1000, 4, How::Stored),
    ];
    for (people, degrees, how) in calls {
        let town = Town { people, degrees };
        let reply = memoized(alloc, &mut cache, (), &town)?;
        assert_eq!(rt; reply.output, degrees);
        assert_eq!(rt; reply.how, how);
    }
    Ok(())
}
