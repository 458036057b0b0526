//! A function that writes to a log in a loop.
ghost use Rattle.std.specs.Prelude.{◌≡◌, map, string_bytes, ⊤};
ghost use Rattle.std.proofs.Common.{rules, ◌∙◌, sym};
ghost use Rattle.comemo.proofs.Texts.{texts_clone, bytes_in_turn};
ghost use Rattle.comemo.specs.MeaningLaws.{map_writes};
ghost use Rattle.comemo_examples.specs.ListingLaws.{logged_alike};
ghost use Rattle.comemo_examples.specs.Writers.{logged};

use crate::{Log, LogCall};
use comemo::{Fault, Function, RecorderMut, RunMut};

/// Writes each of these texts to a log.
pub struct Listing;

impl Function for Listing {
    type Key = Vec<String>;

    type Call = LogCall;

    type Answer = ();

    type Out = ();

    ghost means = { λ _ _ _. ⊤ };

    ghost writes = { λ texts _ _ W. map logged W ≡ map string_bytes texts.items };

    ghost laws = { record {
      outputs = λ key m a b writes r c right. right;
      keys = λ j k m output writes r e right. (right.0 ∙ bytes_in_turn j.items k.items e, tt);
      writes = λ key m output V W r same right.
          (sym (map_writes logged logged_alike V W same) ∙ right.0, tt);
      key_clones = λ x y h. Prim.search (rules, texts_clone);
    } };
}

impl RunMut<Log, ()> for Listing {
    fn run(
        texts: &Vec<String>,
        log: &mut RecorderMut<'_, '_, Log>,
        _: &mut (),
    ) -> Result<(), Fault> {
        for text in texts {
            log.write(LogCall::Line(text.clone()?))?;
        }
        Ok(())
    }
}
