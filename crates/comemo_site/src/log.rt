//! A log of warnings: a tracked value that is only written.
ghost use Rattle.std.specs.Prelude.{◌≡◌, [], refl, true, false};
ghost use Rattle.std.proofs.Common.{rules};

use comemo::{Call, Track};
use comemo_text::Text;
use std::alloc::{AllocError, Global};
use std::hash::Hash;
use std::marker::Model;

/// What is wrong with a page: what is written to a log.
#[derive(Clone, Drop, Debug, PartialEq, Eq, Hash)]
pub enum Warning {
    /// There is no page of this name.
    Missing(Text),
    /// The page of this name is included too deep.
    TooDeep(Text),
}

impl Call for Warning {
    ghost is_write = { λ _. true };

    ghost touches = { λ _ _. false };

    ghost laws = { Prim.search rules };

    fn is_mutable(&self) -> bool {
        true
    }

    fn touches(&self, _read: &Warning) -> bool {
        false
    }
}

/// The warnings so far. Contracts see the list of them.
#[derive(Drop)]
pub struct Log {
    warnings: Vec<Warning>,
}

impl Model for Log {
    ghost use Rattle.std.specs.Prelude.{List};
    ghost use Rattle.comemo_site.specs.declared.log.Warning.{Warning};

    ghost Value = { List Warning };

    ghost view = { λ log. log.warnings.items };
}

impl Log {
    /// An empty log. Does not allocate.
    pub fn new(alloc: Global) -> Self
        ensures { result ≡ [] }
    {
        Log {
            warnings: Vec::new(alloc),
        }
    }

    /// The warnings, in the order in which they were written.
    pub fn warnings(&self) -> &[Warning]
        ensures { result.now ≡ self.now }
    {
        self.warnings.as_slice()
    }

    /// The warnings, in the order in which they were written.
    pub fn into_warnings(self) -> Vec<Warning>
        ensures { result.items ≡ self }
    {
        self.warnings
    }

    /// Drops the warnings.
    pub fn clear(&mut self)
        ensures { self.new ≡ [] }
    {
        self.warnings.clear();
    }
}

impl Track for Log {
    type Call = Warning;

    type Answer = ();

    ghost use Rattle.std.specs.Prelude.{◌++◌, ◌∷◌, []};

    // there is nothing to ask
    ghost answers = { λ _ _. tt };

    ghost wrote = { λ s warning t. t ≡ s ++ warning ∷ [] };

    ghost alike = { λ _ _ _ _. refl };

    fn ask(&self, _call: &Warning) -> Result<(), AllocError> {
        // Each call is a write, so there is no answer.
        Err(AllocError)
    }

    fn call_mut(&mut self, warning: &Warning) -> Result<(), AllocError> {
        let own = warning.clone()?;
        Ok(self.warnings.push(own)?)
    }
}
