//! A project: a tracked value that is only read.
ghost use Rattle.std.specs.Prelude.{◌≡◌, ℕ, List, false, bytes_eq, if◌then◌else◌, string_bytes, IfOk, OnOk, OnErr};
ghost use Rattle.std.proofs.Common.{rules};
ghost use Rattle.comemo_lang.specs.Projects.{source_of};

use comemo::{Answer, Call, Track};
use comemo_text::Text;
use std::alloc::{AllocError, Global};
use std::collections::HashMap;

/// The question for the source of a module.
#[derive(Clone, Drop, Debug, PartialEq, Eq, Hash)]
pub struct SourceOf {
    /// The name of the module.
    pub name: Text,
}

impl Call for SourceOf {
    ghost is_write = { λ _. false };

    ghost touches = { λ _ _. false };

    ghost laws = { Prim.search rules };

    fn is_mutable(&self) -> bool {
        false
    }

    fn touches(&self, _read: &SourceOf) -> bool {
        false
    }
}

/// The source of a module.
#[derive(Clone, Drop, Debug, PartialEq, Eq, PartialOrd, Ord)]
pub enum Source {
    /// There is no such module.
    Missing,
    /// Its text.
    Written(Text),
}

impl Answer for Source {
    ghost use Rattle.comemo_lang.specs.SourceLaws.{source_refl};

    ghost clones = { λ x y h. Prim.search (rules, source_refl) };
}

/// A project: the texts of its modules by their names.
#[derive(Drop)]
pub struct Project {
    modules: HashMap<String, Text>,
}

impl Project {
    /// A project without modules. Does not allocate.
    pub fn new(alloc: Global) -> Self
        ensures { (name : List ℕ) → source_of result name ≡ Source.Missing }
    {
        Project {
            modules: HashMap::new(alloc),
        }
    }

    /// Sets the text of a module. Fails if out of memory; then the project is unchanged.
    #[tactic(auto, using(std::proofs::lemmas::Map::Text::text_keys))]
    pub fn set(&mut self, name: String, text: Text) -> Result<(), AllocError>
        ensures ok { OnOk result ((q : List ℕ) → source_of self.new q
            ≡ (if bytes_eq q (string_bytes name) then Source.Written text else source_of self.old q)) }
        ensures err { OnErr result ((q : List ℕ) → source_of self.new q ≡ source_of self.old q) }
    {
        match self.modules.insert(name, text) {
            Ok(_) => Ok(()),
            Err(_) => Err(AllocError),
        }
    }

    /// Removes a module, if it is there.
    #[tactic(auto, using(std::proofs::lemmas::Map::Text::text_keys))]
    pub fn remove(&mut self, name: &str)
        ensures { (q : List ℕ) → source_of self.new q
            ≡ (if bytes_eq q name.now then Source.Missing else source_of self.old q) }
    {
        self.modules.remove(name);
    }

    /// The source of a module. Fails if out of memory.
    pub fn source(&self, name: &str) -> Result<Source, AllocError>
        ensures { IfOk result (λ source. source ≡ source_of self.now name.now) }
    {
        let Some(text) = self.modules.get(name) else {
            return Ok(Source::Missing);
        };
        let own = text.clone()?;
        Ok(Source::Written(own))
    }
}

impl Track for Project {
    type Call = SourceOf;

    type Answer = Source;

    ghost use Rattle.comemo_lang.specs.Projects.{source_of};
    ghost use Rattle.comemo_lang.specs.SourceLaws.{sources_alike};

    ghost answers = { λ s call. source_of s call.name };

    ghost alike = { λ s. sources_alike (λ call. source_of s call.name) };

    #[tactic(auto, using(crate::specs::SourceLaws::source_refl))]
    fn ask(&self, call: &SourceOf) -> Result<Source, AllocError> {
        self.source(call.name.as_str())
    }
}
