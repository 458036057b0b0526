//! Bytes by path from a boxed loader, of which only the trait is known, and a function that asks for them.
ghost use Rattle.std.specs.Prelude.{◌≡◌, ℕ, List, Vec, false, IfOk, string_bytes};
ghost use Rattle.std.specs.Global.{Global as AnyGlobal};
ghost use Rattle.std.specs.List.{each_same};
ghost use Rattle.std.proofs.Common.{rules, ◌∙◌};

use comemo::{Call, Fault, Function, Recorder, Run, Track};
use std::alloc::AllocError;
use std::marker::PhantomData;

/// A source of bytes by path. `gives` specifies the bytes.
pub trait Loader: Drop {
    // the bytes for a path
    ghost gives: { Self → List ℕ → Vec ℕ AnyGlobal };

    /// The bytes for a path. Fails if out of memory. The cost is up to the loader.
    fn load(&self, path: &str) -> Result<Vec<u8>, AllocError>
        ensures { IfOk result (λ bytes. bytes.items ≡ (gives self.now path.now).items) };
}

/// What can be asked of a library.
#[derive(Clone, Drop, Debug, PartialEq, Eq, Hash)]
pub enum LibraryCall {
    /// The bytes for a path.
    Load(String),
}

impl Call for LibraryCall {
    ghost is_write = { λ _. false };

    ghost touches = { λ _ _. false };

    ghost laws = { Prim.search rules };

    fn is_mutable(&self) -> bool {
        false
    }

    fn touches(&self, _read: &LibraryCall) -> bool {
        false
    }
}

/// A library that loads by any loader. A read fails if the loader fails.
#[derive(Drop)]
pub struct Library<L> {
    /// The loader.
    pub loader: Box<L>,
}

impl<L: Loader> Track for Library<L> {
    type Call = LibraryCall;

    type Answer = Vec<u8>;

    ghost use Rattle.comemo_examples.specs.Loads.{path_in};
    ghost use Rattle.comemo_examples.specs.LoadLaws.{equal_bytes};

    ghost answers = { λ s call. L.gives s.loader.value (path_in call) };

    ghost alike = { λ s x y h. Prim.search rules };

    fn ask(&self, call: &LibraryCall) -> Result<Vec<u8>, AllocError> {
        match call {
            LibraryCall::Load(path) => self.loader.load(path.as_str()),
        }
    }
}

/// The bytes for a path, which is the key. Asks the library for that path alone.
pub struct Contents<L> {
    loader: PhantomData<L>,
}

impl<L: Loader> Function for Contents<L> {
    type Key = String;

    type Call = LibraryCall;

    type Answer = Vec<u8>;

    type Out = Vec<u8>;

    ghost use Rattle.comemo_examples.specs.declared.loader.LibraryCall.TheVariants.{Load};
    ghost use Rattle.comemo_examples.specs.LoadLaws.{equal_bytes, same_bytes};

    ghost means = { λ path m out. out.items ≡ (m (Load path)).items };

    ghost laws = { Prim.search (rules, each_same, same_bytes, equal_bytes) };
}

impl<L: Loader> Run<Library<L>, ()> for Contents<L> {
    fn run(path: &String, of: &mut Recorder<'_, Library<L>>, _: &mut ()) -> Result<Vec<u8>, Fault> {
        let bytes = of.ask(LibraryCall::Load(path.clone()?))?;
        Ok(bytes)
    }
}
