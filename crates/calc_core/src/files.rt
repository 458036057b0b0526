//! The files of the program `calc`, in memory, and the memoized size of one.
//!
//! ```rust
//! use calc_core::files::{Files, size};
//! use comemo::{CacheData, How, Top, Track};
//!
//! let mut files = Files::new(alloc);
//! files.write(String::from_str(alloc, "a")?, String::from_str(alloc, "hello")?)?;
//! let mut sizes = CacheData::new(alloc);
//! let first = size(alloc, &mut sizes, &files.view(alloc), "a", &mut Top::new())?;
//! assert_eq!(rt; (first.output, first.how), (5, How::Stored));
//!
//! files.write(String::from_str(alloc, "b")?, String::from_str(alloc, "other")?)?;
//! let again = size(alloc, &mut sizes, &files.view(alloc), "a", &mut Top::new())?;
//! assert_eq!(rt; (again.output, again.how), (5, How::Hit));
//! ```
ghost use Rattle.std.specs.Prelude.{◌≡◌, ℕ, List, [], false, String, string_bytes, bytes_eq, if◌then◌else◌, IfOk, OnOk, OnErr};
ghost use Rattle.std.proofs.Common.{rules};
ghost use Rattle.std.specs.Global.{Global};
ghost use Rattle.comemo.specs.Sending.{Asks};
ghost use Rattle.comemo.specs.Mapped.{Through};
ghost use Rattle.comemo.specs.Multi.{second_call, second_answer};
ghost use Rattle.calc_core.specs.declared.files.FileCall.TheVariants.{Read};

pub mod measure;
pub mod text;

use comemo::{Call, MultiAnswer, MultiCall, Second, Sink, Track, View};
pub use measure::{FileSize, size};
use std::alloc::{AllocError, Global};
use std::collections::HashMap;
use std::hash::Hash;
pub use text::Text;

/// A call to the files. All are reads. A clone copies the path.
#[derive(Clone, Drop, Debug, PartialEq, Eq, Hash)]
pub enum FileCall {
    /// The text of the file at a path.
    Read(String),
}

/// A call to a key joined with the files: one to the files, since the key isn't tracked.
pub type JoinedCall = MultiCall<(), FileCall>;

/// An answer of a key joined with the files: a text.
pub type JoinedAnswer = MultiAnswer<(), Text>;

impl Call for FileCall {
    ghost is_write = { λ _. false };

    ghost touches = { λ _ _. false };

    ghost laws = { Prim.search rules };

    fn is_mutable(&self) -> bool {
        false
    }

    fn touches(&self, _read: &FileCall) -> bool {
        false
    }
}

/// Files in memory: a text for each path. A file that was never written is empty.
///
/// The answer to a read is a clone of the text, which shares its bytes. Paths are told apart by their bytes.
#[derive(Drop)]
pub struct Files {
    texts: HashMap<String, Text>,
    missing: Text,
    ghost empty: { missing ≡ [] },
}

impl Files {
    ghost use Rattle.calc_core.specs.Files.{text_at, answers_of};

    /// No files. Does not allocate.
    pub fn new(alloc: Global) -> Self
        ensures { (path : List ℕ) → text_at result path ≡ [] }
    {
        Files {
            texts: HashMap::new(alloc),
            missing: Text::empty(),
        }
    }

    /// The text of the file at a path.
    fn text(&self, path: &str) -> &Text
        ensures { result.now ≡ text_at self.now path.now }
    {
        match self.texts.get(path) {
            Some(text) => text,
            None => &self.missing,
        }
    }

    /// Replaces the text of the file at a path. The text is shared from now on.
    ///
    /// On error the files are unchanged; the path and the text are dropped.
    pub fn write(&mut self, path: String, text: String) -> Result<(), AllocError>
        ensures ok { OnOk result ((q : List ℕ) → text_at self.new q
            ≡ (if bytes_eq q (string_bytes path) then string_bytes text else text_at self.old q)) }
        ensures err { OnErr result ((q : List ℕ) → text_at self.new q ≡ text_at self.old q) }
    {
        match self.texts.insert(path, Text::new(text)?) {
            Ok(_) => Ok(()),
            Err(_) => Err(AllocError),
        }
    }

    /// Reads the file at a path through a view, and records the read in a sink for a key joined with the files.
    ///
    /// Fails if copying the path or the sink does; the sink is then unchanged.
    pub fn read<S: Sink<Call = JoinedCall, Answer = JoinedAnswer>>(
        alloc: Global,
        view: &View<'_, Files>,
        path: &str,
        sink: &mut S,
    ) -> Result<Text, AllocError>
        ensures { IfOk result (λ text. (own : String Global) × (string_bytes own ≡ path.now)
            × Asks bytes_eq (answers_of view.now) (Read own) text
            (Through second_call second_answer (S.took sink.old sink.new))) }
    {
        let own = String::from_str(alloc, path)?;
        let mut view = view.fork(alloc);
        view.ask_through(FileCall::Read(own), Second::new(), sink)
    }
}

impl Track for Files {
    type Call = FileCall;

    type Answer = Text;

    ghost use Rattle.calc_core.specs.Files.{answers_of};

    ghost answers = { answers_of };

    ghost alike = { λ s x y h. Prim.search rules };

    fn ask(&self, call: &FileCall) -> Result<Text, AllocError> {
        match call {
            FileCall::Read(path) => self.text(path.as_str()).clone(),
        }
    }
}
