//! Rows of functions that ask texts, and of functions of texts.

use crate::calls::{comes_to, gives_text};
use comemo::{CacheData, How, Top, memoized, memoized_with};
use comemo_examples::greetings::{Greeting, SaysHello, World};
use comemo_examples::kinds::{LongOrShort, Selfie, Text};
use comemo_examples::loader::{Contents, Library, Loader};
use comemo_examples::numbers::SumBelow;
use comemo_examples::texts::Same;
use std::alloc::{AllocError, Global};

/// Whether a text's call returns it, and came about like this.
fn says_itself(alloc: Global, cache: &mut CacheData<Selfie>, text: &str, how: How) -> bool {
    let Ok(own) = String::from_str(alloc, text) else {
        return false;
    };
    gives_text(memoized(alloc, cache, (), &Text { text: own }), text, how)
}

/// Whether a text's call returns this word for its length, and came about like this.
fn is_called(
    alloc: Global,
    cache: &mut CacheData<LongOrShort>,
    text: &str,
    word: &str,
    how: How,
) -> bool {
    let Ok(own) = String::from_str(alloc, text) else {
        return false;
    };
    let text = Text { text: own };
    let mut needs = alloc;
    let sink = &mut Top::new();
    let reply = memoized_with(alloc, cache, &mut needs, (), &text, sink, true);
    gives_text(reply, word, how)
}

/// Whether a text answers two kinds of questions, each for its own function.
pub(crate) fn two_kinds_of_questions(alloc: Global) -> bool {
    let mut selfies: CacheData<Selfie> = CacheData::new(alloc);
    let mut lengths: CacheData<LongOrShort> = CacheData::new(alloc);
    let first = says_itself(alloc, &mut selfies, "Hi", How::Stored);
    let stored = is_called(alloc, &mut lengths, "Hi", "Short", How::Stored);
    let hit = is_called(alloc, &mut lengths, "Hi", "Short", How::Hit);
    let again = says_itself(alloc, &mut selfies, "Hi", How::Hit);
    let other = says_itself(alloc, &mut selfies, "Hi!", How::Stored);
    let short = is_called(alloc, &mut lengths, "Hi!", "Short", How::Stored);
    let long = is_called(alloc, &mut lengths, "Hi! Let's go.", "Long", How::Stored);
    first && stored && hit && again && other && short && long
}

/// Whether the output of a function of nothing is cached.
fn the_world_is_big(alloc: Global) -> bool {
    let mut cache: CacheData<World> = CacheData::new(alloc);
    let mut needs = alloc;
    let hows: &[How] = &[How::Stored, How::Hit, How::Hit];
    for how in hows {
        let sink = &mut Top::new();
        let reply = memoized_with(alloc, &mut cache, &mut needs, (), &(), sink, true);
        if !gives_text(reply, "The world is big", *how) {
            return false;
        }
    }
    true
}

/// Whether a sum is cached under its number.
fn a_sum_is_kept(alloc: Global) -> bool {
    let mut cache: CacheData<SumBelow> = CacheData::new(alloc);
    let first = comes_to(alloc, &mut cache, 1000, &(), 499500, How::Stored);
    first && comes_to(alloc, &mut cache, 1000, &(), 499500, How::Hit)
}

/// Whether a call with this text returns it, and came about like this.
fn keeps(alloc: Global, cache: &mut CacheData<Same>, text: &str, how: How) -> bool {
    let Ok(own) = String::from_str(alloc, text) else {
        return false;
    };
    gives_text(memoized(alloc, cache, own, &()), text, how)
}

/// Whether two functions of texts each have their own cache.
fn each_function_has_its_cache(alloc: Global) -> bool {
    let mut taken: CacheData<Same> = CacheData::new(alloc);
    let mut copied: CacheData<Same> = CacheData::new(alloc);
    let first = keeps(alloc, &mut taken, "Hello", How::Stored);
    let second = keeps(alloc, &mut copied, "Hello", How::Stored);
    let third = keeps(alloc, &mut taken, "World", How::Stored);
    let fourth = keeps(alloc, &mut taken, "Hello", How::Hit);
    first && second && third && fourth
}

/// Whether a text is `hello` or not, and the call that asks it came about like this.
fn says_hello(
    alloc: Global,
    cache: &mut CacheData<SaysHello>,
    text: &str,
    output: bool,
    how: How,
) -> bool {
    let Ok(text) = String::from_str(alloc, text) else {
        return false;
    };
    comes_to(alloc, cache, (), &Greeting { text }, output, how)
}

/// Whether a text is asked if it is `hello`, and nothing else.
fn hello_is_asked_for(alloc: Global) -> bool {
    let mut cache: CacheData<SaysHello> = CacheData::new(alloc);
    let calls: &[(&str, bool, How)] = &[
        ("hey", false, How::Stored),
        ("hey", false, How::Hit),
        ("hello", true, How::Stored),
        ("hello", true, How::Hit),
    ];
    for (text, output, how) in calls {
        if !says_hello(alloc, &mut cache, *text, *output, *how) {
            return false;
        }
    }
    true
}

/// A loader that returns the same bytes for every path.
#[derive(Drop)]
struct OneFile {
    bytes: Vec<u8>,
}

impl Loader for OneFile {
    ghost gives = { λ s _. s.bytes };

    fn load(&self, _path: &str) -> Result<Vec<u8>, AllocError> {
        self.bytes.clone()
    }
}

/// A library with one file for all paths.
fn library(alloc: Global) -> Result<Library<OneFile>, AllocError> {
    let bytes = vec![in alloc; 1, 2, 3]?;
    let loader = Box::new(alloc, OneFile { bytes })?;
    Ok(Library { loader })
}

/// Whether a path's call returns the file's bytes, and came about like this.
fn loads(
    alloc: Global,
    cache: &mut CacheData<Contents<OneFile>>,
    library: &Library<OneFile>,
    path: &str,
    how: How,
) -> bool {
    let Ok(path) = String::from_str(alloc, path) else {
        return false;
    };
    match memoized(alloc, cache, path, library) {
        Ok(reply) => reply.output.as_slice() == [1, 2, 3].as_slice() && reply.how == how,
        Err(_) => false,
    }
}

/// Whether each path is loaded once.
fn each_path_is_loaded_once(alloc: Global) -> bool {
    let mut cache: CacheData<Contents<OneFile>> = CacheData::new(alloc);
    let Ok(library) = library(alloc) else {
        return false;
    };
    let first = loads(alloc, &mut cache, &library, "hi.rs", How::Stored);
    let again = loads(alloc, &mut cache, &library, "hi.rs", How::Hit);
    let other = loads(alloc, &mut cache, &library, "bye.rs", How::Stored);
    first && again && other
}

/// Whether functions of nothing, of numbers, of texts and of a loader are cached.
pub(crate) fn functions_are_kept(alloc: Global) -> bool {
    the_world_is_big(alloc)
        && a_sum_is_kept(alloc)
        && each_function_has_its_cache(alloc)
        && hello_is_asked_for(alloc)
        && each_path_is_loaded_once(alloc)
}
