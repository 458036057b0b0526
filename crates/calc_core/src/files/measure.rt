//! The memoized size of a file.
ghost use Rattle.std.specs.Prelude.{◌≡◌, length, IfOk, IfErr, OnErr};
ghost use Rattle.std.proofs.Common.{rules};
ghost use Rattle.comemo.specs.Finish.{BrokeOff};
ghost use Rattle.comemo.specs.MeaningLaws.{reads_laws};
ghost use Rattle.calc_core.specs.Size.{IsSize, SizeReply};
ghost use Rattle.calc_core.specs.Joined.{same_answer};
ghost use Rattle.calc_core.specs.Files.{OnFiles, text_at, answers_of, with_key};

use crate::files::{FileCall, Files, JoinedAnswer, JoinedCall, Text};
use comemo::internal::{Breaking, Hashed, Multi, Pending};
use comemo::{
    Begun, CacheData, Fault, Function, How, MultiAnswer, MultiCall, Reply, Sink, View, begin,
};
use std::alloc::Global;

/// The memoized function of `size`, whose cache is a `CacheData<FileSize>`.
///
/// The key is a path, joined with the files; a run has one call, the read of that path.
pub struct FileSize;

impl Function for FileSize {
    type Call = MultiCall<(), FileCall>;

    type Key = (String, ());

    type Answer = MultiAnswer<(), Text>;

    type Out = u64;

    ghost use Rattle.calc_core.specs.SizeLaws.{size_alike};

    ghost means = { λ key answers out. OnFiles (λ m. IsSize key.0 m out) answers };

    ghost laws = { reads_laws (record {
      outputs = λ key m a b r c h part q. Prim.search (rules, h part q);
      keys = λ j k m output r e h. size_alike j k m output r e h;
      key_clones = Prim.search rules;
    }) };
}

/// The memoized size of the file at a path, in bytes, as the file is now.
///
/// On error the cache is unchanged, and the sink is incomplete. A stored run keeps the file's text, which it shares.
pub fn size<S: Sink<Call = JoinedCall, Answer = JoinedAnswer>>(
    alloc: Global,
    cache: &mut CacheData<FileSize>,
    files: &View<'_, Files>,
    path: &str,
    sink: &mut S,
) -> Result<Reply<u64>, Fault>
    ensures output { IfOk result (λ reply.
        reply.output ≡ length (text_at files.now path.now)) }
    ensures reply { IfOk result (λ reply. SizeReply files.now path.now cache.old
        (S.took sink.old sink.new) reply cache.new) }
    ensures fault { IfErr result (λ fault. fault ≡ Fault.Memory) }
    ensures err { OnErr result ((cache.new ≡ cache.old)
        × BrokeOff same_answer (with_key (answers_of files.now))
        (⟦<S as Breaking>⟧.breaks_off sink.old sink.new)) }
{
    let Ok(key) = String::from_str(alloc, path) else {
        sink.spoil();
        return Err(Fault::Memory);
    };
    let mut input = Multi((Hashed(key), files.fork(alloc)));
    // One match and no `?` before it: either would move the `Pending` once more, even if there is none.
    match begin(alloc, cache, &mut input, sink, true) {
        Ok(Begun::Hit(output)) => Ok(Reply {
            output,
            how: How::Hit,
        }),
        Ok(Begun::Run(mut pending)) => {
            let Ok(text) = Files::read(alloc, files, path, pending.recording()) else {
                pending.give_up(sink);
                return Err(Fault::Memory);
            };
            let output = text.len() as u64;
            pending.finish(cache, sink, output)
        }
        Err(fault) => Err(fault),
    }
}
