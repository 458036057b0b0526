//! What a run that only reads asks of a part of its value. A part is named by the map of its calls and answers to
//! those of the whole, as `First::new()`.
ghost use Rattle.std.specs.Prelude.{◌≡◌, [], true, false, IsTrue, IfOk, IfErr, OnOk, OnErr, refl};
ghost use Rattle.comemo.specs.Called.{HeldReply, HeldFault, HeldNeeds};
ghost use Rattle.comemo_cache.specs.Meaning.{invocation};
ghost use Rattle.comemo_cache.specs.Held.{Stays};
ghost use Rattle.comemo_track.specs.Sending.{Asks};
ghost use Rattle.comemo_track.specs.Mapped.{Through};
ghost use Rattle.comemo.specs.Function.{Tells, OnPart, WritesNone};

use crate::function::{Recorder, Run, Told, memoized_view};
use crate::pending::{Fault, Reply};
use comemo_cache::cache::Meant;
use comemo_cache::hold::Hold;
use comemo_track::mapped::MappedSink;
use comemo_track::part::Part;
use comemo_track::track::{Call, Track};

impl<'a, T: Track> Recorder<'a, T> {
    /// Asks a part of the value a read, and records it as a call of the whole. Fails if out of memory.
    pub fn ask_part<A: Track, P: Part<T, A> + Drop>(
        &mut self,
        part: P,
        call: A::Call,
    ) -> Result<A::Answer, Fault>
        requires { A.Call.is_write call ≡ false }
        ensures tells { Tells ⟦<T as Told>⟧.fits self.old self.new result
            (λ answer m. OnPart (P.maps part) (P.maps_answer part) m
            (λ of. IsTrue (A.Answer.eq (of call) answer))) }
        ensures asks { IfOk result
            (λ answer. Asks A.Answer.eq (A.answers (P.part part self.old.value)) call answer
            (Through (P.maps part) (P.maps_answer part) (⟦<T as Told>⟧.took self.old self.new))) }
        ensures err { IfErr result (λ fault. (fault ≡ Fault.Memory)
            × ⟦<T as Told>⟧.took self.old self.new [] []) }
    {
        let mut view = self.view.part(&part, self.alloc);
        Ok(view.ask_through(call, part, &mut self.recording)?)
    }

    /// Calls a memoized function of a part of the value, and records what it asked, as `call`.
    pub fn call_part<A: Track, P: Part<T, A> + Drop, G: Run<A, N>, H: Hold<G>, N>(
        &mut self,
        part: P,
        cache: &mut H,
        needs: &mut N,
        key: G::Key,
    ) -> Result<G::Out, Fault>
        requires { WritesNone G.writes }
        ensures tells { Tells ⟦<T as Told>⟧.fits self.old self.new result
            (λ output m. OnPart (P.maps part) (P.maps_answer part) m
            (λ of. G.means key of output)) }
        ensures reply { IfOk result (λ output. (reply : Reply G.Out) × (reply.output ≡ output)
            × HeldReply ⟦<G as Meant>⟧.meaning
            (invocation key (A.answers (P.part part self.old.value)) true) (H.entries cache.old)
            (Through (P.maps part) (P.maps_answer part)
            (⟦<T as Told>⟧.took self.old self.new)) reply (H.entries cache.new)) }
        ensures fault { IfErr result (HeldFault ⟦<G as Meant>⟧.meaning
            (invocation key (A.answers (P.part part self.old.value)) true) (H.entries cache.old)) }
        ensures needs { HeldNeeds ⟦<G as Meant>⟧.meaning
            (invocation key (A.answers (P.part part self.old.value)) true) (H.entries cache.old)
            needs.old needs.new }
        ensures err { OnErr result (Stays (H.entries cache.old) (H.entries cache.new)
            × ⟦<T as Told>⟧.broke_off self.old self.new) }
    {
        let view = self.view.part(&part, self.alloc);
        let mut sink = MappedSink::new(&mut self.recording, part);
        let reply = memoized_view(self.alloc, cache, needs, key, &view, &mut sink, true)?;
        Ok(reply.output)
    }
}
