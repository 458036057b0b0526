//! What a run that writes asks of a part of its value, and writes to it. A part is named as for a run that only reads.
ghost use Rattle.std.specs.Prelude.{◌≡◌, [], ◌∷◌, true, false, IsTrue, IfOk, IfErr, OnOk, OnErr, map, ⊤};
ghost use Rattle.comemo.specs.Called.{HeldReply, HeldReplyMut, HeldFault, HeldNeeds};
ghost use Rattle.comemo_cache.specs.Meaning.{IsRight, invocation};
ghost use Rattle.comemo_cache.specs.Held.{Leads, Stays};
ghost use Rattle.comemo.specs.Function.{OnPart, WritesNone};
ghost use Rattle.comemo.specs.FunctionMut.{lent, OnPartWrites, IsFailed, FailsBy};
ghost use Rattle.comemo_track.specs.Mapped.{Through, mapped_pairs};
ghost use Rattle.comemo_track.specs.Recording.{Spoiled};
ghost use Rattle.comemo_track.specs.Sending.{Asks};

use crate::function::{Run, memoized_view};
use crate::function_mut::{RecorderMut, Records, RunMut, Writes, memoized_mut_with};
use crate::pending::{Fault, How, Reply};
use comemo_cache::cache::Meant;
use comemo_cache::hold::Hold;
use comemo_track::mapped::{CallMap, MappedSink};
use comemo_track::part::{LendPart, Part};
use comemo_track::track::{Call, Track};

impl<'a, 'b, T: Track> RecorderMut<'a, 'b, T> {
    /// Asks a part of the value a read, and records it as a call of the whole, as `ask`.
    pub fn ask_part<A: Track, P: Part<T, A> + Drop>(
        &mut self,
        part: P,
        call: A::Call,
    ) -> Result<A::Answer, Fault>
        requires agrees { ⟦<Self as Records>⟧.agrees self.old }
        requires read { A.Call.is_write call ≡ false }
        ensures agrees { ⟦<Self as Records>⟧.agrees self.new }
        ensures tells { ⟦<Self as Records>⟧.tells self.old self.new result
            (λ answer m. OnPart (P.maps part) (P.maps_answer part) m
            (λ of. IsTrue (A.Answer.eq (of call) answer))) }
        ensures asks { IfOk result
            (λ answer. Asks A.Answer.eq (A.answers (P.part part self.old.value.now)) call answer
            (Through (P.maps part) (P.maps_answer part)
            (⟦<Self as Records>⟧.took self.old self.new))) }
        ensures writes { self.new.recording.now.writes ≡ self.old.recording.now.writes }
        ensures value { self.new.value ≡ self.old.value }
        ensures err { IfErr result (λ fault. (fault ≡ Fault.Memory)
            × ⟦<Self as Records>⟧.took self.old self.new [] []) }
    {
        let mut view = part.view(&*self.value, self.alloc);
        Ok(view.ask_through(call, part, self.recording)?)
    }

    /// Calls a memoized function of a part of the value, which only reads, and records its calls, as `call`.
    pub fn call_part<A: Track, P: Part<T, A> + Drop, G: Run<A, N>, H: Hold<G>, N>(
        &mut self,
        part: P,
        cache: &mut H,
        needs: &mut N,
        key: G::Key,
    ) -> Result<G::Out, Fault>
        requires reads { WritesNone G.writes }
        requires agrees { ⟦<Self as Records>⟧.agrees self.old }
        ensures agrees { ⟦<Self as Records>⟧.agrees self.new }
        ensures tells { ⟦<Self as Records>⟧.tells self.old self.new result
            (λ output m. OnPart (P.maps part) (P.maps_answer part) m
            (λ of. G.means key of output)) }
        ensures writes { OnOk result
            (self.new.recording.now.writes ≡ self.old.recording.now.writes) }
        ensures value { self.new.value ≡ self.old.value }
        ensures reply { IfOk result (λ output. (reply : Reply G.Out) × (reply.output ≡ output)
            × HeldReply ⟦<G as Meant>⟧.meaning
            (invocation key (A.answers (P.part part self.old.value.now)) true) (H.entries cache.old)
            (Through (P.maps part) (P.maps_answer part)
            (⟦<Self as Records>⟧.took self.old self.new))
            reply (H.entries cache.new)) }
        ensures fault { IfErr result (HeldFault ⟦<G as Meant>⟧.meaning
            (invocation key (A.answers (P.part part self.old.value.now)) true) (H.entries cache.old)) }
        ensures needs { HeldNeeds ⟦<G as Meant>⟧.meaning
            (invocation key (A.answers (P.part part self.old.value.now)) true) (H.entries cache.old)
            needs.old needs.new }
        ensures err { OnErr result (Stays (H.entries cache.old) (H.entries cache.new)
            × ⟦<Self as Records>⟧.broke_off self.old self.new) }
    {
        let view = part.view(&*self.value, self.alloc);
        let mut sink = MappedSink::new(&mut *self.recording, part);
        let reply = memoized_view(self.alloc, cache, needs, key, &view, &mut sink, true)?;
        drop(sink);
        // For the proof: its pairs are reads, and its writes are writes.
        self.recording.reveal_reads_and_writes();
        Ok(reply.output)
    }

    /// Does a write of a part on the value, and records it, as `write`.
    pub fn write_part<P: CallMap<To = T::Call, ToAnswer = T::Answer> + Drop>(
        &mut self,
        part: P,
        call: P::From,
    ) -> Result<(), Fault>
        requires agrees { ⟦<Self as Records>⟧.agrees self.old }
        requires write { P.From.is_write call ≡ true }
        ensures agrees { ⟦<Self as Records>⟧.agrees self.new }
        ensures tells { ⟦<Self as Records>⟧.tells self.old self.new result
            (λ _ _. ⊤) }
        ensures sent { OnOk result
            (⟦<Self as Records>⟧.took self.old self.new [] (P.maps part call ∷ [])) }
        ensures did { OnOk result
            (⟦<Self as Records>⟧.did self.old self.new (P.maps part call ∷ [])) }
        ensures kept { OnErr result (self.new.value.now ≡ self.old.value.now) }
        ensures err { IfErr result (λ fault. (fault ≡ Fault.Memory)
            × ⟦<Self as Records>⟧.took self.old self.new [] []) }
    {
        self.write(part.map(call))
    }

    /// Calls a memoized function of a part of the value, which may write, and records its calls and writes, as
    /// `call_mut`.
    pub fn call_mut_part<A: Track, P: Part<T, A> + Drop, G: RunMut<A, N>, H: Hold<G>, N>(
        &mut self,
        part: P,
        cache: &mut H,
        needs: &mut N,
        key: G::Key,
    ) -> Result<G::Out, Fault>
    where
        T: LendPart<P, A>,
        requires agrees { ⟦<Self as Records>⟧.agrees self.old }
        ensures agrees { ⟦<Self as Records>⟧.agrees self.new }
        ensures tells { ⟦<Self as Writes>⟧.tells
            (lent self.old.value self.old.recording) self.new result
            (λ output m writes. OnPartWrites (P.maps part) (P.maps_answer part) m writes
            (λ of own. IsRight G.means G.writes key of output own)) }
        ensures reply { IfOk result (λ output. (reply : Reply G.Out) × (reply.output ≡ output)
            × (reply.how ≡ How.Late → G.late key)
            × HeldReplyMut ⟦<G as Meant>⟧.meaning A.Call.touches
            (invocation key (A.answers (P.part part self.old.value.now)) true) (H.entries cache.old)
            (λ late. Through (P.maps part) (P.maps_answer part)
            (⟦<Self as Records>⟧.sent late self.old self.new)) reply (H.entries cache.new)) }
        ensures fault { IfErr result (λ fault.
            Leads (H.entries cache.old) (H.entries cache.new) (λ es es'. FailsBy
            ⟦<G as Meant>⟧.meaning es
            (invocation key (A.answers (P.part part self.old.value.now)) true)
            (λ W. ⟦<Self as Records>⟧.did self.old self.new (map (P.maps part) W))
            (Spoiled self.old.recording.now self.new.recording.now)
            (Through (P.maps part) (P.maps_answer part)
            (⟦<Self as Records>⟧.spoiled_after self.old self.new)) fault es')) }
        ensures needs { HeldNeeds ⟦<G as Meant>⟧.meaning
            (invocation key (A.answers (P.part part self.old.value.now)) true) (H.entries cache.old)
            needs.old needs.new }
        ensures err { OnErr result (Leads (H.entries cache.old) (H.entries cache.new) (λ es es'.
            IsFailed ⟦<G as Meant>⟧.meaning A.Call.touches es
            (invocation key (A.answers (P.part part self.old.value.now)) true)
            (λ W. ⟦<Self as Records>⟧.did self.old self.new (map (P.maps part) W))
            (λ L. ⟦<Self as Records>⟧.breaks_off self.old self.new
            (mapped_pairs (P.maps part) (P.maps_answer part) L))
            (Through (P.maps part) (P.maps_answer part)
            (⟦<Self as Records>⟧.spoiled_after self.old self.new)) es')) }
    {
        let of = self.value.lend(&part);
        let mut sink = MappedSink::new(&mut *self.recording, part);
        let reply = memoized_mut_with(self.alloc, cache, needs, key, of, &mut sink, true)?;
        drop(sink);
        // For the proof: its pairs are reads, and its writes are writes.
        self.recording.reveal_reads_and_writes();
        Ok(reply.output)
    }
}
