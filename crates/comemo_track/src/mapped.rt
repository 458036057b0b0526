//! Sinks that rename calls and send them on.
ghost use Rattle.std.specs.Prelude.{◌≡◌, ◌≤◌, ◌+◌, ◌||◌, [], List, false, not, is_none, length, IsTrue, IsOk, IfOk, OnOk, OnErr, map, refl};
ghost use Rattle.std.proofs.Common.{◌∙◌};
ghost use Rattle.comemo_track.specs.Mapped.{Through};
ghost use Rattle.comemo_track.specs.Sending.{Asks, sent_pairs, sent_writes};

use crate::track::{Call, Sink, Track, View};
use std::alloc::AllocError;

/// Renames calls and answers.
///
/// Different calls get different names, and so do different answers. Reads stay reads, and writes stay writes that
/// touch the same reads.
pub trait CallMap {
    /// The calls that are sent.
    type From: Call;

    /// The calls that they become.
    type To: Call;

    /// The answers that are sent.
    type FromAnswer: Clone + Ord;

    /// The answers that they become.
    type ToAnswer: Clone + Ord;

    // what a call becomes
    ghost maps: { Self → Self.From → Self.To };

    // what an answer becomes
    ghost maps_answer: { Self → Self.FromAnswer → Self.ToAnswer };

    /// What a call becomes. Never fails.
    fn map(&self, call: Self::From) -> Self::To
        ensures { result ≡ maps self.now call };

    /// What an answer becomes. Never fails.
    fn map_answer(&self, answer: Self::FromAnswer) -> Self::ToAnswer
        ensures { result ≡ maps_answer self.now answer };

    // reads become reads and writes become writes
    ghost same_kind: { (s : Self) (call : Self.From)
        → Self.To.is_write (maps s call) ≡ Self.From.is_write call };

    // a write touches a read exactly if their images do
    ghost same_touch: { (s : Self) (x y : Self.From)
        → Self.To.touches (maps s x) (maps s y) ≡ Self.From.touches x y };

    // calls are equal exactly if their images are
    ghost apart: { (s : Self) (x y : Self.From)
        → Self.To.eq (maps s x) (maps s y) ≡ Self.From.eq x y };

    // answers are equal exactly if their images are
    ghost answers_apart: { (s : Self) (x y : Self.FromAnswer)
        → Self.ToAnswer.eq (maps_answer s x) (maps_answer s y) ≡ Self.FromAnswer.eq x y };
}

/// A sink that renames each call and its answer, and sends them to another sink. Fails if that does.
///
/// Once it is dropped, the other sink is known to hold what was sent.
pub struct MappedSink<'a, S, M> {
    /// The sink to which calls are sent.
    pub sink: &'a mut S,
    /// What renames calls and answers.
    pub map: M,
}

impl<'a, S, M> MappedSink<'a, S, M> {
    /// A sink that sends to `sink` by `map`. Does not allocate.
    pub fn new(sink: &'a mut S, map: M) -> Self
        ensures same_reference { result.sink.ghost_name ≡ sink.entry.ghost_name }
        ensures value { result.sink.now ≡ sink.old }
        ensures map { result.map ≡ map }
    {
        MappedSink { sink, map }
    }
}

impl<'a, S, M: Drop> Drop for MappedSink<'a, S, M> {
    fn drop(self)
        ensures { self.exit.0.now ≡ self.entry.sink.now }
    {
        let MappedSink { sink: _, map } = self;
        drop(map);
    }
}

impl<'a, S: Sink<Call = M::To, Answer = M::ToAnswer>, M: CallMap> Sink for MappedSink<'a, S, M> {
    type Call = M::From;

    type Answer = M::FromAnswer;

    ghost use Rattle.comemo_track.specs.Mapped.{MapsTook, MapsSpoils, MapsLates};
    ghost use Rattle.comemo_track.specs.MappedLaws.{maps_nothing, maps_both, maps_more, maps_keeps, maps_held, maps_holds, maps_spoiled, maps_marked};

    ghost took = { MapsTook S.took M.maps M.maps_answer };

    ghost spoils = { MapsSpoils S.spoils };

    ghost lates = { MapsLates S.lates };

    ghost holds = { λ s call. S.holds s.sink.now (M.maps s.map call) };

    ghost starts = { maps_nothing S.starts };

    ghost joins = { maps_both S.joins };

    ghost adds = { maps_more S.adds };

    ghost keeps = { maps_keeps S.keeps };

    ghost held_again = { maps_held S.held_again };

    ghost holds_taken = { maps_holds M.From.eq M.To.eq M.apart S.holds_taken };

    ghost spoiled_holds = { maps_spoiled M.maps S.spoiled_holds };

    ghost late_holds = { maps_marked M.maps S.late_holds };

    ghost room = { λ s. S.room s.sink.now };

    fn emit(&mut self, call: M::From, answer: Option<M::FromAnswer>) -> Result<bool, AllocError>
        requires answered { is_none answer ≡ M.From.is_write call }
        ensures ok { OnOk result (MapsTook S.took M.maps M.maps_answer self.old self.new
            (sent_pairs call answer) (sent_writes call answer)) }
        ensures new { IfOk result
            (λ new. new ≡ (is_none answer
            || not (S.holds self.old.sink.now (M.maps self.old.map call)))) }
        ensures err { OnErr result
            (MapsTook S.took M.maps M.maps_answer self.old self.new [] []) }
        ensures succeeds { IsTrue (is_none answer) → 1 ≤ S.room self.old.sink.now → IsOk result }
        ensures room { S.room self.old.sink.now
            ≤ S.room self.new.sink.now + length (sent_writes call answer) }
    {
        let call = self.map.map(call);
        let answer = match answer {
            Some(answer) => Some(self.map.map_answer(answer)),
            None => None,
        };
        self.sink.emit(call, answer)
    }

    fn reserve(&mut self, writes: usize) -> Result<(), AllocError>
        ensures ok { OnOk result (writes ≤ S.room self.new.sink.now) }
        ensures same { MapsTook S.took M.maps M.maps_answer self.old self.new [] [] }
    {
        self.sink.reserve(writes)
    }

    fn spoil(&mut self) {
        self.sink.spoil();
    }

    fn late(&mut self) {
        self.sink.late();
    }

    fn keeps_nothing(&self) -> bool {
        self.sink.keeps_nothing()
    }
}

impl<'a, T: Track> View<'a, T> {
    /// As `ask`, through a map: asks the value a read, and sends the renamed call and answer to a sink.
    pub fn ask_through<
        M: CallMap<From = T::Call, FromAnswer = T::Answer> + Drop,
        S: Sink<Call = M::To, Answer = M::ToAnswer>,
    >(&mut self, call: T::Call, map: M, sink: &mut S) -> Result<T::Answer, AllocError>
        requires { T.Call.is_write call ≡ false }
        ensures ok { IfOk result (λ answer. Asks T.Answer.eq (T.answers self.old) call answer
            (Through (M.maps map) (M.maps_answer map) (S.took sink.old sink.new))) }
        ensures err { OnErr result (S.took sink.old sink.new [] []) }
        ensures same { self.new ≡ self.old }
    {
        let mut mapped = MappedSink::new(sink, map);
        self.ask(call, &mut mapped)
    }
}
