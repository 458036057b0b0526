//! Recordings: what a run asked and wrote.
ghost use Rattle.std.specs.Prelude.{◌≡◌, ◌↔◌, ◌≤◌, ◌+◌, ◌&&◌, ◌||◌, [], ◌∷◌, ◌++◌, Bool, true, false, length, IsTrue, IsOk, IfOk, OnOk, OnErr, not, is_none};
ghost use Rattle.std.specs.List.{All};
ghost use Rattle.comemo_base.specs.Sequence.{held, absorbed};
ghost use Rattle.comemo_base.specs.Answers.{Agrees};
ghost use Rattle.comemo_track.specs.Recording.{Took, Spoiled, MarkedLate, AgreesBefore};
ghost use Rattle.comemo_track.specs.Writing.{touched, touched_by};
ghost use Rattle.comemo_track.specs.Sending.{sent_pairs, sent_writes};

use crate::track::{Call, Sink, Track};
use comemo_base::CallSequence;
use std::alloc::{AllocError, Global};
use std::marker::Model;

/// A recording of one run of a memoized function: its reads with their answers, each read once, and its writes in
/// order.
///
/// It is incomplete once something that should be recorded was lost, and late once a read came after a write that
/// touches it. Neither an incomplete nor a late recording is stored.
#[derive(Drop)]
pub struct Constraint<C: Call, R> {
    reads: CallSequence<C, R>,
    writes: Vec<C>,
    complete: bool,
    late: bool,
}

impl<C: Call, R> Model for Constraint<C, R> {
    ghost use Rattle.std.specs.Prelude.{◌-◌, vec_len, vec_capacity};
    ghost use Rattle.comemo_track.specs.Recording.{Recording, recording_code, IsRecording};

    ghost Value = { Recording C R };

    ghost coded = { recording_code C.code R.code };

    ghost view = { λ s. record {
      pairs = s.reads.pairs;
      writes = s.writes.items;
      complete = s.complete;
      late = s.late;
      room = vec_capacity s.writes - vec_len s.writes;
    } };

    ghost invariant = { λ s. IsRecording C.eq C.is_write s.reads s.writes.items };
}

impl<C: Call, R> Constraint<C, R> {
    /// An empty recording: complete, and not late. Does not allocate.
    pub fn new(alloc: Global) -> Self
        ensures pairs { result.pairs ≡ [] }
        ensures writes { result.writes ≡ [] }
        ensures complete { result.complete ≡ true }
        ensures late { result.late ≡ false }
    {
        Constraint {
            reads: CallSequence::new(alloc),
            writes: Vec::new(alloc),
            complete: true,
            late: false,
        }
    }

    /// Whether nothing that should be recorded was lost.
    pub fn is_whole(&self) -> bool
        ensures { result ≡ self.now.complete }
    {
        self.complete
    }

    /// Whether a read came after a write that touches it, here or in an absorbed recording.
    pub fn is_late(&self) -> bool
        ensures { result ≡ self.now.late }
    {
        self.late
    }

    /// Makes the recording's invariant known to a proof. Does nothing at run time.
    pub fn reveal_reads_and_writes(&self)
        ensures reads { All (λ p. C.is_write p.0 ≡ false) self.now.pairs }
        ensures writes { All (λ c. C.is_write c ≡ true) self.now.writes }
    {
        let _ = &self.reads;
    }

    /// The recorded reads, as the sequence under which a cache stores them, and the recorded writes.
    pub fn into_parts(self) -> (CallSequence<C, R>, Vec<C>)
        ensures pairs { result.0.pairs ≡ self.pairs }
        ensures writes { result.1.items ≡ self.writes }
        ensures are_reads { All (λ p. C.is_write p.0 ≡ false) self.pairs }
        ensures are_writes { All (λ c. C.is_write c ≡ true) self.writes }
    {
        let Constraint {
            reads,
            writes,
            complete: _,
            late: _,
        } = self;
        (reads, writes)
    }
}

impl<C: Call, R: Drop> Constraint<C, R> {
    /// Appends another recording: the reads whose calls aren't recorded here, and the writes.
    ///
    /// The result is incomplete if either is, and late if either is or an own write touches a read of the other: each
    /// own write is compared with each of those reads. On error this recording is incomplete, and the other is dropped.
    pub fn absorb(&mut self, other: Constraint<C, R>) -> Result<(), AllocError>
        ensures pairs { OnOk result (self.new.pairs ≡ absorbed C.eq self.old.pairs other.pairs) }
        ensures writes { OnOk result (self.new.writes ≡ self.old.writes ++ other.writes) }
        ensures complete { OnOk result (self.new.complete ≡ (self.old.complete && other.complete)) }
        ensures late { OnOk result (self.new.late
            ≡ ((self.old.late || touched C.touches self.old.writes other.pairs) || other.late)) }
        ensures err { OnErr result (Spoiled self.old self.new) }
    {
        let Constraint {
            reads,
            writes,
            complete,
            late,
        } = other;
        let absorbed = self.absorb_parts(reads, writes);
        if absorbed.is_err() {
            self.complete = false;
            return absorbed;
        }
        self.complete = self.complete && complete;
        self.late = self.late || late;
        Ok(())
    }

    /// Appends reads and writes. On error nothing is added.
    fn absorb_parts(
        &mut self,
        reads: CallSequence<C, R>,
        mut writes: Vec<C>,
    ) -> Result<(), AllocError>
        requires reads { All (λ p. C.is_write p.0 ≡ false) reads.pairs }
        requires writes { All (λ c. C.is_write c ≡ true) writes.items }
        ensures ok { OnOk result (Took C.eq C.touches self.old self.new reads.pairs writes.items) }
        ensures err { OnErr result (Took C.eq C.touches self.old self.new [] []) }
    {
        // For the proof: the sequence has each call once.
        reads.reveal_distinct_calls();
        let late = self.late || touch_some(&self.writes, &reads);
        self.writes.reserve(writes.len())?;
        self.reads.absorb(reads)?;
        // Room was made above, so this never fails.
        let Ok(()) = self.writes.append(&mut writes) else {
            unreachable!()
        };
        self.late = late;
        Ok(())
    }
}

/// Whether one of these writes touches a read.
fn touch<C: Call>(writes: &Vec<C>, read: &C) -> bool
    ensures { result ≡ touched_by C.touches writes.now.items read.now }
{
    for write in writes {
        if write.touches(read) {
            return true;
        }
    }
    false
}

/// Whether one of these writes touches a read of a sequence. Compares each write with each read.
fn touch_some<C: Call, R>(writes: &Vec<C>, reads: &CallSequence<C, R>) -> bool
    ensures { result ≡ touched C.touches writes.now.items reads.now.pairs }
{
    for slot in reads.slots() {
        if let Some((call, _)) = slot {
            if touch(writes, call) {
                return true;
            }
        }
    }
    false
}

impl<C: Call, R: Clone + Ord> Constraint<C, R> {
    /// Whether a value returns each recorded answer again. Asks the reads in order, up to the first that differs.
    ///
    /// Fails only if the value does, after equal answers. Writes don't matter.
    pub fn validate<T: Track<Call = C, Answer = R>>(&self, value: &T) -> Result<bool, AllocError>
        ensures ok { IfOk result
            (λ valid. IsTrue valid ↔ Agrees R.eq (T.answers value.now) self.now.pairs) }
        ensures err { OnErr result (AgreesBefore R.eq (T.answers value.now) self.now.pairs) }
    {
        for slot in self.reads.slots() {
            if let Some((call, recorded)) = slot {
                if value.ask(call)? != *recorded {
                    return Ok(false);
                }
            }
        }
        Ok(true)
    }
}

/// Records a read by `CallSequence::insert`, which clones a new call and keeps the first answer. A read that a recorded
/// write touches makes the recording late, even if it is recorded already; each write is asked that.
impl<C: Call, R: Clone + Ord> Sink for Constraint<C, R> {
    type Call = C;

    type Answer = R;

    ghost use Rattle.comemo_track.specs.RecordingLaws.{took_nothing, took_both, took_more, took_keeps, took_held, took_holds, spoiled_held, marked_held};

    ghost took = { Took C.eq C.touches };

    ghost spoils = { Spoiled };

    ghost lates = { MarkedLate };

    ghost holds = { λ s call. held C.eq s.pairs call };

    ghost starts = { took_nothing C.eq C.touches };

    ghost joins = { took_both C.eq C.touches };

    ghost adds = { took_more C.eq C.touches };

    ghost keeps = { took_keeps C.eq C.touches };

    ghost held_again = { took_held C.eq C.touches };

    ghost holds_taken = { took_holds C.eq C.touches };

    ghost spoiled_holds = { spoiled_held C.eq };

    ghost late_holds = { marked_held C.eq };

    ghost room = { λ s. s.room };

    fn emit(&mut self, call: C, answer: Option<R>) -> Result<bool, AllocError>
        requires answered { is_none answer ≡ C.is_write call }
        ensures ok { OnOk result
            (Took C.eq C.touches self.old self.new (sent_pairs call answer) (sent_writes call answer)) }
        ensures new { IfOk result
            (λ new. new ≡ (is_none answer || not (held C.eq self.old.pairs call))) }
        ensures err { OnErr result (Took C.eq C.touches self.old self.new [] []) }
        ensures succeeds { IsTrue (is_none answer) → 1 ≤ self.old.room → IsOk result }
        ensures room { self.old.room ≤ self.new.room + length (sent_writes call answer) }
    {
        match answer {
            Some(answer) => {
                let late = self.late || touch(&self.writes, &call);
                let new = self.reads.insert(call, answer)?;
                self.late = late;
                Ok(new)
            }
            // Only a write has no answer.
            None => {
                self.writes.push(call)?;
                Ok(true)
            }
        }
    }

    fn reserve(&mut self, writes: usize) -> Result<(), AllocError>
        ensures ok { OnOk result (writes ≤ self.new.room) }
        ensures same { Took C.eq C.touches self.old self.new [] [] }
    {
        self.writes.reserve(writes)
    }

    fn spoil(&mut self) {
        self.complete = false;
    }

    fn late(&mut self) {
        self.late = true;
    }
}
