//! What the calls are built on, and what contracts cite. Few users name any of it.

pub use crate::closure::{Does, Record};
pub use crate::function::{Answering, Told};
pub use crate::function_mut::{AnsweringMut, Records, ToldMut, Writes};
pub use crate::known::Unknown;
pub use crate::pending::{Calling, Invoked, Pending};
pub use crate::recursive::Inner;
pub use crate::recursive_mut::{InnerMut, Nesting};
pub use crate::round::Turned;
pub use crate::waiting::Trail;
pub use comemo_base::{CallSequence, InsertError, SipHasher13, Tagged, hash_any};
pub use comemo_cache::{
    Evict, Evictor, Found, Meant, Peeked, Reads, Shared, Step, StepReply, evictors,
    register_evictor,
};
pub use comemo_track::{
    Breaking, CallMap, Hashed, Input, Keyed, KeyedMut, MappedSink, Multi, TrackedMut,
    TrackedMutWith, TrackedWith, Written,
};
pub use comemo_tree::children::{Children, Node};
pub use comemo_tree::{Asks, CallTree, Keep, Settled, TreeOp, TreeReply, Values};
