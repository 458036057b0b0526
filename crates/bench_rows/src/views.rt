//! The row of a `Tracked`, which keeps answers.

use crate::calls::gives_text;
use crate::place::{Place, PlaceAnswer, PlaceCall};
use crate::places::{AnySaid, end};
use comemo::{Begun, CacheData, Constraint, Fault, How, Reply, Top, Track, Tracked, begin};
use std::alloc::{AllocError, Global};

/// The text for a place: where it is and, for the fifth only, how it is set.
fn said_of(
    alloc: Global,
    view: &mut Tracked<'_, Place>,
    recording: &mut Constraint<PlaceCall, PlaceAnswer>,
) -> Result<String, AllocError> {
    let PlaceAnswer::At(location) = view.ask(PlaceCall::Location, recording)? else {
        return Err(AllocError);
    };
    if location != 5 {
        return format!(in alloc; "Location: {location}");
    }
    let PlaceAnswer::Set(styles) = view.ask(PlaceCall::Styles, recording)? else {
        return Err(AllocError);
    };
    format!(in alloc; "Twenty has {styles}")
}

/// Calls the function of a place through a view, which both the look-up and the run ask.
fn contextual(
    alloc: Global,
    cache: &mut CacheData<AnySaid>,
    view: &mut Tracked<'_, Place>,
) -> Result<Reply<String>, Fault> {
    match begin(alloc, cache, view, &mut Top::new(), true)? {
        Begun::Hit(output) => Ok(Reply {
            output,
            how: How::Hit,
        }),
        Begun::Run(mut pending) => {
            let text = said_of(alloc, view, pending.recording());
            end(pending, cache, &mut Top::new(), text)
        }
    }
}

/// Whether a call at the fifth place returns its text, and came about like this.
fn says(
    alloc: Global,
    cache: &mut CacheData<AnySaid>,
    view: &mut Tracked<'_, Place>,
    how: How,
) -> bool {
    gives_text(contextual(alloc, cache, view), "Twenty has styles", how)
}

/// Whether three calls through one view ask the value each call once, and return the same.
pub(crate) fn a_view_asks_once(alloc: Global) -> bool {
    let Ok(place) = Place::at(alloc, 5) else {
        return false;
    };
    let mut cache = CacheData::new(alloc);
    let mut view = place.track(alloc);
    let first = says(alloc, &mut cache, &mut view, How::Stored);
    let second = says(alloc, &mut cache, &mut view, How::Hit);
    let third = says(alloc, &mut cache, &mut view, How::Hit);
    first && second && third && place.asked_each() == (1, 1)
}
