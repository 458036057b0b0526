//! Builds that follow the changes of a folder.

use crate::builder::{Builder, complain};
use crate::command::Request;
use anyhow::{Context, Result};
use comemo_site::report::round_line;
use std::rt::Runtime;
use std::sync::Wait;
use std::thread;
use std::thread::Threads;
use std::time::{Duration, Instant};

/// How many seconds pass between two looks at the folder.
const PAUSE: u64 = 1;

/// Builds the pages whenever they change, in so many looks. The status is 1 if a page failed.
pub fn watch<R: Runtime + AllocGlobal + Threads + Wait + Sync>(
    rt: &R,
    request: Request<'_>,
    explains: bool,
    rounds: Option<u64>,
) -> Result<u8> {
    let mut builder = Builder::new(rt, request, explains);
    let mut past = Rounds {
        round: 0,
        is_lost: false,
        has_failed: false,
    };
    let looks = rounds.unwrap_or(u64::MAX);
    for look in 0..looks {
        past.look(rt, &mut builder)?;
        if look < looks - 1 {
            thread::sleep(rt, Duration::from_secs(PAUSE));
        }
    }
    Ok(if past.has_failed { 1 } else { 0 })
}

/// What is known of the rounds so far.
#[derive(Drop)]
struct Rounds {
    /// How many rounds there were.
    round: u64,
    /// Whether the folder could not be read.
    is_lost: bool,
    /// Whether a page failed.
    has_failed: bool,
}

impl Rounds {
    /// Builds what changed, and says how it went. A folder that cannot be read is said once.
    fn look<R: Runtime + AllocGlobal + Threads + Wait + Sync>(
        &mut self,
        rt: &R,
        builder: &mut Builder<'_>,
    ) -> Result<()> {
        let start = Instant::now(rt)?;
        let found = match builder.look(rt) {
            Ok(found) => found,
            Err(error) => {
                if !self.is_lost {
                    self.is_lost = true;
                    self.has_failed = true;
                    complain(rt, format!(in rt.alloc(); "{error:#}")?.as_str())?;
                }
                return Ok(());
            }
        };
        self.is_lost = false;
        if let Some((changed, tally)) = builder.round(rt, found)? {
            let milliseconds = u64::try_from(start.elapsed(rt)?.as_millis()).unwrap_or(u64::MAX);
            self.round = self.round.saturating_add(1);
            let line = round_line(rt.alloc(), self.round, changed, tally, milliseconds)?;
            println!(rt; "{line}").context("standard output")?;
            if builder.summary.failed != 0 {
                self.has_failed = true;
            }
        }
        Ok(())
    }
}
