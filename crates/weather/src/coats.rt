//! Which calls ran, and which were answered from the cache.

use crate::coat::{Coat, takes_coat};
use crate::weather::Weather;
use comemo::{CacheData, How, memoized};
use std::test::Fail;

#[test]
fn a_coat_is_kept_whatever_the_wind(rt: HostRuntime) -> Result<(), Fail> {
    let alloc = rt.alloc();
    let mut cache: CacheData<Coat> = CacheData::new(alloc);
    for (degrees, wind, takes, how) in [
        (8, 0, true, How::Stored),
        (8, 50, true, How::Hit),
        (20, 50, false, How::Stored),
    ] {
        let weather = Weather { degrees, wind };
        let reply = memoized(alloc, &mut cache, 10, &weather)?;
        assert_eq!(rt; reply.output, takes);
        assert_eq!(rt; reply.how, how);
        let takes_one = takes_coat(alloc, &mut cache, 10, &weather)?;
        assert_eq!(rt; takes_one, takes);
    }
    Ok(())
}
