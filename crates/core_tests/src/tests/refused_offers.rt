//! A door that refuses an offer.

use crate::tests::servings::Serving;
use mio_loops::Served;
use std::alloc::Global;
use test_doubles::FaultyReader;

// The second of two offers is refused: the connection leaves, and the next one, which has its token and its reader,
// begins with that offer.
fn offers_again(serving: &mut Serving<FaultyReader<'_>>) -> bool {
    let is_refused = serving.serve() == Some(Served::Refused);
    let is_left = !serving.is_held() && serving.has_offered("a");
    let is_followed = serving.is_followed(FaultyReader::new(b"c 1 2\n", &[]));
    let is_read = serving.serve() == Some(Served::Ended);
    is_refused && is_left && is_followed && is_read && serving.has_offered("abc")
}

fn is_offered_again(alloc: Global) -> Option<bool> {
    let mut serving = Serving::new(alloc, FaultyReader::new(b"a 1 2\nb 1 2\n", &[]), 2)?;
    let is_offered = offers_again(&mut serving);
    drop(serving);
    Some(is_offered)
}

#[test]
fn a_refused_offer_is_made_by_the_next_connection(rt: HostRuntime) {
    assert!(rt; is_offered_again(rt.alloc()) == Some(true));
}
