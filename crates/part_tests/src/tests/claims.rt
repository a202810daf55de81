//! Roots drawn by two seats.

use root_claims::{Claim, Claims};
use std::test::Fail;

#[test]
fn each_root_is_drawn_and_then_the_end(rt: HostRuntime) -> Result<(), Fail> {
    let (claims, mut one) = Claims::new(rt.alloc(), 0, 2, 2)?;
    let mut two = claims.split(&mut one, 0);
    assert_eq!(rt; claims.claim(&mut one), Claim::Root(0));
    assert_eq!(rt; claims.claim(&mut two), Claim::Root(1));
    assert_eq!(rt; claims.claim(&mut one), Claim::End);
    claims.join(&mut one, two);
    assert_eq!(rt; one.left(), 1);
    assert_eq!(rt; claims.settle(&mut one), 2);
    assert_eq!(rt; claims.close(one), 2);
    Ok(())
}
