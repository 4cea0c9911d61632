ghost use Rattle.std.specs.Prelude.{◌==◌};

use crate::tests::ladders::Ladder;
use graphs::{Graph, search};
use std::test::*;

// Every node is joined to node 0 alone.
struct Star;

impl Graph for Star {
    ghost shape = { λ _. record { firsts = 3; seconds = 2; joined = λ a b. (b == 0) } };

    fn firsts(&self) -> usize {
        3
    }

    fn seconds(&self) -> usize {
        2
    }

    fn joins(&self, _a: usize, b: usize) -> bool {
        b == 0
    }
}

#[test]
fn all_of_a_ladder(rt: HostRuntime) -> Result<(), Fail> {
    let ladder = Ladder {
        firsts: 64,
        seconds: 64,
    };
    let row = search(&ladder, &[true; 64]).ok_or("no matching")?;
    assert_eq!(rt; row[0], Some(0));
    assert_eq!(rt; row[63], Some(63));
    Ok(())
}

#[test]
fn one_of_a_star(rt: HostRuntime) -> Result<(), Fail> {
    let mut marked = [false; 64];
    marked[1] = true;
    let row = search(&Star, &marked).ok_or("no matching")?;
    assert_eq!(rt; row[0], Some(1));
    marked[2] = true;
    assert!(rt; search(&Star, &marked).is_none());
    Ok(())
}
