ghost use Rattle.graphs.specs.Covers.{Cover};

use crate::tests::ladders::Ladder;
use graphs::Graph;
use pairings::{Marks, Pairing, PairingRule, UnionRule};
use preferences::{ByNumber, FirstRule};
use std::test::*;

// Three tasks and two processors; task 0 is joined to processor 0 alone.
const STEPS: Ladder = Ladder {
    firsts: 3,
    seconds: 2,
};

const UNMARKED: Marks = Marks {
    urgent: [false; 64],
    full: [false; 16],
};

#[test]
fn both_sides_are_served(rt: HostRuntime) -> Result<(), Fail> {
    let mut marks = UNMARKED;
    marks.urgent[0] = true;
    marks.full[1] = true;
    let mut out = Pairing::idle();
    assert!(rt; UnionRule.pair(&STEPS, &marks, &Pairing::idle(), &mut out));
    assert_eq!(rt; out.task_of(0), Some(0));
    assert!(rt; out.task_of(1).is_some());
    Ok(())
}

#[test]
fn three_urgent_tasks_are_too_many(rt: HostRuntime) -> Result<(), Fail> {
    let marks = Marks {
        urgent: [true; 64],
        ..UNMARKED
    };
    let mut out = Pairing::idle();
    assert!(rt; !UnionRule.pair(&STEPS, &marks, &Pairing::idle(), &mut out));
    Ok(())
}

#[test]
fn a_task_stands_once(rt: HostRuntime) -> Result<(), Fail> {
    let mut row = [None; 16];
    row[3] = Some(5);
    assert!(rt; Pairing::from_row(row).is_some());
    row[7] = Some(5);
    assert!(rt; Pairing::from_row(row).is_none());
    Ok(())
}

#[test]
fn lower_numbers_first(rt: HostRuntime) -> Result<(), Fail> {
    let mut marks = UNMARKED;
    let rule = FirstRule {
        preference: ByNumber,
    };
    let mut out = Pairing::idle();
    assert!(rt; rule.pair(&STEPS, &marks, &Pairing::idle(), &mut out));
    assert_eq!(rt; out.task_of(1), Some(1));
    marks.urgent[2] = true;
    assert!(rt; rule.pair(&STEPS, &marks, &Pairing::idle(), &mut out));
    assert_eq!(rt; out.task_of(0), Some(0));
    assert_eq!(rt; out.task_of(1), Some(2));
    Ok(())
}

// A rule of a user's own, which writes `pair` alone.
struct Forwarded;

impl PairingRule for Forwarded {
    ghost admits = { λ _ g marks before row. Cover g marks row };

    ghost covering = { λ _ g marks before row h. h };

    fn pair<G: Graph>(
        &self,
        graph: &G,
        marks: &Marks,
        before: &Pairing,
        out: &mut Pairing,
    ) -> bool {
        UnionRule.pair(graph, marks, before, out)
    }
}

#[test]
fn a_rule_that_writes_pair_alone_can_be_asked_to_choose(rt: HostRuntime) -> Result<(), Fail> {
    let mut marks = UNMARKED;
    marks.urgent[0] = true;
    let chosen = Forwarded.choose(&STEPS, &marks, &Pairing::idle());
    assert_eq!(rt; chosen.unwrap_or(Pairing::idle()).task_of(0), Some(0));
    marks.urgent = [true; 64];
    assert!(rt; Forwarded.choose(&STEPS, &marks, &Pairing::idle()).is_none());
    Ok(())
}
