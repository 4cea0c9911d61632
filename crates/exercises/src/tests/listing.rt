use crate::tests::slots::slot;
use listings::{ListRefusal, Listable};
use std::test::*;
use templates::Template;

fn two_slots() -> Template {
    let first = slot(5, &[Some(0), Some(1)]);
    let second = slot(5, &[None, Some(0), Some(1)]);
    let mut template = Template::blank();
    let _ = template.adopt(2, 3, 10, &[first, second]);
    template
}

#[test]
fn later_places_are_left(rt: HostRuntime) -> Result<(), Fail> {
    let mut output = [7; 56];
    assert_eq!(rt; two_slots().list(&mut output), Ok(54));
    assert!(rt;
        output[..] == b"frame 10 tasks 2 processors 3 slots 2\n5 0 1 -\n5 - 0 1\n\x07\x07"[..]
    );
    Ok(())
}

#[test]
fn a_short_output_is_refused_and_left(rt: HostRuntime) -> Result<(), Fail> {
    let mut output = [7; 53];
    assert_eq!(rt;
        two_slots().list(&mut output),
        Err(ListRefusal::OutputTooShort)
    );
    assert!(rt; output[..] == [7; 53][..]);
    Ok(())
}
