use crate::tests::slots::slot;
use builder::Slot;
use std::test::*;
use templates::Template;

// The number of the refusal, unless the slots are adopted.
fn refused(tasks: usize, processors: usize, frame: u32, slots: &[Slot]) -> Option<u8> {
    let adopted = Template::blank().adopt(tasks, processors, frame, slots);
    adopted.err().map(|refusal| refusal.number())
}

#[test]
fn blank_is_one_idle_tick(rt: HostRuntime) -> Result<(), Fail> {
    let template = Template::blank();
    assert_eq!(rt; template.tasks(), 1);
    assert_eq!(rt; template.processors(), 1);
    assert_eq!(rt; template.frame(), 1);
    assert_eq!(rt; template.slots().len(), 1);
    Ok(())
}

#[test]
fn two_slots_are_adopted(rt: HostRuntime) -> Result<(), Fail> {
    let slots = [slot(2, &[Some(0), Some(1)]), slot(3, &[Some(1)])];
    let mut template = Template::blank();
    assert!(rt; template.adopt(2, 2, 5, &slots).is_ok());
    assert_eq!(rt; template.frame(), 5);
    let [first, second] = template.slots() else {
        return Err("not two slots".into());
    };
    assert_eq!(rt; first.ticks, 2);
    assert_eq!(rt; second.ticks, 3);
    assert_eq!(rt; second.row[0], Some(1));
    Ok(())
}

#[test]
fn the_first_question_that_fails_answers(rt: HostRuntime) -> Result<(), Fail> {
    // Tasks, processors and frame; the ticks of one slot, and its tasks; the number of the refusal.
    let cases = [
        (0, 0, 0, 1, None, None, Some(1)),
        (65, 17, 0, 1, None, None, Some(1)),
        (64, 17, 0, 1, None, None, Some(2)),
        (64, 16, 0, 1, None, None, Some(3)),
        (64, 16, 1_000_000_001, 1, None, None, Some(3)),
        (2, 2, 5, 0, Some(2), None, Some(10)),
        (2, 2, 5, 6, None, None, Some(10)),
        (2, 2, 5, 4, Some(2), None, Some(11)),
        (2, 1, 5, 4, None, Some(1), Some(11)),
        (2, 2, 5, 4, Some(1), Some(1), Some(11)),
        (2, 2, 5, 4, Some(0), Some(1), Some(12)),
        (2, 2, 5, 5, Some(0), Some(1), None),
    ];
    for (tasks, processors, frame, ticks, first, second, number) in cases {
        assert_eq!(rt;
            refused(tasks, processors, frame, &[slot(ticks, &[first, second])]),
            number
        );
    }
    Ok(())
}

#[test]
fn slots_are_counted(rt: HostRuntime) -> Result<(), Fail> {
    let slots = [slot(1, &[Some(0)]); 1105];
    assert_eq!(rt; refused(1, 1, 1104, &slots[..1104]), None);
    assert_eq!(rt; refused(1, 1, 1105, &slots), Some(9));
    Ok(())
}
