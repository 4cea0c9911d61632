use builder::Slot;
use drafts::list_draft;
use std::alloc::{AllocError, Global};
use std::array;
use std::test::*;
use templates::Template;

// Two tasks on three processors, in a frame of ten ticks.
const TWO_ON_THREE: &[u8; 36] =
    b"\x01\x02\x03\x00\x00\x00\x0A\x03\x00\x00\x00\x00\x00\x05\x03\x00\x01\x00\x00\x00\x05\x03\x01\x01\x00\x00\x00\x05\x03\x01\x02\x00\x00\x00\x05\x06";

const IDLE: Slot = Slot {
    ticks: 0,
    row: [None; 16],
};

// A record by the byte of its kind: a test writes the bytes of the format, and the reader's kinds are its own.
fn push_record(
    file: &mut Vec<u8>,
    kind: u8,
    first: u8,
    second: u8,
    number: u32,
) -> Result<(), AllocError> {
    file.extend_from_slice(&[kind, first, second])?;
    file.extend_from_slice(&number.to_be_bytes())
}

fn sheet_file(
    heap: Global,
    tasks: u8,
    processors: u8,
    frame: u32,
    loads: &[(u8, u8, u32)],
) -> Result<Vec<u8>, AllocError> {
    let mut file = Vec::new(heap);
    push_record(&mut file, 0x01, tasks, processors, frame)?;
    for (task, processor, ticks) in loads {
        push_record(&mut file, 0x03, *task, *processor, *ticks)?;
    }
    file.push(0x06)?;
    Ok(file)
}

fn lists_in(rt: &HostRuntime, room: &mut [Slot], file: &[u8], wanted: &[u8]) -> Result<(), Fail> {
    let mut template = Template::blank();
    let mut output = vec![in rt.alloc(); 0u8; 65_536]?;
    let length = list_draft(file, room, &mut template, &mut output)?;
    if length > output.len() {
        return Err("longer than the output".into());
    }
    if &output[..length] != wanted {
        return Err("not the listing wanted".into());
    }
    Ok(())
}

fn lists(rt: &HostRuntime, file: &[u8], wanted: &[u8]) -> Result<(), Fail> {
    let mut room = vec![in rt.alloc(); IDLE; 1104]?;
    lists_in(rt, &mut room, file, wanted)
}

#[test]
fn two_tasks_on_three_processors(rt: HostRuntime) -> Result<(), Fail> {
    lists(
        &rt,
        TWO_ON_THREE,
        b"frame 10 tasks 2 processors 3 slots 2\n5 0 1 -\n5 - 0 1\n",
    )
}

#[test]
fn the_blank_sheet_is_one_idle_slot(rt: HostRuntime) -> Result<(), Fail> {
    let file = sheet_file(rt.alloc(), 1, 1, 1, &[])?;
    lists(&rt, &file, b"frame 1 tasks 1 processors 1 slots 1\n1 -\n")
}

#[test]
fn the_rest_of_the_frame_is_idle(rt: HostRuntime) -> Result<(), Fail> {
    let file = sheet_file(rt.alloc(), 2, 2, 8, &[(0, 0, 3), (1, 1, 5)])?;
    lists(
        &rt,
        &file,
        b"frame 8 tasks 2 processors 2 slots 3\n3 0 1\n2 - 1\n3 - -\n",
    )
}

#[test]
fn a_task_fills_the_frame_or_passes_it(rt: HostRuntime) -> Result<(), Fail> {
    let fits = sheet_file(rt.alloc(), 1, 2, 11, &[(0, 0, 6), (0, 1, 5)])?;
    lists(
        &rt,
        &fits,
        b"frame 11 tasks 1 processors 2 slots 2\n6 0 -\n5 - 0\n",
    )?;
    let passes = sheet_file(rt.alloc(), 1, 2, 10, &[(0, 0, 6), (0, 1, 5)])?;
    lists(&rt, &passes, b"refused 7 task 0\n")
}

#[test]
fn a_processor_fills_the_frame_or_passes_it(rt: HostRuntime) -> Result<(), Fail> {
    let fits = sheet_file(rt.alloc(), 2, 1, 12, &[(0, 0, 6), (1, 0, 6)])?;
    lists(
        &rt,
        &fits,
        b"frame 12 tasks 2 processors 1 slots 2\n6 0\n6 1\n",
    )?;
    let passes = sheet_file(rt.alloc(), 2, 1, 11, &[(0, 0, 6), (1, 0, 6)])?;
    lists(&rt, &passes, b"refused 7 processor 0\n")
}

#[test]
fn faults_name_their_place_and_what_is_underneath(rt: HostRuntime) -> Result<(), Fail> {
    lists(&rt, b"", b"refused 21 at 0 by 0\n")?;
    let no_task = sheet_file(
        rt.alloc(),
        0,
        3,
        10,
        &[(0, 0, 5), (0, 1, 5), (1, 1, 5), (1, 2, 5)],
    )?;
    lists(&rt, &no_task, b"refused 25 at 0 by 1\n")?;
    let twice = sheet_file(
        rt.alloc(),
        2,
        3,
        10,
        &[(0, 0, 5), (0, 0, 5), (0, 1, 5), (1, 1, 5), (1, 2, 5)],
    )?;
    lists(&rt, &twice, b"refused 24 at 14 by 0\n")
}

#[test]
fn a_short_room_is_refused_and_an_ample_one_is_not(rt: HostRuntime) -> Result<(), Fail> {
    lists_in(&rt, &mut [IDLE; 8], TWO_ON_THREE, b"refused 8\n")?;
    lists_in(
        &rt,
        &mut [IDLE; 9],
        TWO_ON_THREE,
        b"frame 10 tasks 2 processors 3 slots 2\n5 0 1 -\n5 - 0 1\n",
    )
}

// One tick for each of 1,024 pairs.
fn full_file(heap: Global) -> Result<Vec<u8>, AllocError> {
    // By `as`: proved to fit, and there is no `From` to a narrower type.
    let loads: [(u8, u8, u32); 1024] = array::from_fn(|pair| (
        (pair / 16) as u8,
        (pair % 16) as u8,
        1,
    ));
    sheet_file(heap, 64, 16, 64, &loads)
}

// The ticks that a pair has in a list of slots.
fn ticks_of(slots: &[Slot], task: u8, processor: usize) -> u64 {
    slots
        .iter()
        .filter(|slot| slot.row.get(processor) == Some(&Some(task)))
        .fold(
            0,
            |ticks: u64, slot| ticks.wrapping_add(u64::from(slot.ticks)),
        )
}

#[test]
fn a_full_sheet_gives_each_pair_its_tick(rt: HostRuntime) -> Result<(), Fail> {
    let file = full_file(rt.alloc())?;
    let mut room = vec![in rt.alloc(); IDLE; 1104]?;
    let mut template = Template::blank();
    let mut output = vec![in rt.alloc(); 0u8; 65_536]?;
    let _length = list_draft(&file, &mut room, &mut template, &mut output)?;
    assert!(rt; output.starts_with(b"frame 64 tasks 64 processors 16 slots 64\n"));
    for task in 0..64u8 {
        for processor in 0..16 {
            assert_eq!(rt; ticks_of(template.slots(), task, processor), 1);
        }
    }
    Ok(())
}
