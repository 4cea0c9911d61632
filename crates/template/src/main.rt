// Reads a sheet file from standard input and prints the listing of its template, or why there is none.
#![tactic(auto)]

use anyhow::anyhow;
use builder::Slot;
use drafts::list_draft;
use std::io::{Read, Write};
use templates::Template;

const FILE_BYTES: u64 = 65_536;

// The program's own choice: as many slots as a template may have.
const ROOM: usize = 1_104;
// The longest listing has 65,187 bytes.
const OUTPUT_BYTES: usize = 65_536;

fn main(rt: HostRuntime) -> anyhow::Result<()> {
    let mut file = Vec::new(rt.alloc());
    rt.stdin().take(FILE_BYTES).read_to_end(&mut file)?;
    let idle = Slot {
        ticks: 0,
        row: [None; 16],
    };
    let mut room = vec![in rt.alloc(); idle; ROOM]?;
    let mut template = Template::blank();
    let mut output = vec![in rt.alloc(); 0u8; OUTPUT_BYTES]?;
    let Ok(length) = list_draft(&file, &mut room, &mut template, &mut output) else {
        return Err(anyhow!("the listing is longer than its room"));
    };
    rt.stdout().write_all(&output[..length])?;
    Ok(())
}
