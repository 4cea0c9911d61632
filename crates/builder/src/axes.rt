// A load read line by line. What holds of a line is said once, and serves the tasks and the processors.
ghost use Rattle.std.specs.Prelude.{◌≡◌, ℕ, ◌<◌, ◌≤◌, Some, nat_lt};
ghost use Rattle.sheets.specs.Loads.{Load, task_total};
ghost use Rattle.builder.specs.Lines.{TaskOver};
ghost use Rattle.builder.specs.Lasting.{lasting};

pub(crate) trait Lines {
    // The load whose tasks are the lines.
    ghost load: { Self → Load };

    fn lines(&self) -> usize
        ensures { result ≡ (load self.now).tasks };

    // How many places a line has.
    fn places(&self) -> usize
        ensures is { result ≡ (load self.now).processors }
        ensures few { result ≤ 64 };

    fn frame(&self) -> u32
        ensures { result ≡ (load self.now).frame };

    // That an index is inside is asked by each method, of its own argument; its caller has tested it.
    fn ticks(&self, line: usize, place: usize) -> u32
        requires line { line < (load self.now).tasks }
        requires place { place < (load self.now).processors }
        ensures { result ≡ (load self.now).ticks line place };

    fn total(&self, line: usize) -> u64
        requires { line < (load self.now).tasks }
        ensures { result ≡ task_total (load self.now) line }
    {
        (0..self.places())
            .map(|place| u64::from(self.ticks(line, place)))
            .sum()
    }

    // Whether a line passes the frame.
    fn passes(&self, line: usize) -> bool
        requires { line < (load self.now).tasks }
        ensures { result ≡ nat_lt (load self.now).frame (task_total (load self.now) line) }
    {
        self.total(line) > u64::from(self.frame())
    }

    // The lowest line that passes the frame.
    fn first_over(&self) -> Option<usize>
        ensures { TaskOver (load self.now) result }
    {
        (0..self.lines()).find(|line| self.passes(*line))
    }

    // How long a line may last: its pair's ticks, or its slack where it has no pair.
    fn lasts(&self, line: usize, mate: Option<usize>) -> u32
        requires line { line < (load self.now).tasks }
        requires mates { (place : ℕ) → mate ≡ Some place → place < (load self.now).processors }
        requires fits { task_total (load self.now) line ≤ (load self.now).frame }
        ensures { result ≡ lasting (load self.now) line mate }
    {
        match mate {
            Some(place) => self.ticks(line, place),
            // By `as`: proved to fit, and there is no `From` to a narrower type.
            None => self.frame() - self.total(line) as u32,
        }
    }

    ghost beyond: { (s : Self) (line place : ℕ) → (load s).tasks ≤ line → (load s).ticks line place ≡ 0 };
}
