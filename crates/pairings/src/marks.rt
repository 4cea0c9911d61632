/// Which tasks are urgent and which processors full: a pairing must contain them.
#[derive(Clone, Copy)]
pub struct Marks {
    pub urgent: [bool; 64],
    pub full: [bool; 16],
}
