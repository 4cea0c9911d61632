ghost use Rattle.preferences.specs.Numbers.{by_number, number_preferring};

use crate::preference::Preference;

/// The task with the lower number first.
#[derive(Clone, Copy)]
pub struct ByNumber;

impl Preference for ByNumber {
    ghost order = { λ _. by_number };

    ghost preferring = { λ _. number_preferring };

    fn comes_before(&self, _processor: usize, _had: Option<u8>, a: usize, b: usize) -> bool {
        a < b && b < 64
    }
}
