// A line is made from its start: words and numbers one after another.
// They are pushed and not printed by `write!`, whose contract says nothing of a line where it errs.
ghost use Rattle.std.specs.Prelude.{◌≡◌, ◌+◌, ◌≤◌, ◌++◌, length};
ghost use Rattle.arrayvec.specs.ArrayString.{array_string_len};
ghost use Rattle.listings.specs.Listing.{entry_text};

use arrayvec::ArrayString;
use itoa::{Buffer, Integer};

// No line is longer.
pub(crate) type Line = ArrayString<128>;

// A number in decimal, without leading zeros.
pub(crate) fn push_number<I: Integer>(line: &mut Line, number: I)
    requires { array_string_len line.old + I.MAX_STR_LEN ≤ 128 }
    ensures text { line.new.bytes ≡ line.old.bytes ++ I.text number }
    ensures short { array_string_len line.new ≤ array_string_len line.old + I.MAX_STR_LEN }
{
    let mut digits = Buffer::new();
    line.push_str(digits.format(number));
}

// A word and a number. Inlined, since a word of known length is copied without a call.
#[inline]
pub(crate) fn push_field<I: Integer>(line: &mut Line, word: &str, number: I)
    requires { array_string_len line.old + length word.now + I.MAX_STR_LEN ≤ 128 }
    ensures text { line.new.bytes ≡ line.old.bytes ++ (word.now ++ I.text number) }
    ensures short { array_string_len line.new ≤ array_string_len line.old + length word.now + I.MAX_STR_LEN }
{
    line.push_str(word);
    push_number(line, number);
}

// A blank, and the task or the sign of an idle processor: at most four bytes.
pub(crate) fn push_entry(line: &mut Line, entry: Option<u8>)
    requires { array_string_len line.old + 4 ≤ 128 }
    ensures text { line.new.bytes ≡ line.old.bytes ++ entry_text entry }
    ensures short { array_string_len line.new ≤ array_string_len line.old + 4 }
{
    match entry {
        Some(task) => push_field(line, " ", task),
        None => line.push_str(" -"),
    }
}
