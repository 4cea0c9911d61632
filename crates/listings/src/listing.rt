// The calls that list.
ghost use Rattle.std.specs.Prelude.{◌≡◌, ℕ, ◌+◌, ◌≤◌, List, ◌++◌};
ghost use Rattle.arrayvec.specs.ArrayString.{array_string_len};
ghost use Rattle.listings.specs.Refusing.{Answered, layout_text, refusal_text, details_text};
ghost use Rattle.templates.specs.Templates.{layout_of};

use crate::layouts::{list_line, list_template};
use crate::pushes::{Line, push_field};
use crate::refusals::{ListRefusal, Refusal};
use builder::{BuildRefusal, Line as SheetLine};
use templates::Template;

// What the refusal says beside its number: the place and the number underneath, 0 where there is none, or the line of the sheet that is too long.
fn push_details(line: &mut Line, refusal: Refusal)
    requires { array_string_len line.old + 48 ≤ 128 }
    ensures text { line.new.bytes ≡ line.old.bytes ++ details_text refusal }
    ensures short { array_string_len line.new ≤ array_string_len line.old + 48 }
{
    match refusal {
        Refusal::File(fault) => {
            push_field(line, " at ", fault.place);
            push_field(line, " by ", fault.underneath().unwrap_or(0));
        }
        Refusal::Build(BuildRefusal::NoPlan(SheetLine::Task(task))) => {
            push_field(line, " task ", task);
        }
        Refusal::Build(BuildRefusal::NoPlan(SheetLine::Processor(processor))) => {
            push_field(line, " processor ", processor);
        }
        _ => {}
    }
}

fn set_refusal(line: &mut Line, refusal: Refusal)
    ensures { line.new.bytes ≡ refusal_text refusal }
{
    line.clear();
    push_field(line, "refused ", refusal.number());
    push_details(line, refusal);
    line.push_str("\n");
}

/// What can be listed: a template, or why there is none.
pub trait Listable {
    /// The bytes of the listing.
    ghost text: { Self → List ℕ };

    // A length beside the output and no part of it: the call is public, and the output is the caller's.
    /// Writes the listing into the first places of the output, and says how long it is.
    fn list(&self, output: &mut [u8]) -> Result<usize, ListRefusal>
        ensures { Answered (text self.now) output.old output.new result };
}

impl Listable for Template {
    ghost text = { λ t. layout_text (layout_of t) };

    fn list(&self, output: &mut [u8]) -> Result<usize, ListRefusal> {
        list_template(self, output).ok_or(ListRefusal::OutputTooShort)
    }
}

impl Listable for Refusal {
    ghost text = { λ r. refusal_text r };

    fn list(&self, output: &mut [u8]) -> Result<usize, ListRefusal> {
        let mut line = Line::new();
        set_refusal(&mut line, *self);
        list_line(&line, output).ok_or(ListRefusal::OutputTooShort)
    }
}
