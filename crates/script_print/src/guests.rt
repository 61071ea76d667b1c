// What a guest is, as text.
ghost use Rattle.std.specs.Prelude.{◌+◌, ◌≤◌, length};
ghost use Rattle.script_text.specs.Wrote.{Wrote};
ghost use Rattle.script_print.specs.Guest.{dirty_bytes, guest_bytes, dirty_text, guest_text};

use monitor_query::GuestKind;
use script_text::digits::{put, put_hex};

// Nothing where a guest is not dirty.
#[tactic(auto, unfolding(crate::specs::Guest::dirty_text))]
fn put_dirty(out: &mut [u8], at: usize, dirty: bool) -> usize
    requires { at + dirty_bytes ≤ length out.old }
    ensures { Wrote dirty_bytes out.old at out.new result (dirty_text dirty) }
{
    if dirty {
        return put(out, at, b" dirty");
    }
    at
}

// What `guest` prints.
// Stays: the text "1" and no Refusal: `guest_text` says so, and the text is all that is put.
#[tactic(auto, unfolding(crate::specs::Guest::guest_text))]
pub fn put_guest(out: &mut [u8], at: usize, g: GuestKind) -> usize
    requires { at + guest_bytes ≤ length out.old }
    ensures { Wrote guest_bytes out.old at out.new result (guest_text g) }
{
    match g {
        GuestKind::Nobody => put(out, at, b"1"),
        GuestKind::Absent { dirty } => {
            let next = put(out, at, b"none");
            put_dirty(out, next, dirty)
        }
        GuestKind::Present { root, dirty } => {
            let next = put(out, at, b"exists ");
            let after = put_hex(out, next, root);
            put_dirty(out, after, dirty)
        }
    }
}
