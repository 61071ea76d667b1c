// What a frame is, as text, and the whole ledger.
ghost use Rattle.std.specs.Prelude.{◌+◌, ◌*◌, ◌<◌, ◌≤◌, length};
ghost use Rattle.script_text.specs.Wrote.{Wrote};
ghost use Rattle.script_text.specs.Digits.{most_digits};
ghost use Rattle.model.specs.State.{guests};
ghost use Rattle.ledger.specs.Layout.{size_of, state_of};
ghost use Rattle.ledger.specs.Sound.{Sound};
ghost use Rattle.ledger.specs.Kinds.{share_code};
ghost use Rattle.monitor_query.specs.Questions.{share_told};
ghost use Rattle.script_print.specs.Frame.{listed_guest_bytes, guest_list_bytes, frame_text_bytes, line_bytes, listed_guest_text, guest_list_to, guest_list_text, page_text, frame_text, line_text, ledger_text};

use ledger::frame::Shared;
use ledger::header;
use monitor_query::{FrameKind, shared_with, what_frame};
use script_text::digits::{put, put_decimal, put_field};

// Guest g in a list; its number has one digit.
#[tactic(auto, using(crate::proofs::Laws::Listing::one_digit), unfolding(crate::specs::Frame::listed_guest_text))]
fn put_listed_guest(out: &mut [u8], at: usize, first: bool, g: u64) -> usize
    requires { (at + (1 + most_digits) ≤ length out.old) × (g < 10) }
    ensures { Wrote listed_guest_bytes out.old at out.new result (listed_guest_text first g) }
{
    if first {
        return put_decimal(out, at, g);
    }
    put_field(out, at, b",", g)
}

// The guests that as much as `least` of frame f is shared with.
#[tactic(auto, unfolding(crate::specs::Frame::guest_list_to))]
fn put_guests(out: &mut [u8], at: usize, ram: &[u8], ledger: &[u32], f: u64, least: Shared) -> usize
    requires sound { Sound ram.now ledger.now }
    requires most_digits_in_bounds { at + guest_list_bytes + most_digits ≤ length out.old }
    ensures { Wrote guest_list_bytes out.old at out.new result
        (guest_list_to (share_code least) (share_told (state_of ram.now ledger.now) f) guests) }
{
    let mut next = at;
    for g in 1..=ledger::GUESTS {
        if u64::from(least) <= shared_with(ram, ledger, f, g) {
            next = put_listed_guest(out, next, next == at, g);
        }
    }
    next
}

// A list of guests, or a dash.
#[tactic(auto, using(std::proofs::lemmas::Bool::Decides::nat_tests), unfolding(crate::specs::Frame::guest_list_text))]
fn put_guest_list(
    out: &mut [u8],
    at: usize,
    ram: &[u8],
    ledger: &[u32],
    f: u64,
    least: Shared,
) -> usize
    requires sound { Sound ram.now ledger.now }
    requires most_digits_in_bounds { at + guest_list_bytes + most_digits ≤ length out.old }
    ensures { Wrote guest_list_bytes out.old at out.new result
        (guest_list_text (share_code least) (share_told (state_of ram.now ledger.now) f)) }
{
    let next = put_guests(out, at, ram, ledger, f, least);
    if next == at {
        return put(out, at, b"-");
    }
    next
}

// What `frame` prints of a page.
#[tactic(auto, unfolding(crate::specs::Frame::page_text))]
fn put_page(
    out: &mut [u8],
    at: usize,
    ram: &[u8],
    ledger: &[u32],
    f: u64,
    owner: u64,
    mapped: u64,
) -> usize
    requires sound { Sound ram.now ledger.now }
    requires frame_text_bytes_in_bounds { at + frame_text_bytes ≤ length out.old }
    ensures { Wrote frame_text_bytes out.old at out.new result
        (page_text owner (share_told (state_of ram.now ledger.now) f) mapped) }
{
    let owned = put_field(out, at, b"page ", owner);
    let readers = put(out, owned, b" readers ");
    let read = put_guest_list(out, readers, ram, ledger, f, Shared::Reading);
    let writers = put(out, read, b" writers ");
    let written = put_guest_list(out, writers, ram, ledger, f, Shared::Writing);
    put_field(out, written, b" mapped ", mapped)
}

// What `frame` prints.
// Stays: the text "4" and no Refusal: `frame_text` says so, and the text is all that is put.
#[tactic(auto, unfolding(crate::specs::Frame::frame_text, crate::specs::Frame::frame_kind_text))]
pub fn put_frame(out: &mut [u8], at: usize, ram: &[u8], ledger: &[u32], f: u64) -> usize
    requires sound { Sound ram.now ledger.now }
    requires frame_text_bytes_in_bounds { at + frame_text_bytes ≤ length out.old }
    ensures { Wrote frame_text_bytes out.old at out.new result
        (frame_text (state_of ram.now ledger.now) f) }
{
    match what_frame(ram, ledger, f) {
        FrameKind::Outside => put(out, at, b"4"),
        FrameKind::Monitor => put(out, at, b"monitor"),
        FrameKind::Free => put(out, at, b"free"),
        FrameKind::Table(g) => put_field(out, at, b"table ", g),
        FrameKind::Draining(g) => put_field(out, at, b"draining ", g),
        FrameKind::Page { owner, mapped } => put_page(out, at, ram, ledger, f, owner, mapped),
    }
}

// A line of `ledger`.
#[tactic(auto, unfolding(crate::specs::Frame::line_text))]
fn put_line(out: &mut [u8], at: usize, ram: &[u8], ledger: &[u32], f: u64) -> usize
    requires sound { Sound ram.now ledger.now }
    requires line_bytes_in_bounds { at + line_bytes ≤ length out.old }
    ensures { Wrote line_bytes out.old at out.new result
        (line_text (state_of ram.now ledger.now) f) }
{
    let numbered = put_decimal(out, at, f);
    let next = put(out, numbered, b" ");
    let end = put_frame(out, next, ram, ledger, f);
    put(out, end, b"\n")
}

// What `ledger` prints.
#[tactic(auto, unfolding(crate::specs::Frame::lines_to, crate::specs::Frame::ledger_text, ledger::specs::Layout::state_in))]
pub fn put_ledger(out: &mut [u8], at: usize, ram: &[u8], ledger: &[u32]) -> usize
    requires sound { Sound ram.now ledger.now }
    requires ledger_in_bounds { at + line_bytes * size_of ledger.now ≤ length out.old }
    ensures { Wrote (line_bytes * size_of ledger.now) out.old at out.new result
        (ledger_text (state_of ram.now ledger.now)) }
{
    let n = header::size(ledger);
    let mut next = at;
    for f in 0..n {
        next = put_line(out, next, ram, ledger, f);
    }
    next
}
