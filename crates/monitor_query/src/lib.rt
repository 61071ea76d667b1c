// What a host may ask, and nothing is changed: what a frame is, what a guest is, what an address of a guest translates to.
// Stays: RAM and the ledger, and Sound of both, in each contract: C lends two slices to each question (docs/DECISIONS.md, 60).
#![tactic(auto)]

ghost use Rattle.std.specs.Prelude.{◌≡◌, true, ◌+◌, ◌*◌};
ghost use Rattle.ledger.specs.Layout.{first_of, root_of, exists_of, state_of};
ghost use Rattle.ledger.specs.Sound.{Sound};
ghost use Rattle.monitor_query.specs.Questions.{frame_told, share_told, guest_told, translated};

use ledger::frame::Shared;
use ledger::kinds::Kind;
use ledger::{frame, guest, header};
use memory::FRAME_BYTES;
use walk::Answer;

// What a frame is; Outside where there is no such frame. A page is mapped in so many places.
// Stays: Outside and Nobody are no None, since `frame_told` and `guest_told` have them as one kind among the others.
#[derive(Clone, Copy, PartialEq, Eq)]
pub enum FrameKind {
    Outside,
    Monitor,
    Free,
    Table(u64),
    Draining(u64),
    Page { owner: u64, mapped: u64 },
}

// What a guest is, with its root table's physical address; Nobody where there is no such number.
#[derive(Clone, Copy, PartialEq, Eq)]
pub enum GuestKind {
    Nobody,
    Absent { dirty: bool },
    Present { root: u64, dirty: bool },
}

// What frame f is.
#[tactic(auto, unfolding(crate::specs::Questions::frame_told, ledger::specs::Layout::state_in))]
pub fn what_frame(ram: &[u8], ledger: &[u32], f: u64) -> FrameKind
    requires { Sound ram.now ledger.now }
    ensures { result ≡ frame_told (state_of ram.now ledger.now) f }
{
    if header::size(ledger) <= f {
        return FrameKind::Outside;
    }
    let owner = frame::owner(ledger, f);
    match frame::kind(ledger, f) {
        Kind::Monitor => FrameKind::Monitor,
        Kind::Free => FrameKind::Free,
        Kind::Table => FrameKind::Table(owner),
        Kind::Page => FrameKind::Page {
            owner,
            mapped: frame::uses(ledger, f).places,
        },
        Kind::DrainingTable | Kind::DrainingPage => FrameKind::Draining(owner),
    }
}

// What of frame f is shared with guest h: the number of `Shared`.
// Stays: a number, since `share_told` promises the very one that is stored, and Shared holds three.
#[tactic(auto, unfolding(crate::specs::Questions::share_told, ledger::specs::Layout::state_in))]
pub fn shared_with(ram: &[u8], ledger: &[u32], f: u64, h: u64) -> u64
    requires { Sound ram.now ledger.now }
    ensures { result ≡ share_told (state_of ram.now ledger.now) f h }
{
    if f < header::size(ledger) && guest::is_guest(h) {
        frame::share(ledger, f, h)
    } else {
        u64::from(Shared::Nothing)
    }
}

// The physical address of a guest's root table.
#[tactic(auto, using(crate::proofs::Laws::Questions::root_room))]
fn root_address(ram: &[u8], ledger: &[u32], g: u64) -> u64
    requires sound { Sound ram.now ledger.now }
    requires g_value { exists_of ledger.now g ≡ true }
    ensures { result ≡ 4096 * (first_of ledger.now + root_of ledger.now g) }
{
    FRAME_BYTES * (header::first(ledger) + guest::root(ledger, g))
}

// What guest g is.
#[tactic(auto, unfolding(crate::specs::Questions::guest_told, ledger::specs::Layout::state_in))]
pub fn what_guest(ram: &[u8], ledger: &[u32], g: u64) -> GuestKind
    requires { Sound ram.now ledger.now }
    ensures { result ≡ guest_told (state_of ram.now ledger.now) g }
{
    if !guest::is_guest(g) {
        return GuestKind::Nobody;
    }
    let dirty = guest::dirty(ledger, g);
    if guest::exists(ledger, g) {
        let root = root_address(ram, ledger, g);
        GuestKind::Present { root, dirty }
    } else {
        GuestKind::Absent { dirty }
    }
}

// Stage 2 alone from guest g's root: access is 0 to read, 1 to write, 2 to execute. Refused where there is no such guest.
// Stays: access is the number that C passes, and `translated` promises an answer for each.
#[tactic(auto, using(crate::proofs::Laws::Questions::first_room), unfolding(crate::specs::Questions::translated))]
pub fn translation(ram: &[u8], ledger: &[u32], g: u64, ipa: u64, access: u64) -> Answer
    requires { Sound ram.now ledger.now }
    ensures { result ≡ translated ram.now ledger.now g ipa access }
{
    if !guest::exists(ledger, g) {
        return Answer::Refused;
    }
    let base = FRAME_BYTES * header::first(ledger);
    let root = root_address(ram, ledger, g);
    walk::stage2(ram, base, header::size(ledger), root, ipa, access)
}
