// What is asked of the machine and changes nothing: the walks, and what the monitor tells.
// Stays: access and el are numbers, as walk::stage2 and walk::both_stages take them, and any number; and walk_stage2 stands beside
// walk_both, since they call other functions with their own arguments.
ghost use Rattle.std.specs.Prelude.{◌≡◌, true, false};
ghost use Rattle.ledger.specs.Layout.{state_of};
ghost use Rattle.monitor_query.specs.Questions.{guest_told};
ghost use Rattle.script_machine.specs.declared.Reply.TheVariants.{Guest, SetupNeeded};
ghost use Rattle.script_machine.specs.Machine.{RamLent, MachineSound, ram_of, ledger_of, stage2_reply, walk_reply, translate_reply, reply_to};

use super::{Machine, Reply};
use ledger::guest;
use monitor::refusals::Refusal;
use script_language::Question;

impl Machine {
    fn walk_stage2(self, ram: &[u8], root: u64, ipa: u64, access: u64) -> Reply
        requires { RamLent self ram.now }
        ensures { result ≡ stage2_reply self ram.now root ipa access }
    {
        Reply::Walked(walk::stage2(self.ram(ram), self.base, self.frames, root, ipa, access))
    }

    fn walk_both(self, ram: &[u8], root1: u64, root2: u64, va: u64, access: u64, el: u64) -> Reply
        requires { RamLent self ram.now }
        ensures { result ≡ walk_reply self ram.now root1 root2 va access el }
    {
        Reply::Walked(walk::both_stages(
            self.ram(ram),
            self.base,
            self.frames,
            root1,
            root2,
            va,
            access,
            el,
        ))
    }

    // The walk of stage 2 from a guest's root, of a machine that is ready.
    #[tactic(auto, using(crate::proofs::Laws::Based::translated_so), unfolding(crate::specs::Machine::translate_reply))]
    fn translate(self, ram: &[u8], ledger: &[u32], g: u64, ipa: u64, access: u64) -> Reply
        requires sound { MachineSound self ram.now ledger.now }
        requires ready { self.ready ≡ true }
        ensures { result ≡ translate_reply self ram.now ledger.now g ipa access }
    {
        let rows = self.ledger(ledger);
        if guest::exists(rows, g) {
            return Reply::Walked(monitor_query::translation(self.ram(ram), rows, g, ipa, access));
        }
        Reply::Number(u64::from(Refusal::NoGuest))
    }

    // What a guest is, of a machine that is ready.
    fn what_guest(self, ram: &[u8], ledger: &[u32], g: u64) -> Reply
        requires sound { MachineSound self ram.now ledger.now }
        requires ready { self.ready ≡ true }
        ensures { result ≡ Guest (guest_told (state_of (ram_of self ram.now) (ledger_of self ledger.now)) g) }
    {
        Reply::Guest(monitor_query::what_guest(self.ram(ram), self.ledger(ledger), g))
    }

    // What is asked of the ledger is answered where the machine is ready.
    fn if_ready<F: FnOnce() -> Reply>(self, reply: F) -> Reply
        requires { self.ready ≡ true → F.pre reply }
        ensures ready { self.ready ≡ true → F.post reply result }
        ensures not_ready { self.ready ≡ false → result ≡ SetupNeeded }
    {
        if self.ready {
            return reply();
        }
        Reply::SetupNeeded
    }

    // The reply to a question.
    pub(crate) fn reply_to(self, q: Question, ram: &[u8], ledger: &[u32]) -> Reply
        requires { MachineSound self ram.now ledger.now }
        ensures { result ≡ reply_to q self ram.now ledger.now }
    {
        match q {
            Question::PeekWord { address } => self.peek_word(ram, address),
            Question::WalkStage2 { root, ipa, access } => self.walk_stage2(ram, root, ipa, access),
            Question::WalkBoth {
                root1,
                root2,
                va,
                access,
                el,
            } => self.walk_both(ram, root1, root2, va, access, el),
            Question::Translate { guest, ipa, access } => {
                self.if_ready(|| self.translate(ram, ledger, guest, ipa, access))
            }
            Question::Frame { frame } => self.if_ready(|| Reply::Frame(frame)),
            Question::Guest { guest } => self.if_ready(|| self.what_guest(ram, ledger, guest)),
            Question::Ledger => self.if_ready(|| Reply::Ledger),
        }
    }
}
