// Set-up. It counts on nothing that the slices hold, and RAM it only looks at. What caches may keep then is the host's (docs/TRUST.md, 9).
ghost use Rattle.std.specs.Prelude.{◌≡◌, ◌≤◌};
ghost use Rattle.memory.specs.Ram.{most_frames};
ghost use Rattle.model.specs.Operations.{refusal};
ghost use Rattle.monitor_contract.specs.Refusals.{answer_number};
ghost use Rattle.monitor.specs.SetUp.{slices_fit, setting_up, SetUp};

use ledger_free::start;
use monitor_contract::refusals::{Refusal, demand};

// The slices have the lengths that n asks for.
#[tactic(auto, unfolding(crate::specs::SetUp::slices_fit))]
fn slices_fit(ram: &[u8], ledger: &[u32], n: u64) -> bool
    requires { n ≤ most_frames }
    ensures { result ≡ slices_fit n ram.now ledger.now }
{
    ram.len() as u64 == n * memory::FRAME_BYTES && ledger.len() as u64 == ledger::words_for(n)
}

#[tactic(auto, using(crate::proofs::Laws::SetUp::few_enough), unfolding(model::specs::Operations::set_up, model::specs::Operations::check))]
fn check_set_up(ram: &[u8], ledger: &[u32], b: u64, n: u64, k: u64) -> Result<(), Refusal>
    ensures { answer_number result ≡ refusal (setting_up b n k ram.now ledger.now) }
{
    demand(
        memory::ram_fits(b, n) && k < n && slices_fit(ram, ledger, n),
        Refusal::NoFrame,
    )
}

// n frames from physical address b on, of which the first k are the monitor's.
#[tactic(auto, using(crate::proofs::Laws::SetUp::set_up_ready))]
pub fn set_up(ram: &[u8], ledger: &mut [u32], b: u64, n: u64, k: u64) -> Result<(), Refusal>
    ensures { SetUp b n k ram.now ledger.old (answer_number result) ledger.new }
{
    check_set_up(ram, ledger, b, n, k)?;
    start::lay_out(ledger, b, n, k);
    Ok(())
}
