// Time passes, and ends waits.
#![tactic(auto)]

ghost use Rattle.std.specs.Prelude.{◌≡◌};
ghost use Rattle.parts.specs.Parts.{state_of};
ghost use Rattle.rules.specs.Call.{finish, done};
ghost use Rattle.rules.specs.Time.{do_time};

use entry::Entry;
use parts::Parts;

// Each wait with no more left than that ends by an entry for its owner, with the sent length, bytes and time and the opcode wanted, least time left first, oldest first where equal. Others are reduced.
pub fn time(parts: &mut Parts, ms: u32)
    ensures { finish done (state_of parts.new) ≡ do_time (state_of parts.old) ms }
{
    if parts.waits.count() == 0 {
        return;
    }
    while let Some(wait) = parts.waits.take_due(ms) {
        parts.deliver(
            wait.owner,
            Entry::timed_out(wait.sequence, wait.sent, wait.reply, wait.tx_ts),
        );
    }
    parts.waits = parts.waits.reduced(ms);
}
