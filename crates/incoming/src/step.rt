// Parts of the steps of a message from the wire.
ghost use Rattle.std.specs.Prelude.{◌≡◌};
ghost use Rattle.handles.specs.Roles.{handles_of};
ghost use Rattle.incoming.specs.Steps.{entry_by_rule, noted_at, receivers_of};

use copies::Receivers;
use entry::Entry;
use handles::Handles;
use message::Message;
use message::reply::Rule;
use wait::Wait;

// A Feature Abort is a reply too, with a bit of its own in the status.
pub fn reply_entry(rule: Rule, wait: Wait, message: Message, ts: u64) -> Entry
    ensures { result ≡ entry_by_rule rule wait message ts }
{
    match rule {
        Rule::FeatureAbort => Entry::feature_abort_reply(wait.sequence, message, wait.tx_ts, ts),
        _ => Entry::reply(wait.sequence, message, wait.tx_ts, ts),
    }
}

// The noted addresses with the one that an initiator reports.
pub fn noted(mut noted: [u16; 15], message: Message) -> [u16; 15]
    ensures { result ≡ noted_at noted message }
{
    let from = message.initiator() as usize;
    if from < 15 {
        noted[from] = message.first_address();
    }
    noted
}

// Who gets copies: nobody, if there are to be none or no handle is of the kind.
pub fn receivers(copied: bool, handles: Handles, kind: Receivers) -> Option<Receivers>
    ensures { result ≡ receivers_of copied (handles_of handles) kind }
{
    (copied & copies::any_receiver(handles, Some(kind))).then_some(kind)
}
