// The reply test alone, as a static library for a driver in C that has no use for the adapter.
#![tactic(auto)]

ghost use Rattle.std.specs.Prelude.{◌≡◌};
ghost use Rattle.message.specs.Rule.{reply_rule};

// The reply test on bytes: the rule of a match, 1 to 3, and 0 for none.
#[unsafe(no_mangle)]
pub extern "C" fn cec_reply_match(sent: &[u8], received: &[u8], wanted: u8) -> u8
    ensures { result ≡ reply_rule sent.now received.now wanted }
{
    message::reply::cec_reply_match(sent, received, wanted)
}
