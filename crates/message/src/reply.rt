// The reply test, on messages and on byte slices.
ghost use Rattle.std.specs.Prelude.{◌≡◌, get_or};
ghost use Rattle.message.specs.Message.{contents};
ghost use Rattle.message.specs.Prefix.{answer_rule, prefix_of, prefix_rule};
ghost use Rattle.message.specs.Reply.{has_opcode, from_destination, to_initiator, aborts_sent, is_wanted, is_arc_report, is_arc_pair};
ghost use Rattle.message.specs.Rule.{first_rule, may_match, reply_rule, rule_number};

use crate::Message;
use constants::{
    CEC_LOG_ADDR_BROADCAST, CEC_MSG_FEATURE_ABORT, CEC_MSG_INITIATE_ARC,
    CEC_MSG_REPORT_ARC_INITIATED, CEC_MSG_REPORT_ARC_TERMINATED,
};

// The rule by which a message is a reply: the first that holds.
#[derive(Clone, Copy, Debug, PartialEq, Eq)]
pub enum Rule {
    FeatureAbort,
    WantedOpcode,
    ArcPair,
}

// Its number for C.
pub const RULE_NONE: u8 = 0;

pub const RULE_FEATURE_ABORT: u8 = 1;

pub const RULE_WANTED_OPCODE: u8 = 2;

pub const RULE_ARC_PAIR: u8 = 3;

fn has_opcode(length: usize) -> bool
    ensures { result ≡ has_opcode length }
{
    2 <= length && length <= 16
}

fn from_destination(sent: u8, came: u8) -> bool
    ensures { result ≡ from_destination sent came }
{
    came / 16 == sent % 16 || sent % 16 == CEC_LOG_ADDR_BROADCAST
}

fn to_initiator(sent: u8, came: u8) -> bool
    ensures { result ≡ to_initiator sent came }
{
    came % 16 == sent / 16 || came % 16 == CEC_LOG_ADDR_BROADCAST
}

fn aborts_sent(sent: u8, came: u8, length: usize, third: u8) -> bool
    ensures { result ≡ aborts_sent sent came length third }
{
    came == CEC_MSG_FEATURE_ABORT && 3 <= length && third == sent
}

fn is_wanted(came: u8, wanted: u8) -> bool
    ensures { result ≡ is_wanted came wanted }
{
    came != CEC_MSG_FEATURE_ABORT && came == wanted
}

fn is_arc_report(code: u8) -> bool
    ensures { result ≡ is_arc_report code }
{
    code == CEC_MSG_REPORT_ARC_INITIATED || code == CEC_MSG_REPORT_ARC_TERMINATED
}

fn is_arc_pair(sent: u8, came: u8, wanted: u8) -> bool
    ensures { result ≡ is_arc_pair sent came wanted }
{
    sent == CEC_MSG_INITIATE_ARC && is_arc_report(wanted) && is_arc_report(came)
}

// 0 where there is no rule.
pub fn number(rule: Option<Rule>) -> u8
    ensures { result ≡ rule_number rule }
{
    match rule {
        None => RULE_NONE,
        Some(Rule::FeatureAbort) => RULE_FEATURE_ABORT,
        Some(Rule::WantedOpcode) => RULE_WANTED_OPCODE,
        Some(Rule::ArcPair) => RULE_ARC_PAIR,
    }
}

// The first that holds, in this order.
fn first_rule(aborts: bool, wanted: bool, pair: bool) -> Option<Rule>
    ensures { rule_number result ≡ first_rule aborts wanted pair }
{
    if aborts {
        return Some(Rule::FeatureAbort);
    }
    if wanted {
        return Some(Rule::WantedOpcode);
    }
    pair.then_some(Rule::ArcPair)
}

fn answer_rule(sent: u8, came: u8, length: usize, third: u8, wanted: u8) -> Option<Rule>
    ensures { rule_number result ≡ answer_rule sent came length third wanted }
{
    first_rule(
        aborts_sent(sent, came, length, third),
        is_wanted(came, wanted),
        is_arc_pair(sent, came, wanted),
    )
}

// The byte at a place, 0 past the end.
fn byte_at(s: &[u8], i: usize) -> u8
    ensures { result ≡ get_or s.now i 0 }
{
    s.get(i).copied().unwrap_or(0)
}

// What the test looks at: the length, and the first three bytes, 0 where there is none.
#[derive(Clone, Copy)]
struct Prefix {
    length: usize,
    first: u8,
    second: u8,
    third: u8,
}

fn prefix_of(s: &[u8]) -> Prefix
    ensures { result ≡ prefix_of s.now }
{
    Prefix {
        length: s.len(),
        first: byte_at(s, 0),
        second: byte_at(s, 1),
        third: byte_at(s, 2),
    }
}

// What a match asks beside its rule: lengths, sender and destination.
fn may_match(sent: Prefix, came: Prefix) -> bool
    ensures { result ≡ may_match sent.length came.length sent.first came.first }
{
    has_opcode(sent.length)
        && has_opcode(came.length)
        && from_destination(sent.first, came.first)
        && to_initiator(sent.first, came.first)
}

fn prefix_rule(sent: Prefix, came: Prefix, wanted: u8) -> Option<Rule>
    ensures { rule_number result ≡ prefix_rule sent came wanted }
{
    if !may_match(sent, came) {
        return None;
    }
    answer_rule(sent.second, came.second, came.length, came.third, wanted)
}

// The rule by which the bytes that came are the reply to those that were sent, with this opcode wanted.
fn rule_of(sent: &[u8], received: &[u8], wanted: u8) -> Option<Rule>
    ensures { rule_number result ≡ reply_rule sent.now received.now wanted }
{
    prefix_rule(prefix_of(sent), prefix_of(received), wanted)
}

impl Message {
    // The rule by which this message is the reply to the one that was sent, with this opcode wanted.
    pub fn reply_rule(self, sent: Message, wanted: u8) -> Option<Rule>
        ensures { rule_number result ≡ reply_rule (contents sent) (contents self) wanted }
    {
        rule_of(sent.contents(), self.contents(), wanted)
    }
}

// The test for the C driver: the rule, 1 to 3, and 0 for no match.
#[unsafe(no_mangle)]
pub extern "C" fn cec_reply_match(sent: &[u8], received: &[u8], wanted: u8) -> u8
    ensures { result ≡ reply_rule sent.now received.now wanted }
{
    number(rule_of(sent, received, wanted))
}
