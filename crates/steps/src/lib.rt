// Which steps are to be done with a message from the wire, once it is known whether it is a reply.
#![tactic(auto)]

ghost use Rattle.std.specs.Prelude.{◌≡◌};
ghost use Rattle.handles.specs.Roles.{handles_of};
ghost use Rattle.rules.specs.Core.{is_directed, is_registered};
ghost use Rattle.steps.specs.Steps.{answer_if, notes_of, chosen_of};

use constants::{
    CEC_LOG_ADDR_BROADCAST, CEC_LOG_ADDR_UNREGISTERED, CEC_MSG_FEATURE_ABORT,
    CEC_OP_ABORT_UNRECOGNIZED_OP,
};
use core_answers::Work;
use handles::Handles;
use message::Message;

// What is to be done in steps 4 to 6: whether an address is noted, what the core sends, and who gets copies.
#[derive(Clone, Copy)]
pub struct Chosen {
    pub notes: bool,
    pub sends: Option<Message>,
    pub copies: bool,
    pub exclusive: bool,
}

fn is_directed(message: Message) -> bool
    ensures { result ≡ is_directed message }
{
    message.destination() != CEC_LOG_ADDR_BROADCAST
}

fn is_registered(message: Message) -> bool
    ensures { result ≡ is_registered message }
{
    message.initiator() != CEC_LOG_ADDR_UNREGISTERED
}

// The answer to a question, if the core may give it.
fn answer_if(may_answer: bool, work: Work) -> Option<Message>
    ensures { result ≡ answer_if may_answer work }
{
    (may_answer && work.is_question).then_some(work.answer)
}

// Whether a message reports an address that is noted.
fn is_noted(work: Work, message: Message) -> bool
    ensures { result ≡ notes_of work message }
{
    work.is_report && 5 <= message.length() && is_registered(message)
}

// From the handles, the core's work, whether the message is a reply and whether its flag was set. What the core sends is its answer, or a Feature Abort.
pub fn choose(
    handles: Handles,
    work: Work,
    found: bool,
    to_followers: bool,
    message: Message,
) -> Chosen
    ensures { result ≡ chosen_of (handles_of handles) work found to_followers message }
{
    let roles = handles.roles();
    let directed = is_directed(message);
    let registered = is_registered(message);
    let answer = answer_if(directed && registered && !roles.passthrough, work);
    let notes = is_noted(work, message);
    let aborts = !found
        && !roles.follower
        && answer.is_none()
        && !notes
        && directed
        && registered
        && message.opcode() != CEC_MSG_FEATURE_ABORT;
    Chosen {
        notes,
        sends: if aborts {
            Some(core_answers::feature_abort(message, CEC_OP_ABORT_UNRECOGNIZED_OP))
        } else {
            answer
        },
        copies: answer.is_none() && (!found || to_followers),
        exclusive: roles.exclusive_follower,
    }
}
