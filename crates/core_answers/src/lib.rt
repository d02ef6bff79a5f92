// What the core answers to a message, byte for byte.
#![tactic(auto)]

ghost use Rattle.std.specs.Prelude.{◌≡◌, ◌∷◌, true, false};
ghost use Rattle.core_answers.specs.Work.{message_of, abort_of, work_of};
ghost use Rattle.constants.specs.Kernel.{CEC-LOG-ADDR-BROADCAST};
ghost use Rattle.message.specs.Message.{initiator, destination};
ghost use Rattle.rules.specs.Core.{header, version_answer, vendor_answer, address_answer, name_answer};
ghost use Rattle.rules.specs.Features.{features_answer};

use constants::{
    CEC_LOG_ADDR_BROADCAST, CEC_MSG_ABORT, CEC_MSG_CEC_VERSION, CEC_MSG_DEVICE_VENDOR_ID,
    CEC_MSG_FEATURE_ABORT, CEC_MSG_GET_CEC_VERSION, CEC_MSG_GIVE_DEVICE_VENDOR_ID,
    CEC_MSG_GIVE_FEATURES, CEC_MSG_GIVE_OSD_NAME, CEC_MSG_GIVE_PHYSICAL_ADDR,
    CEC_MSG_REPORT_FEATURES, CEC_MSG_REPORT_PHYSICAL_ADDR, CEC_MSG_SET_OSD_NAME,
    CEC_OP_ABORT_REFUSED, CEC_OP_CEC_VERSION_2_0,
};
use message::Message;
use settings::Settings;

// Whether a message is a question that the core answers, or reports an address; and the answer. Where nothing is asked, this is what FF would get, and is not sent.
#[derive(Clone, Copy)]
pub struct Work {
    pub is_question: bool,
    pub is_report: bool,
    pub answer: Message,
}

// The first byte of an answer to the initiator, from the address asked.
fn to_initiator(asked: Message) -> u8
    ensures { result ≡ header (destination asked.bytes) (initiator asked.bytes) }
{
    asked.destination() * 16 + asked.initiator()
}

// The first byte of an answer to all, from the address asked.
fn to_all(asked: Message) -> u8
    ensures { result ≡ header (destination asked.bytes) CEC-LOG-ADDR-BROADCAST }
{
    asked.destination() * 16 + CEC_LOG_ADDR_BROADCAST
}

// A message from its first byte, its opcode and at most 14 parameters.
fn answer(first: u8, opcode: u8, parameters: &[u8]) -> Message
    ensures { result ≡ message_of (first ∷ opcode ∷ parameters.now) }
{
    let length = parameters.len().min(14);
    let mut bytes = [0; 16];
    bytes[0] = first;
    bytes[1] = opcode;
    bytes[2..2 + length].copy_from_slice(&parameters[..length]);
    Message::new(length as u8 + 2, bytes)
}

// The Feature Abort of a message, for a reason.
pub fn feature_abort(asked: Message, reason: u8) -> Message
    ensures { result ≡ message_of (abort_of asked reason) }
{
    let parameters = [asked.opcode(), reason];
    answer(to_initiator(asked), CEC_MSG_FEATURE_ABORT, &parameters)
}

fn version_answer(settings: Settings, asked: Message) -> Message
    ensures { result ≡ message_of (version_answer settings (destination asked.bytes) (initiator asked.bytes)) }
{
    let parameters = [settings.version];
    answer(to_initiator(asked), CEC_MSG_CEC_VERSION, &parameters)
}

fn vendor_answer(settings: Settings, asked: Message) -> Message
    ensures { result ≡ message_of (vendor_answer settings (destination asked.bytes)) }
{
    let [_, high, middle, low] = settings.vendor_id.to_be_bytes();
    let parameters = [high, middle, low];
    answer(to_all(asked), CEC_MSG_DEVICE_VENDOR_ID, &parameters)
}

fn address_answer(settings: Settings, asked: Message) -> Message
    ensures { result ≡ message_of (address_answer settings (destination asked.bytes)) }
{
    let [high, low] = settings.physical_address.to_be_bytes();
    let parameters = [high, low, settings.device_type];
    answer(to_all(asked), CEC_MSG_REPORT_PHYSICAL_ADDR, &parameters)
}

fn name_answer(settings: Settings, asked: Message) -> Message
    ensures { result ≡ message_of (name_answer settings (destination asked.bytes) (initiator asked.bytes)) }
{
    let length = (settings.name_length as usize).min(14);
    let parameters = &settings.name[..length];
    answer(to_initiator(asked), CEC_MSG_SET_OSD_NAME, parameters)
}

fn features_answer(settings: Settings, asked: Message) -> Message
    ensures { result ≡ message_of (features_answer settings (destination asked.bytes)) }
{
    let parameters = [
        settings.version,
        settings.all_device_types,
        settings.rc_profile,
        settings.device_features,
    ];
    answer(to_all(asked), CEC_MSG_REPORT_FEATURES, &parameters)
}

fn question(answer: Message) -> Work
    ensures { result ≡ record { is_question = true; is_report = false; answer = answer } }
{
    Work {
        is_question: true,
        is_report: false,
        answer,
    }
}

fn no_question(is_report: bool, answer: Message) -> Work
    ensures { result ≡ record { is_question = false; is_report = is_report; answer = answer } }
{
    Work {
        is_question: false,
        is_report,
        answer,
    }
}

// What the core has to say to a message, by its opcode; the features are asked for with CEC 2.0 alone.
pub fn work_for(settings: Settings, asked: Message) -> Work
    ensures { result ≡ work_of settings asked }
{
    let refusal = feature_abort(asked, CEC_OP_ABORT_REFUSED);
    let opcode = asked.opcode();
    match opcode {
        CEC_MSG_GET_CEC_VERSION => question(version_answer(settings, asked)),
        CEC_MSG_GIVE_DEVICE_VENDOR_ID => question(vendor_answer(settings, asked)),
        CEC_MSG_GIVE_PHYSICAL_ADDR => question(address_answer(settings, asked)),
        CEC_MSG_GIVE_OSD_NAME => question(name_answer(settings, asked)),
        CEC_MSG_GIVE_FEATURES if settings.version == CEC_OP_CEC_VERSION_2_0 => {
            question(features_answer(settings, asked))
        }
        CEC_MSG_ABORT => question(refusal),
        CEC_MSG_REPORT_PHYSICAL_ADDR => no_question(true, refusal),
        _ => no_question(false, refusal),
    }
}
