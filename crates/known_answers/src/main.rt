// The known answers of document 01, and those of the later requests up to W-208 that have some, asked of the code: one line for each case with what it gave.
#![tactic(auto)]

use adapter::{Adapter, Done};
use constants::{
    CEC_MODE_EXCL_INITIATOR, CEC_MODE_FOLLOWER, CEC_MODE_INITIATOR, CEC_MODE_MONITOR,
    CEC_OP_CEC_VERSION_1_4, CEC_OP_CEC_VERSION_2_0, CEC_TX_STATUS_OK,
};
use entry::Counts;
use message::{Message, reply};
use queue::Queue;
use request::Request;
use settings::Settings;
use std::io;
use waits::Waits;
use wire::Wire;

// Times in nanoseconds: when a message had gone out, the nanosecond before, and when one had come after it.
const SENT_AT: u64 = 5000000000;

const JUST_BEFORE: u64 = 4999999999;

const CAME_AT: u64 = 7000000000;

fn line(rt: &impl Print, text: &str, number: u32) -> io::Result<()> {
    println!(rt; "{text}{number}")
}

// Address 0x1000, a mask, version 5.
fn masked(mask: u16) -> Settings {
    let mut name = [0; 14];
    name[0] = 0x42;
    Settings {
        physical_address: 0x1000,
        mask,
        version: CEC_OP_CEC_VERSION_1_4,
        device_type: 4,
        vendor_id: 0x00A0B0,
        name_length: 1,
        name,
        all_device_types: 0,
        rc_profile: 0,
        device_features: 0,
    }
}

// Mask 0x0010, a version with its three bytes.
fn settings(version: u8, types: u8, profile: u8, features: u8) -> Settings {
    let mut settings = masked(0x0010);
    settings.version = version;
    settings.all_device_types = types;
    settings.rc_profile = profile;
    settings.device_features = features;
    settings
}

// Both capabilities, handle 0 alone open, in mode 0x01.
fn bench(privileged: bool) -> Adapter {
    Adapter::fresh(true, true)
        .open(privileged)
        .adapter
        .configure(settings(CEC_OP_CEC_VERSION_1_4, 0, 0, 0))
        .adapter
}

fn mode(privileged: bool, mode: u32) -> u32 {
    bench(privileged).set_mode(0, mode).errno
}

fn request(length: u8, first: u8, opcode: u8, reply: u8) -> Request {
    let mut bytes = [0; 16];
    bytes[0] = first;
    bytes[1] = opcode;
    Request {
        length,
        bytes,
        reply,
        timeout: 0,
        flags: 0,
    }
}

// What a case gave: an errno, and a status where there is one.
#[derive(Clone, Copy)]
struct Given {
    errno: u32,
    status: u32,
}

fn poll() -> Given {
    let answer = bench(true).transmit(0, request(1, 0x44, 0, 0));
    Given {
        errno: answer.errno,
        status: answer.tx_status as u32,
    }
}

// 40 and an opcode are on the wire.
fn sending(opcode: u8, reply: u8) -> Adapter {
    bench(true)
        .transmit(0, request(2, 0x40, opcode, reply))
        .adapter
        .bus_start()
        .adapter
}

// They were sent, a reply is wanted, and the result was received.
fn waiting(opcode: u8, reply: u8) -> Adapter {
    sending(opcode, reply)
        .bus_result(CEC_TX_STATUS_OK, Counts::none(), SENT_AT)
        .adapter
        .receive(0)
        .adapter
}

fn three(first: u8, second: u8, third: u8) -> [u8; 16] {
    let mut bytes = [0; 16];
    bytes[0] = first;
    bytes[1] = second;
    bytes[2] = third;
    bytes
}

// 40 8F wants 90; then some bytes came, and a receive.
fn asked(length: u8, first: u8, second: u8, third: u8) -> Given {
    let bytes = three(first, second, third);
    let answer = waiting(0x8F, 0x90)
        .received(length, bytes, CAME_AT)
        .adapter
        .receive(0);
    Given {
        errno: answer.errno,
        status: answer.entry.rx_status as u32,
    }
}

// The errno of a result of this status.
fn result(status: u8) -> u32 {
    sending(0x8F, 0)
        .bus_result(status, Counts::none(), SENT_AT)
        .errno
}

// The errno of a message of this length: a transmit, and one from the wire.
fn sent(length: u8) -> u32 {
    bench(true)
        .transmit(0, request(length, 0x40, 0x8F, 0))
        .errno
}

fn came(length: u8) -> u32 {
    bench(true).received(length, [0x0F; 16], CAME_AT).errno
}

fn one(adapter: Adapter, handle: u8) -> Adapter {
    adapter.transmit(handle, request(2, 0x40, 0x8F, 0)).adapter
}

fn four(adapter: Adapter, handle: u8) -> Adapter {
    one(one(one(one(adapter, handle), handle), handle), handle)
}

// 16 queued: 8 of handle 0, 8 of handle 1.
fn sixteen() -> Adapter {
    four(
        four(four(four(bench(true).open(false).adapter, 0), 0), 1),
        1,
    )
}

fn seventeen() -> Adapter {
    one(sixteen(), 0)
}

// The errno of one more.
fn more(adapter: Adapter) -> u32 {
    adapter.transmit(1, request(2, 0x40, 0x8F, 0)).errno
}

// The TV asks something of the core.
fn core_asked(adapter: Adapter, opcode: u8) -> Adapter {
    let mut bytes = [0; 16];
    bytes[0] = 0x04;
    bytes[1] = opcode;
    adapter.received(2, bytes, CAME_AT).adapter
}

// The CEC version, which the core answers: one more in the queue, if there is room.
fn version_asked(adapter: Adapter) -> Adapter {
    core_asked(adapter, 0x9F)
}

fn next_after_last() -> u32 {
    traffic::next_sequence(Queue::empty(), Wire::idle(), Waits::empty(), 4294967295)
}

// Handle 0, in this mode, transmits beside handle 1 as exclusive initiator (W-202).
fn beside(mode: u32) -> u32 {
    bench(true)
        .set_mode(0, mode)
        .adapter
        .open(false)
        .adapter
        .set_mode(1, CEC_MODE_EXCL_INITIATOR)
        .adapter
        .transmit(0, request(2, 0x40, 0x8F, 0))
        .errno
}

// The errno of a configure with a version and its three bytes (W-203).
fn configured(version: u8, types: u8, profile: u8, features: u8) -> u32 {
    Adapter::fresh(true, true)
        .configure(settings(version, types, profile, features))
        .errno
}

// The errno of a configure with a mask (W-204).
fn owning(mask: u16) -> u32 {
    Adapter::fresh(true, true).configure(masked(mask)).errno
}

// What is sent when A5 comes, under a version with its three bytes.
fn features_asked(version: u8, types: u8, profile: u8, features: u8) -> [u8; 16] {
    let adapter = Adapter::fresh(true, true)
        .configure(settings(version, types, profile, features))
        .adapter;
    core_asked(adapter, 0xA5).bus_start().message.bytes()
}

// A message from the wire, with the first bytes of two physical addresses.
fn told(adapter: Adapter, header: u8, length: u8, opcode: u8, first: u8, second: u8) -> Adapter {
    let mut bytes = [0; 16];
    bytes[0] = header;
    bytes[1] = opcode;
    bytes[2] = first;
    bytes[4] = second;
    adapter.received(length, bytes, CAME_AT).adapter
}

// The active address after such a message, where 0x1000 was active before (W-205).
fn active(header: u8, length: u8, opcode: u8, first: u8, second: u8) -> u16 {
    let shown = told(bench(true), 0x0F, 4, 0x82, 0x10, 0);
    told(shown, header, length, opcode, first, second).active_address()
}

fn say_active(rt: &impl Print, text: &str, address: u16) -> io::Result<()> {
    println!(rt; "{text}{address:04x}")
}

fn say_way(rt: &impl Print, first: u16, second: u16) -> io::Result<()> {
    let way = route::between(first, second);
    println!(rt;
        "way from {first:04x} to {second:04x}: errno {}, ancestor {:04x}, on the path {}, port {}",
        way.errno, way.ancestor, way.on_path as u32, way.port
    )
}

// What ended the wait, with the opcode that the entry shows (W-207).
fn say_reply(rt: &impl Print, text: &str, adapter: Adapter) -> io::Result<()> {
    let entry = adapter.receive(0).entry;
    println!(rt; "{text}{}, reply {:02x}", entry.rx_status, entry.reply)
}

// 40 C0 wants C1, and some bytes came.
fn arc_asked(length: u8, second: u8, third: u8) -> Adapter {
    waiting(0xC0, 0xC1)
        .received(length, three(0x04, second, third), CAME_AT)
        .adapter
}

// The number of the rule by which they are the reply.
fn arc_rule(length: u8, second: u8, third: u8) -> u32 {
    let sent = Message::new(2, three(0x40, 0xC0, 0));
    let came = Message::new(length, three(0x04, second, third));
    u32::from(reply::number(came.reply_rule(sent, 0xC1)))
}

// What handle 0 received, with its times (W-208).
fn say_times(rt: &impl Print, text: &str, adapter: Adapter) -> io::Result<()> {
    let entry = adapter.receive(0).entry;
    println!(rt;
        "{text}: number {}, tx_status {}, rx_status {}, tx_ts {}, rx_ts {}",
        entry.sequence, entry.tx_status, entry.rx_status, entry.tx_ts, entry.rx_ts
    )
}

// The message on the wire has gone out.
fn ended(adapter: Adapter, ts: u64) -> Done {
    adapter.bus_result(CEC_TX_STATUS_OK, Counts::none(), ts)
}

// The TV says 90 to all.
fn all_told(adapter: Adapter, ts: u64) -> Done {
    adapter.received(3, three(0x0F, 0x90, 0x00), ts)
}

// A result before the last time, and one at it.
fn say_results(rt: &impl Print, text: &str, adapter: Adapter) -> io::Result<()> {
    println!(rt;
        "{text}{}, at its time: errno {}",
        ended(adapter, JUST_BEFORE).errno,
        ended(adapter, SENT_AT).errno
    )
}

// The same of a message.
fn say_messages(rt: &impl Print, text: &str, adapter: Adapter) -> io::Result<()> {
    println!(rt;
        "{text}{}, at its time: errno {}",
        all_told(adapter, JUST_BEFORE).errno,
        all_told(adapter, SENT_AT).errno
    )
}

fn say_six(rt: &impl Print, text: &str, bytes: [u8; 16]) -> io::Result<()> {
    println!(rt;
        "{text} {:02x} {:02x} {:02x} {:02x} {:02x} {:02x}",
        bytes[0], bytes[1], bytes[2], bytes[3], bytes[4], bytes[5]
    )
}

fn say_modes(rt: &impl Print) -> io::Result<()> {
    line(rt, "mode 0x31: errno ", mode(true, 0x31))?;
    line(rt, "mode 0x30: errno ", mode(true, 0x30))?;
    line(rt, "mode 0xE1, no privilege: errno ", mode(false, 0xE1))?;
    line(rt, "mode 0xE0, no privilege: errno ", mode(false, 0xE0))
}

fn say_poll(rt: &impl Print) -> io::Result<()> {
    let given = poll();
    println!(rt;
        "poll 44: errno {}, tx_status {}",
        given.errno, given.status
    )
}

fn say_replies(rt: &impl Print) -> io::Result<()> {
    line(
        rt,
        "sent 40 8F wants 90, came 04 90 00: rx_status ",
        asked(3, 0x04, 0x90, 0x00).status,
    )?;
    line(
        rt,
        "same, came 04 00 8F 00: rx_status ",
        asked(4, 0x04, 0x00, 0x8F).status,
    )?;
    line(
        rt,
        "same, came 04 00: receive, errno ",
        asked(2, 0x04, 0x00, 0x00).errno,
    )?;
    line(
        rt,
        "same, came 54 90 00: receive, errno ",
        asked(3, 0x54, 0x90, 0x00).errno,
    )
}

fn say_rules(rt: &impl Print) -> io::Result<()> {
    line(
        rt,
        "sent 40 C0 wants C1, came 04 C1: rule ",
        arc_rule(2, 0xC1, 0),
    )?;
    line(rt, "same, came 04 C2: rule ", arc_rule(2, 0xC2, 0))?;
    line(rt, "same, came 04 00 C0: rule ", arc_rule(3, 0x00, 0xC0))?;
    line(rt, "same, came 04 00: rule ", arc_rule(2, 0x00, 0xC0))?;
    say_reply(rt, "same, came 04 C1: rx_status ", arc_asked(2, 0xC1, 0))?;
    say_reply(rt, "same, came 04 C2: rx_status ", arc_asked(2, 0xC2, 0))?;
    say_reply(
        rt,
        "same, came 04 00 C0: rx_status ",
        arc_asked(3, 0x00, 0xC0),
    )?;
    say_reply(
        rt,
        "same, after 1000 ms: rx_status ",
        waiting(0xC0, 0xC1).time_passed(1000).adapter,
    )?;
    say_reply(
        rt,
        "same, unconfigured: rx_status ",
        waiting(0xC0, 0xC1).unconfigure().adapter,
    )
}

fn say_lengths(rt: &impl Print) -> io::Result<()> {
    line(rt, "message of 16 bytes: errno ", sent(16))?;
    line(rt, "message of 17 bytes: errno ", sent(17))?;
    line(rt, "message of 16 bytes from the wire: errno ", came(16))?;
    line(rt, "message of 17 bytes from the wire: errno ", came(17))
}

fn say_queue(rt: &impl Print) -> io::Result<()> {
    line(rt, "18th queued: errno ", more(seventeen()))?;
    line(rt, "19th queued: errno ", more(one(seventeen(), 1)))?;
    line(
        rt,
        "18th queued by the core: the next, errno ",
        more(version_asked(seventeen())),
    )?;
    line(
        rt,
        "19th of the core dropped: the next after a start, errno ",
        more(version_asked(one(seventeen(), 1)).bus_start().adapter),
    )
}

fn say_beside(rt: &impl Print) -> io::Result<()> {
    line(rt, "mode 0x21 transmits beside 0x02: errno ", beside(0x21))?;
    line(rt, "mode 0x31 transmits beside 0x02: errno ", beside(0x31))?;
    line(rt, "mode 0x11 transmits beside 0x02: errno ", beside(0x11))?;
    line(rt, "mode 0x01 transmits beside 0x02: errno ", beside(0x01))?;
    line(rt, "mode 0x00 transmits beside 0x02: errno ", beside(0x00))
}

fn say_features(rt: &impl Print) -> io::Result<()> {
    line(
        rt,
        "version 6, bytes FF 7F 7F: errno ",
        configured(6, 0xFF, 0x7F, 0x7F),
    )?;
    line(
        rt,
        "version 6, bytes 00 80 00: errno ",
        configured(6, 0, 0x80, 0),
    )?;
    line(
        rt,
        "version 6, bytes 00 00 80: errno ",
        configured(6, 0, 0, 0x80),
    )?;
    line(
        rt,
        "version 5, bytes 01 00 00: errno ",
        configured(5, 1, 0, 0),
    )?;
    say_six(
        rt,
        "version 6, bytes 10 4A 23, came 04 A5: sent",
        features_asked(CEC_OP_CEC_VERSION_2_0, 0x10, 0x4A, 0x23),
    )?;
    say_six(
        rt,
        "version 5, came 04 A5: sent",
        features_asked(CEC_OP_CEC_VERSION_1_4, 0, 0, 0),
    )
}

fn say_masks(rt: &impl Print) -> io::Result<()> {
    line(rt, "mask 0x0000: errno ", owning(0x0000))?;
    line(rt, "mask 0x000F: errno ", owning(0x000F))?;
    line(rt, "mask 0x001F: errno ", owning(0x001F))?;
    line(rt, "mask 0x8001: errno ", owning(0x8001))?;
    line(rt, "mask 0x7800: errno ", owning(0x7800))?;
    line(rt, "mask 0x7FFF: errno ", owning(0x7FFF))
}

fn say_picture(rt: &impl Print) -> io::Result<()> {
    say_active(
        rt,
        "came 0F 86 21 00: active ",
        active(0x0F, 4, 0x86, 0x21, 0),
    )?;
    say_active(
        rt,
        "came 0F 80 21 00 32 00: active ",
        active(0x0F, 6, 0x80, 0x21, 0x32),
    )?;
    say_active(
        rt,
        "came 04 86 21 00: active ",
        active(0x04, 4, 0x86, 0x21, 0),
    )?;
    say_active(
        rt,
        "came 0F 82 21 00 00: active ",
        active(0x0F, 5, 0x82, 0x21, 0),
    )?;
    say_active(
        rt,
        "came 05 9D 21 00: active ",
        active(0x05, 4, 0x9D, 0x21, 0),
    )?;
    say_active(
        rt,
        "came 05 9D 10 00: active ",
        active(0x05, 4, 0x9D, 0x10, 0),
    )?;
    say_way(rt, 0x2000, 0x2130)?;
    say_way(rt, 0x2200, 0x2130)?;
    say_way(rt, 0x2010, 0x2130)
}

fn say_timestamps(rt: &impl Print) -> io::Result<()> {
    let on_wire = sending(0x8F, 0);
    let monitored = on_wire.set_mode(0, CEC_MODE_MONITOR).adapter;
    let followed = on_wire
        .set_mode(0, CEC_MODE_FOLLOWER | CEC_MODE_INITIATOR)
        .adapter;
    let asking = waiting(0x8F, 0x90);
    let sent_since = ended(one(asking, 0).bus_start().adapter, CAME_AT)
        .adapter
        .receive(0)
        .adapter;
    say_times(rt, "result", ended(on_wire, SENT_AT).adapter)?;
    say_times(
        rt,
        "monitor's copy of a result",
        ended(monitored, SENT_AT).adapter,
    )?;
    say_times(
        rt,
        "follower's copy of a message",
        all_told(followed, CAME_AT).adapter,
    )?;
    say_times(
        rt,
        "reply after a later result",
        all_told(sent_since, CAME_AT).adapter,
    )?;
    say_times(rt, "Feature Abort reply", arc_asked(3, 0x00, 0xC0))?;
    say_times(rt, "timeout", asking.time_passed(1000).adapter)?;
    say_times(rt, "aborted wait", asking.unconfigure().adapter)?;
    say_times(
        rt,
        "result of unconfigure",
        all_told(on_wire, SENT_AT).adapter.unconfigure().adapter,
    )
}

// Every result and every message that is taken sets the last time, and unconfigure keeps it.
fn say_clock(rt: &impl Print) -> io::Result<()> {
    let after_result = one(waiting(0x8F, 0), 0).bus_start().adapter;
    let after_message = all_told(sending(0x8F, 0), SENT_AT).adapter;
    say_results(
        rt,
        "result 1 ns before the last result: errno ",
        after_result,
    )?;
    say_messages(
        rt,
        "message 1 ns before the last result: errno ",
        after_result,
    )?;
    say_results(
        rt,
        "result 1 ns before the last message: errno ",
        after_message,
    )?;
    say_messages(
        rt,
        "message 1 ns before the last message: errno ",
        after_message,
    )?;
    say_messages(
        rt,
        "message 1 ns before a poll: errno ",
        bench(true).received(1, [0x04; 16], SENT_AT).adapter,
    )?;
    say_messages(
        rt,
        "message 1 ns before one to 5: errno ",
        bench(true).received(2, [0x05; 16], SENT_AT).adapter,
    )?;
    say_messages(
        rt,
        "message 1 ns before one while unconfigured: errno ",
        all_told(Adapter::fresh(true, true), SENT_AT).adapter,
    )?;
    say_messages(
        rt,
        "message 1 ns before the last, unconfigured since: errno ",
        after_message.unconfigure().adapter,
    )
}

// What is refused leaves the last time as it was, and the message on the wire.
fn say_refused(rt: &impl Print) -> io::Result<()> {
    let after_message = all_told(sending(0x8F, 0), SENT_AT).adapter;
    let too_early = ended(after_message, JUST_BEFORE).adapter;
    let not_final = after_message
        .bus_result(0x02, Counts::none(), CAME_AT)
        .adapter;
    let too_long = after_message.received(17, [0x0F; 16], CAME_AT).adapter;
    line(
        rt,
        "result refused for its time, again: errno ",
        ended(too_early, JUST_BEFORE).errno,
    )?;
    line(rt, "same, bus start: errno ", too_early.bus_start().errno)?;
    line(
        rt,
        "result 0x02 refused at 7 s, then a result at 5 s: errno ",
        ended(not_final, SENT_AT).errno,
    )?;
    line(
        rt,
        "message of 17 bytes refused at 7 s, then a message at 5 s: errno ",
        all_told(too_long, SENT_AT).errno,
    )
}

fn main(rt: HostRuntime) -> io::Result<()> {
    say_modes(&rt)?;
    say_poll(&rt)?;
    say_replies(&rt)?;
    line(&rt, "result 0x21: errno ", result(0x21))?;
    line(&rt, "result 0x02: errno ", result(0x02))?;
    line(&rt, "last number 4294967295: next is ", next_after_last())?;
    say_lengths(&rt)?;
    say_queue(&rt)?;
    say_beside(&rt)?;
    say_features(&rt)?;
    say_masks(&rt)?;
    say_picture(&rt)?;
    say_rules(&rt)?;
    say_timestamps(&rt)?;
    say_clock(&rt)?;
    say_refused(&rt)
}
