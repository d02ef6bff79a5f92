// The camera program and the chart program share one wire, later with a controller. Each line says which program got what, under which number, and where the picture is.
#![tactic(auto)]

ghost use Rattle.std.specs.Prelude.{◌≤◌};

use adapter::Adapter;
use constants::{
    CEC_LOG_ADDR_BROADCAST, CEC_LOG_ADDR_UNREGISTERED, CEC_MODE_EXCL_FOLLOWER_PASSTHRU,
    CEC_MODE_EXCL_INITIATOR, CEC_MODE_INITIATOR, CEC_MODE_MONITOR, CEC_MSG_CEC_VERSION,
    CEC_MSG_FEATURE_ABORT, CEC_MSG_GET_CEC_VERSION, CEC_MSG_GIVE_DEVICE_POWER_STATUS,
    CEC_MSG_IMAGE_VIEW_ON, CEC_MSG_REPORT_PHYSICAL_ADDR, CEC_MSG_REPORT_POWER_STATUS,
    CEC_MSG_ROUTING_CHANGE, CEC_MSG_SET_STREAM_PATH, CEC_OP_CEC_VERSION_1_4, CEC_PHYS_ADDR_INVALID,
    CEC_TX_STATUS_MAX_RETRIES, CEC_TX_STATUS_NACK, CEC_TX_STATUS_OK,
};
use entry::{Counts, Entry};
use handle::Row;
use request::Request;
use settings::Settings;
use std::{fmt, io};

// The display and the amplifier on the wire, and the address of the box.
const DISPLAY: u8 = 0;

const AMPLIFIER: u8 = 5;

const BOX: u8 = 4;

// Set Menu Language, which a display sends to all.
const SET_MENU_LANGUAGE: u8 = 0x32;

// The handles that the programs get.
const CAMERA: u8 = 0;

const CHART: u8 = 1;

const MONITOR: u8 = 2;

const CONTROLLER: u8 = 3;

const NANOSECONDS_PER_MS: u64 = 1000000;

// A program, by its handle.
fn program(handle: u8) -> &'static str {
    match handle {
        CAMERA => "camera",
        CHART => "chart",
        MONITOR => "monitor",
        _ => "controller",
    }
}

fn opened(rt: &impl Print, adapter: Adapter, privileged: bool) -> io::Result<Adapter> {
    let answer = adapter.open(privileged);
    println!(rt;
        "{}: open, errno {}, handle {}",
        program(answer.handle),
        answer.errno,
        answer.handle
    )?;
    Ok(answer.adapter)
}

fn configured(rt: &impl Print, adapter: Adapter) -> io::Result<Adapter> {
    let mut name = [0; 14];
    name[0] = 0x54;
    name[1] = 0x55;
    name[2] = 0x47;
    let answer = adapter.configure(Settings {
        physical_address: 0x1000,
        mask: 0x0010,
        version: CEC_OP_CEC_VERSION_1_4,
        device_type: 4,
        vendor_id: 0x00A0B0,
        name_length: 3,
        name,
        all_device_types: 0,
        rc_profile: 0,
        device_features: 0,
    });
    println!(rt; "box: configure, errno {}", answer.errno)?;
    Ok(answer.adapter)
}

// A message without parameters.
fn request(from: u8, to: u8, opcode: u8, reply: u8) -> Request {
    let mut bytes = [0; 16];
    bytes[0] = from % 16 * 16 + to % 16;
    bytes[1] = opcode;
    Request {
        length: 2,
        bytes,
        reply,
        timeout: 0,
        flags: 0,
    }
}

fn transmitted(
    rt: &impl Print,
    adapter: Adapter,
    handle: u8,
    request: Request,
) -> io::Result<Adapter> {
    let answer = adapter.transmit(handle, request);
    println!(rt;
        "{}: transmit to {}, errno {}, number {}",
        program(handle),
        request.bytes[0] % 16,
        answer.errno,
        answer.sequence
    )?;
    Ok(answer.adapter)
}

// A device is asked for its power status.
fn asked(rt: &impl Print, adapter: Adapter, handle: u8, device: u8) -> io::Result<Adapter> {
    let question = request(
        BOX,
        device,
        CEC_MSG_GIVE_DEVICE_POWER_STATUS,
        CEC_MSG_REPORT_POWER_STATUS,
    );
    transmitted(rt, adapter, handle, question)
}

// The driver's clock, for the adapter.
fn nanoseconds(ms: u32) -> u64 {
    ms as u64 * NANOSECONDS_PER_MS
}

fn started(rt: &impl Print, adapter: Adapter) -> io::Result<Adapter> {
    let answer = adapter.bus_start();
    print!(rt;
        "wire: start, errno {}, to {}",
        answer.errno,
        answer.message.destination()
    )?;
    Ok(answer.adapter)
}

fn ended(
    rt: &impl Print,
    adapter: Adapter,
    status: u8,
    counts: Counts,
    ms: u32,
) -> io::Result<Adapter> {
    let answer = adapter.bus_result(status, counts, nanoseconds(ms));
    println!(rt; "; result, errno {}, status {status}", answer.errno)?;
    Ok(answer.adapter)
}

// The next message goes out and comes to its end, when the driver's clock shows these milliseconds.
fn sent(
    rt: &impl Print,
    adapter: Adapter,
    status: u8,
    counts: Counts,
    ms: u32,
) -> io::Result<Adapter> {
    ended(rt, started(rt, adapter)?, status, counts, ms)
}

// A message of three bytes comes from the wire.
fn came(adapter: Adapter, from: u8, to: u8, opcode: u8, third: u8, ms: u32) -> Adapter {
    let mut bytes = [0; 16];
    bytes[0] = from % 16 * 16 + to % 16;
    bytes[1] = opcode;
    bytes[2] = third;
    adapter.received(3, bytes, nanoseconds(ms)).adapter
}

fn say_message(rt: &impl Print, from: u8, opcode: u8) -> io::Result<()> {
    println!(rt; "wire: message from {from}, opcode {opcode}")
}

// A device answers the box.
fn answered(
    rt: &impl Print,
    adapter: Adapter,
    from: u8,
    opcode: u8,
    third: u8,
    ms: u32,
) -> io::Result<Adapter> {
    say_message(rt, from, opcode)?;
    Ok(came(adapter, from, BOX, opcode, third, ms))
}

fn say_entry(rt: &impl Print, handle: u8, entry: Entry) -> io::Result<()> {
    println!(rt;
        "{}: receive, number {}, tx_status {}, rx_status {}, opcode {}",
        program(handle),
        entry.sequence,
        entry.tx_status,
        entry.rx_status,
        entry.message.opcode()
    )
}

fn say_received(rt: &impl Print, handle: u8, errno: u32, entry: Entry) -> io::Result<()> {
    if errno == 0 {
        return say_entry(rt, handle, entry);
    }
    println!(rt; "{}: receive, errno {errno}", program(handle))
}

fn received(rt: &impl Print, adapter: Adapter, handle: u8) -> io::Result<Adapter> {
    let answer = adapter.receive(handle);
    say_received(rt, handle, answer.errno, answer.entry)?;
    Ok(answer.adapter)
}

fn passed(rt: &impl Print, adapter: Adapter, ms: u32) -> io::Result<Adapter> {
    println!(rt; "clock: milliseconds {ms}")?;
    Ok(adapter.time_passed(ms).adapter)
}

// The display tells all devices of a menu.
fn told(adapter: Adapter, ms: u32) -> Adapter {
    came(
        adapter,
        DISPLAY,
        CEC_LOG_ADDR_BROADCAST,
        SET_MENU_LANGUAGE,
        0x65,
        ms,
    )
}

// It does so again every 80 ms.
fn three_told(adapter: Adapter, ms: u32) -> Adapter
    requires { ms ≤ 20000 }
{
    told(told(told(adapter, ms), ms + 80), ms + 160)
}

fn nine_told(adapter: Adapter, ms: u32) -> Adapter
    requires { ms ≤ 10000 }
{
    three_told(three_told(three_told(adapter, ms), ms + 240), ms + 480)
}

// Each program reads what it has, oldest first.
fn read_out(rt: &impl Print, adapter: Adapter) -> io::Result<Adapter> {
    let mut now = received(rt, adapter, CAMERA)?;
    now = received(rt, now, CAMERA)?;
    now = received(rt, now, CHART)?;
    received(rt, now, CHART)
}

// The display is woken before the box has an address.
fn woken(rt: &impl Print, adapter: Adapter) -> io::Result<Adapter> {
    let wake = request(CEC_LOG_ADDR_UNREGISTERED, DISPLAY, CEC_MSG_IMAGE_VIEW_ON, 0);
    let mut now = transmitted(rt, adapter, CAMERA, wake)?;
    now = sent(rt, now, CEC_TX_STATUS_OK, Counts::none(), 100)?;
    received(rt, now, CAMERA)
}

// Both ask, the replies come the other way round, and each gets its own.
fn replies(rt: &impl Print, adapter: Adapter) -> io::Result<Adapter> {
    let mut now = asked(rt, adapter, CAMERA, DISPLAY)?;
    now = asked(rt, now, CHART, AMPLIFIER)?;
    now = sent(rt, now, CEC_TX_STATUS_OK, Counts::none(), 1000)?;
    now = sent(rt, now, CEC_TX_STATUS_OK, Counts::none(), 1060)?;
    now = answered(rt, now, AMPLIFIER, CEC_MSG_REPORT_POWER_STATUS, 0, 1200)?;
    now = answered(rt, now, DISPLAY, CEC_MSG_REPORT_POWER_STATUS, 1, 1280)?;
    now = read_out(rt, now)?;
    now = received(rt, now, CAMERA)?;
    received(rt, now, CHART)
}

// One is not answered in time, the other is told that the opcode is not known.
fn no_replies(rt: &impl Print, adapter: Adapter) -> io::Result<Adapter> {
    let mut now = asked(rt, adapter, CAMERA, DISPLAY)?;
    now = asked(rt, now, CHART, AMPLIFIER)?;
    now = sent(rt, now, CEC_TX_STATUS_OK, Counts::none(), 2000)?;
    now = sent(rt, now, CEC_TX_STATUS_OK, Counts::none(), 2060)?;
    now = passed(rt, now, 999)?;
    now = answered(
        rt,
        now,
        AMPLIFIER,
        CEC_MSG_FEATURE_ABORT,
        CEC_MSG_GIVE_DEVICE_POWER_STATUS,
        3059,
    )?;
    now = passed(rt, now, 1)?;
    read_out(rt, now)
}

// A message that is not taken off the wire.
fn refused(rt: &impl Print, adapter: Adapter) -> io::Result<Adapter> {
    let mut counts = Counts::none();
    counts.nack = 5;
    let mut now = asked(rt, adapter, CHART, AMPLIFIER)?;
    now = sent(
        rt,
        now,
        CEC_TX_STATUS_NACK | CEC_TX_STATUS_MAX_RETRIES,
        counts,
        4000,
    )?;
    now = received(rt, now, CHART)?;
    received(rt, now, CHART)
}

fn in_mode(rt: &impl Print, adapter: Adapter, handle: u8, mode: u32) -> io::Result<Adapter> {
    let answer = adapter.set_mode(handle, mode);
    println!(rt; "{}: mode {mode}, errno {}", program(handle), answer.errno)?;
    Ok(answer.adapter)
}

fn say_row(rt: &impl Print, row: Row) -> io::Result<()> {
    println!(rt;
        "listing: handle {}, mode {}, entries {}, owed {}, lost {}",
        row.number, row.mode, row.entries, row.owed, row.lost
    )
}

// The listing's rows of the three programs.
fn listed(rt: &impl Print, adapter: Adapter) -> io::Result<()> {
    let table = listing::listed_rows(adapter);
    let rows = table.rows;
    say_row(rt, rows[0])?;
    say_row(rt, rows[1])?;
    say_row(rt, rows[2])
}

// A monitor has room for 16 copies; the listing says how many it lost.
fn watched(rt: &impl Print, adapter: Adapter) -> io::Result<Adapter> {
    let mut now = opened(rt, adapter, true)?;
    now = in_mode(rt, now, MONITOR, CEC_MODE_MONITOR)?;
    now = nine_told(nine_told(now, 7000), 7720);
    println!(rt; "wire: 18 messages from 0 to all")?;
    listed(rt, now)?;
    now = received(rt, now, MONITOR)?;
    received(rt, now, CAMERA)
}

// The display asks the box for its CEC version.
fn version_asked(rt: &impl Print, adapter: Adapter) -> io::Result<Adapter> {
    let question = request(DISPLAY, BOX, CEC_MSG_GET_CEC_VERSION, 0);
    say_message(rt, DISPLAY, CEC_MSG_GET_CEC_VERSION)?;
    let answer = adapter.received(question.length, question.bytes, nanoseconds(9000));
    Ok(answer.adapter)
}

// The controller tells it.
fn version_told(rt: &impl Print, adapter: Adapter) -> io::Result<Adapter> {
    let mut answer = request(BOX, DISPLAY, CEC_MSG_CEC_VERSION, 0);
    answer.length = 3;
    answer.bytes[2] = CEC_OP_CEC_VERSION_1_4;
    transmitted(rt, adapter, CONTROLLER, answer)
}

// The core leaves a question to the passthrough follower, which may answer it beside an exclusive initiator.
fn controlled(rt: &impl Print, adapter: Adapter) -> io::Result<Adapter> {
    let mut now = opened(rt, adapter, false)?;
    now = in_mode(
        rt,
        now,
        CONTROLLER,
        CEC_MODE_EXCL_FOLLOWER_PASSTHRU | CEC_MODE_INITIATOR,
    )?;
    now = in_mode(rt, now, CAMERA, CEC_MODE_EXCL_INITIATOR)?;
    now = version_asked(rt, now)?;
    now = received(rt, now, CONTROLLER)?;
    now = asked(rt, now, CHART, AMPLIFIER)?;
    now = version_told(rt, now)?;
    now = sent(rt, now, CEC_TX_STATUS_OK, Counts::none(), 9100)?;
    now = received(rt, now, CONTROLLER)?;
    in_mode(rt, now, CAMERA, CEC_MODE_INITIATOR)
}

fn looked_up(rt: &impl Print, adapter: Adapter, address: u8) -> io::Result<()> {
    let answer = adapter.lookup(address);
    println!(rt;
        "box: lookup of {address}, errno {}, physical address {}",
        answer.errno, answer.address
    )
}

// The amplifier reports its physical address, 0x2000.
fn reported(rt: &impl Print, adapter: Adapter) -> io::Result<Adapter> {
    let mut bytes = [0; 16];
    bytes[0] = AMPLIFIER * 16 + CEC_LOG_ADDR_BROADCAST;
    bytes[1] = CEC_MSG_REPORT_PHYSICAL_ADDR;
    bytes[2] = 0x20;
    let answer = adapter.received(5, bytes, nanoseconds(5000));
    looked_up(rt, answer.adapter, AMPLIFIER)?;
    looked_up(rt, answer.adapter, CEC_LOG_ADDR_BROADCAST)?;
    Ok(answer.adapter)
}

// A physical address, which is shown by its four digits.
#[derive(Clone, Copy)]
struct Place(u16);

impl fmt::Display for Place {
    fn fmt<W: fmt::Write>(&self, f: &mut fmt::Formatter<W>) -> fmt::Result {
        let address = self.0;
        write!(
            f,
            "{}.{}.{}.{}",
            address / 4096,
            address / 256 % 16,
            address / 16 % 16,
            address % 16
        )
    }
}

fn say_picture(rt: &impl Print, adapter: Adapter) -> io::Result<()> {
    let active = adapter.active_address();
    if active == CEC_PHYS_ADDR_INVALID {
        return println!(rt; "box: no picture");
    }
    println!(rt; "box: the picture is at {}", Place(active))
}

fn say_way(rt: &impl Print, first: u16, second: u16) -> io::Result<()> {
    let way = route::between(first, second);
    print!(rt;
        "way: from {} to {}, common ancestor {}",
        Place(first),
        Place(second),
        Place(way.ancestor)
    )?;
    if way.on_path {
        return println!(rt; ", port {}", way.port);
    }
    println!(rt; ", off the path")
}

// The amplifier changes its input from 1.0.0.0, the box, to 2.1.0.0; the display asks for the box again.
fn pictured(rt: &impl Print, adapter: Adapter) -> io::Result<Adapter> {
    say_picture(rt, adapter)?;
    let mut bytes = [0; 16];
    bytes[0] = AMPLIFIER * 16 + CEC_LOG_ADDR_BROADCAST;
    bytes[1] = CEC_MSG_ROUTING_CHANGE;
    bytes[2] = 0x10;
    bytes[4] = 0x21;
    let changed = adapter.received(6, bytes, nanoseconds(6000));
    say_message(rt, AMPLIFIER, CEC_MSG_ROUTING_CHANGE)?;
    say_picture(rt, changed.adapter)?;
    say_way(rt, 0x0000, 0x2100)?;
    say_way(rt, 0x2000, 0x2100)?;
    say_way(rt, 0x1000, 0x2100)?;
    bytes[0] = CEC_LOG_ADDR_BROADCAST;
    bytes[1] = CEC_MSG_SET_STREAM_PATH;
    let asked = changed.adapter.received(4, bytes, nanoseconds(6200));
    say_message(rt, DISPLAY, CEC_MSG_SET_STREAM_PATH)?;
    say_picture(rt, asked.adapter)?;
    Ok(asked.adapter)
}

fn address_gone(rt: &impl Print, adapter: Adapter) -> io::Result<Adapter> {
    let answer = adapter.unconfigure();
    println!(rt; "box: unconfigure, errno {}", answer.errno)?;
    Ok(answer.adapter)
}

// One transmit waits for its reply, one is queued: the address is taken away.
fn unconfigured(rt: &impl Print, adapter: Adapter) -> io::Result<Adapter> {
    let mut now = asked(rt, adapter, CAMERA, DISPLAY)?;
    now = sent(rt, now, CEC_TX_STATUS_OK, Counts::none(), 10000)?;
    now = asked(rt, now, CHART, AMPLIFIER)?;
    now = address_gone(rt, now)?;
    now = read_out(rt, now)?;
    asked(rt, now, CHART, AMPLIFIER)
}

fn main(rt: HostRuntime) -> io::Result<()> {
    let mut now = Adapter::fresh(true, true);
    now = opened(&rt, now, false)?;
    now = opened(&rt, now, false)?;
    now = woken(&rt, now)?;
    now = configured(&rt, now)?;
    now = replies(&rt, now)?;
    now = no_replies(&rt, now)?;
    now = refused(&rt, now)?;
    now = reported(&rt, now)?;
    now = pictured(&rt, now)?;
    now = watched(&rt, now)?;
    now = controlled(&rt, now)?;
    now = unconfigured(&rt, now)?;
    say_picture(&rt, now)
}
