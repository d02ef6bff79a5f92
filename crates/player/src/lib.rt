// A recorded session, played again: a player takes the log in portions, and puts a line for each record into a lent buffer.
#![tactic(auto)]

ghost use Rattle.std.specs.Prelude.{◌+◌, ◌≤◌, ◌≢◌, ◌≡◌, length};
ghost use Rattle.session_log.specs.Session.{fresh_session, taken};
ghost use Rattle.player.specs.Player.{session_of, shown, onto, room_errno, given_of, given_by, last_text};
ghost use Rattle.text.specs.Line.{PutAt, said_of};

use adapter::Adapter;
use constants::EINVAL;
use play::Played;
use reader::{Cursor, Kind, Turn};
use text::{LINE_MAX, Said, answer_line, bad_line, cut_line};

// The adapter, the bytes of a record that is not whole yet, and where the log is read.
#[derive(Clone, Copy)]
pub struct Player {
    adapter: Adapter,
    bytes: [u8; 28],
    cursor: Cursor,
}

// The player after a portion, the errno, 0 for success, how many bytes of the portion were taken, and how many were written.
#[derive(Clone, Copy)]
pub struct Fed {
    pub player: Player,
    pub errno: u32,
    pub taken: usize,
    pub written: usize,
}

#[derive(Clone, Copy)]
pub struct Finished {
    pub errno: u32,
    pub written: usize,
}

// Prints what is to be said after a turn, if anything is, and gives the place after it.
fn show(out: &mut [u8], at: usize, turn: Turn, kind: u8, said: Said) -> usize
    requires { at + 29 ≤ length out.old }
    ensures { PutAt out.old at (shown turn kind (said_of said)) result out.new }
{
    let cursor = turn.cursor;
    if cursor.ended {
        return bad_line(out, at, cursor.place);
    }
    match turn.came {
        Some(_) => answer_line(out, at, kind, said),
        None => at,
    }
}

// Where the buffer has no room for a line.
fn refused(player: Player) -> Fed
    ensures { result ≡ record { player = player; errno = 22; taken = 0; written = 0 } }
{
    Fed {
        player,
        errno: EINVAL,
        taken: 0,
        written: 0,
    }
}

// After the records that were played.
fn after(played: Played, bytes: [u8; 28], cursor: Cursor, taken: usize, written: usize) -> Fed
    ensures { result ≡ record { player = record { adapter = played.adapter; bytes = bytes; cursor = cursor }; errno = 0; taken = taken; written = written } }
{
    let adapter = played.adapter;
    Fed {
        player: Player {
            adapter,
            bytes,
            cursor,
        },
        errno: 0,
        taken,
        written,
    }
}

impl Player {
    pub fn fresh() -> Player
        ensures { session_of result ≡ fresh_session }
    {
        Player {
            adapter: Adapter::fresh(true, true),
            bytes: [0; 28],
            cursor: Cursor::fresh(),
        }
    }

    // Takes a portion of the log, as much of it as the buffer has room for the lines of.
    pub fn feed(self, portion: &[u8], out: &mut [u8]) -> Fed
        ensures errno_value { result.errno ≡ room_errno out.old }
        ensures out_after { given_of result out.new ≡ given_by (taken (session_of self) portion.now (length out.old)) out.old }
        ensures player_value { result.errno ≢ 0 → result.player ≡ self }
        ensures taken_in_bounds { result.taken ≤ length portion.now }
        ensures written_in_bounds { result.written ≤ length out.new }
    {
        if out.len() < LINE_MAX {
            return refused(self);
        }
        let mut played = play::nothing(self.adapter);
        let mut bytes = self.bytes;
        let mut cursor = self.cursor;
        let mut taken = 0;
        let mut written = 0;
        while taken < portion.len() && !cursor.ended && written <= out.len() - LINE_MAX {
            let turn = reader::read(&mut bytes, cursor, &portion[taken..]);
            taken += turn.taken;
            cursor = turn.cursor;
            if let Some(whole) = turn.came {
                match whole.kind {
                    Kind::Open => played = play::open(played.adapter, bytes),
                    Kind::Close => played = play::close(played.adapter, bytes),
                    Kind::Mode => played = play::mode(played.adapter, bytes),
                    Kind::Transmit => played = play::transmit(played.adapter, bytes),
                    Kind::Receive => played = play::receive(played.adapter, bytes),
                    Kind::BusStart => played = play::start(played.adapter),
                    Kind::BusResult => played = play::result(played.adapter, bytes),
                    Kind::Time => played = play::time(played.adapter, bytes),
                    Kind::Message => played = play::message(played.adapter, bytes),
                    Kind::Configure => played = play::configure(played.adapter, bytes),
                    Kind::Unconfigure => played = play::unconfigure(played.adapter),
                }
            }
            written = show(out, written, turn, bytes[0], played.said);
        }
        after(played, bytes, cursor, taken, written)
    }

    // Whether an unknown kind has come, after which nothing is taken.
    pub fn ended(self) -> bool
        ensures { result ≡ (session_of self).ended }
    {
        let cursor = self.cursor;
        cursor.ended
    }

    // What is printed where the log ends.
    pub fn finish(self, out: &mut [u8]) -> Finished
        ensures errno_value { result.errno ≡ room_errno out.old }
        ensures written_value { result.written ≡ length (last_text (session_of self) out.old) }
        ensures out_after { out.new ≡ onto (last_text (session_of self) out.old) out.old }
        ensures written_in_bounds { result.written ≤ length out.new }
    {
        let size = out.len();
        if size < LINE_MAX {
            return Finished {
                errno: EINVAL,
                written: 0,
            };
        }
        let cursor = self.cursor;
        if cursor.ended | (cursor.count == 0) {
            return Finished {
                errno: 0,
                written: 0,
            };
        }
        Finished {
            errno: 0,
            written: cut_line(out, 0, cursor.place),
        }
    }
}
