// A log that is read in portions, and played; its lines go to a writer.
#![tactic(auto)]

ghost use Rattle.std.specs.Prelude.{◌≤◌, ◌<◌, ◌≡◌, ◌^◌, ◌⊎◌, true, length, take, IfOk, OnOk, IfSome};
ghost use Rattle.std.specs.Io.{ReadsAtMost};
ghost use Rattle.std.specs.Io.KnownBytes.{Appends, Consumes, IsAtEnd};
ghost use Rattle.session_log.specs.Log.{printed_of};
ghost use Rattle.session_log.specs.Session.{fed};
ghost use Rattle.player.specs.Player.{session_of};

use player::Player;
use std::io;
use std::io::{Read, Write};

// Plays a portion. The lines are written out each time that the buffer has no room for one more.
fn play_portion<W: Write>(
    player: Player,
    portion: &[u8],
    out: &mut [u8],
    lines: &mut W,
) -> io::Result<Player>
    ensures result_value { IfOk result (λ after. 29 ≤ length out.old → session_of after ≡ (fed (session_of player) portion.now).session) }
    ensures lines { OnOk result (29 ≤ length out.old → Appends (W.contents lines.old) (W.contents lines.new) (fed (session_of player) portion.now).text) }
    ensures out_len_unchanged { length out.new ≡ length out.old }
{
    let mut player = player;
    let mut rest = portion;
    while !rest.is_empty() {
        let fed = player.feed(rest, out);
        player = fed.player;
        lines.write_all(&out[..fed.written])?;
        if fed.taken == 0 {
            return Ok(player);
        }
        rest = &rest[fed.taken..];
    }
    Ok(player)
}

// How many bytes of the next portion there are; none after an unknown kind.
fn read_portion<R: Read>(log: &mut R, portion: &mut [u8], ended: bool) -> io::Result<usize>
    ensures bound { ReadsAtMost result portion.new }
    ensures len { length portion.new ≡ length portion.old }
    ensures bytes { IfOk result (λ n. Consumes (R.remaining log.old) (R.remaining log.new) (take n portion.new)) }
    ensures end { IfOk result (λ n. n ≡ 0 → 0 < length portion.old → ended ≡ true ⊎ IsAtEnd (R.remaining log.new)) }
{
    if ended {
        return Ok(0);
    }
    blocks::fill(log, portion)
}

// Plays what is read, in portions as long as the one buffer, and the lines by way of the other.
pub fn play<R: Read, W: Write>(
    log: &mut R,
    portion: &mut [u8],
    out: &mut [u8],
    lines: &mut W,
) -> io::Result<()>
    ensures out_len { length out.new ≡ length out.old }
    ensures lines { OnOk result (0 < length portion.old → 29 ≤ length out.old → IfSome (R.remaining log.old) (λ bytes. length bytes < 2 ^ 64
        → Appends (W.contents lines.old) (W.contents lines.new) (printed_of bytes))) }
{
    let mut player = Player::fresh();
    let mut n = read_portion(log, portion, false)?;
    // at most 2^64 - 1 portions: with 65,536 bytes each, 2^80 bytes
    for _ in 0..u64::MAX {
        if n == 0 {
            break;
        }
        player = play_portion(player, &portion[..n], out, lines)?;
        n = read_portion(log, portion, player.ended())?;
    }
    let end = player.finish(out);
    let written = end.written;
    lines.write_all(&out[..written])
}

#[cfg(test)]
mod tests {
    use super::play;
    use std::io;
    use std::io::{ErrorKind, Read};
    use std::test::Fail;

    // A log that fails where its bytes end.
    #[derive(Drop)]
    struct Torn<'a>(&'a [u8]);

    impl Read for Torn<'_> {
        fn read(&mut self, buf: &mut [u8]) -> io::Result<usize> {
            let n = self.0.read(buf)?;
            if n == 0 {
                return Err(io::Error::from(ErrorKind::TimedOut));
            }
            Ok(n)
        }
    }

    // A handle is opened and received from; 0C is no kind.
    const LOG: &[u8; 5] = b"\x01\x00\x05\x00\x0c";

    #[test]
    fn plays(rt: HostRuntime) -> Result<(), Fail> {
        let mut lines = Vec::new(rt.alloc());
        play(&mut &LOG[..], &mut [0; 3], &mut [0; 32], &mut lines)?;
        assert_eq!(rt; lines.as_slice(), b"1 0\n5 11\nbad 4\n".as_slice());
        Ok(())
    }

    #[test]
    fn a_failed_read_is_no_end(rt: HostRuntime) -> Result<(), Fail> {
        let mut lines = Vec::new(rt.alloc());
        let played = play(&mut Torn(&LOG[..3]), &mut [0; 2], &mut [0; 32], &mut lines);
        assert_eq!(rt; played.map_err(|e| e.kind()), Err(ErrorKind::TimedOut));
        assert_eq!(rt; lines.as_slice(), b"1 0\n".as_slice());
        Ok(())
    }

    // A slice takes as many bytes as it has room for.
    #[test]
    fn a_failed_write_is_said(rt: HostRuntime) -> Result<(), Fail> {
        let mut room = [0; 6];
        let played = play(&mut &LOG[..], &mut [0; 5], &mut [0; 32], &mut &mut room[..]);
        assert_eq!(rt; played.map_err(|e| e.kind()), Err(ErrorKind::WriteZero));
        Ok(())
    }
}
